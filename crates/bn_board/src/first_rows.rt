//! The ports by which the control's commands enter the first cells of the tapes.

ghost use Rattle.std.specs.Prelude.{◌≡◌, ◌≤◌, ◌<◌, ◌+◌, ℕ, false};
ghost use Rattle.std.specs.Bool.{OnTrue};
ghost use Rattle.bn_boards.specs.Layouts.{first_element, symbol_count_at};
ghost use Rattle.bn_board.specs.Moments.{AreFirstRows, is_among};

use crate::layout::Layout;
use bn_circuits::Line;
use bn_element::WEST;
use bn_leap::{Entry, Passing};
use bn_packed::Stop;

// Consecutive elements: the first, and their number.
#[derive(Clone, Copy)]
pub(crate) struct Rows {
    first: u32,
    count: u32,
}

impl Rows {
    // Whether the element is one of them.
    fn has(&self, element: u32) -> bool
        ensures { result ≡ is_among self.now.first self.now.count element }
    {
        element >= self.first && element - self.first < self.count
    }

    // Whether none of them is at least `low` and below `high`.
    fn is_clear_of(&self, low: u64, high: u64) -> bool
        ensures { OnTrue result ((e : ℕ) → low ≤ e → e < high → is_among self.now.first self.now.count e ≡ false) }
    {
        u64::from(self.first) + u64::from(self.count) <= low || high <= u64::from(self.first)
    }
}

// The rows of the first cell of each tape to which the control's commands lead.
#[derive(Clone, Copy)]
pub(crate) struct FirstRows {
    one: Rows,
    two: Rows,
    three: Rows,
}

// A run that stops whenever the signal is about to enter one of these rows from the west skips no moment.
impl Stop for FirstRows {
    ghost use Rattle.bn_board.specs.Moments.{enters_first};

    ghost stops = { enters_first };

    fn stops(&self, at: Line) -> bool {
        at.line == WEST
            && (self.one.has(at.element) || self.two.has(at.element) || self.three.has(at.element))
    }
}

// A bank may be crossed at once if it contains none of these rows after the rows of its first column, which are its
// input ports.
impl Passing for FirstRows {
    fn passes_through(&self, bank: &Entry) -> bool {
        let low = u64::from(bank.first) + u64::from(bank.lines);
        let high = bank.end();
        self.one.is_clear_of(low, high)
            && self.two.is_clear_of(low, high)
            && self.three.is_clear_of(low, high)
    }
}

impl Layout {
    // The rows of the first cell of each tape.
    pub(crate) fn first_rows(&self) -> FirstRows
        ensures { AreFirstRows self.now result }
    {
        FirstRows {
            one: self.rows_of(1),
            two: self.rows_of(2),
            three: self.rows_of(3),
        }
    }

    // The rows of a tape's first cell that are ports of commands: a read, a write of each symbol, and two shifts.
    fn rows_of(&self, tape: u32) -> Rows
        requires first { 1 ≤ tape }
        requires last { tape ≤ 3 }
        ensures first { result.first ≡ first_element self.now tape }
        ensures count { result.count ≡ symbol_count_at self.now tape + 3 }
    {
        Rows {
            first: self.first_element(tape),
            count: self.letters(tape) + 3,
        }
    }
}
