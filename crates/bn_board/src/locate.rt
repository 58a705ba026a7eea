//! The module in whose bank the signal of a circuit is.

ghost use Rattle.std.specs.Prelude.{◌≡◌, ◌+◌, ◌*◌, ◌<◌, ◌≤◌, pos, ◌-ℤ◌};
ghost use Rattle.bn_circuits.specs.declared.place.Place.TheVariants.{Enter};
ghost use Rattle.bn_network.specs.Networks.{bank_size, cell_size, cells_in, left_of};
ghost use Rattle.bn_network.specs.Cells.{cell_line_count};
ghost use Rattle.bn_boards.specs.Layouts.{symbol_count_at, lines_at, elements_of, first_element, cell_element};
ghost use Rattle.bn_board.specs.Flattened.{IsBoardKept};
ghost use Rattle.bn_board.specs.Locations.{IsLocated, IsInputLine};

use crate::board::Board;
use crate::layout::Layout;
use crate::located::Located;
use bn_circuits::{Line, Place};
use bn_element::WEST;
use bn_network::MOST_SYMBOLS;

impl Board {
    /// The module in whose bank the signal is, and the input port by which it enters that bank. Allocates no memory.
    /// The contract also states what holds for every circuit afterwards.
    pub fn located(&self) -> Located
        ensures located { IsLocated self.now.layout self.now.config.place result }
        ensures kept { IsBoardKept self.now }
    {
        match self.place() {
            Place::Enter { element, line } => self.layout().located(Line { element, line }),
            Place::Left { .. } => Located::Outside,
        }
    }
}

impl Layout {
    // The module in whose bank this input port is.
    fn located(&self, entered: Line) -> Located
        requires { entered.element < elements_of self.now }
        ensures { IsLocated self.now (Enter entered.element entered.line) result }
    {
        if entered.element < self.control_size() {
            return Located::Control {
                line: input_line(0, self.lines(), entered),
            };
        }
        if entered.element < self.first_element(2) {
            self.located_on(1, entered)
        } else if entered.element < self.first_element(3) {
            self.located_on(2, entered)
        } else {
            self.located_on(3, entered)
        }
    }

    // The cell of this tape in whose bank this input port is.
    fn located_on(&self, tape: u32, entered: Line) -> Located
        requires first { 1 ≤ tape }
        requires last { tape ≤ 3 }
        requires low { first_element self.now tape ≤ entered.element }
        requires high { entered.element
            < first_element self.now tape + cells_in self.now.limits tape * cell_size (symbol_count_at self.now tape) }
        ensures { IsLocated self.now (Enter entered.element entered.line) result }
    {
        let cell = self.cell_of(tape, entered.element);
        let first = self.cell_element(tape, cell);
        Located::Cell {
            tape,
            position: self.position(tape, cell),
            line: input_line(first, self.cell_lines(tape), entered),
        }
    }

    // The cell of this tape in whose bank this element is.
    #[tactic(auto, using(crate::proofs::LocationLemmas::cell_within, crate::proofs::LocationLemmas::size_some))]
    pub(crate) fn cell_of(&self, tape: u32, element: u32) -> u32
        requires first { 1 ≤ tape }
        requires last { tape ≤ 3 }
        requires low { first_element self.now tape ≤ element }
        requires high { element
            < first_element self.now tape + cells_in self.now.limits tape * cell_size (symbol_count_at self.now tape) }
        ensures within { result < cells_in self.now.limits tape }
        ensures low { cell_element self.now tape result ≤ element }
        ensures high { element < cell_element self.now tape result + cell_size (symbol_count_at self.now tape) }
    {
        (element - self.first_element(tape)) / self.cell_size(tape)
    }

    // The position of a cell on its tape.
    pub(crate) fn position(&self, tape: u32, cell: u32) -> i64
        requires first { 1 ≤ tape }
        requires last { tape ≤ 3 }
        ensures { result ≡ pos cell -ℤ pos (left_of self.now.limits tape) }
    {
        i64::from(cell) - i64::from(self.left(tape))
    }

    // The number of ports of one of a tape's cells.
    pub(crate) fn cell_lines(&self, tape: u32) -> u32
        requires first { 1 ≤ tape }
        requires last { tape ≤ 3 }
        ensures number { result ≡ cell_line_count (symbol_count_at self.now tape) }
        ensures few { result ≤ 2 * MOST_SYMBOLS + 8 }
    {
        2 * self.letters(tape) + 8
    }
}

// The input port of a bank with this many ports that begins at this element, if this is one.
fn input_line(first: u32, lines: u32, entered: Line) -> Option<u32>
    requires { first ≤ entered.element }
    ensures { IsInputLine first lines entered.element entered.line result }
{
    let row = entered.element - first;
    if entered.line == WEST && row < lines {
        Some(row)
    } else {
        None
    }
}
