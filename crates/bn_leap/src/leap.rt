//! One leap: the result of a move of a bank, computed without its steps.

ghost use Rattle.std.specs.Prelude.{◌≡◌, ℕ, ◌+◌, ◌*◌, ◌<◌, ◌≤◌, ◌^◌, length, Some, IfSome, slice_get, true};
ghost use Rattle.bn_element.specs.Rotary.{horizontal};
ghost use Rattle.bn_circuits.specs.declared.place.Place.TheVariants.{Enter};
ghost use Rattle.bn_circuits.specs.RotaryNets.{rotary_circuit};
ghost use Rattle.bn_realise.specs.Banks.{bottom_at, column_at};
ghost use Rattle.bn_leap.specs.Entries.{IsLeapable, IsLeap, IsCrossing, IsAt, Fits, IsMoveOf, leap_of};

use crate::cost::steps_of;
use crate::entry::{Banks, Entry};
use crate::passing::Passing;
use bn_circuits::{Line, Place};
use bn_element::{EAST, HORIZONTAL, WEST};
use bn_packed::Packed;

// The result of a move of a bank: the bottoms whose bars turn, the port by which the signal leaves, and the number of
// steps.
#[derive(Clone, Copy, Debug)]
pub(crate) struct Leap {
    pub(crate) unmarked: u32,
    pub(crate) marked: u32,
    pub(crate) exit: Line,
    pub(crate) steps: u64,
}

// The move of the bank that the signal is about to enter; `None` if no move is found or if the run may stop within it.
pub(crate) fn leap_at<B: Banks, S: Passing>(packed: &Packed, banks: &B, stop: &S) -> Option<Leap>
    requires { IsLeapable packed.now.net packed.now.config (B.has banks.now) }
    ensures { IfSome result (IsLeap (rotary_circuit packed.now.net) (S.stops stop.now) packed.now.config) }
{
    let Place::Enter { element, line } = packed.place() else {
        return None;
    };
    let entry = banks.entry(Line { element, line })?;
    if stop.passes_through(&entry) {
        leap_from(packed, &entry)
    } else {
        None
    }
}

// The move of this bank, from the configuration in which the signal is about to enter it; `None` if no move is found.
fn leap_from(packed: &Packed, entry: &Entry) -> Option<Leap>
    requires { IsAt packed.now.net packed.now.config entry.now }
    ensures { IfSome result (IsCrossing (rotary_circuit packed.now.net) packed.now.config entry.now) }
{
    let state = marked_column(packed, entry)?;
    leap_by(packed, entry, state)
}

// The marked column of a bank; `None` if no column is marked.
fn marked_column(packed: &Packed, entry: &Entry) -> Option<u32>
    requires { Fits entry.now (length packed.now.config.states) }
    ensures { IfSome result (λ q. (q < entry.now.states)
        × (slice_get packed.now.config.states (bottom_at entry.now.first entry.now.lines q) ≡ Some horizontal)) }
{
    for column in 0..entry.states {
        if packed.bar(element_at(entry, column, entry.lines)) == HORIZONTAL {
            return Some(column);
        }
    }
    None
}

// The element of a row of a column of a bank.
fn element_at(entry: &Entry, column: u32, row: u32) -> u32
    requires { column_at entry.now.first entry.now.lines column + row < 2 ^ 32 }
    ensures { result ≡ column_at entry.now.first entry.now.lines column + row }
{
    let before = u64::from(column) * (u64::from(entry.lines) + 1);
    (u64::from(entry.first) + before + u64::from(row)) as u32
}

// The move of this bank from this state; `None` if none is found.
fn leap_by(packed: &Packed, entry: &Entry, state: u32) -> Option<Leap>
    requires at { IsAt packed.now.net packed.now.config entry.now }
    requires state { state < entry.now.states }
    requires marked { slice_get packed.now.config.states (bottom_at entry.now.first entry.now.lines state)
        ≡ Some horizontal }
    ensures { IfSome result (IsCrossing (rotary_circuit packed.now.net) packed.now.config entry.now) }
{
    let turned = packed.target(Line {
        element: element_at(entry, state, entry.row),
        line: WEST,
    });
    match turned {
        Some(to) => Some(leap_to(
            entry,
            state,
            place_of(to.element - entry.first, entry.lines + 1),
        )),
        None => None,
    }
}

// The column and the row of an element of a bank.
fn place_of(element: u32, size: u32) -> (u32, u32)
    requires { 0 < size }
    ensures whole { element ≡ result.0 * size + result.1 }
    ensures row { result.1 < size }
{
    (element / size, element % size)
}

// The result of the move to this state and output port.
fn leap_to(entry: &Entry, state: u32, to: (u32, u32)) -> Leap
    requires { IsMoveOf entry.now state to }
    ensures { result ≡ leap_of entry.now state to }
{
    Leap {
        unmarked: element_at(entry, state, entry.lines),
        marked: element_at(entry, to.0, entry.lines),
        exit: Line {
            element: element_at(entry, entry.states - 1, to.1),
            line: EAST,
        },
        steps: steps_of(entry.states, entry.lines, state, entry.row, to.0, to.1),
    }
}
