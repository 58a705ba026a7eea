//! The read that the control awaits at a loose port, and the answer that the tape returned.

ghost use Rattle.std.specs.Prelude.{◌≡◌, ◌≤◌, ◌<◌, ◌+◌, ◌-◌, ℕ, List, map, Some, slice_get};
ghost use Rattle.bn_lists.specs.Lists.{nth};
ghost use Rattle.bn_network.specs.Controls.{Reads, lines_before, symbol_count};
ghost use Rattle.bn_network.specs.Networks.{IsTape};
ghost use Rattle.bn_quad.specs.Quadruples.{IsQuadMachine};
ghost use Rattle.bn_reply_boards.specs.LineNames.{AreFew, counts_in};
ghost use Rattle.bn_network.specs.declared.limits.TheConstants.{MOST_SYMBOLS};
ghost use Rattle.bn_control.specs.Names.{listed, state_of};
ghost use Rattle.bn_reply_builds.specs.Stopping.{HasFewSymbols};
ghost use Rattle.bn_control.specs.declared.name.Symbols.{Symbols as Run};

use bn_control::{StateName, Symbols};
use bn_quad::QuadMachine;
use bn_reply_boards::SymbolCounts;

/// A read that the control awaits.
#[derive(Clone, Copy)]
pub(crate) struct Read {
    /// The state of the machine of quadruples in which it reads.
    pub(crate) state: u32,
    /// The symbols that were read before, those of lower tapes first.
    pub(crate) before: Symbols,
}

/// The answer of a tape to a read.
#[derive(Clone, Copy)]
pub(crate) struct Answer {
    /// The tape, counted from 1.
    pub(crate) tape: u32,
    /// The symbol.
    pub(crate) symbol: u32,
}

/// The read that the control awaits in the state with this number, if it awaits one there.
pub(crate) fn read_awaited(names: &[StateName], number: u32) -> Option<Read>
    ensures { (a : ℕ) (symbols : List ℕ) → slice_get (map state_of names.now) number ≡ Some (Reads a symbols)
        → (before : Run) × (listed before ≡ symbols) × (result ≡ Some (record { state = a; before = before })) }
{
    match names.get(number as usize) {
        Some(name) => read_of(*name),
        None => None,
    }
}

// The read of this name, if it names one.
fn read_of(name: StateName) -> Option<Read>
    ensures { (a : ℕ) (symbols : List ℕ) → state_of name ≡ Reads a symbols
        → (before : Run) × (listed before ≡ symbols) × (result ≡ Some (record { state = a; before = before })) }
{
    match name {
        StateName::Reads { state, before, .. } => Some(Read { state, before }),
        _ => None,
    }
}

/// The number of rows of a column of the control's bank, its bottom among them.
pub(crate) fn control_rows(machine: &QuadMachine) -> u32
    requires { HasFewSymbols machine.now }
    ensures rows { result ≡ lines_before machine.now.symbols 3 + 1 }
    ensures some { 0 < result }
{
    letters(machine, 1) + letters(machine, 2) + letters(machine, 3) + 11
}

/// The answer that a tape returns by this port of the control, if one does.
pub(crate) fn answer_at(machine: &QuadMachine, line: u32) -> Answer
    requires { HasFewSymbols machine.now }
    ensures { (t z : ℕ) → IsTape t → z < symbol_count machine.now t
        → line ≡ lines_before machine.now.symbols (t - 1) + z → result ≡ record { tape = t; symbol = z } }
{
    let second = letters(machine, 1) + 4;
    let third = second + letters(machine, 2) + 3;
    if line < second {
        return Answer {
            tape: 1,
            symbol: line.saturating_sub(1),
        };
    }
    if line < third {
        return Answer {
            tape: 2,
            symbol: line - second,
        };
    }
    Answer {
        tape: 3,
        symbol: line - third,
    }
}

/// The number of symbols of each tape of a machine.
pub fn counts_of_machine(machine: &QuadMachine) -> SymbolCounts
    requires valid { IsQuadMachine machine.now }
    requires few { HasFewSymbols machine.now }
    ensures counts { counts_in result ≡ machine.now.symbols }
    ensures few { AreFew result }
{
    SymbolCounts {
        one: letters(machine, 1),
        two: letters(machine, 2),
        three: letters(machine, 3),
    }
}

// The number of symbols of a tape.
fn letters(machine: &QuadMachine, tape: u32) -> u32
    requires first { 1 ≤ tape }
    requires last { tape ≤ 3 }
    requires few { HasFewSymbols machine.now }
    ensures number { nth machine.now.symbols tape ≡ Some result }
    ensures few { result ≤ MOST_SYMBOLS }
{
    machine.symbols(tape)
}
