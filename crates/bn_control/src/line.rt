//! The ports of a control, and what it sends by them.

use crate::finite::lines_before;
use crate::name::StateName;
use bn_network::{CellLine, MOST_SYMBOLS};

/// A port of a control, in or out.
#[derive(Clone, Copy, PartialEq, Eq, Debug)]
pub(crate) enum Line {
    /// From or to the outside.
    Outside,
    /// From or to a tape, counted from 1: the port of its cells.
    Tape(u32, CellLine),
}

/// What a control sends: the output port, and the state in which it waits for the reply.
#[derive(Clone, Copy, PartialEq, Eq, Debug)]
pub(crate) struct Sending {
    /// The state in which the control waits for the reply.
    pub(crate) state: StateName,
    /// The output port.
    pub(crate) line: Line,
}

impl Line {
    ghost use Rattle.std.specs.Prelude.{◌≡◌, ◌≤◌, All};
    ghost use Rattle.bn_quad.specs.Quadruples.{Quadruples};
    ghost use Rattle.bn_network.specs.Controls.{in_number, out_number};
    ghost use Rattle.bn_control.specs.Commands.{line_of};
    ghost use Rattle.bn_control.specs.Numbered.{IsWithin};

    /// Its number as an input port, counted from 0, if the tapes have these numbers of symbols.
    pub(crate) fn in_number(self, symbols: &[u32; 3]) -> u32
        requires within { IsWithin symbols.now self }
        requires few { All (λ z. z ≤ MOST_SYMBOLS) symbols.now }
        ensures { (m : Quadruples) → m.symbols ≡ symbols.now → result ≡ in_number m (line_of self) }
    {
        let Line::Tape(tape, line) = self else {
            return 0;
        };
        let symbols_there = symbols[tape as usize - 1];
        let offset = match line {
            CellLine::Answer(symbol) => symbol,
            CellLine::DoneWrite => symbols_there,
            CellLine::DoneRight => symbols_there + 1,
            CellLine::DoneLeft => symbols_there + 2,
            _ => 0,
        };
        lines_before(symbols, tape - 1) + offset
    }

    /// Its number as an output port, counted from 0, if the tapes have these numbers of symbols.
    pub(crate) fn out_number(self, symbols: &[u32; 3]) -> u32
        requires within { IsWithin symbols.now self }
        requires few { All (λ z. z ≤ MOST_SYMBOLS) symbols.now }
        ensures { (m : Quadruples) → m.symbols ≡ symbols.now → result ≡ out_number m (line_of self) }
    {
        let Line::Tape(tape, line) = self else {
            return 0;
        };
        let symbols_there = symbols[tape as usize - 1];
        let offset = match line {
            CellLine::Read => 0,
            CellLine::Write(symbol) => 1 + symbol,
            CellLine::ShiftRight => symbols_there + 1,
            CellLine::ShiftLeft => symbols_there + 2,
            _ => 0,
        };
        lines_before(symbols, tape - 1) + offset
    }
}
