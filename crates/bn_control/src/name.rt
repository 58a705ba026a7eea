//! The names of a control's states.

use std::cmp::Reverse;

/// At most two symbols, in a row, counted from 0. The order is the lexicographic one; a word comes before its
/// extensions.
#[derive(Clone, Copy, PartialEq, Eq, PartialOrd, Ord, Debug)]
pub enum Symbols {
    /// No symbol.
    Empty,
    /// A first symbol, and possibly a second one.
    Leading(u32, Option<u32>),
}

/// The name of a state of a control. The order of the names is that of the states' numbers.
#[derive(Clone, Copy, PartialEq, Eq, PartialOrd, Ord, Debug)]
pub enum StateName {
    /// Before the start.
    Begin,
    /// In the machine's final state.
    End,
    /// Waiting for the reply to a read.
    Reads {
        /// The state of the machine of quadruples, counted from 0, in which the control reads.
        state: u32,
        /// The number of symbols already read.
        count: u32,
        /// These symbols, lower tapes first.
        before: Symbols,
    },
    /// Waiting for the reply to a shift.
    Shifts {
        /// The quadruple, counted from 1.
        quadruple: u32,
        /// The tape, counted from 1.
        tape: u32,
    },
    /// Waiting for the reply to a write.
    Writes {
        /// The state of the machine of quadruples, counted from 0, to which the quadruple leads.
        state: u32,
        /// The tape, counted from 1.
        tape: Reverse<u32>,
        /// The symbols still to be written, higher tapes first.
        rest: Symbols,
    },
}

impl Symbols {
    ghost use Rattle.std.specs.Prelude.{◌≡◌, length};
    ghost use Rattle.bn_control.specs.Names.{listed};

    /// The number of symbols, 0 to 2.
    pub(crate) fn len(self) -> u32
        ensures { result ≡ length (listed self) }
    {
        match self {
            Symbols::Empty => 0,
            Symbols::Leading(_, None) => 1,
            Symbols::Leading(_, Some(_)) => 2,
        }
    }
}
