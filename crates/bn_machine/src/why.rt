//! The refusals of standard form.

/// Why a machine is not in standard form: the first of the five conditions, in this order, that fails. Quintuples are
/// counted from 1.
#[derive(Clone, Copy, PartialEq, Eq, Debug)]
pub enum Why {
    /// Quintuples `i` and `j` share state and scanned symbol: the least `i` that shares with a
    /// later one, and the least such `j`.
    Repeat { i: u32, j: u32 },
    /// The first quintuple doesn't read a blank, write a blank and shift right.
    First,
    /// The start state occurs elsewhere than as the state of the first quintuple, first in quintuple `i`.
    StartUsed { i: u32 },
    /// The last quintuple doesn't read a blank, write a blank and stay, or its state is the start state.
    Last,
    /// The final state occurs elsewhere than as the next state of the last quintuple, first in quintuple `i`.
    FinalUsed { i: u32 },
    /// Memory for the test ran out.
    NoMemory,
}
