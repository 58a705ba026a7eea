//! Modules of a network.

/// The most modules of a network.
pub const MOST_MODULES: u32 = 65_536;

/// A module of a network, with its state.
#[derive(Clone, Copy, PartialEq, Eq, Debug)]
pub enum Module {
    /// A sequential machine, to be realised by a bank.
    Machine {
        /// The number of its table, from 0.
        table: usize,
        /// Its state, from 0.
        state: u32,
    },
    /// One rotary element.
    Rotary {
        /// The state of its bar.
        bar: u32,
    },
}
