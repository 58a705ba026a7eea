//! The modules of a circuit, as banks.

/// The name of a module of a circuit.
#[derive(Clone, Copy, PartialEq, Eq, Debug)]
pub enum ModuleName {
    /// The control.
    Control,
    /// The cell at a position of a tape.
    Cell {
        /// The tape, counted from 1.
        tape: u32,
        /// The position.
        position: i64,
    },
}

/// A module of a circuit with its bank.
#[derive(Clone, Copy, PartialEq, Eq, Debug)]
pub struct Bank {
    /// The module, counted from 0.
    pub number: u32,
    /// Its name.
    pub name: ModuleName,
    /// The first element, counted from 0.
    pub first: u64,
    /// The number of columns: one for each state of the module.
    pub columns: u64,
    /// The number of ports. Each column has as many rows, and a bottom.
    pub lines: u32,
}
