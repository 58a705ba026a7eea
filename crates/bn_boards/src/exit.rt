//! The exits by which a signal leaves a circuit.

use bn_machine::Side;

/// The exit of a circuit's signal, named by the circuit's layout (own to this project).
#[derive(Clone, Copy, PartialEq, Eq, Debug)]
pub enum Exit {
    /// The signal is inside: it has not left.
    Inside,
    /// The signal has left by the end port: the machine has halted inside its window.
    End,
    /// The signal has left by a loose port of the control: the machine is stuck.
    Stuck {
        /// The state of the machine of quadruples, counted from 0.
        state: u32,
        /// The symbol for which it has no quadruple, counted from 0.
        symbol: u32,
    },
    /// The signal has left by the end of a row of cells: a shift would leave the tape's window.
    Window {
        /// The tape, counted from 1.
        tape: u32,
        /// The side at which it left.
        side: Side,
    },
    /// The signal has left by a loose port that has no name.
    Unnamed,
}
