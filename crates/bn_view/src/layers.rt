//! The contents of a view.

use bn_bennett::{MachineState, Stage};
use bn_board::{Exit, Spelled};
use bn_cell::CellLine;
use bn_circuits::Place;

/// The module that holds the signal (this project's own definition). The signal enters a module where it is about to
/// pass an input port of the module: the west port of a row in the first column of its bank.
#[derive(Clone, Copy, PartialEq, Eq, Debug)]
pub enum ModuleAt {
    /// The signal enters the control by this input port, counted from 0.
    ControlLine(u32),
    /// The signal is elsewhere in the control.
    ControlInside,
    /// The signal enters a tape cell.
    CellLine {
        /// The tape, counted from 1.
        tape: u32,
        /// The cell's position on the tape.
        position: i64,
        /// The input port.
        line: CellLine,
    },
    /// The signal is elsewhere in a tape cell.
    CellInside {
        /// The tape, counted from 1.
        tape: u32,
        /// The cell's position on the tape.
        position: i64,
    },
    /// The signal has left the circuit.
    Outside,
}

/// What a circuit shows of its machine of quadruples (this project's own definition): the place of the signal; and the
/// state and the tapes of the last moment reached, or of the start if none was reached.
#[derive(Debug, Drop)]
pub struct BoardLayers {
    /// The place of the signal.
    pub place: Place,
    /// The number of element steps made.
    pub steps: u64,
    /// The module that holds the signal.
    pub module: ModuleAt,
    /// The state of the machine of quadruples that is shown, counted from 0.
    pub state: u32,
    /// What the cells showed at that moment.
    pub tapes: Spelled,
}

/// Every layer of a configuration of a compiled circuit (this project's own definition): the place of the signal; and
/// of the last moment reached, or of the start if none was reached, the state of the machine of quadruples, its tapes,
/// and the one-tape machine (Bennett 1973).
#[derive(Debug, Drop)]
pub struct Layers {
    /// The place of the signal.
    pub place: Place,
    /// The number of element steps made.
    pub steps: u64,
    /// The exit by which the signal has left, if it has left.
    pub exit: Exit,
    /// The module that holds the signal.
    pub module: ModuleAt,
    /// The state of the machine of quadruples that is shown, counted from 0.
    pub state: u32,
    /// What the cells showed at that moment.
    pub tapes: Spelled,
    /// The stage of that state.
    pub stage: Stage,
    /// What that state says about the one-tape machine.
    pub machine: MachineState,
    /// The step of the one-tape machine: the position of the head on tape 2, the history.
    pub machine_step: u64,
}
