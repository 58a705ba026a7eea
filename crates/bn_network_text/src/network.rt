//! Networks.

use crate::module::Module;
use bn_circuits::{Line, Wire};

/// A network of modules (own to this project): the modules with their states, the wires between their ports, and three
/// ports. Modules and ports are counted from 0.
#[derive(Drop)]
pub struct Network {
    /// The modules, in the order of their numbers.
    pub modules: Vec<Module>,
    /// The wires, each from an output port of a module to an input port.
    pub wires: Vec<Wire>,
    /// The start, an input port to which no wire leads.
    pub start: Line,
    /// The end, an output port from which no wire leads.
    pub end: Line,
    /// The input port that the signal is about to enter.
    pub place: Line,
}
