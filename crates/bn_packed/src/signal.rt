//! The one signal of a circuit.

use bn_circuits::Place;

/// Where the signal is, and how many element steps led there.
#[derive(Clone, Copy, Debug)]
pub(crate) struct Signal {
    pub(crate) place: Place,
    pub(crate) steps: u64,
}
