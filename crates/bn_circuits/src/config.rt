//! Configurations of a circuit.

ghost use Rattle.std.specs.Prelude.{◌≡◌, ◌<◌, length, slice_get, slice_set, Some};

use crate::place::Place;
use std::marker::Model;

/// The greatest number of element steps that a configuration counts: 2 to the power 62.
pub const CLOCK: u64 = 4611686018427387904;

/// The state of each element of a circuit, in the order of the elements, counted from 0.
/// Contracts see the list of numbers.
#[derive(Debug, Drop)]
pub struct States {
    items: Vec<u32>,
}

impl Model for States {
    ghost use Rattle.std.specs.Prelude.{ℕ, List};

    ghost Value = { List ℕ };

    ghost view = { λ s. s.items.items };
}

impl States {
    /// The list of these states. Allocates no memory.
    pub fn new(states: Vec<u32>) -> States
        ensures { result ≡ states.items }
    {
        States { items: states }
    }

    /// The states as a slice, one for each element.
    pub fn as_slice(&self) -> &[u32]
        ensures { result.now ≡ self.now }
    {
        self.items.as_slice()
    }

    /// The state of an element, both counted from 0. Allocates no memory.
    pub fn get(&self, element: usize) -> u32
        requires { element < length self.now }
        ensures { slice_get self.now element ≡ Some result }
    {
        let states = self.as_slice();
        states[element]
    }

    /// Sets the state of an element, both counted from 0. Allocates no memory.
    pub fn set(&mut self, element: usize, state: u32)
        requires { element < length self.old }
        ensures { self.new ≡ slice_set self.old element state }
    {
        self.items[element] = state;
    }
}

/// A configuration of a circuit: the state of each element, the place of the signal, and the number of element steps
/// made.
#[derive(Debug, Drop)]
pub struct Config {
    /// The state of each element.
    pub states: States,
    /// Where the signal is.
    pub place: Place,
    /// The element steps made so far, at most `CLOCK`.
    pub steps: u64,
}
