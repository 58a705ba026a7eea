//! Machines, and the step of a machine on a tape in a window.
ghost use Rattle.std.specs.Prelude.{◌≡◌, ◌↔◌, ◌<◌, ◌^◌, All, IsTrue, IfOk, OnOk, IfErr, IfSome, IfNone, length};
ghost use Rattle.bn_machine.specs.Machine.{IsInRange, IsFirstFault};

use crate::matching::first_match;
use crate::quint::{Quint, Side};
use crate::tape::Tape;
use std::marker::Model;

/// Why quintuples are not a machine.
#[derive(Clone, Copy, PartialEq, Eq, Debug)]
pub enum MachineRefusal {
    /// There is no quintuple.
    Empty,
    /// Quintuple `i`, counted from 1, is the first with a state or a symbol out of range.
    Range { i: u32 },
}

/// The result of one step of a machine.
#[derive(Clone, Copy, PartialEq, Eq, Debug)]
pub enum Turn {
    /// The state is the final one.
    Final,
    /// No quintuple has this state and this scanned symbol, both counted from 0.
    Stuck { state: u32, symbol: u32 },
    /// The head would leave the tape's window on this side.
    Left { side: Side },
    /// One step was made.
    Moved,
}

/// A one-tape Turing machine (Bennett 1973): its quintuples in order, and its numbers of states and symbols. Contracts
/// see these three. There is at least one quintuple, there are fewer than 2^32, and their states and symbols are in
/// range.
#[derive(Drop)]
pub struct Machine {
    quints: Vec<Quint>,
    states: u32,
    symbols: u32,
}

impl Model for Machine {
    ghost use Rattle.bn_machine.specs.Machine.{Program, program_of, IsMachine};

    ghost Value = { Program };

    ghost view = { λ m. program_of m.quints.items m.states m.symbols };

    ghost invariant = { λ m. IsMachine (program_of m.quints.items m.states m.symbols) };
}

impl Machine {
    ghost use Rattle.bn_machine.specs.Machine.{program_of, IsMachine, start_of, final_of};
    ghost use Rattle.bn_machine.specs.MachineCalls.{IsMachineRefusal, IsTurn};

    /// The machine of these quintuples with `states` states and `symbols` symbols. The error is `Empty` exactly if
    /// there is no quintuple, and `Range` exactly if a quintuple has a state or a symbol out of range. Allocates no
    /// memory.
    pub fn try_new(quints: Vec<Quint>, states: u32, symbols: u32) -> Result<Machine, MachineRefusal>
        requires { length quints.items < 2 ^ 32 }
        ensures made { IfOk result (λ m. m ≡ program_of quints.items states symbols) }
        ensures valid { OnOk result (IsMachine (program_of quints.items states symbols)) }
        ensures refused { IfErr result (IsMachineRefusal quints.items states symbols) }
    {
        if quints.is_empty() {
            return Err(MachineRefusal::Empty);
        }
        if let Some(i) = first_fault(quints.as_slice(), states, symbols) {
            return Err(MachineRefusal::Range { i });
        }
        Ok(Machine {
            quints,
            states,
            symbols,
        })
    }

    /// The quintuples in order.
    pub fn quints(&self) -> &[Quint]
        ensures value { result.now ≡ self.now.quints }
        ensures valid { IsMachine self.now }
    {
        self.quints.as_slice()
    }

    /// How many states the machine has.
    pub fn states(&self) -> u32
        ensures { result ≡ self.now.states }
    {
        self.states
    }

    /// How many symbols the machine has, the blank among them.
    pub fn symbols(&self) -> u32
        ensures { result ≡ self.now.symbols }
    {
        self.symbols
    }

    /// The first quintuple's state, counted from 0.
    pub fn start_state(&self) -> u32
        ensures { result ≡ start_of self.now.quints }
    {
        self.quints[0].state
    }

    /// The last quintuple's next state, counted from 0.
    pub fn final_state(&self) -> u32
        ensures { result ≡ final_of self.now.quints }
    {
        self.quints[self.quints.len() - 1].next
    }

    /// One step of the machine from `state` on `tape`. The result is `Final` exactly if the state is the final one, and
    /// otherwise `Stuck` exactly if no quintuple has the state and the scanned symbol. Otherwise the first quintuple
    /// that has them is applied: the result is `Left`, with nothing changed, exactly if its shift would leave the
    /// window, and else `Moved`. Allocates no memory.
    pub fn step(&self, state: &mut u32, tape: &mut Tape) -> Turn
        ensures { IsTurn self.now result state.old tape.old state.new tape.new }
    {
        if *state == self.final_state() {
            return Turn::Final;
        }
        let symbol = tape.scanned();
        let Some(quint) = first_match(self.quints(), *state, symbol) else {
            return Turn::Stuck {
                state: *state,
                symbol,
            };
        };
        tape.put(quint.write);
        if let Some(side) = tape.shift(quint.shift) {
            tape.put(symbol);
            return Turn::Left { side };
        }
        *state = quint.next;
        Turn::Moved
    }
}

// Whether all numbers of the quintuple are in range.
fn is_in_range(quint: &Quint, states: u32, symbols: u32) -> bool
    ensures { IsTrue result ↔ IsInRange states symbols quint.now }
{
    quint.state < states && quint.read < symbols && quint.write < symbols && quint.next < states
}

// The number, counted from 1, of the first quintuple that is out of range.
fn first_fault(quints: &[Quint], states: u32, symbols: u32) -> Option<u32>
    requires { length quints.now < 2 ^ 32 }
    ensures fault { IfSome result (IsFirstFault states symbols quints.now) }
    ensures none { IfNone result (All (IsInRange states symbols) quints.now) }
{
    for (index, quint) in quints.iter().enumerate() {
        if !is_in_range(quint, states, symbols) {
            return Some(index as u32 + 1);
        }
    }
    None
}
