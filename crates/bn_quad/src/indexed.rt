//! Machines of quadruples with an index by state.
ghost use Rattle.std.specs.Prelude.{◌≡◌, IfOk};

use crate::machine::QuadMachine;
use crate::state_index::StateIndex;
use crate::tapes::{QuadTurn, Tapes};
use bn_lists::NoMemory;
use std::alloc::Global;
use std::marker::Model;

/// A machine of quadruples with an index by the state that they leave, made once. A step finds its quadruple among
/// those of its state, without a search from the beginning of the list. Contracts see the machine.
#[derive(Drop)]
pub struct IndexedMachine<'a> {
    machine: &'a QuadMachine,
    index: StateIndex,
}

impl<'a> Model for IndexedMachine<'a> {
    ghost use Rattle.bn_quad.specs.Quadruples.{Quadruples};
    ghost use Rattle.bn_quad.specs.Index.{IsIndexOf};

    ghost Value = { Quadruples };

    ghost view = { λ m. m.machine.now };

    ghost invariant = { λ m. IsIndexOf m.machine.now.rules m.index };
}

impl<'a> IndexedMachine<'a> {
    ghost use Rattle.bn_quad.specs.Calls.{IsQuadTurn};

    /// The machine with its index, which takes 8 bytes for each state and for each quadruple.
    pub fn try_new(alloc: Global, machine: &'a QuadMachine) -> Result<IndexedMachine<'a>, NoMemory>
        ensures { IfOk result (λ m. m ≡ machine.now) }
    {
        let index = StateIndex::try_new(alloc, machine.quads(), machine.states())?;
        Ok(IndexedMachine { machine, index })
    }

    /// One step of the machine from `state` on `tapes`, with the same result as `QuadMachine::step`: `Final` exactly if
    /// the state is the final one, and otherwise `Stuck` exactly if no quadruple applies. Otherwise the first quadruple
    /// that applies is taken: the result is `Left`, with the least such tape and nothing changed, exactly if it would
    /// move a head out of its window, and else `Moved`. Allocates no memory.
    pub fn step(&self, state: &mut u32, tapes: &mut Tapes) -> QuadTurn
        ensures { IsQuadTurn self.now result state.old tapes.old state.new tapes.new }
    {
        let found = self.index.first_rule(self.machine.quads(), *state, tapes);
        self.machine.step_by(found, state, tapes)
    }
}
