//! An index of moves by the pairs of state and port that they leave and lead to.
ghost use Rattle.std.specs.Prelude.{ℕ, ◌≡◌, ◌<◌, ◌^◌, ◌+◌, ◌∷◌, ◌++◌, List, [], Some, None, length, if◌then◌else◌};
ghost use Rattle.std.specs.Prelude.{IfOk, OnOk, IfErr};
ghost use Rattle.std.specs.HashMap.{get};
ghost use Rattle.bn_rsm.specs.Machines.{AreSound};
ghost use Rattle.bn_rsm.specs.Faults.{IsMoveRefusal, move_fault_of};
ghost use Rattle.bn_rsm.specs.Pairs.{AreNumbers, checked, same_pair};
ghost use Rattle.bn_rsm.specs.declared.rsm_move.RsmMove.{RsmMove};

use crate::refusal::RsmRefusal;
use crate::rsm_move::RsmMove;
use bn_lists::NoMemory;
use std::alloc::Global;
use std::collections::HashMap;

/// The number, counted from 1, of the move that leaves each pair of state and input port, and of the move that leads
/// to each pair of state and output port.
#[derive(Drop)]
pub(crate) struct Index {
    pub(crate) from: HashMap<(u32, u32), u32>,
    pub(crate) to: HashMap<(u32, u32), u32>,
}

impl Index {
    /// The index of these moves, or the first fault among them.
    pub(crate) fn try_new(
        alloc: Global,
        states: u32,
        lines: u32,
        moves: &[RsmMove],
    ) -> Result<Index, RsmRefusal>
        requires { length moves.now < 2 ^ 32 }
        ensures numbers { IfOk result (λ x. AreNumbers x.from x.to moves.now) }
        ensures sound { OnOk result (AreSound states lines moves.now) }
        ensures refused { IfErr result (IsMoveRefusal states lines moves.now) }
    {
        let mut index = Index {
            from: HashMap::new(alloc),
            to: HashMap::new(alloc),
        };
        for n in 0..moves.len() {
            let number = n as u32 + 1;
            index.check(&moves[n], states, lines, number)?;
            index.add(&moves[n], number)?;
        }
        Ok(index)
    }

    /// The index of these moves. The moves are not checked.
    pub(crate) fn new(alloc: Global, moves: &[RsmMove]) -> Result<Index, NoMemory>
        requires { length moves.now < 2 ^ 32 }
        ensures { IfOk result (λ x. (states lines : ℕ) → AreSound states lines moves.now
            → AreNumbers x.from x.to moves.now) }
    {
        let mut index = Index {
            from: HashMap::new(alloc),
            to: HashMap::new(alloc),
        };
        for n in 0..moves.len() {
            index.add(&moves[n], n as u32 + 1)?;
        }
        Ok(index)
    }

    // Checks a move against the earlier ones, which are indexed. Returns its first fault with `number`, which is the
    // number of the move, counted from 1.
    fn check(&self, step: &RsmMove, states: u32, lines: u32, number: u32) -> Result<(), RsmRefusal>
        ensures { (earlier : List RsmMove) → AreNumbers self.now.from self.now.to earlier
            → result ≡ checked (move_fault_of states lines earlier step.now) number }
    {
        let within = step.state < states
            && step.line < lines
            && step.next < states
            && step.out < lines;
        if !within {
            return Err(RsmRefusal::Range { j: number });
        }
        if let Some(i) = self.from.get(&(step.state, step.line)) {
            return Err(RsmRefusal::SameDomain { i: *i, j: number });
        }
        if let Some(i) = self.to.get(&(step.next, step.out)) {
            return Err(RsmRefusal::SameRange { i: *i, j: number });
        }
        Ok(())
    }

    // Adds a move without a fault after the earlier ones.
    fn add(&mut self, step: &RsmMove, number: u32) -> Result<(), NoMemory>
        ensures { OnOk result ((states lines : ℕ) (earlier : List RsmMove)
            → AreNumbers self.old.from self.old.to earlier → number ≡ length earlier + 1
            → move_fault_of states lines earlier step.now ≡ None
            → AreNumbers self.new.from self.new.to (earlier ++ step.now ∷ [])) }
    {
        put(&mut self.from, (step.state, step.line), number)?;
        put(&mut self.to, (step.next, step.out), number)?;
        Ok(())
    }
}

// Stores this number for the pair.
fn put(
    numbers: &mut HashMap<(u32, u32), u32>,
    pair: (u32, u32),
    number: u32,
) -> Result<(), NoMemory>
    ensures { OnOk result ((p : ℕ × ℕ)
        → get same_pair numbers.new p ≡ (if same_pair pair p then Some number else get same_pair numbers.old p)) }
{
    numbers.insert(pair, number)?;
    Ok(())
}
