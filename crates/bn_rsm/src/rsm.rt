//! Reversible sequential machines.

ghost use Rattle.std.specs.Prelude.{◌≡◌, ◌<◌, ◌≤◌, ◌-◌, ◌^◌, length, map, slice_get, Some, IfOk, IfErr, OnOk};
ghost use Rattle.bn_rsm.specs.Machines.{AreSound, AreSound-prop};
ghost use Rattle.bn_rsm.specs.Faults.{turned};

use crate::index::Index;
use crate::refusal::RsmRefusal;
use crate::rsm_move::RsmMove;
use bn_element::Element;
use bn_lists::NoMemory;
use std::alloc::{AllocError, Global};
use std::marker::Model;

/// A reversible sequential machine (Morita 2017): a one-to-one function from some pairs of state and input port to
/// pairs of state and output port, given by its moves. It has as many output ports as input ports. (In Morita's
/// definition the function is total. That a pair may have no move is this project's own profile.) Contracts see the
/// numbers of states and ports (`lines`) and the list of moves. A move is found in about constant time.
#[derive(Drop)]
pub struct Rsm {
    states: u32,
    lines: u32,
    moves: Vec<RsmMove>,
    index: Index,
    ghost sound: { AreSound states lines moves.items } by { AreSound-prop states lines moves.items },
}

impl Model for Rsm {
    ghost use Rattle.bn_rsm.specs.Machines.{Machine, machine_code};
    ghost use Rattle.bn_rsm.specs.Pairs.{IsKept};

    ghost Value = { Machine };

    ghost coded = { machine_code };

    ghost view = { λ m. record { states = m.states; lines = m.lines; moves = m.moves.items; sound = m.sound } };

    ghost invariant = { λ m. IsKept m.index.from m.index.to m.moves.items };
}

impl Rsm {
    ghost use Rattle.bn_rsm.specs.Machines.{IsMadeOf, IsBackward};
    ghost use Rattle.bn_rsm.specs.Faults.{IsMoveRefusal};

    /// The machine with these moves, this many states and this many input ports and output ports (`lines`). Moves are
    /// checked in order, and the refusal names the first faulty one: `Range` if one of its numbers is out of range,
    /// otherwise `SameDomain` if an earlier move leaves the same pair, otherwise `SameRange` if an earlier move leads
    /// to the same pair.
    pub fn try_new(
        alloc: Global,
        states: u32,
        lines: u32,
        moves: Vec<RsmMove>,
    ) -> Result<Rsm, RsmRefusal>
        requires { length moves.items < 2 ^ 32 }
        ensures made { IfOk result (λ m. IsMadeOf m states lines moves.items) }
        ensures sound { OnOk result (AreSound states lines moves.items) }
        ensures refused { IfErr result (IsMoveRefusal states lines moves.items) }
    {
        let index = Index::try_new(alloc, states, lines, moves.as_slice())?;
        Ok(Rsm {
            states,
            lines,
            moves,
            index,
        })
    }

    /// The machine with these moves, this many states and this many ports each way (`lines`). The moves must be sound:
    /// no move is checked again, and the call fails only if memory runs out.
    pub fn new(alloc: Global, states: u32, lines: u32, moves: Vec<RsmMove>) -> Result<Rsm, NoMemory>
        requires sound { AreSound states lines moves.items }
        requires few { length moves.items < 2 ^ 32 }
        ensures made { IfOk result (λ m. IsMadeOf m states lines moves.items) }
    {
        let index = Index::new(alloc, moves.as_slice())?;
        Ok(Rsm {
            states,
            lines,
            moves,
            index,
        })
    }

    /// The moves in the order in which they were given.
    pub fn moves(&self) -> &[RsmMove]
        ensures { result.now ≡ self.now.moves }
    {
        self.moves.as_slice()
    }

    /// The inverse machine: in each move the two pairs are exchanged.
    pub fn inverse(&self, alloc: Global) -> Result<Rsm, NoMemory>
        ensures made { IfOk result (λ m. IsMadeOf m self.now.states self.now.lines (map turned self.now.moves)) }
        ensures backward { IfOk result (IsBackward self.now) }
    {
        let moves = turned_moves(alloc, self.moves.as_slice())?;
        Rsm::new(alloc, self.states, self.lines, moves)
    }

    // The move of this number, counted from 1.
    fn move_at(&self, number: u32) -> RsmMove
        requires { (0 < number) × (number ≤ length self.now.moves) }
        ensures { slice_get self.now.moves (number - 1) ≡ Some result }
    {
        self.moves[number as usize - 1]
    }
}

impl Element for Rsm {
    ghost use Rattle.bn_rsm.specs.Machines.{machine_table, machine_table-IsReversible};

    ghost table = { machine_table };

    ghost reversible = { machine_table-IsReversible };

    fn lines_in(&self) -> u32 {
        self.lines
    }

    fn lines_out(&self) -> u32 {
        self.lines
    }

    fn states(&self) -> u32 {
        self.states
    }

    fn go(&self, state: u32, line: u32) -> Option<(u32, u32)> {
        let number = *self.index.from.get(&(state, line))?;
        let step = self.move_at(number);
        Some((step.next, step.out))
    }

    fn back(&self, state: u32, line: u32) -> Option<(u32, u32)> {
        let number = *self.index.to.get(&(state, line))?;
        let step = self.move_at(number);
        Some((step.state, step.line))
    }
}

// The moves with their pairs exchanged.
fn turned_moves(alloc: Global, moves: &[RsmMove]) -> Result<Vec<RsmMove>, AllocError>
    ensures { IfOk result (λ v. v.items ≡ map turned moves.now) }
{
    moves.iter().map(|step| step.turned()).collect(alloc)
}
