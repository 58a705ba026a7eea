//! The moves of a control in numbers.
ghost use Rattle.std.specs.Prelude.{◌≡◌, ℕ, ◌^◌, ◌<◌, ◌≤◌, map, length, slice_get, Some, All, IfOk};
ghost use Rattle.bn_quad.specs.Quadruples.{Quadruples};
ghost use Rattle.bn_control.specs.Numbered.{HasNumbers, AreNumbered, rsm_move};
ghost use Rattle.bn_control.specs.declared.named.NamedMove.{NamedMove};

use crate::finite::lines_before;
use crate::name::StateName;
use crate::named::NamedMove;
use crate::states::number_of;
use bn_network::MOST_SYMBOLS;
use bn_rsm::RsmMove;
use std::alloc::{AllocError, Global};

/// A move of a control in numbers, all counted from 0.
#[derive(Clone, Copy, PartialEq, Eq, PartialOrd, Ord, Debug)]
pub(crate) struct Move {
    /// The state in which the move is made.
    pub(crate) state: u32,
    /// The input port at which the signal arrives.
    pub(crate) line: u32,
    /// The state after the move.
    pub(crate) next: u32,
    /// The output port by which the signal leaves.
    pub(crate) out: u32,
}

/// The moves in numbers, in the given order.
pub(crate) fn in_numbers(
    alloc: Global,
    states: &[StateName],
    symbols: &[u32; 3],
    moves: &[NamedMove],
) -> Result<Vec<Move>, AllocError>
    requires few_states { length states.now < 2 ^ 32 }
    requires few_symbols { All (λ z. z ≤ MOST_SYMBOLS) symbols.now }
    requires known { (n : ℕ) (x : NamedMove) → slice_get moves.now n ≡ Some x → HasNumbers states.now symbols.now x }
    ensures numbers { (m : Quadruples) → m.symbols ≡ symbols.now
        → IfOk result (λ v. AreNumbered m states.now moves.now v.items) }
    ensures few { IfOk result (λ v. length v.items ≡ length moves.now) }
{
    let mut numbered = Vec::new(alloc);
    for step in moves {
        numbered.push(Move {
            state: number_of(states, step.state),
            line: step.line.in_number(symbols),
            next: number_of(states, step.to.state),
            out: step.to.line.out_number(symbols),
        })?;
    }
    Ok(numbered)
}

/// The moves in the form of a sequential machine.
pub(crate) fn rsm_moves(alloc: Global, moves: &[Move]) -> Result<Vec<RsmMove>, AllocError>
    ensures { IfOk result (λ v. v.items ≡ map rsm_move moves.now) }
{
    moves.iter().map(|step| step.rsm_move()).collect(alloc)
}

impl Move {
    // The move in the form of a sequential machine.
    fn rsm_move(&self) -> RsmMove
        ensures { result ≡ rsm_move self.now }
    {
        RsmMove {
            state: self.state,
            line: self.line,
            next: self.next,
            out: self.out,
        }
    }
}
