//! Reversible elements with one bit of memory.

ghost use Rattle.std.specs.Prelude.{◌≡◌, ◌≤◌, ◌<◌, ◌*◌, ◌++◌, ◌∷◌, [], IfOk, OnOk, length};
ghost use Rattle.bn_rlem.specs.Elements.{IsElement, IsLineCount, moves_from};
ghost use Rattle.bn_rlem.specs.Permutations as permutations;

use crate::permutation::{factorial, permutation};
use bn_lists::NoMemory;
use bn_rsm::RsmMove;
use std::alloc::Global;

/// The greatest number of ports of an element that has a number here: 20! is less than 2^62.
pub const MOST_LINES: u32 = 10;

/// The number of elements with this many input ports and as many output ports: (2k)! for k ports. Their numbers are
/// counted from 0.
pub fn element_count(lines: u32) -> u64
    requires { IsLineCount lines }
    ensures { result ≡ permutations.factorial (2 * lines) }
{
    factorial(2 * lines)
}

/// The moves of the element with this many ports and this number, counted from 0 (Morita 2017): one from each pair of
/// a state and a port, in rising order of the pairs.
pub fn element_moves(alloc: Global, lines: u32, number: u64) -> Result<Vec<RsmMove>, NoMemory>
    requires lines { IsLineCount lines }
    requires number { number < permutations.factorial (2 * lines) }
    ensures { IfOk result (λ moves. IsElement lines number moves.items) }
{
    let pairs = permutation(alloc, 2 * lines, number)?;
    moves_of(alloc, lines, pairs.as_slice())
}

// Appends a move.
fn add(moves: &mut Vec<RsmMove>, step: RsmMove) -> Result<(), NoMemory>
    ensures { OnOk result (moves.new.items ≡ moves.old.items ++ step ∷ []) }
{
    moves.push(step)?;
    Ok(())
}

// The move from one pair to another, given by their numbers.
fn move_between(lines: u32, from: u32, to: u32) -> RsmMove
    requires { IsLineCount lines }
    ensures { moves_from lines from (to ∷ []) ≡ result ∷ [] }
{
    RsmMove {
        state: from / lines,
        line: from % lines,
        next: to / lines,
        out: to % lines,
    }
}

// The moves of all pairs in rising order; `pairs` has the number of the pair to which each leads.
fn moves_of(alloc: Global, lines: u32, pairs: &[u32]) -> Result<Vec<RsmMove>, NoMemory>
    requires count { IsLineCount lines }
    requires few { length pairs.now ≤ 20 }
    ensures { IfOk result (λ moves. moves.items ≡ moves_from lines 0 pairs.now) }
{
    let mut moves = Vec::new(alloc);
    for pair in 0..pairs.len() {
        add(&mut moves, move_between(lines, pair as u32, pairs[pair]))?;
    }
    Ok(moves)
}
