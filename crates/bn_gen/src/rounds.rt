//! The quintuples of the machine, round by round.
ghost use Rattle.std.specs.Prelude.{◌≡◌, ◌≤◌, ◌-◌, ◌++◌, OnOk, IfOk};
ghost use Rattle.bn_gen.specs.Increments as list;
ghost use Rattle.bn_gen.specs.Increments.{IsRoundCount};

use crate::machine::MOST_INCREMENTS;
use bn_lists::NoMemory;
use bn_machine::{Quint, Shift};
use std::alloc::Global;

// The blank.
const BLANK: u32 = 0;
// The digit 0.
const ZERO: u32 = 1;
// The digit 1.
const ONE: u32 = 2;

// A quintuple.
fn rule(state: u32, read: u32, write: u32, shift: Shift, next: u32) -> Quint
    ensures { result ≡ list.increment_rule state read write shift next }
{
    Quint {
        state,
        read,
        write,
        shift,
        next,
    }
}

// The nine quintuples of a round, counted from 1. The last one shifts by `shift` and leads to `next`.
fn round_of(round: u32, shift: Shift, next: u32) -> [Quint; 9]
    requires some { 1 ≤ round }
    requires few { round ≤ MOST_INCREMENTS }
    ensures { result ≡ list.round round shift next }
{
    let (right, carry, left) = (3 * round - 2, 3 * round - 1, 3 * round);
    [
        rule(right, ZERO, ZERO, Shift::Right, right),
        rule(right, ONE, ONE, Shift::Right, right),
        rule(right, BLANK, BLANK, Shift::Left, carry),
        rule(carry, ONE, ZERO, Shift::Left, carry),
        rule(carry, ZERO, ONE, Shift::Left, left),
        rule(carry, BLANK, ONE, Shift::Left, left),
        rule(left, ZERO, ZERO, Shift::Left, left),
        rule(left, ONE, ONE, Shift::Left, left),
        rule(left, BLANK, BLANK, shift, next),
    ]
}

// Adds all rounds but the last. Each of them leads to the next round.
fn add_rounds(quints: &mut Vec<Quint>, k: u32) -> Result<(), NoMemory>
    requires { IsRoundCount k }
    ensures { OnOk result (quints.new.items ≡ quints.old.items ++ list.rounds (k - 1)) }
{
    for round in 1..k {
        quints.extend_from_slice(&round_of(round, Shift::Right, 3 * round + 1))?;
    }
    Ok(())
}

/// The quintuples of k increments.
pub(crate) fn list_quints(alloc: Global, k: u32) -> Result<Vec<Quint>, NoMemory>
    requires { IsRoundCount k }
    ensures { IfOk result (λ quints. quints.items ≡ list.quints_of k) }
{
    let mut quints = Vec::new(alloc);
    quints.push(rule(0, BLANK, BLANK, Shift::Right, 1))?;
    add_rounds(&mut quints, k)?;
    quints.extend_from_slice(&round_of(k, Shift::Stay, 3 * k + 1))?;
    Ok(quints)
}
