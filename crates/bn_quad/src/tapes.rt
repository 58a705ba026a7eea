//! Three tapes in windows, and the actions of a quadruple on them.
ghost use Rattle.std.specs.Prelude.{◌≡◌, ◌↔◌, IsTrue, MatchOption};
ghost use Rattle.bn_machine.specs.Window.{with_tape};
ghost use Rattle.bn_quad.specs.Kept.{IsUnmixed, rule_of, Reads, ActLeaves, ActStays, acted};
ghost use Rattle.bn_quad.specs.Calls.{configuration, windows_of, rooms_of, LeavesAt, AreSameWindows};
ghost use Rattle.bn_quad.specs.Quadruples.{AppliesTo, AreAllowed, after, deeds_of};

use crate::quad::{Act, Quad};
use bn_machine::{Shift, Side, Tape};

/// Three tapes in windows.
#[derive(Drop)]
pub struct Tapes {
    pub one: Tape,
    pub two: Tape,
    pub three: Tape,
}

/// The result of one step of a quadruple machine.
#[derive(Clone, Copy, PartialEq, Eq, Debug)]
pub enum QuadTurn {
    /// The state is the final one.
    Final,
    /// No quadruple applies.
    Stuck,
    /// The head of this tape, counted from 1, would leave its window on this side; it is the least such tape.
    Left { tape: u32, side: Side },
    /// One step was made, by this quadruple, counted from 1.
    Moved { quad: u32 },
}

// Whether the head scans the symbol that is read, if one is read.
fn is_read(read: Option<u32>, tape: &Tape) -> bool
    ensures { IsTrue result ↔ Reads read tape.now.tape }
{
    match read {
        None => true,
        Some(symbol) => tape.scanned() == symbol,
    }
}

/// Whether a quadruple applies. It must read exactly the tapes that it writes.
pub fn applies(quad: &Quad, state: u32, tapes: &Tapes) -> bool
    requires { IsUnmixed quad.now }
    ensures { IsTrue result ↔ AppliesTo (rule_of quad.now) (configuration state tapes.now) }
{
    state == quad.state
        && is_read(quad.read[0], &tapes.one)
        && is_read(quad.read[1], &tapes.two)
        && is_read(quad.read[2], &tapes.three)
}

// The end of the window at which an action would move the head out, if it would.
fn leaving(act: Act, tape: &Tape) -> Option<Side>
    ensures { MatchOption result (ActStays act tape.now) (λ side. ActLeaves act tape.now side) }
{
    let head = tape.head();
    match act {
        Act::Shift(Shift::Left) if tape.symbol(head - 1).is_none() => Some(Side::Left),
        Act::Shift(Shift::Right) if tape.symbol(head + 1).is_none() => Some(Side::Right),
        _ => None,
    }
}

/// The least tape, counted from 1, whose head the quadruple would move out of its window, and the end. The quadruple
/// must read exactly the tapes that it writes.
pub fn first_leaving(quad: &Quad, tapes: &Tapes) -> Option<(u32, Side)>
    requires { IsUnmixed quad.now }
    ensures { MatchOption result (AreAllowed (rooms_of tapes.now)
        (after (rule_of quad.now) (configuration quad.now.state tapes.now)))
        (λ l. LeavesAt (deeds_of (rule_of quad.now)) (windows_of tapes.now) l.0 l.1) }
{
    if let Some(side) = leaving(quad.act[0], &tapes.one) {
        return Some((1, side));
    }
    if let Some(side) = leaving(quad.act[1], &tapes.two) {
        return Some((2, side));
    }
    match leaving(quad.act[2], &tapes.three) {
        Some(side) => Some((3, side)),
        None => None,
    }
}

// Writes the symbol, or shifts the head.
fn perform(act: Act, tape: &mut Tape)
    requires { ActStays act tape.old }
    ensures { tape.new ≡ with_tape tape.old (acted act tape.old.tape) }
{
    match act {
        Act::Write(symbol) => tape.put(symbol),
        Act::Shift(shift) => {
            let _ = tape.shift(shift);
        }
    }
}

/// Performs the actions of a quadruple on the three tapes. It must read exactly the tapes that it writes.
pub fn perform_all(quad: &Quad, tapes: &mut Tapes)
    requires unmixed { IsUnmixed quad.now }
    requires stays { AreAllowed (rooms_of tapes.old)
        (after (rule_of quad.now) (configuration quad.now.state tapes.old)) }
    ensures done { configuration quad.now.next tapes.new
        ≡ after (rule_of quad.now) (configuration quad.now.state tapes.old) }
    ensures windows { AreSameWindows tapes.old tapes.new }
{
    perform(quad.act[0], &mut tapes.one);
    perform(quad.act[1], &mut tapes.two);
    perform(quad.act[2], &mut tapes.three);
}
