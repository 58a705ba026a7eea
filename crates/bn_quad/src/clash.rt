//! The properties that the tests search for in a pair of quadruples, and in a single one.
ghost use Rattle.std.specs.Prelude.{◌≡◌, ◌↔◌, IsTrue};
ghost use Rattle.bn_quad.specs.Kept.{ReadsMeet, ActsMeet, ActsAreAlike, IsStaying, QuadsMeetInDomain, QuadsMeetInRange};
ghost use Rattle.bn_quad.specs.Kept.{QuadsAreAlike, QuadIsSilent, IsUnmixed, rule_of};
ghost use Rattle.bn_quad.specs.Overlap.{QuadruplesClash, IsFlawed};

use crate::quad::{Act, Quad};
use bn_machine::Shift;

/// A property of two quadruples that a test searches for.
#[derive(Clone, Copy)]
pub enum Clash {
    /// They overlap in domain.
    Domain,
    /// They overlap in range.
    Range,
    /// They have the same state and read different tapes.
    Reads,
    /// They have the same next state and write different tapes.
    Writes,
}

/// A property of a single quadruple that a test searches for.
#[derive(Clone, Copy)]
pub enum Flaw {
    /// It reads no tape and shifts none left or right.
    Silent,
    /// It leads to this state.
    Enters(u32),
    /// It leaves this state.
    Leaves(u32),
}

// Whether two reads of a tape fit the same scanned symbol.
fn reads_meet(first: Option<u32>, second: Option<u32>) -> bool
    ensures { IsTrue result ↔ ReadsMeet first second }
{
    match (first, second) {
        (Some(first), Some(second)) => first == second,
        _ => true,
    }
}

// Whether two actions on a tape can leave the same symbol.
fn acts_meet(first: Act, second: Act) -> bool
    ensures { IsTrue result ↔ ActsMeet first second }
{
    match (first, second) {
        (Act::Write(first), Act::Write(second)) => first == second,
        _ => true,
    }
}

// Whether two actions on a tape both write, or both shift.
fn acts_are_alike(first: Act, second: Act) -> bool
    ensures { IsTrue result ↔ ActsAreAlike first second }
{
    match (first, second) {
        (Act::Write(_), Act::Write(_)) | (Act::Shift(_), Act::Shift(_)) => true,
        _ => false,
    }
}

// Whether two quadruples overlap in domain.
fn meet_in_domain(first: &Quad, second: &Quad) -> bool
    ensures { IsTrue result ↔ QuadsMeetInDomain first.now second.now }
{
    first.state == second.state
        && reads_meet(first.read[0], second.read[0])
        && reads_meet(first.read[1], second.read[1])
        && reads_meet(first.read[2], second.read[2])
}

// Whether two quadruples overlap in range.
fn meet_in_range(first: &Quad, second: &Quad) -> bool
    ensures { IsTrue result ↔ QuadsMeetInRange first.now second.now }
{
    first.next == second.next
        && acts_meet(first.act[0], second.act[0])
        && acts_meet(first.act[1], second.act[1])
        && acts_meet(first.act[2], second.act[2])
}

// Whether two quadruples write the same tapes.
fn are_alike(first: &Quad, second: &Quad) -> bool
    ensures { IsTrue result ↔ QuadsAreAlike first.now second.now }
{
    acts_are_alike(first.act[0], second.act[0])
        && acts_are_alike(first.act[1], second.act[1])
        && acts_are_alike(first.act[2], second.act[2])
}

/// Whether two quadruples have this property. Each must read exactly the tapes that it writes.
pub fn is_clash(clash: Clash, first: &Quad, second: &Quad) -> bool
    requires first_unmixed { IsUnmixed first.now }
    requires second_unmixed { IsUnmixed second.now }
    ensures { IsTrue result ↔ QuadruplesClash clash (rule_of first.now) (rule_of second.now) }
{
    match clash {
        Clash::Domain => meet_in_domain(first, second),
        Clash::Range => meet_in_range(first, second),
        Clash::Reads => first.state == second.state && !are_alike(first, second),
        Clash::Writes => first.next == second.next && !are_alike(first, second),
    }
}

// Whether an action is the shift that does not move the head.
fn is_staying(act: Act) -> bool
    ensures { IsTrue result ↔ IsStaying act }
{
    match act {
        Act::Write(_) => false,
        Act::Shift(shift) => shift == Shift::Stay,
    }
}

// Whether a quadruple writes no tape and moves no head.
fn is_silent(quad: &Quad) -> bool
    ensures { IsTrue result ↔ QuadIsSilent quad.now }
{
    is_staying(quad.act[0]) && is_staying(quad.act[1]) && is_staying(quad.act[2])
}

/// Whether a quadruple has this property. It must read exactly the tapes that it writes.
pub fn is_flawed(flaw: Flaw, quad: &Quad) -> bool
    requires { IsUnmixed quad.now }
    ensures { IsTrue result ↔ IsFlawed flaw (rule_of quad.now) }
{
    match flaw {
        Flaw::Silent => is_silent(quad),
        Flaw::Enters(state) => quad.next == state,
        Flaw::Leaves(state) => quad.state == state,
    }
}
