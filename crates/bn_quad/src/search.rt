//! Searches for the least pair of quadruples that clash, and for the first quadruple with a flaw.
ghost use Rattle.std.specs.Prelude.{◌≡◌, ℕ, ◌<◌, ◌≤◌, ◌^◌, MatchOption, IfSome, All, length};
ghost use Rattle.bn_quad.specs.Kept.{IsUnmixed, rules_of};
ghost use Rattle.bn_quad.specs.Overlap.{HasNoClash, IsLeastClash, HasNoFlaw, IsFirstFlaw};
ghost use Rattle.bn_quad.specs.Search.{HasNoPartner, IsLeastPartner};
ghost use Rattle.bn_quad.specs.Quadruples.{HasNoRule, IsFirstRule};
ghost use Rattle.bn_quad.specs.Kept.{rule_of};
ghost use Rattle.bn_quad.specs.Calls.{configuration};

use crate::clash::{Clash, Flaw, is_clash, is_flawed};
use crate::quad::Quad;
use crate::tapes::{Tapes, applies};

// The first quadruple after number `i` with which quadruple `i` clashes; both are counted from 1.
fn first_partner(quads: &[Quad], clash: Clash, i: u32) -> Option<u32>
    requires few { length quads.now < 2 ^ 32 }
    requires unmixed { All IsUnmixed quads.now }
    requires starts { 1 ≤ i }
    requires inside { i ≤ length quads.now }
    ensures { MatchOption result (HasNoPartner clash (rules_of quads.now) i)
        (IsLeastPartner clash (rules_of quads.now) i) }
{
    let first = &quads[i as usize - 1];
    for index in i as usize..quads.len() {
        if is_clash(clash, first, &quads[index]) {
            return Some(index as u32 + 1);
        }
    }
    None
}

/// The first quadruple that clashes with a later one, counted from 1, and the first such later one.
pub fn first_clash(quads: &[Quad], clash: Clash) -> Option<(u32, u32)>
    requires few { length quads.now < 2 ^ 32 }
    requires unmixed { All IsUnmixed quads.now }
    ensures { MatchOption result (HasNoClash clash (rules_of quads.now))
        (λ p. IsLeastClash clash (rules_of quads.now) p.0 p.1) }
{
    for index in 0..quads.len() {
        let i = index as u32 + 1;
        if let Some(j) = first_partner(quads, clash, i) {
            return Some((i, j));
        }
    }
    None
}

/// The first quadruple with the flaw, counted from 1.
pub fn first_flaw(quads: &[Quad], flaw: Flaw) -> Option<u32>
    requires few { length quads.now < 2 ^ 32 }
    requires unmixed { All IsUnmixed quads.now }
    ensures { MatchOption result (HasNoFlaw flaw (rules_of quads.now)) (IsFirstFlaw flaw (rules_of quads.now)) }
{
    for index in 0..quads.len() {
        if is_flawed(flaw, &quads[index]) {
            return Some(index as u32 + 1);
        }
    }
    None
}

/// The first quadruple that applies, with its number, counted from 1.
pub fn first_rule(quads: &[Quad], state: u32, tapes: &Tapes) -> Option<(u32, Quad)>
    requires few { length quads.now < 2 ^ 32 }
    requires unmixed { All IsUnmixed quads.now }
    ensures first { MatchOption result (HasNoRule (rules_of quads.now) (configuration state tapes.now))
        (λ f. IsFirstRule (rules_of quads.now) (configuration state tapes.now) f.0 (rule_of f.1)) }
    ensures unmixed { IfSome result (λ f. IsUnmixed f.1) }
{
    for index in 0..quads.len() {
        if applies(&quads[index], state, tapes) {
            return Some((index as u32 + 1, quads[index]));
        }
    }
    None
}
