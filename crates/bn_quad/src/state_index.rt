//! The quadruples of a machine by the state that they leave.
ghost use Rattle.std.specs.Prelude.{◌≡◌, ◌<◌, ◌^◌, IfOk, IfSome, MatchOption, None, All, length, slice_index_or};
ghost use Rattle.bn_quad.specs.Quadruples.{HasNoRule, IsFirstRule};
ghost use Rattle.bn_quad.specs.Kept.{IsUnmixed, rule_of, rules_of};
ghost use Rattle.bn_quad.specs.Calls.{configuration};
ghost use Rattle.bn_quad.specs.Index.{IsIndexOf};

use crate::quad::Quad;
use crate::tapes::{Tapes, applies};
use bn_lists::NoMemory;
use std::alloc::Global;

/// For each state, the quadruples that leave it in the order of the list: the first one, and for each one the next.
/// Quadruples are counted from 1.
#[derive(Drop)]
pub(crate) struct StateIndex {
    // The first quadruple of each state.
    first: Vec<Option<u32>>,
    // The next quadruple of the same state after each quadruple.
    next: Vec<Option<u32>>,
}

impl StateIndex {
    /// The index of these quadruples, which have `states` states.
    pub(crate) fn try_new(
        alloc: Global,
        quads: &[Quad],
        states: u32,
    ) -> Result<StateIndex, NoMemory>
        requires few { length quads.now < 2 ^ 32 }
        requires states { All (λ quad. quad.state < states) quads.now }
        ensures { IfOk result (IsIndexOf (rules_of quads.now)) }
    {
        let mut first = vec![in alloc; None; states as usize]?;
        let mut next = vec![in alloc; None; quads.len()]?;
        for index in (0..quads.len()).rev() {
            let state = quads[index].state as usize;
            next[index] = first[state];
            first[state] = Some(index as u32 + 1);
        }
        Ok(StateIndex { first, next })
    }

    // The first quadruple of a state.
    fn first(&self, state: u32) -> Option<u32>
        ensures { result ≡ slice_index_or self.now.first.items state None }
    {
        match self.first.get(state as usize) {
            Some(first) => *first,
            None => None,
        }
    }

    /// The first of the indexed quadruples that applies, with its number, counted from 1.
    pub(crate) fn first_rule(
        &self,
        quads: &[Quad],
        state: u32,
        tapes: &Tapes,
    ) -> Option<(u32, Quad)>
        requires index { IsIndexOf (rules_of quads.now) self.now }
        requires unmixed { All IsUnmixed quads.now }
        ensures first { MatchOption result (HasNoRule (rules_of quads.now) (configuration state tapes.now))
            (λ f. IsFirstRule (rules_of quads.now) (configuration state tapes.now) f.0 (rule_of f.1)) }
        ensures unmixed { IfSome result (λ f. IsUnmixed f.1) }
    {
        let mut next = self.first(state);
        while let Some(number) = next {
            let index = number as usize - 1;
            if applies(&quads[index], state, tapes) {
                return Some((number, quads[index]));
            }
            next = self.next[index];
        }
        None
    }
}
