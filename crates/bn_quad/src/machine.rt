//! Machines of quadruples.
ghost use Rattle.bn_quad.specs.Kept.{turned_quad};
ghost use Rattle.std.specs.Prelude.{◌≡◌, ◌↔◌, ◌<◌, ◌≤◌, ◌^◌, Some, IfOk, IfErr, OnOk, IsOk, All, length, map, reverse};
ghost use Rattle.std.specs.Prelude.{IfSome, MatchOption};

use crate::clash::{Clash, Flaw};
use crate::quad::{Quad, turned};
use crate::refusal::{NotUniform, QuadRefusal};
use crate::search::{first_clash, first_flaw, first_rule};
use crate::soundness::{first_fault, is_in_range};
use crate::tapes::{QuadTurn, Tapes, first_leaving, perform_all};
use bn_lists::NoMemory;
use std::alloc::{AllocError, Global};
use std::marker::Model;

/// A machine of three tapes given by quadruples (Bennett 1973): its quadruples in order, its number of states, and the
/// number of symbols of each tape. Contracts see these. There is at least one quadruple, there are fewer than 2^32, and
/// all their numbers are in range.
#[derive(Drop)]
pub struct QuadMachine {
    quads: Vec<Quad>,
    states: u32,
    symbols: [u32; 3],
}

impl Model for QuadMachine {
    ghost use Rattle.bn_quad.specs.Quadruples.{Quadruples, quadruples_of};
    ghost use Rattle.bn_quad.specs.Kept.{IsKept, rules_of};

    ghost Value = { Quadruples };

    ghost view = { λ m. quadruples_of (rules_of m.quads.items) m.states m.symbols };

    ghost invariant = { λ m. IsKept m.quads.items m.states m.symbols };
}

impl QuadMachine {
    ghost use Rattle.bn_lists.specs.Lists.{nth};
    ghost use Rattle.bn_quad.specs.Quadruples.{IsQuadMachine, initial_of, final_state_of, inverse_of, HasOneSuccessor};
    ghost use Rattle.bn_quad.specs.Quadruples.{HasOnePredecessor, HasNoRule, IsFirstRule};
    ghost use Rattle.bn_quad.specs.Overlap.{IsDeterministic, IsReversible, IsUniform, IsLeastClash};
    ghost use Rattle.bn_quad.specs.Kept.{quad_of, rule_of, IsSound, IsUnmixed};
    ghost use Rattle.bn_quad.specs.Calls.{IsMadeOf, IsQuadRefusal, IsNotUniform, StepsBack, IsQuadTurn, configuration};

    /// The machine of these quadruples with `states` states and `symbols` symbols on each tape, tape 1 first. The error
    /// is `Empty` exactly if there is no quadruple. Otherwise it names the first faulty quadruple: `Range` if a number
    /// of it is out of range, and else `Mixed`, if it shifts a tape that it reads or writes one that it does not read.
    /// Allocates no memory.
    pub fn try_new(
        quads: Vec<Quad>,
        states: u32,
        symbols: [u32; 3],
    ) -> Result<QuadMachine, QuadRefusal>
        requires { length quads.items < 2 ^ 32 }
        ensures made { IfOk result (λ m. IsMadeOf m quads.items states symbols) }
        ensures valid { IfOk result IsQuadMachine }
        ensures sound { OnOk result (All (IsSound states symbols) quads.items) }
        ensures refused { IfErr result (IsQuadRefusal quads.items states symbols) }
    {
        if quads.is_empty() {
            return Err(QuadRefusal::Empty);
        }
        if let Some((i, quad)) = first_fault(quads.as_slice(), states, &symbols) {
            if is_in_range(&quad, states, &symbols) {
                return Err(QuadRefusal::Mixed { i });
            }
            return Err(QuadRefusal::Range { i });
        }
        Ok(QuadMachine {
            quads,
            states,
            symbols,
        })
    }

    /// The quadruples in order.
    pub fn quads(&self) -> &[Quad]
        ensures value { result.now ≡ map quad_of self.now.rules }
        ensures valid { IsQuadMachine self.now }
    {
        self.quads.as_slice()
    }

    /// How many states the machine has.
    pub fn states(&self) -> u32
        ensures { result ≡ self.now.states }
    {
        self.states
    }

    /// How many symbols a tape from 1 to 3 has, the blank among them.
    pub fn symbols(&self, tape: u32) -> u32
        requires first { 1 ≤ tape }
        requires last { tape ≤ 3 }
        ensures { nth self.now.symbols tape ≡ Some result }
    {
        self.symbols[tape as usize - 1]
    }

    /// The first quadruple's state, counted from 0.
    pub fn initial_state(&self) -> u32
        ensures { result ≡ initial_of self.now.rules }
    {
        self.quads[0].state
    }

    /// The last quadruple's next state, counted from 0.
    pub fn final_state(&self) -> u32
        ensures { result ≡ final_state_of self.now.rules }
    {
        self.quads[self.quads.len() - 1].next
    }

    /// Tests that no two quadruples overlap in domain. The result is `Err` exactly if two do, with the least `i` that
    /// overlaps with a later one and the least such `j`, both counted from 1. Allocates no memory.
    pub fn check_deterministic(&self) -> Result<(), (u32, u32)>
        ensures ok { OnOk result (IsDeterministic self.now.rules) }
        ensures least { IfErr result (λ p. IsLeastClash Clash.Domain self.now.rules p.0 p.1) }
        ensures one_way { OnOk result (HasOneSuccessor self.now.rules) }
    {
        match first_clash(self.quads.as_slice(), Clash::Domain) {
            None => Ok(()),
            Some(pair) => Err(pair),
        }
    }

    /// Tests that no two quadruples overlap in range. The result is `Err` exactly if two do, with the least `i` that
    /// overlaps with a later one and the least such `j`, both counted from 1. For a deterministic machine, it is `Err`
    /// exactly if two configurations have the same successor (Bennett 1973). Allocates no memory.
    pub fn check_reversible(&self) -> Result<(), (u32, u32)>
        ensures ok { OnOk result (IsReversible self.now.rules) }
        ensures least { IfErr result (λ p. IsLeastClash Clash.Range self.now.rules p.0 p.1) }
        ensures one_to_one { IsDeterministic self.now.rules → (IsOk result ↔ HasOnePredecessor self.now.rules) }
    {
        match first_clash(self.quads.as_slice(), Clash::Range) {
            None => Ok(()),
            Some(pair) => Err(pair),
        }
    }

    /// Tests that the machine is uniform. The result is `Err` exactly if it is not, with the first of the five
    /// conditions that fails. Allocates no memory.
    pub fn check_uniform(&self) -> Result<(), NotUniform>
        ensures ok { OnOk result (IsUniform self.now.rules) }
        ensures refused { IfErr result (IsNotUniform self.now.rules) }
    {
        let quads = self.quads.as_slice();
        if let Some((i, j)) = first_clash(quads, Clash::Reads) {
            return Err(NotUniform::ReadMask { i, j });
        }
        if let Some((i, j)) = first_clash(quads, Clash::Writes) {
            return Err(NotUniform::WriteMask { i, j });
        }
        if let Some(i) = first_flaw(quads, Flaw::Silent) {
            return Err(NotUniform::Silent { i });
        }
        if let Some(i) = first_flaw(quads, Flaw::Enters(self.initial_state())) {
            return Err(NotUniform::InitialEntered { i });
        }
        if let Some(i) = first_flaw(quads, Flaw::Leaves(self.final_state())) {
            return Err(NotUniform::FinalLeft { i });
        }
        Ok(())
    }

    /// The inverse machine: its list in the opposite order, and in each quadruple the two states exchanged, the symbols
    /// that are read and written exchanged, and the shifts reversed.
    pub fn inverse(&self, alloc: Global) -> Result<QuadMachine, NoMemory>
        ensures turned { IfOk result (λ m. m ≡ inverse_of self.now) }
        ensures valid { IfOk result IsQuadMachine }
        ensures steps_back { IfOk result (λ m. StepsBack self.now.rules m.rules) }
    {
        let Ok(quads) = turned_quads(alloc, self.quads.as_slice()) else {
            return Err(NoMemory);
        };
        Ok(QuadMachine {
            quads,
            states: self.states,
            symbols: self.symbols,
        })
    }

    /// One step of the machine from `state` on `tapes`. The result is `Final` exactly if the state is the final one,
    /// and otherwise `Stuck` exactly if no quadruple applies. Otherwise the first quadruple that applies is taken:
    /// the result is `Left`, with the least such tape and nothing changed, exactly if it would move a head out of its
    /// window, and else `Moved`. Allocates no memory.
    pub fn step(&self, state: &mut u32, tapes: &mut Tapes) -> QuadTurn
        ensures { IsQuadTurn self.now result state.old tapes.old state.new tapes.new }
    {
        let found = first_rule(self.quads.as_slice(), *state, tapes);
        self.step_by(found, state, tapes)
    }

    /// The step by `found`, the first quadruple that applies with its number, or `None` if none applies.
    pub(crate) fn step_by(
        &self,
        found: Option<(u32, Quad)>,
        state: &mut u32,
        tapes: &mut Tapes,
    ) -> QuadTurn
        requires first { MatchOption found (HasNoRule self.now.rules (configuration state.old tapes.old))
            (λ f. IsFirstRule self.now.rules (configuration state.old tapes.old) f.0 (rule_of f.1)) }
        requires unmixed { IfSome found (λ f. IsUnmixed f.1) }
        ensures { IsQuadTurn self.now result state.old tapes.old state.new tapes.new }
    {
        if *state == self.final_state() {
            return QuadTurn::Final;
        }
        let Some((number, quad)) = found else {
            return QuadTurn::Stuck;
        };
        if let Some((tape, side)) = first_leaving(&quad, tapes) {
            return QuadTurn::Left { tape, side };
        }
        perform_all(&quad, tapes);
        *state = quad.next;
        QuadTurn::Moved { quad: number }
    }
}

// The inverses of the quadruples, in the opposite order.
fn turned_quads(alloc: Global, quads: &[Quad]) -> Result<Vec<Quad>, AllocError>
    ensures { IfOk result (λ v. v.items ≡ map turned_quad (reverse quads.now)) }
{
    quads.iter().rev().map(|quad| turned(quad)).collect(alloc)
}
