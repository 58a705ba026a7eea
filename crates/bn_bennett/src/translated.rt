//! The reversible machine of a machine in standard form.
ghost use Rattle.std.specs.Prelude.{◌≡◌, ◌+◌, ◌*◌, ◌^◌, ◌<◌, ◌≤◌, IfOk, length};
ghost use Rattle.bn_machine.specs.Machine.{final_of, IsMachine};
ghost use Rattle.bn_quad.specs.Calls.{IsUniformMachine};
ghost use Rattle.bn_bennett_laws.specs.List.{bennett, symbols_of};
ghost use Rattle.bn_table.specs.Rows.{FitsTable};
ghost use Rattle.bn_bennett.specs.Translation.{IsTranslation, translation_of};
ghost use Rattle.bn_bennett.specs.Draft.{AreDrafted, IsDraft, drafted, renamed_back};

use crate::draft::{Draft, new_draft};
use crate::listing::add_list;
use bn_bennett_laws::Name;
use bn_lists::NoMemory;
use bn_machine::{Machine, Standard};
use bn_quad::{Quad, QuadMachine, Uniform};
use bn_table::MOST_ENTRIES;
use std::alloc::Global;
use std::marker::Model;

/// A stage of the reversible machine's run (Bennett 1973).
#[derive(Clone, Copy, PartialEq, Eq, Debug)]
pub enum Stage {
    /// It computes and records a history: states `A1` and on, primed or not.
    Compute,
    /// It copies the output: states `B1'`, `B1`, `B2'` and `B2`.
    Copy,
    /// It retraces its steps: states `C1` and on, primed or not.
    Retrace,
}

/// What a state of the reversible machine means for the one-tape machine.
#[derive(Clone, Copy, PartialEq, Eq, Debug)]
pub enum MachineState {
    /// The one-tape machine is in this state, counted from 0.
    AtState(u32),
    /// The one-tape machine is within a step by this quintuple, counted from 1.
    Within(u32),
}

/// The reversible machine of a machine in standard form (Bennett 1973), with the name of each state at the state's
/// number, and the one-tape machine's final state. Contracts mention these three values only.
#[derive(Drop)]
pub struct Translated {
    names: Vec<Name>,
    final_state: u32,
    machine: Uniform,
}

impl Model for Translated {
    ghost use Rattle.std.specs.Prelude.{◌≡◌, length};
    ghost use Rattle.bn_bennett.specs.Translation.{Translation, translation_of};

    ghost Value = { Translation };

    ghost view = { λ t. translation_of t.names.items t.final_state t.machine };

    ghost invariant = { λ t. t.machine.states ≡ length t.names.items };
}

impl Translated {
    ghost use Rattle.std.specs.Prelude.{◌≡◌, ◌<◌, length};
    ghost use Rattle.bn_bennett.specs.Translation.{name_of};
    ghost use Rattle.bn_bennett.specs.Meaning.{stage_by, machine_state_by};

    /// The machine: it is deterministic, reversible and uniform.
    pub fn machine(&self) -> &Uniform
        ensures value { result.now ≡ self.now.machine }
        ensures counted { self.now.machine.states ≡ length self.now.names }
    {
        &self.machine
    }

    /// The states' names, each at its state's number, counted from 0.
    pub fn names(&self) -> &[Name]
        ensures value { result.now ≡ self.now.names }
        ensures counted { self.now.machine.states ≡ length self.now.names }
    {
        self.names.as_slice()
    }

    // The name of a state.
    fn name_of(&self, state: u32) -> Name
        requires { state < self.now.machine.states }
        ensures { result ≡ name_of self.now state }
    {
        self.names[state as usize]
    }

    /// The stage of a state, counted from 0. It takes no memory.
    pub fn stage_of(&self, state: u32) -> Stage
        requires { state < self.now.machine.states }
        ensures { result ≡ stage_by (name_of self.now state) }
    {
        match self.name_of(state) {
            Name::Compute(_) | Name::ComputeWithin(_) => Stage::Compute,
            Name::GoRight | Name::CopyLetter | Name::GoLeft | Name::PassLetter => Stage::Copy,
            Name::Retrace(_) | Name::RetraceWithin(_) => Stage::Retrace,
        }
    }

    /// What a state, counted from 0, means for the one-tape machine: that machine is in a state, which is its final
    /// state while the output is copied, or it is within a step by a quintuple. It takes no memory.
    pub fn machine_state_of(&self, state: u32) -> MachineState
        requires { state < self.now.machine.states }
        ensures { result ≡ machine_state_by self.now.final_state (name_of self.now state) }
    {
        match self.name_of(state) {
            Name::Compute(at) | Name::Retrace(at) => MachineState::AtState(at),
            Name::ComputeWithin(quint) | Name::RetraceWithin(quint) => MachineState::Within(quint),
            Name::GoRight | Name::CopyLetter | Name::GoLeft | Name::PassLetter => {
                MachineState::AtState(self.final_state)
            }
        }
    }
}

// The number of symbols of each tape, tape 1 first: the history has the blank and one for each quintuple.
fn symbols_of(machine: &Machine) -> [u32; 3]
    requires { length machine.now.quints ≤ MOST_ENTRIES }
    ensures symbols { result ≡ symbols_of machine.now }
    ensures valid { IsMachine machine.now }
{
    let letters = machine.symbols();
    let quints = machine.quints().len() as u32;
    [letters, quints + 1, letters]
}

// The uniform machine of these quadruples, which are Bennett's list over these names.
fn uniform_of(names: &[Name], quads: Vec<Quad>, standard: &Standard) -> Uniform
    requires fits { FitsTable standard.now }
    requires drafted { AreDrafted names.now quads.items }
    requires list { renamed_back names.now quads.items ≡ bennett standard.now }
    ensures made { IsTranslation standard.now (translation_of names.now (final_of standard.now.quints) result) }
    ensures states { result.states ≡ 2 * standard.now.states + 2 * length standard.now.quints + 4 }
    ensures quadruples { length result.rules ≡ 4 * length standard.now.quints + 2 * standard.now.symbols + 3 }
{
    let symbols = symbols_of(standard.machine());
    match QuadMachine::try_new(quads, names.len() as u32, symbols) {
        Ok(machine) => Uniform::new(machine),
        Err(_) => unreachable!(),
    }
}

// The translation of a draft that contains Bennett's list.
fn with_machine(alloc: Global, draft: Draft, standard: &Standard) -> Result<Translated, NoMemory>
    requires fits { FitsTable standard.now }
    requires draft { IsDraft draft }
    requires list { drafted draft ≡ bennett standard.now }
    ensures made { IfOk result (IsTranslation standard.now) }
    ensures states { IfOk result (λ t. t.machine.states
        ≡ 2 * standard.now.states + 2 * length standard.now.quints + 4) }
    ensures quadruples { IfOk result (λ t. length t.machine.rules
        ≡ 4 * length standard.now.quints + 2 * standard.now.symbols + 3) }
{
    let Draft { names, quads } = draft;
    let names = Vec::from_slice(alloc, names.as_slice())?;
    let machine = uniform_of(names.as_slice(), quads, standard);
    Ok(Translated {
        names,
        final_state: standard.machine().final_state(),
        machine,
    })
}

/// The reversible machine of a machine in standard form, by Bennett's list (1973). For f states, N quintuples and z
/// symbols it has 2f + 2N + 4 states and 4N + 2z + 3 quadruples. The one-tape machine has the form of a table: its
/// states are numbered by first appearance, and each appears. `Err`: out of memory.
pub fn translate(alloc: Global, standard: &Standard) -> Result<Translated, NoMemory>
    requires { FitsTable standard.now }
    ensures made { IfOk result (IsTranslation standard.now) }
    ensures states { IfOk result (λ t. t.machine.states
        ≡ 2 * standard.now.states + 2 * length standard.now.quints + 4) }
    ensures quadruples { IfOk result (λ t. length t.machine.rules
        ≡ 4 * length standard.now.quints + 2 * standard.now.symbols + 3) }
{
    let mut draft = new_draft(alloc);
    add_list(&mut draft, standard.machine())?;
    with_machine(alloc, draft, standard)
}
