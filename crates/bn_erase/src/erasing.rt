//! The erasing machine of two machines in standard form.
ghost use Rattle.std.specs.Prelude.{◌≡◌, ◌+◌, ◌*◌, ◌-◌, ◌^◌, ◌<◌, ◌≤◌, ◌++◌, All, IfOk, IfErr, OnOk, length, map};
ghost use Rattle.bn_bennett.specs.Draft.{IsBelow};
ghost use Rattle.bn_bennett.specs.Translation.{IsTranslation};
ghost use Rattle.bn_erase_laws.specs.Erasing.{erasing, erasing_symbols};
ghost use Rattle.bn_erase_laws.specs.declared.name.ErasingName.TheVariants as kind;
ghost use Rattle.bn_machine.specs.Machine.{IsMachine};
ghost use Rattle.bn_quad.specs.Quadruples.{inverse_of};
ghost use Rattle.bn_bennett_laws.specs.Stages.{IsStandardMachine};
ghost use Rattle.bn_table.specs.Rows.{FitsTable};
ghost use Rattle.bn_erase.specs.Made.{IsErasing, IsEraseRefusal, erasure_of};
ghost use Rattle.bn_erase.specs.Numbered.{AreErasing, backward_quad, joint_names, joint_quads, meeting_of, new_state};

use crate::refusal::EraseRefusal;
use bn_bennett::{Translated, translate};
use bn_bennett_laws::Name;
use bn_erase_laws::ErasingName;
use bn_lists::NoMemory;
use bn_machine::Standard;
use bn_quad::{Quad, QuadMachine, Uniform};
use bn_table::MOST_ENTRIES;
use std::alloc::Global;
use std::marker::Model;

/// The most quadruples of an erasing machine: as many as a table of quadruples may have.
pub const MOST_QUADRUPLES: u32 = 20_000;

/// The machine that leaves only its output (Bennett 1973), with the name of each state at the state's number.
/// Contracts see both.
#[derive(Drop)]
pub struct Erasing {
    names: Vec<ErasingName>,
    machine: Uniform,
}

impl Model for Erasing {
    ghost use Rattle.std.specs.Prelude.{◌≡◌, length};
    ghost use Rattle.bn_erase.specs.Made.{Erasure, erasure_of};

    ghost Value = { Erasure };

    ghost view = { λ e. erasure_of e.names.items e.machine };

    ghost invariant = { λ e. e.machine.states ≡ length e.names.items };
}

impl Erasing {
    ghost use Rattle.std.specs.Prelude.{◌≡◌, length};

    /// The machine: it is deterministic, reversible and uniform.
    pub fn machine(&self) -> &Uniform
        ensures value { result.now ≡ self.now.machine }
        ensures counted { self.now.machine.states ≡ length self.now.names }
    {
        &self.machine
    }

    /// The states' names, each at its state's number, counted from 0.
    pub fn names(&self) -> &[ErasingName]
        ensures { result.now ≡ self.now.names }
    {
        self.names.as_slice()
    }
}

/// The erasing machine of two machines (Bennett 1973): the reversible machine of the first, which leaves x and y,
/// followed by the reversible machine of the second backward, with tapes 1 and 3 exchanged, which erases x if the
/// second machine computes x from y. Both machines have the form of tables, with the same number of symbols. For N
/// and M quintuples and z symbols the erasing machine has 4(N + M) + 4z + 6 quadruples. `Err` is `Many` exactly if
/// these are more than 20,000, or `NoMemory`.
pub fn erase(alloc: Global, first: &Standard, second: &Standard) -> Result<Erasing, EraseRefusal>
    requires first { FitsTable first.now }
    requires second { FitsTable second.now }
    requires symbols { first.now.symbols ≡ second.now.symbols }
    ensures made { IfOk result (IsErasing first.now second.now) }
    ensures few { OnOk result (length (erasing first.now second.now) ≤ MOST_QUADRUPLES) }
    ensures refused { IfErr result (IsEraseRefusal first.now second.now) }
{
    let count = quadruples_of(first) + quadruples_of(second);
    if count > MOST_QUADRUPLES {
        return Err(EraseRefusal::Many { count });
    }
    Ok(join(alloc, first, second)?)
}

// The number of quadruples of a machine's reversible machine.
fn quadruples_of(standard: &Standard) -> u32
    requires { FitsTable standard.now }
    ensures counted { result ≡ 4 * length standard.now.quints + 2 * standard.now.symbols + 3 }
    ensures valid { IsMachine standard.now }
{
    let machine = standard.machine();
    4 * machine.quints().len() as u32 + 2 * machine.symbols() + 3
}

// The erasing machine, with any number of quadruples.
fn join(alloc: Global, first: &Standard, second: &Standard) -> Result<Erasing, NoMemory>
    requires first { FitsTable first.now }
    requires second { FitsTable second.now }
    requires symbols { first.now.symbols ≡ second.now.symbols }
    ensures { IfOk result (IsErasing first.now second.now) }
{
    let translated = translate(alloc, first)?;
    let other = translate(alloc, second)?;
    join_translated(alloc, first, second, &translated, &other)
}

// The erasing machine of two machines with these reversible machines.
fn join_translated(
    alloc: Global,
    first: &Standard,
    second: &Standard,
    translated: &Translated,
    other: &Translated,
) -> Result<Erasing, NoMemory>
    requires first { FitsTable first.now }
    requires second { FitsTable second.now }
    requires symbols { first.now.symbols ≡ second.now.symbols }
    requires translated { IsTranslation first.now translated.now }
    requires other { IsTranslation second.now other.now }
    requires states { translated.now.machine.states + other.now.machine.states < 2 ^ 32 }
    ensures { IfOk result (IsErasing first.now second.now) }
{
    let meeting = meeting_of(translated, other);
    let names = joint_names(alloc, translated.names(), other.names(), meeting.end)?;
    let quads = joint_quads(alloc, translated, other, meeting)?;
    let machine = uniform_of(names.as_slice(), quads, first, second);
    Ok(Erasing { names, machine })
}

// ---- the joint of the two machines

// The joint of the first machine's list and the second machine's inverted list: the first machine's number of states
// and its final state, and the second machine's final state.
#[derive(Clone, Copy)]
struct Meeting {
    states: u32,
    middle: u32,
    end: u32,
}

// The joint of the two reversible machines.
fn meeting_of(translated: &Translated, other: &Translated) -> Meeting
    ensures { result ≡ meeting_of translated.now.machine other.now.machine }
{
    let first = translated.machine().machine();
    let second = other.machine().machine();
    Meeting {
        states: first.states(),
        middle: first.final_state(),
        end: second.final_state(),
    }
}

// The number of a state of the second machine in the erasing machine.
fn new_state(meeting: Meeting, state: u32) -> u32
    requires { state < 2 ^ 32 - meeting.states }
    ensures { result ≡ new_state meeting state }
{
    if state == meeting.end {
        return meeting.middle;
    }
    if state < meeting.end {
        meeting.states + state
    } else {
        meeting.states + state - 1
    }
}

// ---- names

// The names by number: those of the first machine, followed by those of the second except its final one.
fn joint_names(
    alloc: Global,
    first: &[Name],
    second: &[Name],
    end: u32,
) -> Result<Vec<ErasingName>, NoMemory>
    requires { end < length second.now }
    ensures { IfOk result (λ names. names.items ≡ joint_names first.now second.now end) }
{
    let end = end as usize;
    let mut names = Vec::new(alloc);
    add_first(&mut names, first)?;
    add_second(&mut names, &second[..end])?;
    add_second(&mut names, &second[end + 1..])?;
    Ok(names)
}

// Adds names of the first machine.
fn add_first(names: &mut Vec<ErasingName>, states: &[Name]) -> Result<(), NoMemory>
    ensures { OnOk result (names.new.items ≡ names.old.items ++ map kind.First states.now) }
{
    for name in states {
        names.push(ErasingName::First(*name))?;
    }
    Ok(())
}

// Adds names of the second machine.
fn add_second(names: &mut Vec<ErasingName>, states: &[Name]) -> Result<(), NoMemory>
    ensures { OnOk result (names.new.items ≡ names.old.items ++ map kind.Second states.now) }
{
    for name in states {
        names.push(ErasingName::Second(*name))?;
    }
    Ok(())
}

// ---- quadruples

// The first machine's quadruples, followed by the second machine's backward.
fn joint_quads(
    alloc: Global,
    translated: &Translated,
    other: &Translated,
    meeting: Meeting,
) -> Result<Vec<Quad>, NoMemory>
    requires { other.now.machine.states ≤ 2 ^ 32 - meeting.states }
    ensures { IfOk result (λ quads. quads.items
        ≡ joint_quads meeting translated.now.machine.rules other.now.machine.rules) }
{
    let backward = backward_of(alloc, other)?;
    let Ok(mut quads) = Vec::from_slice(alloc, translated.machine().machine().quads()) else {
        return Err(NoMemory);
    };
    add_backward(&mut quads, backward.quads(), meeting)?;
    Ok(quads)
}

// The inverse of the reversible machine.
fn backward_of(alloc: Global, translated: &Translated) -> Result<QuadMachine, NoMemory>
    ensures { IfOk result (λ machine. machine ≡ inverse_of translated.now.machine) }
{
    translated.machine().machine().inverse(alloc)
}

// Adds the quadruples of the second machine's inverted list.
fn add_backward(quads: &mut Vec<Quad>, others: &[Quad], meeting: Meeting) -> Result<(), NoMemory>
    requires { All (IsBelow (2 ^ 32 - meeting.states)) others.now }
    ensures { OnOk result (quads.new.items ≡ quads.old.items ++ map (backward_quad meeting) others.now) }
{
    for quad in others {
        quads.push(backward_quad(quad, meeting))?;
    }
    Ok(())
}

// A quadruple of that list with its tapes 1 and 3 exchanged and its states renumbered.
fn backward_quad(quad: &Quad, meeting: Meeting) -> Quad
    requires { IsBelow (2 ^ 32 - meeting.states) quad.now }
    ensures { result ≡ backward_quad meeting quad.now }
{
    Quad {
        state: new_state(meeting, quad.state),
        read: [quad.read[2], quad.read[1], quad.read[0]],
        act: [quad.act[2], quad.act[1], quad.act[0]],
        next: new_state(meeting, quad.next),
    }
}

// ---- the machine

// The number of symbols of each tape, tape 1 first: the history has the blank, and one for each quintuple of the
// machine with more quintuples.
fn symbols_of(first: &Standard, second: &Standard) -> [u32; 3]
    requires first { length first.now.quints ≤ MOST_ENTRIES }
    requires second { length second.now.quints ≤ MOST_ENTRIES }
    ensures symbols { result ≡ erasing_symbols first.now second.now }
    ensures left { IsStandardMachine first.now }
    ensures right { IsStandardMachine second.now }
{
    let left = first.machine();
    let right = second.machine();
    let letters = left.symbols();
    let quints = left.quints().len().max(right.quints().len()) as u32;
    [letters, quints + 1, letters]
}

// The uniform machine of these quadruples, which are the list over these names.
fn uniform_of(
    names: &[ErasingName],
    quads: Vec<Quad>,
    first: &Standard,
    second: &Standard,
) -> Uniform
    requires first { FitsTable first.now }
    requires second { FitsTable second.now }
    requires symbols { first.now.symbols ≡ second.now.symbols }
    requires list { IsStandardMachine first.now → IsStandardMachine second.now
        → AreErasing first.now second.now names.now quads.items }
    ensures { IsErasing first.now second.now (erasure_of names.now result) }
{
    let symbols = symbols_of(first, second);
    match QuadMachine::try_new(quads, names.len() as u32, symbols) {
        Ok(machine) => Uniform::new(machine),
        Err(_) => unreachable!(),
    }
}
