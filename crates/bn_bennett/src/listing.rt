//! Bennett's list, stage by stage.
ghost use Rattle.std.specs.Prelude.{◌≡◌, ◌+◌, ◌*◌, ◌^◌, ◌<◌, ◌≤◌, OnOk, length, map};
ghost use Rattle.bn_machine.specs.Machine.{final_of};
ghost use Rattle.bn_bennett_laws.specs.List as list;
ghost use Rattle.bn_bennett.specs.Draft.{IsDraft, drafted, Grows};

use crate::draft::{Draft, add, add_two};
use crate::rule::{
    begins_copy, copies_letter, ends_copy, goes_left, goes_right, passes_letter, shifts_ahead,
    shifts_back, turns_left, writes_ahead, writes_back,
};
use bn_lists::NoMemory;
use bn_machine::{Machine, Quint};

// Compute: two quadruples for each quintuple, in order.
fn add_compute(draft: &mut Draft, quints: &[Quint]) -> Result<(), NoMemory>
    requires draft { IsDraft draft.old }
    requires room { length (drafted draft.old) + 2 * length quints.now < 2 ^ 30 }
    ensures { OnOk result (Grows draft.old (list.compute_rules quints.now) draft.new) }
{
    for (index, quint) in quints.iter().enumerate() {
        let m = index as u32 + 1;
        add_two(draft, &writes_ahead(m, quint), &shifts_ahead(m, quint))?;
    }
    Ok(())
}

// Copy: one quadruple that copies each letter.
fn add_copied_letters(draft: &mut Draft, n: u32, z: u32) -> Result<(), NoMemory>
    requires draft { IsDraft draft.old }
    requires some { 0 < z }
    requires room { length (drafted draft.old) + z < 2 ^ 30 }
    ensures { OnOk result (Grows draft.old (map (list.copies_letter n) (list.nonblank_symbols z)) draft.new) }
{
    for x in 1..z {
        add(draft, &copies_letter(n, x))?;
    }
    Ok(())
}

// Copy: one quadruple that passes each letter.
fn add_passed_letters(draft: &mut Draft, n: u32, z: u32) -> Result<(), NoMemory>
    requires draft { IsDraft draft.old }
    requires some { 0 < z }
    requires room { length (drafted draft.old) + z < 2 ^ 30 }
    ensures { OnOk result (Grows draft.old (map (list.passes_letter n) (list.nonblank_symbols z)) draft.new) }
{
    for x in 1..z {
        add(draft, &passes_letter(n, x))?;
    }
    Ok(())
}

// Copy, from the final state `last` after the last of `n` quintuples, for `z` symbols.
fn add_copy(draft: &mut Draft, last: u32, n: u32, z: u32) -> Result<(), NoMemory>
    requires draft { IsDraft draft.old }
    requires some { 0 < z }
    requires room { length (drafted draft.old) + 2 * z + 5 < 2 ^ 30 }
    ensures { OnOk result (Grows draft.old (list.copy_rules last n z) draft.new) }
{
    add_two(draft, &begins_copy(last, n), &goes_right())?;
    add_copied_letters(draft, n, z)?;
    add_two(draft, &turns_left(n), &goes_left())?;
    add_passed_letters(draft, n, z)?;
    add(draft, &ends_copy(last, n))
}

// Retrace: two quadruples for each quintuple, the last quintuple first.
fn add_retrace(draft: &mut Draft, quints: &[Quint]) -> Result<(), NoMemory>
    requires draft { IsDraft draft.old }
    requires room { length (drafted draft.old) + 2 * length quints.now < 2 ^ 30 }
    ensures { OnOk result (Grows draft.old (list.retrace_rules quints.now) draft.new) }
{
    for index in (0..quints.len()).rev() {
        let m = index as u32 + 1;
        let quint = &quints[index];
        add_two(draft, &shifts_back(m, quint), &writes_back(m, quint))?;
    }
    Ok(())
}

/// Adds Bennett's list for a machine: compute, copy, retrace. `Err`: out of memory.
pub fn add_list(draft: &mut Draft, machine: &Machine) -> Result<(), NoMemory>
    requires draft { IsDraft draft.old }
    requires room { length (drafted draft.old) + 4 * length machine.now.quints + 2 * machine.now.symbols + 5 < 2 ^ 30 }
    ensures { OnOk result (Grows draft.old (list.bennett machine.now) draft.new) }
{
    let quints = machine.quints();
    add_compute(draft, quints)?;
    add_copy(
        draft,
        machine.final_state(),
        quints.len() as u32,
        machine.symbols(),
    )?;
    add_retrace(draft, quints)
}
