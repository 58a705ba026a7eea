//! A table that is being read.

ghost use Rattle.std.specs.Prelude.{◌≡◌, ◌<◌, ◌≤◌, ◌-◌, ◌^◌, ◌++◌, ◌∷◌, [], length, Some};
ghost use Rattle.std.specs.Prelude.{slice_get, OnOk, IfOk, IfErr};
ghost use Rattle.bn_table.specs.Entry.{HasForms, entry_of};
ghost use Rattle.bn_table.specs.Fields.{said};
ghost use Rattle.bn_table.specs.Rows.{IsTableOf, with_letter};
ghost use Rattle.bn_table.specs.declared.refusal.TableRefusal.TheVariants as refusal;
ghost use Rattle.bn_table.specs.Draft.{IsDraft, drafted};

use crate::entry::{Fields, MOST_ENTRIES, read_fields};
use crate::refusal::TableRefusal;
use crate::table::{Table, place_of};
use bn_csv::{Entry, Names, TableDraft};
use bn_lists::NoMemory;
use bn_machine::{Machine, MachineRefusal, Quint};
use std::alloc::Global;

/// The names, the letters and the quintuples of the entries read so far.
#[derive(Drop)]
pub struct Draft {
    names: Names,
    letters: Vec<u8>,
    quints: Vec<Quint>,
}

// The symbol of a letter. A new letter is added at the end.
fn number_letter(letters: &mut Vec<u8>, letter: u8) -> Result<u32, NoMemory>
    requires { length letters.old.items < 2 ^ 32 - 1 }
    ensures letters { OnOk result (letters.new.items ≡ with_letter letters.old.items letter) }
    ensures number { IfOk result (λ symbol. slice_get letters.new.items symbol ≡ Some letter) }
{
    if let Some(symbol) = place_of(letters.as_slice(), letter) {
        return Ok(symbol);
    }
    let symbol = letters.len() as u32;
    letters.push(letter)?;
    Ok(symbol)
}

/// A draft without entries: it has only the letter of the blank.
pub fn new_draft(alloc: Global) -> Result<Draft, NoMemory>
    ensures { IfOk result (λ d. IsDraft d × (drafted d ≡ [])) }
{
    let mut letters = Vec::new(alloc);
    letters.push(b'_')?;
    Ok(Draft {
        names: Names::new(alloc),
        letters,
        quints: Vec::new(alloc),
    })
}

// Adds the quintuple of an entry.
fn add_fields(draft: &mut Draft, fields: &Fields) -> Result<(), NoMemory>
    requires draft { IsDraft draft.old }
    requires few { length (drafted draft.old) < MOST_ENTRIES }
    requires forms { HasForms (said fields.now) }
    ensures { OnOk result (IsDraft draft.new
        × (drafted draft.new ≡ drafted draft.old ++ entry_of (said fields.now) ∷ [])) }
{
    let state = draft.names.number_of(fields.state)?;
    let read = number_letter(&mut draft.letters, fields.read)?;
    let write = number_letter(&mut draft.letters, fields.write)?;
    let next = draft.names.number_of(fields.next)?;
    let quint = Quint {
        state,
        read,
        write,
        shift: fields.shift,
        next,
    };
    draft.quints.push(quint)?;
    Ok(())
}

impl TableDraft for Draft {
    ghost use Rattle.bn_table.specs.Faults.{form_fault as fault};
    ghost use Rattle.bn_table.specs.declared.entry.TheConstants.{MOST_ENTRIES as most};

    type Refusal = TableRefusal;

    const MOST_ENTRIES: u32 = MOST_ENTRIES;

    ghost MOST_ENTRIES = { most };

    ghost is_draft = { IsDraft };

    ghost taken = { drafted };

    ghost form_fault = { fault };

    ghost too_many = { refusal.TooMany };

    ghost no_memory = { refusal.NoMemory };

    ghost wants = { λ n e h. h };

    fn too_many(entry: u32) -> TableRefusal {
        TableRefusal::TooMany { entry }
    }

    fn add_entry(&mut self, entry: &Entry, number: u32) -> Result<(), TableRefusal> {
        let fields = read_fields(entry, number)?;
        add_fields(self, &fields)?;
        Ok(())
    }
}

/// The table of a draft. The error is `Empty` if the draft has no entry.
pub fn into_table(draft: Draft) -> Result<Table, TableRefusal>
    requires draft { IsDraft draft }
    requires few { length (drafted draft) ≤ MOST_ENTRIES }
    ensures ok { IfOk result (IsTableOf (drafted draft)) }
    ensures empty { IfErr result (λ e. (e ≡ refusal.Empty) × (drafted draft ≡ [])) }
{
    let Draft {
        names,
        letters,
        quints,
    } = draft;
    let states = names.len();
    let symbols = letters.len() as u32;
    match Machine::try_new(quints, states, symbols) {
        Ok(machine) => Ok(Table {
            machine,
            names,
            letters,
        }),
        Err(MachineRefusal::Empty) => Err(TableRefusal::Empty),
        Err(MachineRefusal::Range { .. }) => unreachable!(),
    }
}
