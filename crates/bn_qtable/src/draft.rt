//! A table that is being read.

ghost use Rattle.std.specs.Prelude.{◌≡◌, ◌≢◌, ◌<◌, ◌≤◌, ◌++◌, ◌∷◌, [], length, OnOk, IfOk, IfErr};
ghost use Rattle.bn_qtable.specs.Entry.{HasForms, quadruple_entry};
ghost use Rattle.bn_qtable.specs.Fields.{said};
ghost use Rattle.bn_qtable.specs.Named.{HasNames};
ghost use Rattle.bn_qtable.specs.Rows.{IsQuadTableOf, table_of};
ghost use Rattle.bn_qtable.specs.declared.refusal.QuadTableRefusal.TheVariants as refusal;
ghost use Rattle.bn_qtable.specs.Draft.{IsDraft, drafted};

use crate::entry::{Fields, MOST_ENTRIES, read_fields};
use crate::lists::Lists;
use crate::refusal::QuadTableRefusal;
use bn_csv::{Entry, TableDraft};
use bn_lists::NoMemory;
use bn_quad::{Quad, QuadMachine, QuadNames, QuadRefusal};
use std::alloc::Global;

/// The names of the states and of each tape's symbols, and the quadruples, of the entries read so far.
#[derive(Drop)]
pub struct Draft {
    lists: Lists,
    quads: Vec<Quad>,
}

/// A draft without entries: each tape has only the blank.
pub fn new_draft(alloc: Global) -> Result<Draft, NoMemory>
    ensures { IfOk result (λ d. IsDraft d × (drafted d ≡ [])) }
{
    Ok(Draft {
        lists: Lists::new(alloc)?,
        quads: Vec::new(alloc),
    })
}

// Adds the quadruple of an entry.
fn add_fields(draft: &mut Draft, fields: &Fields) -> Result<(), NoMemory>
    requires draft { IsDraft draft.old }
    requires forms { HasForms (said fields.now) }
    requires few { length (drafted draft.old) < MOST_ENTRIES }
    ensures { OnOk result (IsDraft draft.new
        × (drafted draft.new ≡ drafted draft.old ++ quadruple_entry (said fields.now) ∷ [])) }
{
    let quad = draft.lists.number(fields)?;
    draft.quads.push(quad)?;
    Ok(())
}

impl TableDraft for Draft {
    ghost use Rattle.bn_qtable.specs.Faults.{quadruple_form_fault};
    ghost use Rattle.bn_qtable.specs.declared.entry.TheConstants.{MOST_ENTRIES as most};

    type Refusal = QuadTableRefusal;

    const MOST_ENTRIES: u32 = MOST_ENTRIES;

    ghost MOST_ENTRIES = { most };

    ghost is_draft = { IsDraft };

    ghost taken = { drafted };

    ghost form_fault = { quadruple_form_fault };

    ghost too_many = { refusal.TooMany };

    ghost no_memory = { refusal.NoMemory };

    ghost wants = { λ n e h. h };

    fn too_many(entry: u32) -> QuadTableRefusal {
        QuadTableRefusal::TooMany { entry }
    }

    fn add_entry(&mut self, entry: &Entry, number: u32) -> Result<(), QuadTableRefusal> {
        let fields = read_fields(entry, number)?;
        add_fields(self, &fields)?;
        Ok(())
    }
}

/// The machine of a draft, with its names. The error is `Empty` if the draft has no entry.
pub fn into_table(alloc: Global, draft: Draft) -> Result<(QuadMachine, QuadNames), QuadTableRefusal>
    requires draft { IsDraft draft }
    requires few { length (drafted draft) ≤ MOST_ENTRIES }
    ensures ok { IfOk result (λ t. IsQuadTableOf (drafted draft) (table_of t.0 t.1)) }
    ensures named { IfOk result (λ t. HasNames t.0 t.1) }
    ensures empty { IfErr result (λ e. e ≢ refusal.NoMemory → (e ≡ refusal.Empty) × (drafted draft ≡ [])) }
{
    let Draft { lists, quads } = draft;
    match QuadMachine::try_new(quads, lists.state_count(), lists.symbol_counts()) {
        Ok(machine) => Ok((machine, lists.gather(alloc)?)),
        Err(QuadRefusal::Empty) => Err(QuadTableRefusal::Empty),
        Err(QuadRefusal::Range { .. }) => unreachable!(),
        Err(QuadRefusal::Mixed { .. }) => unreachable!(),
    }
}
