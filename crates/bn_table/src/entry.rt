//! One entry of a table of quintuples.

ghost use Rattle.std.specs.Prelude.{◌≡◌, ◌∷◌, [], true, false, MatchOption, IfOk};
ghost use Rattle.bn_csv.specs.Faults.{err_of};
ghost use Rattle.bn_csv.specs.Forms.{is_letter as letter_form};
ghost use Rattle.bn_table.specs.Entry.{HasForms, entry_of};
ghost use Rattle.bn_table.specs.Fields.{said};
ghost use Rattle.bn_table.specs.Faults.{field_fault, form_fault};

use crate::refusal::TableRefusal;
use bn_csv::{Entry, is_letter, is_state_name};
use bn_machine::{Shift, shift_of};

/// The most entries of a table.
pub const MOST_ENTRIES: u32 = 4000;

/// The content of an entry.
#[derive(Clone, Copy)]
pub struct Fields<'a> {
    pub state: &'a [u8],
    pub read: u8,
    pub write: u8,
    pub shift: Shift,
    pub next: &'a [u8],
}

// The letter of a field, or `None` if the field is not a letter.
fn letter(field: &[u8]) -> Option<u8>
    ensures { MatchOption result (letter_form field.now ≡ false) (λ b. (letter_form field.now ≡ true)
        × (field.now ≡ b ∷ [])) }
{
    if is_letter(field) {
        Some(field[0])
    } else {
        None
    }
}

// The content of five fields, or their first fault.
fn five_fields<'a>(
    entry: u32,
    state: &'a [u8],
    read: &[u8],
    write: &[u8],
    shifted: &[u8],
    next: &'a [u8],
) -> Result<Fields<'a>, TableRefusal>
    ensures says { IfOk result (λ f.
        entry_of (said f) ≡ state.now ∷ read.now ∷ write.now ∷ shifted.now ∷ next.now ∷ []) }
    ensures fault { field_fault entry state.now read.now write.now shifted.now next.now ≡ err_of result }
{
    if !is_state_name(state) {
        return Err(TableRefusal::Name { entry, field: 1 });
    }
    let Some(read) = letter(read) else {
        return Err(TableRefusal::Symbol { entry, field: 2 });
    };
    let Some(write) = letter(write) else {
        return Err(TableRefusal::Symbol { entry, field: 3 });
    };
    let Some(shift) = shift_of(shifted) else {
        return Err(TableRefusal::Shift { entry });
    };
    if !is_state_name(next) {
        return Err(TableRefusal::Name { entry, field: 5 });
    }
    Ok(Fields {
        state,
        read,
        write,
        shift,
        next,
    })
}

/// The content of an entry, or the first fault of its fields. `number` is the entry's number, counted from 1.
pub fn read_fields<'a>(entry: &'a Entry, number: u32) -> Result<Fields<'a>, TableRefusal>
    ensures says { IfOk result (λ f. entry_of (said f) ≡ entry.now) }
    ensures forms { IfOk result (λ f. HasForms (said f)) }
    ensures fault { form_fault number entry.now ≡ err_of result }
{
    if entry.len() != 5 {
        return Err(TableRefusal::FieldCount { entry: number });
    }
    five_fields(
        number,
        entry.field(0),
        entry.field(1),
        entry.field(2),
        entry.field(3),
        entry.field(4),
    )
}
