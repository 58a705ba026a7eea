//! One entry of a table of quadruples.

ghost use Rattle.std.specs.Prelude.{◌≡◌, ◌∷◌, [], true, false, IfOk, IfSome, IfNone, bytes_eq};
ghost use Rattle.bn_csv.specs.Faults.{err_of};
ghost use Rattle.bn_qtable.specs.Entry.{HasForms, SaysHasForms, quadruple_entry, slash, read_field};
ghost use Rattle.bn_qtable.specs.Entry.{act_field};
ghost use Rattle.bn_qtable.specs.Fields.{said, says};
ghost use Rattle.bn_qtable.specs.Faults as fault;
ghost use Rattle.bn_qtable.specs.Faults.{quadruple_field_fault, quadruple_form_fault};

use crate::refusal::QuadTableRefusal;
use bn_csv::{Entry, is_state_name, is_symbol};
use bn_machine::{Shift, shift_of};

/// The most entries of a table.
pub const MOST_ENTRIES: u32 = 20000;

/// The part of an entry that belongs to one tape: the symbols read and written, or a shift.
#[derive(Clone, Copy)]
pub enum TapeText<'a> {
    /// The symbol that is read, and the one that is written.
    Symbols { read: &'a [u8], written: &'a [u8] },
    /// A shift of the head.
    Move(Shift),
}

/// The content of an entry.
#[derive(Clone, Copy)]
pub struct Fields<'a> {
    pub state: &'a [u8],
    pub one: TapeText<'a>,
    pub two: TapeText<'a>,
    pub three: TapeText<'a>,
    pub next: &'a [u8],
}

// Whether a field is `/`, which marks a tape that is not read.
fn is_slash(field: &[u8]) -> bool
    ensures { result ≡ bytes_eq field.now slash }
{
    field == b"/".as_slice()
}

// Whether a field is a read.
fn is_read(field: &[u8]) -> bool
    ensures { result ≡ fault.is_read field.now }
{
    is_slash(field) || is_symbol(field)
}

// The content of a read and an action on one tape, or `None` if the action does not fit the read.
fn tape_text<'a>(read: &'a [u8], act: &'a [u8]) -> Option<TapeText<'a>>
    requires { fault.is_read read.now ≡ true }
    ensures none { IfNone result (fault.is_act read.now act.now ≡ false) }
    ensures fits { IfSome result (λ t. fault.is_act read.now act.now ≡ true) }
    ensures says { IfSome result (λ t. (read_field (says t) ≡ read.now) × (act_field (says t) ≡ act.now)) }
    ensures forms { IfSome result (λ t. SaysHasForms (says t)) }
{
    if is_slash(read) {
        match shift_of(act) {
            Some(shift) => Some(TapeText::Move(shift)),
            None => None,
        }
    } else if is_symbol(act) {
        Some(TapeText::Symbols { read, written: act })
    } else {
        None
    }
}

// The fault of an action that does not fit its read.
fn act_fault(entry: u32, field: u32, read: &[u8]) -> QuadTableRefusal
    ensures { result ≡ fault.act_fault entry field read.now }
{
    if is_slash(read) {
        QuadTableRefusal::Shift { entry, field }
    } else {
        QuadTableRefusal::Symbol { entry, field }
    }
}

// The content of eight fields, or their first fault.
fn eight_fields<'a>(
    entry: u32,
    state: &'a [u8],
    read1: &'a [u8],
    read2: &'a [u8],
    read3: &'a [u8],
    act1: &'a [u8],
    act2: &'a [u8],
    act3: &'a [u8],
    next: &'a [u8],
) -> Result<Fields<'a>, QuadTableRefusal>
    ensures says { IfOk result (λ f. quadruple_entry (said f)
        ≡ state.now ∷ read1.now ∷ read2.now ∷ read3.now ∷ act1.now ∷ act2.now ∷ act3.now ∷ next.now ∷ []) }
    ensures forms { IfOk result (λ f. HasForms (said f)) }
    ensures fault { quadruple_field_fault entry state.now read1.now read2.now read3.now act1.now act2.now act3.now
        next.now ≡ err_of result }
{
    if !is_state_name(state) {
        return Err(QuadTableRefusal::Name { entry, field: 1 });
    }
    if !is_read(read1) {
        return Err(QuadTableRefusal::Symbol { entry, field: 2 });
    }
    if !is_read(read2) {
        return Err(QuadTableRefusal::Symbol { entry, field: 3 });
    }
    if !is_read(read3) {
        return Err(QuadTableRefusal::Symbol { entry, field: 4 });
    }
    let Some(one) = tape_text(read1, act1) else {
        return Err(act_fault(entry, 5, read1));
    };
    let Some(two) = tape_text(read2, act2) else {
        return Err(act_fault(entry, 6, read2));
    };
    let Some(three) = tape_text(read3, act3) else {
        return Err(act_fault(entry, 7, read3));
    };
    if !is_state_name(next) {
        return Err(QuadTableRefusal::Name { entry, field: 8 });
    }
    Ok(Fields {
        state,
        one,
        two,
        three,
        next,
    })
}

/// The content of an entry, or the first fault of its fields. `number` is the entry's number, counted from 1.
pub fn read_fields<'a>(entry: &'a Entry, number: u32) -> Result<Fields<'a>, QuadTableRefusal>
    ensures says { IfOk result (λ f. quadruple_entry (said f) ≡ entry.now) }
    ensures forms { IfOk result (λ f. HasForms (said f)) }
    ensures fault { quadruple_form_fault number entry.now ≡ err_of result }
{
    if entry.len() != 8 {
        return Err(QuadTableRefusal::FieldCount { entry: number });
    }
    eight_fields(
        number,
        entry.field(0),
        entry.field(1),
        entry.field(2),
        entry.field(3),
        entry.field(4),
        entry.field(5),
        entry.field(6),
        entry.field(7),
    )
}
