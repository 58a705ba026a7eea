//! One entry of a table of moves.

ghost use Rattle.std.specs.Prelude.{◌≡◌, ◌<◌, ◌+◌, ◌∷◌, [], true, false, decimal, MatchOption, IfOk, ◌^◌};
ghost use Rattle.bn_csv.specs.Faults.{err_of};
ghost use Rattle.bn_rsm.specs.Entry.{IsMove, move_entry};
ghost use Rattle.bn_rsm.specs.TableFaults as fault;
ghost use Rattle.bn_rsm.specs.TableFaults.{move_field_fault, move_form_fault};

use crate::RsmMove;
use crate::table_refusal::RsmTableRefusal;
use bn_base::{MOST_COUNT, read_u64};
use bn_csv::Entry;

/// The most entries of a table.
pub const MOST_ENTRIES: u32 = 65_536;

// The number that a field spells, minus one; `None` exactly if the field is not a number from 1 to `MOST_COUNT`.
fn number_of(field: &[u8]) -> Option<u32>
    ensures { MatchOption result (fault.is_number field.now ≡ false) (λ n. (fault.is_number field.now ≡ true)
        × (n < MOST_COUNT) × (field.now ≡ decimal (n + 1))) }
{
    match read_u64(field, 0) {
        Ok((number, behind)) => {
            if behind == field.len() && 0 < number && number <= MOST_COUNT {
                Some(number as u32 - 1)
            } else {
                None
            }
        }
        Err(_) => None,
    }
}

// The move of four fields, or their first fault.
fn four_fields(
    entry: u32,
    state: &[u8],
    line: &[u8],
    next: &[u8],
    out: &[u8],
) -> Result<RsmMove, RsmTableRefusal>
    ensures says { IfOk result (λ m. move_entry m ≡ state.now ∷ line.now ∷ next.now ∷ out.now ∷ []) }
    ensures within { IfOk result IsMove }
    ensures fault { move_field_fault entry state.now line.now next.now out.now ≡ err_of result }
{
    let Some(state) = number_of(state) else {
        return Err(RsmTableRefusal::Number { entry, field: 1 });
    };
    let Some(line) = number_of(line) else {
        return Err(RsmTableRefusal::Number { entry, field: 2 });
    };
    let Some(next) = number_of(next) else {
        return Err(RsmTableRefusal::Number { entry, field: 3 });
    };
    let Some(out) = number_of(out) else {
        return Err(RsmTableRefusal::Number { entry, field: 4 });
    };
    Ok(RsmMove {
        state,
        line,
        next,
        out,
    })
}

/// The move of an entry, or the first fault of its fields. `number` is the entry's number, counted from 1.
pub fn read_move(entry: &Entry, number: u32) -> Result<RsmMove, RsmTableRefusal>
    ensures says { IfOk result (λ m. move_entry m ≡ entry.now) }
    ensures within { IfOk result IsMove }
    ensures fault { move_form_fault number entry.now ≡ err_of result }
{
    if entry.len() != 4 {
        return Err(RsmTableRefusal::FieldCount { entry: number });
    }
    four_fields(
        number,
        entry.field(0),
        entry.field(1),
        entry.field(2),
        entry.field(3),
    )
}
