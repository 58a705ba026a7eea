//! The result of reading the table of a machine: its fault, its overlap, or the machine.

ghost use Rattle.std.specs.Prelude.{ℕ, List, IfOk};
ghost use Rattle.bn_rsm.specs.Reading.{IsMoveTableRefusal};
ghost use Rattle.bn_reply_equal.specs.Replied.{IsReadTable};

use bn_lists::NoMemory;
use bn_reply::{empty_text, field_text, record_text};
use bn_rsm::{Rsm, RsmTableRefusal, read_rsm};
use std::alloc::Global;

/// The result of reading a table. A refusal is the line that reports it for a first table.
#[derive(Drop)]
pub(crate) enum ReadTable {
    /// The text has a fault.
    Faulty(Vec<u8>),
    /// Two moves overlap in domain or in range.
    Clashing(Vec<u8>),
    /// The machine.
    Machine(Rsm),
}

/// Reads some bytes as the table of a machine.
pub(crate) fn read_table(alloc: Global, bytes: &[u8]) -> Result<ReadTable, NoMemory>
    ensures { IfOk result (IsReadTable bytes.now) }
{
    match read_rsm(alloc, bytes) {
        Ok(rsm) => Ok(ReadTable::Machine(rsm)),
        Err(refusal) => refused(alloc, refusal),
    }
}

// The refusal of a table.
fn refused(alloc: Global, refusal: RsmTableRefusal) -> Result<ReadTable, NoMemory>
    ensures { IfOk result (λ table. (bytes : List ℕ) → IsMoveTableRefusal bytes refusal → IsReadTable bytes table) }
{
    match refusal {
        RsmTableRefusal::FieldCount { entry } => {
            Ok(ReadTable::Faulty(record_text(alloc, entry, "fields")?))
        }
        RsmTableRefusal::Number { entry, field } => {
            Ok(ReadTable::Faulty(field_text(alloc, entry, field, "number")?))
        }
        RsmTableRefusal::TooMany { entry } => {
            Ok(ReadTable::Faulty(record_text(alloc, entry, "too many")?))
        }
        RsmTableRefusal::Empty => Ok(ReadTable::Faulty(empty_text(alloc)?)),
        RsmTableRefusal::SameDomain { i, j } => {
            Ok(ReadTable::Clashing(format!(in alloc; "machine: domain {i} {j}\n")?.into_bytes()))
        }
        RsmTableRefusal::SameRange { i, j } => {
            Ok(ReadTable::Clashing(format!(in alloc; "machine: range {i} {j}\n")?.into_bytes()))
        }
        RsmTableRefusal::NoMemory => Err(NoMemory),
    }
}
