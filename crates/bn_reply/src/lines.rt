//! The lines that refuse a table.

ghost use Rattle.std.specs.Prelude.{◌≡◌, ◌≢◌, IfOk};
ghost use Rattle.bn_reply.specs.Lines.{empty_line, fault_line, field_line, record_line, why_line};
ghost use Rattle.bn_table.specs.declared.refusal.TableRefusal.TheVariants as faults;
ghost use Rattle.bn_machine.specs.declared.why.Why.TheVariants as whys;

use bn_lists::NoMemory;
use bn_machine::Why;
use bn_table::TableRefusal;
use std::alloc::Global;

/// The line of a fault of a table's record as a whole; records are counted from 1.
pub fn record_text(alloc: Global, entry: u32, what: &str) -> Result<Vec<u8>, NoMemory>
    ensures { IfOk result (λ text. text.items ≡ record_line entry what.now) }
{
    Ok(format!(in alloc; "text: record {entry} {what}\n")?.into_bytes())
}

/// The line of a fault of a field of a table's record; both are counted from 1.
pub fn field_text(alloc: Global, entry: u32, field: u32, what: &str) -> Result<Vec<u8>, NoMemory>
    ensures { IfOk result (λ text. text.items ≡ field_line entry field what.now) }
{
    Ok(format!(in alloc; "text: record {entry} field {field} {what}\n")?.into_bytes())
}

/// The line of a table with no record.
pub fn empty_text(alloc: Global) -> Result<Vec<u8>, NoMemory>
    ensures { IfOk result (λ text. text.items ≡ empty_line) }
{
    Ok(format!(in alloc; "text: empty\n")?.into_bytes())
}

// The line of a fault of the bytes as a table of quintuples.
pub(crate) fn fault_text(alloc: Global, refusal: TableRefusal) -> Result<Vec<u8>, NoMemory>
    ensures { IfOk result (λ text. (refusal ≢ faults.NoMemory) × (text.items ≡ fault_line refusal)) }
{
    match refusal {
        TableRefusal::FieldCount { entry } => record_text(alloc, entry, "fields"),
        TableRefusal::Name { entry, field } => field_text(alloc, entry, field, "name"),
        TableRefusal::Symbol { entry, field } => field_text(alloc, entry, field, "symbol"),
        TableRefusal::Shift { entry } => field_text(alloc, entry, 4, "shift"),
        TableRefusal::TooMany { entry } => record_text(alloc, entry, "too many"),
        TableRefusal::Empty => empty_text(alloc),
        TableRefusal::NoMemory => Err(NoMemory),
    }
}

/// The line of a condition of standard form that fails.
pub fn why_text(alloc: Global, refusal: Why) -> Result<Vec<u8>, NoMemory>
    ensures { IfOk result (λ text. (refusal ≢ whys.NoMemory) × (text.items ≡ why_line refusal)) }
{
    match refusal {
        Why::Repeat { i, j } => Ok(format!(in alloc; "machine: S1 {i} {j}\n")?.into_bytes()),
        Why::First => Ok(format!(in alloc; "machine: S2\n")?.into_bytes()),
        Why::StartUsed { i } => Ok(format!(in alloc; "machine: S3 {i}\n")?.into_bytes()),
        Why::Last => Ok(format!(in alloc; "machine: S4\n")?.into_bytes()),
        Why::FinalUsed { i } => Ok(format!(in alloc; "machine: S5 {i}\n")?.into_bytes()),
        Why::NoMemory => Err(NoMemory),
    }
}
