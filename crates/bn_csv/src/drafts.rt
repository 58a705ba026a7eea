//! Tables that are being read, entry by entry.

ghost use Rattle.std.specs.Prelude.{◌≡◌, ◌≢◌, ℕ, ◌+◌, ◌-◌, ◌^◌, ◌<◌, ◌≤◌, List, [], ◌∷◌, ◌++◌, length};
ghost use Rattle.std.specs.Prelude.{Option, None, Some, OnOk, IfOk, IfErr};
ghost use Rattle.bn_csv.specs.Entries.{entries_of};
ghost use Rattle.bn_csv.specs.Faults.{fault_from, limited};

use crate::entries::{Entries, Entry};
use bn_lists::NoMemory;
use std::alloc::Global;

/// A table that is being read. It receives one entry after another, each with its number, counted from 1.
pub trait TableDraft: Drop {
    ghost use Rattle.bn_lists.specs.declared.memory.NoMemory.{NoMemory};

    /// Why bytes are refused as a table.
    type Refusal: From<NoMemory> + Drop;

    /// The most entries of a table.
    const MOST_ENTRIES: u32;

    ghost MOST_ENTRIES: { ℕ };

    /// The draft contains exactly what its entries define.
    ghost is_draft: { Self → Type 0 };

    /// The entries that it has taken.
    ghost taken: { Self → List (List (List ℕ)) };

    /// The fault of the fields of the entry with this number, if they have one.
    ghost form_fault: { ℕ → List (List ℕ) → Option Self.Refusal };

    /// The refusal of the entry with this number if it exceeds the most entries.
    ghost too_many: { ℕ → Self.Refusal };

    /// The refusal if memory ran out.
    ghost no_memory: { Self.Refusal };

    /// The refusal of the entry with this number, one more than the most entries.
    fn too_many(entry: u32) -> Self::Refusal
        ensures { result ≡ too_many entry };

    /// Adds the next entry, or returns the first fault of its fields.
    fn add_entry(&mut self, entry: &Entry, number: u32) -> Result<(), Self::Refusal>
        requires draft { is_draft self.old }
        requires number { number ≡ length (taken self.old) + 1 }
        requires few { number ≤ MOST_ENTRIES }
        ensures ok { OnOk result (is_draft self.new × (taken self.new ≡ taken self.old ++ entry.now ∷ [])) }
        ensures passes { OnOk result (form_fault number entry.now ≡ None) }
        ensures fault { IfErr result (λ e. e ≢ no_memory → form_fault number entry.now ≡ Some e) };

    /// `NoMemory` is reported as the refusal `no_memory`.
    ghost wants: { (n : NoMemory) (e : Self.Refusal) → Self.Refusal.from_gives n e → e ≡ no_memory };
}

/// Reads the entries of some bytes into an empty draft. On success the draft contains all of them. Each refusal, other
/// than that memory ran out, is the first fault of the first faulty entry.
pub fn read_entries<D: TableDraft>(
    alloc: Global,
    bytes: &[u8],
    mut draft: D,
) -> Result<D, D::Refusal>
    requires draft { D.is_draft draft }
    requires none { D.taken draft ≡ [] }
    requires limit { D.MOST_ENTRIES < 2 ^ 32 - 1 }
    ensures draft { IfOk result D.is_draft }
    ensures taken { IfOk result (λ d. D.taken d ≡ entries_of bytes.now) }
    ensures few { IfOk result (λ d. length (D.taken d) ≤ D.MOST_ENTRIES) }
    ensures passes { OnOk result
        (fault_from (limited D.MOST_ENTRIES D.too_many D.form_fault) 1 (entries_of bytes.now) ≡ None) }
    ensures refused { IfErr result (λ e. e ≢ D.no_memory
        → fault_from (limited D.MOST_ENTRIES D.too_many D.form_fault) 1 (entries_of bytes.now) ≡ Some e) }
{
    let mut entries = Entries::new(alloc, bytes);
    let mut entry = Entry::new(alloc);
    let mut count = 0;
    'entries: while entries.read_entry(&mut entry)? {
        if count == D::MOST_ENTRIES {
            return Err(D::too_many(count + 1));
        }
        count += 1;
        draft.add_entry(&entry, count)?;
    }
    Ok(draft)
}
