//! The entries of some bytes, one at a time.

ghost use Rattle.std.specs.Prelude.{◌≡◌, ◌<◌, [], ◌∷◌, length, slice_get, Some, IfOk, OnErr, MatchBool, ⊤, ◌==◌};
ghost use Rattle.csv.specs.Records.{fields_of};
ghost use Rattle.bn_csv.specs.Entries.{entries_of};
ghost use Rattle.bn_csv.specs.Left.{left_of, IsReading};

use bn_lists::NoMemory;
use csv::{ByteRecord, ErrorKind, Reader, ReaderBuilder};
use std::alloc::Global;
use std::marker::Model;

/// One entry of a table: its fields, each a run of bytes. Contracts see it as the list of them.
#[derive(Drop)]
pub struct Entry {
    record: ByteRecord,
}

impl Model for Entry {
    ghost use Rattle.std.specs.Prelude.{ℕ, List};
    ghost use Rattle.csv.specs.Records.{fields_of};

    ghost Value = { List (List ℕ) };

    ghost view = { λ e. fields_of e.record };
}

impl Entry {
    /// An entry with no fields, to be filled by `Entries::read_entry`.
    pub fn new(alloc: Global) -> Entry
        ensures { result ≡ [] }
    {
        Entry {
            record: ByteRecord::new(alloc),
        }
    }

    /// How many fields it has.
    pub fn len(&self) -> usize
        ensures { result ≡ length self.now }
    {
        self.record.len()
    }

    /// Whether it has no field.
    pub fn is_empty(&self) -> bool
        ensures { result ≡ (length self.now == 0) }
    {
        self.record.is_empty()
    }

    /// The field at a place, counted from 0.
    pub fn field(&self, place: usize) -> &[u8]
        requires { place < length self.now }
        ensures { slice_get self.now place ≡ Some result.now }
    {
        match self.record.get(place) {
            Some(field) => field,
            None => unreachable!(),
        }
    }
}

// Reads the next record, if there is one. A reader over a slice has no device that could fail. Therefore the one error
// that its contract leaves open is returned as `NoMemory`.
fn take_record(reader: &mut Reader<&[u8]>, row: &mut ByteRecord) -> Result<bool, NoMemory>
    requires { IsReading reader.old }
    ensures more { IfOk result (λ found.
        MatchBool found (left_of reader.old ≡ fields_of row.new ∷ left_of reader.new) (left_of reader.old ≡ [])) }
    ensures goes_on { IfOk result (λ found. MatchBool found (IsReading reader.new) ⊤) }
{
    match reader.read_byte_record(row) {
        Ok(found) => Ok(found),
        Err(error) => match error.into_kind() {
            ErrorKind::Io(_) | ErrorKind::OutOfMemory => Err(NoMemory),
            _ => unreachable!(),
        },
    }
}

/// A reader of the entries of some bytes. Contracts see it as the list of the entries that are left.
#[derive(Drop)]
pub struct Entries<'a> {
    reader: Reader<&'a [u8]>,
    ended: bool,
}

impl<'a> Model for Entries<'a> {
    ghost use Rattle.std.specs.Prelude.{◌≡◌, ℕ, List, [], false, if◌then◌else◌};

    ghost Value = { List (List (List ℕ)) };

    ghost use Rattle.bn_csv.specs.Left.{left_of, IsReading};

    ghost view = { λ s. if s.ended then [] else left_of s.reader };

    ghost invariant = { λ s. s.ended ≡ false → IsReading s.reader };
}

impl<'a> Entries<'a> {
    /// A reader of all entries of `bytes`. Allocates no memory.
    pub fn new(alloc: Global, bytes: &'a [u8]) -> Entries<'a>
        ensures { result ≡ entries_of bytes.now }
    {
        let reader = ReaderBuilder::new()
            .has_headers(false)
            .flexible(true)
            .from_reader(alloc, bytes);
        Entries {
            reader,
            ended: false,
        }
    }

    /// Reads the next entry into `entry`, and returns whether there was one. After `NoMemory` no entry is left.
    pub fn read_entry(&mut self, entry: &mut Entry) -> Result<bool, NoMemory>
        ensures ok { IfOk result (λ found.
            MatchBool found (self.old ≡ entry.new ∷ self.new) ((self.old ≡ []) × (self.new ≡ []))) }
        ensures err { OnErr result (self.new ≡ []) }
    {
        if self.ended {
            return Ok(false);
        }
        match take_record(&mut self.reader, &mut entry.record) {
            Ok(found) => {
                self.ended = !found;
                Ok(found)
            }
            Err(NoMemory) => {
                self.ended = true;
                Err(NoMemory)
            }
        }
    }
}
