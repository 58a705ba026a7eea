//! The text of a table, one line for each entry.

ghost use Rattle.std.specs.Prelude.{◌≡◌, ◌++◌, [], true, map, OnOk, OnErr, IfOk};
ghost use Rattle.bn_csv.specs.Lines.{is_plain_entry, line_of};
ghost use Rattle.bn_csv.specs.Written.{text_of, IsBetween};

use bn_lists::NoMemory;
use csv::{Writer, WriterBuilder};
use std::alloc::Global;
use std::marker::Model;

/// A writer of entries that need no quotes, one line each. Contracts see it as the text so far.
#[derive(Drop)]
pub struct EntryWriter {
    writer: Writer<Vec<u8>>,
    failed: bool,
}

impl Model for EntryWriter {
    ghost use Rattle.std.specs.Prelude.{◌≡◌, ℕ, List, [], false, if◌then◌else◌};

    ghost Value = { List ℕ };

    ghost use Rattle.bn_csv.specs.Written.{text_of, IsBetween};

    ghost view = { λ s. if s.failed then [] else text_of s.writer };

    ghost invariant = { λ s. s.failed ≡ false → IsBetween s.writer };
}

// Writes one line.
fn put_entry(writer: &mut Writer<Vec<u8>>, fields: &[&[u8]]) -> Result<(), NoMemory>
    requires between { IsBetween writer.old }
    requires plain { is_plain_entry (map (λ f. f.now) fields.now) ≡ true }
    ensures text { OnOk result (text_of writer.new ≡ text_of writer.old ++ line_of (map (λ f. f.now) fields.now)) }
    ensures goes_on { OnOk result (IsBetween writer.new) }
{
    match writer.write_fields(fields) {
        Ok(()) => Ok(()),
        Err(_) => Err(NoMemory),
    }
}

impl EntryWriter {
    /// A writer of a new text. Allocates no memory.
    pub fn new(alloc: Global) -> EntryWriter
        ensures { result ≡ [] }
    {
        EntryWriter {
            writer: WriterBuilder::new()
                .flexible(true)
                .from_writer(Vec::new(alloc)),
            failed: false,
        }
    }

    /// Adds the line of an entry whose fields need no quotes. After `NoMemory` the text is lost.
    pub fn write_entry(&mut self, fields: &[&[u8]]) -> Result<(), NoMemory>
        requires plain { is_plain_entry (map (λ f. f.now) fields.now) ≡ true }
        ensures ok { OnOk result (self.new ≡ self.old ++ line_of (map (λ f. f.now) fields.now)) }
        ensures err { OnErr result (self.new ≡ []) }
    {
        if self.failed {
            return Err(NoMemory);
        }
        match put_entry(&mut self.writer, fields) {
            Ok(()) => Ok(()),
            Err(NoMemory) => {
                self.failed = true;
                Err(NoMemory)
            }
        }
    }

    /// The whole text.
    pub fn into_text(self) -> Result<Vec<u8>, NoMemory>
        ensures { IfOk result (λ text. text.items ≡ self) }
    {
        let EntryWriter { writer, failed } = self;
        if failed {
            return Err(NoMemory);
        }
        match writer.into_inner() {
            Ok(text) => Ok(text),
            Err(_) => Err(NoMemory),
        }
    }
}
