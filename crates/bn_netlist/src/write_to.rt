//! Writing a configuration text to a sink.

ghost use Rattle.std.specs.Prelude.{◌≡◌, ◌≤◌, [], ℕ, List, OnOk, OnErr, IsErrOf};
ghost use Rattle.bn_io.specs.Faults.{Rose, StaysUnless};
ghost use Rattle.bn_io.specs.Told.{Grows, GrowsByFront};
ghost use Rattle.bn_netlist_laws.specs.Sentences.{lines_text};
ghost use Rattle.bn_netlist_laws.specs.Spelling.{Admits, IsTextOf, header_then, header_of};

use crate::cursor::Place;
use crate::refusal::ToRefusal;
use crate::spellable::Spellable;
use crate::write::{push_header, push_line};
use bn_io::{Sink, WriteFault, give_pieces, write_all};
use std::alloc::Global;

/// Writes the one text of a configuration that its version admits to a sink, in pieces of 4,096 bytes, the last one
/// shorter. At most a piece and a line of the text are in memory. `WriteFault` is returned only if the sink's count of
/// faults rose in this call or is at its last value; otherwise the count is unchanged. After `WriteFault`, and if
/// memory ran out, the sink has received a prefix of the text. (This project's own profile.)
pub fn write_config_to<K: Sink, C: Spellable>(
    alloc: Global,
    sink: &mut K,
    config: &C,
) -> Result<(), ToRefusal>
    requires { Admits (C.version config.now) (C.spelling config.now) }
    ensures whole { OnOk result ((text : List ℕ) → IsTextOf (C.version config.now) (C.spelling config.now) text →
        Grows (K.taken sink.old) (K.taken sink.new) text) }
    ensures front { OnErr result ((text : List ℕ) → IsTextOf (C.version config.now) (C.spelling config.now) text →
        GrowsByFront (K.taken sink.old) (K.taken sink.new) text) }
    ensures later { K.faults sink.old ≤ K.faults sink.new }
    ensures write_fault { IsErrOf result ToRefusal.WriteFault →
        Rose (K.faults sink.old) (K.faults sink.new) }
    ensures stays { StaysUnless (IsErrOf result ToRefusal.WriteFault) (K.faults sink.old) (K.faults sink.new) }
{
    let mut text = Vec::new(alloc);
    let Ok(()) = push_header(&mut text, config) else {
        return Err(ToRefusal::NoMemory);
    };
    give_entries(sink, &mut text, config)
}

// Writes the header in `text`, and then the lines of all elements.
fn give_entries<K: Sink, C: Spellable>(
    sink: &mut K,
    text: &mut Vec<u8>,
    config: &C,
) -> Result<(), ToRefusal>
    requires admitted { Admits (C.version config.now) (C.spelling config.now) }
    requires header { text.old.items
        ≡ lines_text (header_then (header_of (C.version config.now) (C.spelling config.now)) []) }
    ensures whole { OnOk result ((whole : List ℕ) → IsTextOf (C.version config.now) (C.spelling config.now) whole →
        Grows (K.taken sink.old) (K.taken sink.new) whole) }
    ensures front { OnErr result ((whole : List ℕ) → IsTextOf (C.version config.now) (C.spelling config.now) whole →
        GrowsByFront (K.taken sink.old) (K.taken sink.new) whole) }
    ensures later { K.faults sink.old ≤ K.faults sink.new }
    ensures write_fault { IsErrOf result ToRefusal.WriteFault →
        Rose (K.faults sink.old) (K.faults sink.new) }
    ensures stays { StaysUnless (IsErrOf result ToRefusal.WriteFault) (K.faults sink.old) (K.faults sink.new) }
{
    let mut place = Place {
        element: 0,
        rows: 0,
    };
    for line in 0..config.len() {
        let Ok(next) = push_line(text, config, place) else {
            return Err(ToRefusal::NoMemory);
        };
        place = next;
        match give_pieces(sink, text) {
            Ok(()) => {}
            Err(WriteFault) => return Err(ToRefusal::WriteFault),
        }
    }
    match write_all(sink, text.as_slice()) {
        Ok(()) => Ok(()),
        Err(WriteFault) => Err(ToRefusal::WriteFault),
    }
}
