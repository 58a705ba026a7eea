//! What the commands on configuration texts share: writing a text in pieces, and reporting why none was read.

ghost use Rattle.std.specs.Prelude.{◌≡◌};
ghost use Rattle.bn_io.specs.Faults.{CountsUnless};
ghost use Rattle.bn_netlist_laws.specs.Spelling.{Admits, IsTextOf};
ghost use Rattle.bn_reply.specs.Ends.{TextEnds};
ghost use Rattle.bn_reply_circuits.specs.Refused.{UnreadEnds};

use crate::refuse::refuse_config;
use bn_io::Sink;
use bn_netlist::{FromRefusal, Spellable, ToRefusal, write_config_to};
use bn_reply::{Status, give_reply, tell_long_input, tell_read_fault};
use std::alloc::Global;

/// Writes the text of a configuration that may be spelled in its version, in pieces. If the sink fails or memory runs
/// out, the sink has received a prefix of it.
pub fn give_config<K: Sink, C: Spellable>(alloc: Global, sink: &mut K, config: &C) -> Status
    requires { Admits (C.version config.now) (C.spelling config.now) }
    ensures ends { TextEnds (IsTextOf (C.version config.now) (C.spelling config.now)) result (K.taken sink.old)
        (K.taken sink.new) (K.faults sink.old) (K.faults sink.new) }
    ensures later { CountsUnless (result ≡ Status.WriteFault) (K.faults sink.old) (K.faults sink.new) }
{
    match write_config_to(alloc, sink, config) {
        Ok(()) => Status::Done,
        Err(ToRefusal::WriteFault) => Status::WriteFault,
        Err(ToRefusal::NoMemory) => Status::NoMemory,
    }
}

/// Reports why no configuration text was read: the line of the refusal, with its status.
pub fn refuse_input<K: Sink>(alloc: Global, sink: &mut K, refusal: FromRefusal) -> Status
    ensures ends { UnreadEnds refusal result (K.taken sink.old) (K.taken sink.new) (K.faults sink.old)
        (K.faults sink.new) }
    ensures later { CountsUnless (result ≡ Status.WriteFault) (K.faults sink.old) (K.faults sink.new) }
{
    match refusal {
        FromRefusal::ReadFault => tell_read_fault(sink),
        FromRefusal::TooLong => tell_long_input(sink),
        FromRefusal::Text(refusal) => give_reply(sink, refuse_config(alloc, refusal)),
        FromRefusal::NoMemory => Status::NoMemory,
    }
}
