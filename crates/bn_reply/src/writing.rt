//! The end of every command that writes.

ghost use Rattle.std.specs.Prelude.{◌≡◌};
ghost use Rattle.bn_io.specs.Faults.{CountsUnless};
ghost use Rattle.bn_reply.specs.Ends.{Finishes, FinishesReply};
ghost use Rattle.bn_reply.specs.Streams.{read_fault_text, size_text};

use crate::reply::Reply;
use crate::status::Status;
use bn_io::{Sink, write_all};
use bn_lists::NoMemory;

/// Writes a text and returns the status, or `WriteFault` if the sink failed.
pub fn finish<K: Sink>(sink: &mut K, text: &[u8], status: Status) -> Status
    ensures ends { Finishes status result (K.taken sink.old) (K.taken sink.new) (K.faults sink.old)
        (K.faults sink.new) text.now }
    ensures later { CountsUnless (result ≡ Status.WriteFault) (K.faults sink.old) (K.faults sink.new) }
{
    match write_all(sink, text) {
        Ok(()) => status,
        Err(_) => Status::WriteFault,
    }
}

/// Gives a reply and returns its status, or `WriteFault` if the sink failed; if there is no reply, gives nothing and
/// returns `NoMemory`.
pub fn give_reply<K: Sink>(sink: &mut K, reply: Result<Reply, NoMemory>) -> Status
    ensures ends { FinishesReply reply result (K.taken sink.old) (K.taken sink.new) (K.faults sink.old)
        (K.faults sink.new) }
    ensures later { CountsUnless (result ≡ Status.WriteFault) (K.faults sink.old) (K.faults sink.new) }
{
    match reply {
        Ok(reply) => finish(sink, reply.text.as_slice(), reply.status),
        Err(NoMemory) => Status::NoMemory,
    }
}

/// Reports that the source failed.
pub fn tell_read_fault<K: Sink>(sink: &mut K) -> Status
    ensures ends { Finishes Status.ReadFault result (K.taken sink.old) (K.taken sink.new) (K.faults sink.old)
        (K.faults sink.new) read_fault_text }
    ensures later { CountsUnless (result ≡ Status.WriteFault) (K.faults sink.old) (K.faults sink.new) }
{
    finish(sink, b"read fault\n", Status::ReadFault)
}

/// Reports that the input is longer than `MOST_INPUT_BYTES`.
pub fn tell_long_input<K: Sink>(sink: &mut K) -> Status
    ensures ends { Finishes Status.Size result (K.taken sink.old) (K.taken sink.new) (K.faults sink.old)
        (K.faults sink.new) size_text }
    ensures later { CountsUnless (result ≡ Status.WriteFault) (K.faults sink.old) (K.faults sink.new) }
{
    finish(sink, b"size: input\n", Status::Size)
}
