//! Writing all bytes to a sink.
ghost use Rattle.std.specs.Prelude.{◌≡◌, ◌≤◌, OnOk, OnErr};
ghost use Rattle.bn_io.specs.Faults.{HasCause};
ghost use Rattle.bn_io.specs.Told.{Grows, GrowsByFront};

use crate::sinks::{Sink, SinkFailed};

/// The sink failed before it had taken all the bytes.
#[derive(Clone, Copy, Debug, PartialEq, Eq)]
pub struct WriteFault;

/// Gives all of `bytes` to the sink, in as many calls as needed, with at least one byte per call. The error is
/// `WriteFault` only if the sink's count of faults rose in this call or is at its last value, and the sink has then
/// taken a prefix of `bytes`. Allocates no memory.
pub fn write_all<K: Sink>(sink: &mut K, bytes: &[u8]) -> Result<(), WriteFault>
    ensures whole { OnOk result (Grows (K.taken sink.old) (K.taken sink.new) bytes.now) }
    ensures front { OnErr result (GrowsByFront (K.taken sink.old) (K.taken sink.new) bytes.now) }
    ensures cause { HasCause (K.faults sink.old) (K.faults sink.new) result }
{
    let mut rest = bytes;
    while !rest.is_empty() {
        match sink.give(rest) {
            Ok(count) => rest = &rest[count..],
            Err(SinkFailed) => return Err(WriteFault),
        }
    }
    Ok(())
}
