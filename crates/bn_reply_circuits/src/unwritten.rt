//! An answer that is not written yet.

ghost use Rattle.std.specs.Prelude.{◌≡◌, Option, List, []};
ghost use Rattle.bn_io.specs.Faults.{CountsUnless};
ghost use Rattle.bn_circuits.specs.declared.place.Place.{Place};
ghost use Rattle.bn_reply.specs.Streams.{AnswerEnds};
ghost use Rattle.bn_reply_circuits.specs.Unwritten.{IsWritable, IsWrittenAs};

use crate::config::give_config;
use bn_io::Sink;
use bn_netlist::{NetConfig, PackedConfig};
use bn_reply::{Reply, Status, give_reply};
use std::alloc::Global;

/// An answer that is not written yet: a reply, or the configuration whose text it is.
#[derive(Drop)]
pub enum Unwritten {
    /// A reply.
    Line(Reply),
    /// The text of this configuration, in its version, with the status `Done`.
    Config(NetConfig),
    /// The text of this configuration, of a packed net, in its version, with the status `Done`.
    Packed(PackedConfig),
}

impl Unwritten {
    /// Writes the answer to a sink, the text of a configuration in pieces, and returns its status; `WriteFault` if the
    /// sink failed, and `NoMemory` if memory ran out.
    pub fn give<K: Sink>(self, alloc: Global, sink: &mut K) -> Status
        requires { IsWritable self }
        ensures ends { (told : Option (List Place)) →
            AnswerEnds (λ status text places. IsWrittenAs self status text × (places ≡ [])) result
            (K.taken sink.old) (K.taken sink.new) (K.faults sink.old) (K.faults sink.new) told told }
        ensures later { CountsUnless (result ≡ Status.WriteFault) (K.faults sink.old) (K.faults sink.new) }
    {
        match self {
            Unwritten::Line(reply) => give_reply(sink, Ok(reply)),
            Unwritten::Config(config) => give_config(alloc, sink, &config),
            Unwritten::Packed(config) => give_config(alloc, sink, &config),
        }
    }
}
