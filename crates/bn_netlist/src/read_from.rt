//! Reading a configuration text from an input.

ghost use Rattle.std.specs.Prelude.{◌≡◌, ◌≢◌, ◌+◌, ◌-◌, ◌<◌, ◌≤◌, ℕ, List, [], length, take, min, IfOk, IfErr, IsErrOf};
ghost use Rattle.std.specs.Prelude.{IfSome};
ghost use Rattle.bn_io.specs.Faults.{Rose, StaysUnless};
ghost use Rattle.bn_io.specs.Told.{ReadsWithin};
ghost use Rattle.bn_netlist_laws.specs.Spelling.{Spelled};
ghost use Rattle.bn_netlist.specs.NetText.{spelling_of};
ghost use Rattle.bn_netlist.specs.FromText.{IsFromRefusal, HasWhole, Ends};
ghost use Rattle.bn_netlist.specs.Coming.{HaveCome, ComeSome};

use crate::from_wires::FromWires;
use crate::line_refusal::NetlistRefusal;
use crate::net_config::NetConfig;
use crate::pieces::Pieces;
use crate::refusal::FromRefusal;
use bn_io::{CHUNK, Input, Source, SourceFailed, piece_size};
use std::alloc::Global;

/// Reads a configuration text of either version from an input, to its end, as a net with its configuration or as a
/// packed net; for a packed net, no net of elements is built beside it. Of a source only a short part of the text is
/// in memory; an input that lends its bytes is read in place. The refusals are checked in this order. `ReadFault` is
/// returned only if the input's count of faults rose in this call or is at its last value; otherwise the count is
/// unchanged. `TooLong` is returned exactly if the input gave more than `limit` bytes. `Text` is returned exactly if
/// the bytes taken have a fault, and it names their first fault. After a faulty line the call goes on to take bytes to
/// the end of input. (This project's own profile.)
pub fn read_text<C: FromWires, I: Input>(
    alloc: Global,
    input: &mut I,
    limit: u64,
) -> Result<C, FromRefusal>
    ensures taken { (piece : List ℕ) × ReadsWithin (I.left input.old) (I.left input.new) limit
        (IsErrOf result FromRefusal.TooLong) piece
        × IfOk result (λ c. Spelled (C.version c) (C.spelling c) piece)
        × IfErr result (IsFromRefusal piece) }
    ensures whole { IfOk result (λ _. Ends (I.left input.old) (I.left input.new)) }
    ensures refused_whole { IfErr result (λ r. HasWhole r → Ends (I.left input.old) (I.left input.new)) }
    ensures later { I.faults input.old ≤ I.faults input.new }
    ensures read_fault { IsErrOf result FromRefusal.ReadFault →
        Rose (I.faults input.old) (I.faults input.new) }
    ensures stays { StaysUnless (IsErrOf result FromRefusal.ReadFault) (I.faults input.old)
        (I.faults input.new) }
    ensures in_time { I.open input.old → I.overrun input.new → I.overrun input.old }
{
    let pieces = read_input(alloc, input, limit)?;
    config_of(alloc, pieces)
}

/// Reads a configuration text from a source as `read_text` does.
pub fn read_config_from<S: Source>(
    alloc: Global,
    source: &mut S,
    limit: u64,
) -> Result<NetConfig, FromRefusal>
    ensures taken { (piece : List ℕ) × ReadsWithin (S.left source.old) (S.left source.new) limit
        (IsErrOf result FromRefusal.TooLong) piece
        × IfOk result (λ c. Spelled c.version (spelling_of c) piece)
        × IfErr result (IsFromRefusal piece) }
    ensures whole { IfOk result (λ _. Ends (S.left source.old) (S.left source.new)) }
    ensures refused_whole { IfErr result (λ r. HasWhole r → Ends (S.left source.old) (S.left source.new)) }
    ensures later { S.faults source.old ≤ S.faults source.new }
    ensures read_fault { IsErrOf result FromRefusal.ReadFault →
        Rose (S.faults source.old) (S.faults source.new) }
    ensures stays { StaysUnless (IsErrOf result FromRefusal.ReadFault) (S.faults source.old)
        (S.faults source.new) }
    ensures in_time { S.open source.old → S.overrun source.new → S.overrun source.old }
{
    read_text(alloc, source, limit)
}

// The configuration of a text that has been received whole.
fn config_of<C: FromWires>(alloc: Global, pieces: Pieces) -> Result<C, FromRefusal>
    requires { ComeSome pieces }
    ensures spelled { IfOk result (λ c. (text : List ℕ) → HaveCome pieces text
        → Spelled (C.version c) (C.spelling c) text) }
    ensures refused { IfErr result (λ r. (text : List ℕ) → HaveCome pieces text → IsFromRefusal text r) }
    ensures no_read_fault { IfErr result (λ r. r ≢ FromRefusal.ReadFault) }
    ensures short { IfErr result (λ r. r ≢ FromRefusal.TooLong) }
{
    match pieces.finish(alloc) {
        Ok(config) => Ok(config),
        Err(NetlistRefusal::NoMemory) => Err(FromRefusal::NoMemory),
        Err(refusal) => Err(FromRefusal::Text(refusal)),
    }
}

// Takes all pieces of the text to the end of input: either one piece that is lent, or piece after piece.
fn read_input<I: Input>(alloc: Global, input: &mut I, limit: u64) -> Result<Pieces, FromRefusal>
    ensures taken { (piece : List ℕ) × ReadsWithin (I.left input.old) (I.left input.new) limit
        (IsErrOf result FromRefusal.TooLong) piece
        × IfOk result (λ p. HaveCome p piece) }
    ensures whole { IfOk result (λ _. Ends (I.left input.old) (I.left input.new)) }
    ensures no_text { IfErr result (λ r. HasWhole r → ⊥) }
    ensures later { I.faults input.old ≤ I.faults input.new }
    ensures read_fault { IsErrOf result FromRefusal.ReadFault →
        Rose (I.faults input.old) (I.faults input.new) }
    ensures stays { StaysUnless (IsErrOf result FromRefusal.ReadFault) (I.faults input.old)
        (I.faults input.new) }
    ensures in_time { I.open input.old → I.overrun input.new → I.overrun input.old }
{
    let Ok(start) = Pieces::new(alloc) else {
        return Err(FromRefusal::NoMemory);
    };
    match input.rest() {
        Some(bytes) if bytes.len() as u64 <= limit => {
            let count = bytes.len();
            let Ok(pieces) = start.push(alloc, bytes) else {
                return Err(FromRefusal::NoMemory);
            };
            input.take_lent(count);
            Ok(pieces)
        }
        _ => {
            let Ok(mut buffer) = vec![in alloc; 0u8; CHUNK] else {
                return Err(FromRefusal::NoMemory);
            };
            read_pieces(alloc, start, input, buffer.as_mut_slice(), limit)
        }
    }
}

// Takes all pieces of the text through `buffer`, to the end of input.
fn read_pieces<I: Input>(
    alloc: Global,
    start: Pieces,
    input: &mut I,
    buffer: &mut [u8],
    limit: u64,
) -> Result<Pieces, FromRefusal>
    requires space { 0 < length buffer.old }
    requires begun { HaveCome start [] }
    ensures taken { (piece : List ℕ) × ReadsWithin (I.left input.old) (I.left input.new) limit
        (IsErrOf result FromRefusal.TooLong) piece
        × IfOk result (λ p. HaveCome p piece) }
    ensures whole { IfOk result (λ _. Ends (I.left input.old) (I.left input.new)) }
    ensures no_text { IfErr result (λ r. HasWhole r → ⊥) }
    ensures later { I.faults input.old ≤ I.faults input.new }
    ensures read_fault { IsErrOf result FromRefusal.ReadFault →
        Rose (I.faults input.old) (I.faults input.new) }
    ensures stays { StaysUnless (IsErrOf result FromRefusal.ReadFault) (I.faults input.old)
        (I.faults input.new) }
    ensures in_time { I.open input.old → I.overrun input.new → I.overrun input.old }
{
    let mut pieces = start;
    let mut taken: u64 = 0;
    loop {
        let count = read_piece(input, buffer, limit - taken)?;
        if count == 0 {
            return Ok(pieces);
        }
        let Ok(next) = pieces.push(alloc, &buffer[..count]) else {
            return Err(FromRefusal::NoMemory);
        };
        pieces = next;
        taken += count as u64;
    }
}

// Takes the next bytes into the front of `buffer`, and returns how many: 0 only at the end of input.
fn read_piece<I: Input>(input: &mut I, buffer: &mut [u8], room: u64) -> Result<usize, FromRefusal>
    requires { 0 < length buffer.old }
    ensures taken { (piece : List ℕ) × ReadsWithin (I.left input.old) (I.left input.new) room
        (IsErrOf result FromRefusal.TooLong) piece
        × IfOk result (λ c. piece ≡ take c buffer.new) }
    ensures bound { IfOk result (λ c. c ≤ length buffer.old) }
    ensures within { IfOk result (λ c. c ≤ room) }
    ensures ended { IfOk result (λ c. c ≡ 0 → Ends (I.left input.old) (I.left input.new)) }
    ensures goes_on { IfOk result (λ c. 0 < c → I.open input.old → I.open input.new) }
    ensures no_text { IfErr result (λ r. HasWhole r → ⊥) }
    ensures later { I.faults input.old ≤ I.faults input.new }
    ensures read_fault { IsErrOf result FromRefusal.ReadFault →
        Rose (I.faults input.old) (I.faults input.new) }
    ensures stays { StaysUnless (IsErrOf result FromRefusal.ReadFault) (I.faults input.old)
        (I.faults input.new) }
    ensures in_time { I.open input.old → I.overrun input.new → I.overrun input.old }
{
    let asked = piece_size(room, buffer.len());
    let count = match input.take(&mut buffer[..asked]) {
        Ok(count) => count,
        Err(SourceFailed) => return Err(FromRefusal::ReadFault),
    };
    if count as u64 > room {
        return Err(FromRefusal::TooLong);
    }
    Ok(count)
}
