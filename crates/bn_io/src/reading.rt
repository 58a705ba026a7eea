//! Reading a whole input within a limit.
ghost use Rattle.std.specs.Prelude.{◌≡◌, ◌↔◌, ℕ, ◌+◌, ◌-◌, ◌<◌, ◌≤◌, List, [], ◌++◌, length, min, vec_len, false, IfOk};
ghost use Rattle.std.specs.Prelude.{IfErr, OnOk, IfSome, IsErrOf, IsTrue};
ghost use Rattle.bn_io.specs.Faults.{Rose, StaysUnless};
ghost use Rattle.bn_io.specs.Told.{ReadsWithin};

use crate::input::Input;
use crate::sources::{Source, SourceFailed};
use std::alloc::{AllocError, Global};

/// The greatest number of bytes that one call requests from a source.
pub const CHUNK: usize = 65536;

/// Why an input was not read whole.
#[derive(Clone, Copy, Debug, PartialEq, Eq)]
pub enum ReadRefusal {
    /// The source failed.
    ReadFault,
    /// The source gave more bytes than the limit.
    TooLong,
    /// Memory ran out.
    NoMemory,
}

impl From<AllocError> for ReadRefusal {
    ghost use Rattle.std.specs.Prelude.{◌≡◌};
    ghost use Rattle.bn_io.specs.declared.reading.ReadRefusal.TheVariants.{NoMemory};

    ghost from_gives = { λ _ e. e ≡ NoMemory };

    fn from(_error: AllocError) -> ReadRefusal {
        ReadRefusal::NoMemory
    }
}

/// Reads to the end of input, and returns all the bytes, which are at most `limit`. The error is `TooLong` exactly if
/// the source gave more than `limit` bytes; the read ends at the first byte above the limit. It is `ReadFault` only if
/// the source's count of faults rose in this call or is at its last value; after any other result the count is
/// unchanged. After each result, a source that made its bytes known still does, and has lost just those that were read.
pub fn read_all<S: Source>(
    alloc: Global,
    source: &mut S,
    limit: u64,
) -> Result<Vec<u8>, ReadRefusal>
    ensures whole { IfOk result (λ bytes. IfSome (S.left source.old)
        (λ xs. (bytes.items ≡ xs) × (S.left source.new ≡ Some []))) }
    ensures within { IfOk result (λ bytes. vec_len bytes ≤ limit) }
    ensures too_long { IsErrOf result ReadRefusal.TooLong → IfSome (S.left source.old)
        (λ xs. limit < length xs) }
    ensures taken { (piece : List ℕ) × ReadsWithin (S.left source.old) (S.left source.new) limit
        (IsErrOf result ReadRefusal.TooLong) piece }
    ensures later { S.faults source.old ≤ S.faults source.new }
    ensures read_fault { IsErrOf result ReadRefusal.ReadFault →
        Rose (S.faults source.old) (S.faults source.new) }
    ensures stays { StaysUnless (IsErrOf result ReadRefusal.ReadFault) (S.faults source.old)
        (S.faults source.new) }
    ensures in_time { S.open source.old → S.overrun source.new → S.overrun source.old }
{
    read_whole(alloc, source, limit)
}

/// Reads any input to its end, as `read_all` does for a source.
pub fn read_whole<I: Input>(
    alloc: Global,
    input: &mut I,
    limit: u64,
) -> Result<Vec<u8>, ReadRefusal>
    ensures whole { IfOk result (λ bytes. IfSome (I.left input.old)
        (λ xs. (bytes.items ≡ xs) × (I.left input.new ≡ Some []))) }
    ensures within { IfOk result (λ bytes. vec_len bytes ≤ limit) }
    ensures too_long { IsErrOf result ReadRefusal.TooLong → IfSome (I.left input.old)
        (λ xs. limit < length xs) }
    ensures taken { (piece : List ℕ) × ReadsWithin (I.left input.old) (I.left input.new) limit
        (IsErrOf result ReadRefusal.TooLong) piece }
    ensures later { I.faults input.old ≤ I.faults input.new }
    ensures read_fault { IsErrOf result ReadRefusal.ReadFault →
        Rose (I.faults input.old) (I.faults input.new) }
    ensures stays { StaysUnless (IsErrOf result ReadRefusal.ReadFault) (I.faults input.old)
        (I.faults input.new) }
    ensures in_time { I.open input.old → I.overrun input.new → I.overrun input.old }
{
    let mut buffer = chunk(alloc)?;
    let mut bytes = Vec::new(alloc);
    read_onto(input, buffer.as_mut_slice(), &mut bytes, limit)?;
    Ok(bytes)
}

// A buffer for one call of a source.
fn chunk(alloc: Global) -> Result<Vec<u8>, ReadRefusal>
    ensures room { IfOk result (λ buffer. 0 < vec_len buffer) }
    ensures refused { IfErr result (λ e. e ≡ ReadRefusal.NoMemory) }
{
    let buffer = vec![in alloc; 0u8; CHUNK]?;
    Ok(buffer)
}

// Reads to the end of input, through `buffer`, into `bytes`, which is empty at first.
fn read_onto<I: Input>(
    input: &mut I,
    buffer: &mut [u8],
    bytes: &mut Vec<u8>,
    limit: u64,
) -> Result<(), ReadRefusal>
    requires space { 0 < length buffer.old }
    requires empty { bytes.old.items ≡ [] }
    ensures whole { OnOk result (IfSome (I.left input.old)
        (λ xs. (bytes.new.items ≡ xs) × (I.left input.new ≡ Some []))) }
    ensures within { OnOk result (vec_len bytes.new ≤ limit) }
    ensures taken { (piece : List ℕ) × ReadsWithin (I.left input.old) (I.left input.new) limit
        (IsErrOf result ReadRefusal.TooLong) piece }
    ensures later { I.faults input.old ≤ I.faults input.new }
    ensures read_fault { IsErrOf result ReadRefusal.ReadFault →
        Rose (I.faults input.old) (I.faults input.new) }
    ensures stays { StaysUnless (IsErrOf result ReadRefusal.ReadFault) (I.faults input.old)
        (I.faults input.new) }
    ensures in_time { I.open input.old → I.overrun input.new → I.overrun input.old }
{
    while !read_piece(input, buffer, bytes, limit)? {}
    Ok(())
}

// Appends the next bytes to `bytes`, through `buffer`, and returns whether the input has ended.
fn read_piece<I: Input>(
    input: &mut I,
    buffer: &mut [u8],
    bytes: &mut Vec<u8>,
    limit: u64,
) -> Result<bool, ReadRefusal>
    requires space { 0 < length buffer.old }
    requires within { vec_len bytes.old ≤ limit }
    ensures taken { (piece : List ℕ) × ReadsWithin (I.left input.old) (I.left input.new)
        (limit - vec_len bytes.old) (IsErrOf result ReadRefusal.TooLong) piece
        × OnOk result (bytes.new.items ≡ bytes.old.items ++ piece) }
    ensures ended { IfOk result (λ ended. IsTrue ended →
        (bytes.new.items ≡ bytes.old.items)
        × IfSome (I.left input.old) (λ xs. (xs ≡ []) × (I.left input.new ≡ Some []))) }
    ensures more { IfOk result (λ ended. ended ≡ false → vec_len bytes.old < vec_len bytes.new) }
    ensures goes_on { IfOk result (λ ended. ended ≡ false → I.open input.old → I.open input.new) }
    ensures within { OnOk result (vec_len bytes.new ≤ limit) }
    ensures later { I.faults input.old ≤ I.faults input.new }
    ensures read_fault { IsErrOf result ReadRefusal.ReadFault →
        Rose (I.faults input.old) (I.faults input.new) }
    ensures stays { StaysUnless (IsErrOf result ReadRefusal.ReadFault) (I.faults input.old)
        (I.faults input.new) }
    ensures in_time { I.open input.old → I.overrun input.new → I.overrun input.old }
{
    let room = limit - bytes.len() as u64;
    let asked = piece_size(room, buffer.len());
    let count = match input.take(&mut buffer[..asked]) {
        Ok(count) => count,
        Err(SourceFailed) => return Err(ReadRefusal::ReadFault),
    };
    if count as u64 > room {
        return Err(ReadRefusal::TooLong);
    }
    bytes.extend_from_slice(&buffer[..count])?;
    Ok(count == 0)
}

/// The number of bytes to request from a source: the space, but at most one more than the number `room` of bytes that
/// may still come.
pub fn piece_size(room: u64, space: usize) -> usize
    ensures { result ≡ min space (room + 1) }
{
    if room < space as u64 {
        room as usize + 1
    } else {
        space
    }
}
