//! A desk to try the workbench at: everything in memory.

ghost use Rattle.std.specs.Prelude.{◌<◌};

use bn_circuits::{Quiet, Watch};
use bn_io::{MemSink, MemSource};
use bn_top::{Status, workbench};
use std::alloc::{AllocError, Global};
use std::process::Abort;
use std::test::Fail;

/// What the workbench answered.
#[derive(Drop)]
pub(crate) struct Outcome {
    pub(crate) status: Status,
    pub(crate) text: Vec<u8>,
}

/// A list of words for a command line.
pub(crate) fn words(alloc: Global, list: &[&str]) -> Result<Vec<String>, AllocError> {
    let mut words = Vec::new(alloc);
    for word in list {
        words.push(String::from_str(alloc, word)?)?;
    }
    Ok(words)
}

/// The answer to words and bytes under a watch, with ample memory and no fault. The source gives at
/// most 7 bytes a call and the sink takes at most 100.
pub(crate) fn answer_watched<W: Watch>(
    alloc: Global,
    list: &[&str],
    bytes: &[u8],
    watch: &mut W,
) -> Result<Outcome, AllocError> {
    answer_in_pieces(alloc, list, bytes, watch, 7, 100)
}

/// The same, where the source gives at most so many bytes a call, and the sink takes at most so many.
pub(crate) fn answer_in_pieces<W: Watch>(
    alloc: Global,
    list: &[&str],
    bytes: &[u8],
    watch: &mut W,
    given: usize,
    taken: usize,
) -> Result<Outcome, AllocError>
    requires given { 0 < given }
    requires taken { 0 < taken }
{
    let words = words(alloc, list)?;
    let mut source = MemSource::new(Vec::from_slice(alloc, bytes)?, given, Vec::new(alloc));
    let Ok(mut sink) = MemSink::try_new(alloc, 100_000, taken, Vec::new(alloc)) else {
        return Err(AllocError);
    };
    let status = workbench(alloc, &words, &mut source, &mut sink, watch);
    Ok(Outcome {
        status,
        text: Vec::from_slice(alloc, sink.taken())?,
    })
}

/// The row is held: to these words and this input the text is answered, with the status of this code.
fn hold_row(
    rt: &impl Abort,
    alloc: Global,
    list: &[&str],
    input: &str,
    code: u8,
    text: &str,
) -> Result<(), Fail> {
    let answer = answer(alloc, list, input.as_bytes())?;
    assert_eq!(rt; answer.text.as_slice(), text.as_bytes(), "{input}");
    assert_eq!(rt; answer.status.code(), code, "{input}");
    Ok(())
}

/// Each row is held: its words, its input, its code and its text.
pub(crate) fn hold_each(
    rt: &impl Abort,
    alloc: Global,
    rows: &[(&[&str], &str, u8, &str)],
) -> Result<(), Fail> {
    for (list, input, code, text) in rows {
        hold_row(rt, alloc, list, input, *code, text)?;
    }
    Ok(())
}

/// Each row is held for these words: its input, its code and its text.
pub(crate) fn hold(
    rt: &impl Abort,
    alloc: Global,
    list: &[&str],
    rows: &[(&str, u8, &str)],
) -> Result<(), Fail> {
    for (input, code, text) in rows {
        hold_row(rt, alloc, list, input, *code, text)?;
    }
    Ok(())
}

/// The answer to words and bytes, with ample memory and no fault.
pub(crate) fn answer(alloc: Global, list: &[&str], bytes: &[u8]) -> Result<Outcome, AllocError> {
    answer_watched(alloc, list, bytes, &mut Quiet)
}
