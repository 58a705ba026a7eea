//! Devices that fail in one call, for each call that a command makes.

ghost use Rattle.std.specs.Prelude.{◌<◌};

use crate::desk::{Outcome, answer, words};
use bn_circuits::Quiet;
use bn_io::{MemSink, MemSource};
use bn_top::workbench;
use std::alloc::{AllocError, Global};
use std::process::Abort;
use std::test::Fail;

/// One element, the signal at its north line.
const ELEMENT: &str = "rotary 1\nelements 1\nstart 0.n\nend 0.s\nsteps 0\nat 0.n\ne 0 V - - - -\n";

/// The same after its step.
const ELEMENT_LEFT: &str =
    "rotary 1\nelements 1\nstart 0.n\nend 0.s\nsteps 1\nleft 0.s\ne 0 V - - - -\n";

/// The least machine in standard form.
const LEAST: &str = "S,_,_,+,T\nT,_,_,0,F\n";

/// Two moves that undo each other.
const MOVES: &str = "1,1,2,2\n2,2,1,1\n";

/// Two quadruples that overlap.
const QUADRUPLES: &str = "A,_,/,/,_,0,0,B\nA,/,_,/,0,_,0,C\n";

/// Two tables with the line between them.
const TABLES: &str = "S,_,_,+,T\nT,_,_,0,F\n%\nS,_,_,+,T\nT,_,_,0,F\n";

/// A board with its schedule.
const FARM: &str =
    "rotary 1\nelements 1\nstart 0.n\nend 0.s\nsteps 0\nat 0.n\ne 0 V - - - -\n%\n+ 1 3\n";

/// A table with its script.
const SESSION: &str = "S,_,_,+,T\nT,_,_,0,F\n%\nstep 5\nback 2\n";

/// Each command that reads an input, with a small one.
const COMMANDS: [(&[&str], &str); 21] = [
    (&["step", "1"], ELEMENT),
    (&["back", "1"], ELEMENT_LEFT),
    (&["check"], LEAST),
    (&["machine", "=", "9"], LEAST),
    (&["reversible"], QUADRUPLES),
    (&["bennett"], LEAST),
    (&["realise", "1", "1"], MOVES),
    (&["standard"], "A,_,_,+,H\n"),
    (&["compile", "=", "0", "2", "0", "1"], LEAST),
    (&["run", "=", "0", "2", "0", "1"], LEAST),
    (&["run", "=", "0", "2", "2", "1", "9"], LEAST),
    (&["run", "=", "auto"], LEAST),
    (&["view", "=", "0", "2", "2", "1", "9"], LEAST),
    (&["session", "=", "0", "2", "2", "1"], SESSION),
    (&["plan"], ELEMENT),
    (&["migrate"], ELEMENT),
    (&["mirror"], ELEMENT_LEFT),
    (&["farm"], FARM),
    (&["erase"], TABLES),
    (&["erase", "=", "9"], TABLES),
    (&["check"], "S,_\n"),
];

/// Each command that makes a board and answers a short text, with a small input.
const BOARDS: [(&[&str], &str); 3] = [
    (&["run", "=", "0", "2", "0", "1"], LEAST),
    (&["view", "=", "0", "2", "2", "1", "9"], LEAST),
    (&["session", "=", "0", "2", "2", "1"], SESSION),
];

/// How many bytes a call of a device passes on at most.
#[derive(Clone, Copy)]
enum Piece {
    One,
    Seven,
    Hundred,
    Thousand,
}

impl Piece {
    /// The number of bytes.
    fn bytes(self) -> usize
        ensures { 0 < result }
    {
        match self {
            Piece::One => 1,
            Piece::Seven => 7,
            Piece::Hundred => 100,
            Piece::Thousand => 1000,
        }
    }

    /// The number of calls that pass so many bytes on.
    fn calls(self, bytes: usize) -> u64 {
        let whole = (bytes / self.bytes()) as u64;
        if bytes % self.bytes() == 0 {
            whole
        } else {
            whole.saturating_add(1)
        }
    }
}

/// The pieces at which a device is tried.
const PIECES: [Piece; 3] = [Piece::One, Piece::Seven, Piece::Hundred];

/// The pieces at which a sink is tried: all of them, but for commands that make a board, whose answer is
/// made anew for each call of the sink; and the text of a board is long.
fn pieces_for(list: &[&str]) -> &'static [Piece] {
    match list.first() {
        Some(&"compile") => &[Piece::Thousand],
        Some(&("run" | "view" | "session")) => &[Piece::Hundred],
        _ => &PIECES,
    }
}

/// The answer where the source fails in the call of this number, counted from 1.
fn answer_from(
    alloc: Global,
    list: &[&str],
    input: &str,
    piece: Piece,
    call: u64,
) -> Result<Outcome, AllocError> {
    let words = words(alloc, list)?;
    let failing = vec![in alloc; call]?;
    let bytes = Vec::from_slice(alloc, input.as_bytes())?;
    let mut source = MemSource::new(bytes, piece.bytes(), failing);
    let Ok(mut sink) = MemSink::try_new(alloc, 100_000, 100, Vec::new(alloc)) else {
        return Err(AllocError);
    };
    let status = workbench(alloc, &words, &mut source, &mut sink, &mut Quiet);
    Ok(Outcome {
        status,
        text: Vec::from_slice(alloc, sink.taken())?,
    })
}

/// The answer where the sink fails in the call of this number, counted from 1.
fn answer_into(
    alloc: Global,
    list: &[&str],
    input: &str,
    piece: Piece,
    call: u64,
) -> Result<Outcome, AllocError> {
    let words = words(alloc, list)?;
    let failing = vec![in alloc; call]?;
    let bytes = Vec::from_slice(alloc, input.as_bytes())?;
    let mut source = MemSource::new(bytes, 100, Vec::new(alloc));
    let Ok(mut sink) = MemSink::try_new(alloc, 100_000, piece.bytes(), failing) else {
        return Err(AllocError);
    };
    let status = workbench(alloc, &words, &mut source, &mut sink, &mut Quiet);
    Ok(Outcome {
        status,
        text: Vec::from_slice(alloc, sink.taken())?,
    })
}

/// In whichever call the source fails, the one that tells the end among them, that is told, and
/// nothing else.
fn source_fails(
    rt: &impl Abort,
    alloc: Global,
    list: &[&str],
    input: &str,
    piece: Piece,
) -> Result<(), Fail> {
    let made = piece.calls(input.len()).saturating_add(1);
    for call in 0..made {
        let answer = answer_from(alloc, list, input, piece, call + 1)?;
        assert_eq!(rt; answer.status.code(), 7, "{input} {call}");
        assert_eq!(rt;
            answer.text.as_slice(),
            b"read fault\n".as_slice(),
            "{input}"
        );
    }
    let whole = answer(alloc, list, input.as_bytes())?;
    let unfailing = answer_from(alloc, list, input, piece, made.saturating_add(1))?;
    assert_eq!(rt; unfailing.text.as_slice(), whole.text.as_slice(), "{input}");
    assert_eq!(rt; unfailing.status, whole.status, "{input}");
    Ok(())
}

/// In whichever call the sink fails, that is told, and it has taken a front of the answer.
fn sink_fails(
    rt: &impl Abort,
    alloc: Global,
    list: &[&str],
    input: &str,
    piece: Piece,
) -> Result<(), Fail> {
    let whole = answer(alloc, list, input.as_bytes())?;
    let made = piece.calls(whole.text.len());
    for call in 0..made {
        let answer = answer_into(alloc, list, input, piece, call + 1)?;
        assert_eq!(rt; answer.status.code(), 8, "{input} {call}");
        assert!(rt;
            whole.text.as_slice().starts_with(answer.text.as_slice()),
            "{input}"
        );
        assert!(rt;
            answer.text.len() as u64 <= call.saturating_mul(piece.bytes() as u64),
            "{input}"
        );
    }
    Ok(())
}

/// In whichever of these calls, counted from 0, the sink fails, that is told, and it has taken exactly what the calls
/// before were given of this answer. They come before the answer's 4,097th byte, which is handed over later.
fn sink_fails_exactly(
    rt: &impl Abort,
    alloc: Global,
    list: &[&str],
    input: &str,
    whole: &[u8],
    piece: Piece,
    calls: &[u64],
) -> Result<(), Fail> {
    for call in calls {
        let answer = answer_into(alloc, list, input, piece, call.saturating_add(1))?;
        let taken = (*call as usize).saturating_mul(piece.bytes());
        assert_eq!(rt; answer.status.code(), 8, "{input} {call}");
        assert_eq!(rt;
            Some(answer.text.as_slice()),
            whole.get(..taken),
            "{input} {call}"
        );
    }
    Ok(())
}

/// The same at small pieces, in the first two calls, in the one in the middle and in the last.
fn sink_of_small_pieces_fails(
    rt: &impl Abort,
    alloc: Global,
    list: &[&str],
    input: &str,
) -> Result<(), Fail> {
    let whole = answer(alloc, list, input.as_bytes())?;
    let text = whole.text.as_slice();
    for piece in [Piece::One, Piece::Seven] {
        let made = piece.calls(text.len());
        let calls = [0, 1, made / 2, made.saturating_sub(1)];
        sink_fails_exactly(rt, alloc, list, input, text, piece, &calls)?;
    }
    Ok(())
}

#[test]
fn a_source_may_fail_in_each_call(rt: HostRuntime) -> Result<(), Fail> {
    for (list, input) in COMMANDS {
        for piece in PIECES {
            source_fails(&rt, rt.alloc(), list, input, piece)?;
        }
    }
    Ok(())
}

#[test]
fn a_sink_may_fail_in_each_call(rt: HostRuntime) -> Result<(), Fail> {
    for (list, input) in COMMANDS {
        for piece in pieces_for(list) {
            sink_fails(&rt, rt.alloc(), list, input, *piece)?;
        }
    }
    Ok(())
}

#[test]
fn a_sink_of_small_pieces_keeps_exactly_a_front(rt: HostRuntime) -> Result<(), Fail> {
    for (list, input) in BOARDS {
        sink_of_small_pieces_fails(&rt, rt.alloc(), list, input)?;
    }
    Ok(())
}

#[test]
fn a_sink_keeps_exactly_a_front_of_a_compiled_text(rt: HostRuntime) -> Result<(), Fail> {
    let list = ["compile", "=", "0", "2", "0", "1"];
    let whole = answer(rt.alloc(), &list, LEAST.as_bytes())?;
    let calls: Vec<u64> = (0u64..40).collect(rt.alloc())?;
    sink_fails_exactly(
        &rt,
        rt.alloc(),
        &list,
        LEAST,
        whole.text.as_slice(),
        Piece::Hundred,
        calls.as_slice(),
    )
}

#[test]
fn a_command_that_reads_nothing_needs_its_sink(rt: HostRuntime) -> Result<(), Fail> {
    let list = ["generate", "1"];
    let whole = answer(rt.alloc(), &list, b"")?;
    sink_fails_exactly(
        &rt,
        rt.alloc(),
        &list,
        "",
        whole.text.as_slice(),
        Piece::Hundred,
        &[0, 1],
    )
}

#[test]
fn a_command_that_reads_nothing_needs_no_source(rt: HostRuntime) -> Result<(), Fail> {
    let told = answer(rt.alloc(), &["generate", "1"], b"")?;
    let read = answer_from(rt.alloc(), &["generate", "1"], "", Piece::One, 1)?;
    assert_eq!(rt; read.text.as_slice(), told.text.as_slice());
    assert_eq!(rt; read.status, told.status);
    Ok(())
}
