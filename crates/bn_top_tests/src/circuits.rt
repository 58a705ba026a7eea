//! `step` and `back` on configuration texts.

use crate::desk::{answer, answer_watched, hold, hold_each};
use bn_circuits::{MemWatch, Place};
use bn_top::Status;
use std::test::Fail;

/// One element, the signal at its north line, along the bar.
const PARALLEL: &str = "rotary 1\nelements 1\nstart 0.n\nend 0.s\nsteps 0\nat 0.n\ne 0 V - - - -\n";

/// The same after one step.
const PASSED: &str = "rotary 1\nelements 1\nstart 0.n\nend 0.s\nsteps 1\nleft 0.s\ne 0 V - - - -\n";

/// One element, the signal across its bar.
const ACROSS: &str = "rotary 1\nelements 1\nstart 0.n\nend 0.w\nsteps 0\nat 0.n\ne 0 H - - - -\n";

/// The same after one step: the bar has turned.
const TURNED: &str = "rotary 1\nelements 1\nstart 0.n\nend 0.w\nsteps 1\nleft 0.w\ne 0 V - - - -\n";

/// One element whose south output leads to its north input: an endless run.
const ENDLESS: &str =
    "rotary 1\nelements 1\nstart 0.e\nend 0.w\nsteps 0\nat 0.n\ne 0 V - - 0.n -\n";

#[test]
fn steps_forward_and_back(rt: HostRuntime) -> Result<(), Fail> {
    let rows: [(&[&str], &str, u8, &str); 7] = [
        (&["step", "1"], PARALLEL, 0, PASSED),
        (&["step", "9"], PARALLEL, 0, PASSED),
        (&["step", "0"], PARALLEL, 0, PARALLEL),
        (&["back", "1"], PASSED, 0, PARALLEL),
        (&["step", "1"], ACROSS, 0, TURNED),
        (&["back", "1"], TURNED, 0, ACROSS),
        (&["back", "1"], ACROSS, 0, ACROSS),
    ];
    hold_each(&rt, rt.alloc(), &rows)
}

#[test]
fn runs_a_ring_for_a_thousand_steps(rt: HostRuntime) -> Result<(), Fail> {
    let after = "rotary 1\nelements 1\nstart 0.e\nend 0.w\nsteps 1000\nat 0.n\ne 0 V - - 0.n -\n";
    hold(&rt, rt.alloc(), &["step", "1000"], &[(ENDLESS, 0, after)])
}

#[test]
fn a_watch_hears_each_place(rt: HostRuntime) -> Result<(), Fail> {
    let Ok(mut watch) = MemWatch::try_new(rt.alloc(), 3) else {
        return Err(Fail::from(std::alloc::AllocError));
    };
    let answer = answer_watched(rt.alloc(), &["step", "3"], ENDLESS.as_bytes(), &mut watch)?;
    assert_eq!(rt; answer.status, Status::Done);
    let north = Place::Enter {
        element: 0,
        line: 0,
    };
    assert_eq!(rt; watch.places(), [north, north, north].as_slice());
    Ok(())
}

#[test]
fn refuses_a_text_at_its_first_faulty_line(rt: HostRuntime) -> Result<(), Fail> {
    let two = "rotary 1\nelements 2\nstart 0.n\nend 0.s\nsteps 0\nat 0.n\n\
               e 0 V 1.w - - -\ne 1 V 1.w - - -\n";
    let rows = [
        ("", 3, "text: line 1 syntax\n"),
        (
            "rotary 1\nelements 0\nstart 0.n\nend 0.s\nsteps 0\nat 0.n\ne 0 V - - - -\n",
            3,
            "text: line 2 syntax\n",
        ),
        (
            "rotary 1\nelements 1048577\nstart 0.n\nend 0.s\nsteps 0\nat 0.n\ne 0 V - - - -\n",
            3,
            "text: line 2 too many\n",
        ),
        (
            "rotary 1\nelements 1048576\nstart 0.n\nend 0.s\nsteps 0\nat 0.n\n",
            3,
            "text: line 7 syntax\n",
        ),
        (
            "rotary 1\nelements 1\nstart 0.n\nend 1.s\nsteps 0\nat 0.n\ne 0 V - - - -\n",
            3,
            "text: line 4 target\n",
        ),
        (
            "rotary 1\nelements 1\nstart 0.n\nend 0.s\nsteps 0\nat 0.n\ne 0 V - - - -",
            3,
            "text: line 7 syntax\n",
        ),
        (
            "rotary 1\nelements 1\nstart 0.n\nend 0.s\nsteps 0\nat 0.n\ne 00 V - - - -\n",
            3,
            "text: line 7 syntax\n",
        ),
        (
            "rotary 1\nelements 1\nstart 0.n\nend 0.s\nsteps 0\nat 0.n\ne 1 V - - - -\n",
            3,
            "text: line 7 order\n",
        ),
        (
            "rotary 1\nelements 1\nstart 0.n\nend 0.s\nsteps 0\nat 0.n\ne 0 V - - 0.e -\n",
            3,
            "text: line 7 end wired\n",
        ),
        (
            "rotary 1\nelements 1\nstart 0.n\nend 0.w\nsteps 0\nleft 0.s\ne 0 V - - 0.e -\n",
            3,
            "text: line 7 left wired\n",
        ),
        (
            "rotary 1\nelements 1\nstart 0.n\nend 0.w\nsteps 0\nat 0.n\ne 0 V - - 0.n -\n",
            3,
            "text: line 7 start fed\n",
        ),
        (
            "rotary 1\nelements 1\nstart 0.n\nend 0.s\nsteps 0\nat 0.n\ne 0 V - - - -\n\n",
            3,
            "text: line 8 syntax\n",
        ),
        (two, 3, "text: line 8 two sources\n"),
    ];
    hold(&rt, rt.alloc(), &["step", "1"], &rows)
}

#[test]
fn refuses_each_front_of_a_text(rt: HostRuntime) -> Result<(), Fail> {
    let text = PARALLEL.as_bytes();
    let mut line = b'1';
    for (length, byte) in text.iter().enumerate() {
        let answer = answer(rt.alloc(), &["step", "1"], &text[..length])?;
        let mut output = Vec::from_slice(rt.alloc(), b"text: line ")?;
        output.push(line)?;
        output.extend_from_slice(b" syntax\n")?;
        assert_eq!(rt; answer.text.as_slice(), output.as_slice(), "at {length}");
        if *byte == b'\n' {
            line = line.saturating_add(1);
        }
    }
    Ok(())
}
