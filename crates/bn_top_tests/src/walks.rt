//! `walk`: scripts on the circuits of configuration texts.

use crate::desk::answer;
use std::test::Fail;

/// Two elements that the signal crosses in three steps, the first of them twice, and the line before a script.
const TWO: &str = "rotary 1\nelements 2\nstart 0.n\nend 0.n\nsteps 0\nat 0.n\n\
                   e 0 V - - 1.n -\ne 1 H - - - 0.e\n%\n";

/// A script forward and back, with views.
const THERE_AND_BACK: &str = "view\nstep 2\nview\nstep 9\nview\nback 9\nview\n";

const THERE_AND_BACK_TOLD: &str =
    "at 0.n\nsteps 0\nturned\nat 0.e steps 2\nat 0.e\nsteps 2\nturned 1\n\
                                   left 0.n steps 3\nleft 0.n\nsteps 3\nturned 0 1\n\
                                   at 0.n steps 0\nat 0.n\nsteps 0\nturned\n";

/// Breakpoints at an element and at a port, of which the second is set at a port that the circuit lacks.
const STOPS: &str =
    "break a element 1\nbreak b line 7.s\nbreak c line 0.e\ngo 9\ngo 9\ngo 9\nrev 9\ndrop c\nrev 9\nrev 9\n";

const STOPS_TOLD: &str =
    "break a\nbreak b\nbreak c\nat 1.n steps 1 break a\nat 0.e steps 2 break c\n\
                          left 0.n steps 3\nat 0.e steps 2 break c\ndrop c\nat 1.n steps 1 break a\n\
                          at 0.n steps 0\n";

#[test]
fn walks_forward_and_back(rt: HostRuntime) -> Result<(), Fail> {
    let rows: [(&str, u8, &str); 10] = [
        (THERE_AND_BACK, 0, THERE_AND_BACK_TOLD),
        (STOPS, 0, STOPS_TOLD),
        ("", 0, ""),
        ("break a state A1\n", 3, "text: script line 1 form\n"),
        ("break a line 0.q\n", 3, "text: script line 1 form\n"),
        ("break a line 00.n\n", 3, "text: script line 1 form\n"),
        ("go 0\n", 3, "text: script line 1 form\n"),
        ("step 1\nview", 3, "text: script line 2 form\n"),
        (
            "break a line 0.n\nbreak a element 1\n",
            3,
            "text: script line 2 same break\n",
        ),
        ("drop a\n", 3, "text: script line 1 no break\n"),
    ];
    for (script, code, output) in rows {
        let mut input = Vec::from_slice(rt.alloc(), TWO.as_bytes())?;
        input.extend_from_slice(script.as_bytes())?;
        let answer = answer(rt.alloc(), &["walk"], input.as_slice())?;
        assert_eq!(rt; answer.text.as_slice(), output.as_bytes(), "{script}");
        assert_eq!(rt; answer.status.code(), code, "{script}");
    }
    Ok(())
}

#[test]
fn cuts_its_input_before_the_circuit_is_read(rt: HostRuntime) -> Result<(), Fail> {
    let rows: [(&str, u8, &str); 4] = [
        ("rotary 3\n", 3, "text: no script\n"),
        ("rotary 3\n%\nnothing\n", 3, "text: line 1 syntax\n"),
        ("%\n%\n", 3, "text: line 1 syntax\n"),
        ("", 3, "text: no script\n"),
    ];
    for (input, code, output) in rows {
        let answer = answer(rt.alloc(), &["walk"], input.as_bytes())?;
        assert_eq!(rt; answer.text.as_slice(), output.as_bytes(), "{input}");
        assert_eq!(rt; answer.status.code(), code, "{input}");
    }
    Ok(())
}
