//! `session`: scripts on boards.

use crate::desk::{answer, hold};
use std::test::Fail;

/// The words of a session on the least machine's board.
const WORDS: [&str; 6] = ["session", "=", "0", "2", "2", "1"];

/// The least machine in standard form, and the line before a script.
const LEAST: &str = "S,_,_,+,T\nT,_,_,0,F\n%\n";

/// A breakpoint at the 6540th step, forward and back, and what is shown there.
const THERE_AND_BACK: &str = "break a state A1'\ngo 10000\nrev 10000\n";

const THERE_AND_BACK_TOLD: &str = "break a\nat 930.w steps 6540 break a\nat 0.w steps 0\n";

const SHOWN: &str = "break e element 930\ngo 10000\nview\ndrop e\nback 1\n";

const SHOWN_TOLD: &str = "break e\nat 930.s steps 2822 break e\nelement at 930.s steps 2822\n\
                          module tape 2 cell 0 inside\nquadruple A1\n\
                          tape 1 from 0 head 0: _ _ _\ntape 2 from 0 head 0: _ _ _\n\
                          tape 3 from 0 head 0: _ _\nmachine compute state S step 0\n\
                          drop e\nat 931.s steps 2821\n";

#[test]
fn plays_a_script_forward_and_back(rt: HostRuntime) -> Result<(), Fail> {
    let rows: [(&str, u8, &str); 12] = [
        (THERE_AND_BACK, 0, THERE_AND_BACK_TOLD),
        (SHOWN, 0, SHOWN_TOLD),
        (
            "break a element 0\nstep 0\nback 5\n",
            0,
            "break a\nat 0.w steps 0\nat 0.w steps 0\n",
        ),
        ("drop b\n", 3, "text: script line 1 no break\n"),
        (
            "break a element 0\nbreak a element 1\n",
            3,
            "text: script line 2 same break\n",
        ),
        ("break a state Q\n", 3, "text: script line 1 no state\n"),
        ("go 0\n", 3, "text: script line 1 form\n"),
        ("go 1\r\n", 3, "text: script line 1 form\n"),
        ("step 1\nview", 3, "text: script line 2 form\n"),
        (
            "break a state A1\nbreak b state A1\ngo 10000\ndrop a\nbreak a state A1\nstep 0\ngo 1\n",
            0,
            "break a\nbreak b\nat 864.w steps 1564 break a\ndrop a\nbreak a\nat 864.w steps 1564\n\
             at 865.n steps 1565\n",
        ),
        (
            "break e element 4611686018427387904\nbreak c state C1\nstep 67300\ngo 1\nrev 1\n",
            0,
            "break e\nbreak c\nleft 848.e steps 67300\nleft 848.e steps 67300\nat 848.s steps 67299\n",
        ),
        ("", 0, ""),
    ];
    for (script, code, output) in rows {
        let mut input = Vec::from_slice(rt.alloc(), LEAST.as_bytes())?;
        input.extend_from_slice(script.as_bytes())?;
        let answer = answer(rt.alloc(), &WORDS, input.as_slice())?;
        assert_eq!(rt; answer.text.as_slice(), output.as_bytes(), "{script}");
        assert_eq!(rt; answer.status.code(), code, "{script}");
    }
    Ok(())
}

#[test]
fn cuts_its_input_before_the_table_is_read(rt: HostRuntime) -> Result<(), Fail> {
    let rows: [(&str, u8, &str); 5] = [
        ("%\n", 3, "text: empty\n"),
        ("S,_,_,+,T\nT,_,_,0,F\n%\r\n", 3, "text: no script\n"),
        ("S,_,_,+,T\nT,_,_,0,F\n", 3, "text: no script\n"),
        ("S,_,_\n%", 3, "text: no script\n"),
        ("S,_,_\n%\ngo 0\n", 3, "text: record 1 fields\n"),
    ];
    hold(&rt, rt.alloc(), &WORDS, &rows)
}

#[test]
fn what_is_shown_after_steps_back_is_the_view_of_that_step(rt: HostRuntime) -> Result<(), Fail> {
    let script = b"S,_,_,+,T\nT,_,_,0,F\n%\nstep 2000\nback 2\nview\n";
    let session = answer(rt.alloc(), &WORDS, script.as_slice())?;
    let view = answer(
        rt.alloc(),
        &["view", "=", "0", "2", "2", "1", "1998"],
        b"S,_,_,+,T\nT,_,_,0,F\n",
    )?;
    assert_eq!(rt; session.status.code(), 0);
    assert_eq!(rt; view.status.code(), 0);
    assert!(rt; view.text.as_slice().starts_with(b"element at "));
    assert!(rt; session.text.as_slice().ends_with(view.text.as_slice()));
    Ok(())
}
