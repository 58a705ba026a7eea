//! `look` and `play`: every layer of the circuit of a machine of quadruples, and scripts on it.

use crate::desk::{answer, hold, hold_each};
use std::test::Fail;

/// Goes one cell to the right on each tape, and stops where a 1 stands on each.
const LOOK: &str = "S,/,/,/,+,+,+,A\nA,1,1,1,1,1,1,F\n";

/// A script forward to each of two moments, and back.
const THERE_AND_BACK: &str =
    "break a state A\nbreak f state F\ngo 10000\nview\ngo 10000\ngo 10000\nrev 10000\nrev 10000\n";

const THERE_AND_BACK_TOLD: &str = "break a\nbreak f\nat 187.w steps 1516 break a\n\
    element at 187.w steps 1516\nmodule tape 1 cell 0 line Rd\nquadruple A\ntape 1 from 0 head 1: _ 1\n\
    tape 2 from 0 head 1: _ 1\ntape 3 from 0 head 1: _ 1\nleft 170.e steps 4500 break f\n\
    left 170.e steps 4500\nat 187.w steps 1516 break a\nat 0.w steps 0\n";

/// A script to the end, which is shown, and back.
const ENDED: &str = "step 4500\nview\nback 4500\n";

const ENDED_TOLD: &str =
    "left 170.e steps 4500\nelement left 170.e steps 4500\nexit end\nquadruple F\n\
    tape 1 from 0 head 1: _ 1\ntape 2 from 0 head 1: _ 1\ntape 3 from 0 head 1: _ 1\nat 0.w steps 0\n";

#[test]
fn looks_at_a_board_where_it_has_come_to(rt: HostRuntime) -> Result<(), Fail> {
    let rows: [(&[&str], &str, u8, &str); 11] = [
        (
            &["look", "=1", ":1", "=1", "0", "1", "1", "1", "0"],
            LOOK,
            0,
            "element at 0.w steps 0\nmodule control line Start\nquadruple S\n\
             tape 1 from 0 head 0: _ 1\ntape 2 from 0 head 0: _ 1\ntape 3 from 0 head 0: _ 1\n",
        ),
        (
            &["look", "=1", ":1", "=1", "0", "1", "1", "1", "1"],
            LOOK,
            0,
            "element at 1.n steps 1\nmodule control inside\nquadruple S\n\
             tape 1 from 0 head 0: _ 1\ntape 2 from 0 head 0: _ 1\ntape 3 from 0 head 0: _ 1\n",
        ),
        (
            &["look", "=1", ":1", "=1", "0", "1", "1", "1", "700"],
            LOOK,
            0,
            "element at 329.s steps 700\nmodule tape 2 cell 0 inside\nquadruple S\n\
             tape 1 from 0 head 0: _ 1\ntape 2 from 0 head 0: _ 1\ntape 3 from 0 head 0: _ 1\n",
        ),
        (
            &["look", "=1", ":1", "=1", "0", "1", "1", "1", "1000"],
            LOOK,
            0,
            "element at 420.s steps 1000\nmodule tape 3 cell 0 inside\nquadruple S\n\
             tape 1 from 0 head 0: _ 1\ntape 2 from 0 head 0: _ 1\ntape 3 from 0 head 0: _ 1\n",
        ),
        (
            &["look", "=1", ":1", "=1", "0", "1", "1", "1", "2500"],
            LOOK,
            0,
            "element at 183.n steps 2500\nmodule control inside\nquadruple A\n\
             tape 1 from 0 head 1: _ 1\ntape 2 from 0 head 1: _ 1\ntape 3 from 0 head 1: _ 1\n",
        ),
        (
            &[
                "look",
                "=1",
                ":1",
                "=1",
                "0",
                "1",
                "1",
                "1",
                "4611686018427387904",
            ],
            LOOK,
            0,
            "element left 170.e steps 4500\nexit end\nquadruple F\ntape 1 from 0 head 1: _ 1\n\
             tape 2 from 0 head 1: _ 1\ntape 3 from 0 head 1: _ 1\n",
        ),
        (
            &["look", "=", "=1", "=1", "0", "1", "1", "1", "10000"],
            LOOK,
            0,
            "element left 35.w steps 1860\nexit stuck A _ 1 1\nquadruple A\n\
             tape 1 from 0 head 1: _ _\ntape 2 from 0 head 1: _ 1\ntape 3 from 0 head 1: _ 1\n",
        ),
        (
            &["look", "=1", "=", "=1", "0", "1", "1", "1", "10000"],
            LOOK,
            0,
            "element left 57.w steps 2400\nexit stuck A 1 _ 1\nquadruple A\n\
             tape 1 from 0 head 1: _ 1\ntape 2 from 0 head 1: _ _\ntape 3 from 0 head 1: _ 1\n",
        ),
        (
            &["look", "=1", "=1", ":", "0", "1", "1", "1", "10000"],
            LOOK,
            0,
            "element left 79.w steps 2838\nexit stuck A 1 1 _\nquadruple A\n\
             tape 1 from 0 head 1: _ 1\ntape 2 from 0 head 1: _ 1\ntape 3 from 0 head 1: _ _\n",
        ),
        (
            &["look", "=", "0", "0", "0", "0", "10000"],
            "S,/,/,/,+,0,0,F\n",
            0,
            "element left 57.e steps 86\nexit window 1 right\nquadruple S\n\
             tape 1 from 0 head 0: _\ntape 2 from 0 head 0: _\ntape 3 from 0 head 0: _\n",
        ),
        (
            &["look", "=", "0", "0", "0", "0", "10000"],
            "S,/,/,/,0,0,-,F\n",
            0,
            "element left 106.e steps 74\nexit window 3 left\nquadruple S\n\
             tape 1 from 0 head 0: _\ntape 2 from 0 head 0: _\ntape 3 from 0 head 0: _\n",
        ),
    ];
    hold_each(&rt, rt.alloc(), &rows)
}

#[test]
fn refuses_as_build_does(rt: HostRuntime) -> Result<(), Fail> {
    let rows: [(&[&str], &str, u8, &str); 7] = [
        (
            &["look", "=1", "0", "1", "1", "1", "4611686018427387905"],
            LOOK,
            2,
            "usage\n",
        ),
        (
            &["look", "=1", "=1", "0", "1", "1", "1", "5"],
            LOOK,
            2,
            "usage\n",
        ),
        (
            &["look", "=1", "0", "1", "1", "1", "5"],
            "S,/\n",
            3,
            "text: record 1 fields\n",
        ),
        (
            &["look", "=1", "0", "1", "1", "1", "5"],
            "S,/,/,/,0,0,0,F\n",
            4,
            "machine: silent 1\n",
        ),
        (
            &["look", "=1", ":1", ":1,x", "0", "1", "1", "1", "5"],
            LOOK,
            5,
            "word: 3 2\n",
        ),
        (
            &["look", "=1", "=11", "=", "0", "1", "1", "1", "5"],
            LOOK,
            6,
            "size: word 2 needs 2\n",
        ),
        (
            &["look", "=1", "0", "1", "1", "1048576", "5"],
            LOOK,
            6,
            "size: elements 54526399\n",
        ),
    ];
    hold_each(&rt, rt.alloc(), &rows)
}

#[test]
fn plays_a_script_forward_and_back(rt: HostRuntime) -> Result<(), Fail> {
    let rows: [(&str, u8, &str); 9] = [
        ("", 0, ""),
        (ENDED, 0, ENDED_TOLD),
        (THERE_AND_BACK, 0, THERE_AND_BACK_TOLD),
        (
            "break c element 400\ngo 10000\nstep 1\nback 1\nrev 10000\ndrop c\ngo 10000\n",
            0,
            "break c\nat 400.n steps 972 break c\nat 401.n steps 973\nat 400.n steps 972\n\
             at 0.w steps 0\ndrop c\nleft 170.e steps 4500\n",
        ),
        ("view \n", 3, "text: script line 1 form\n"),
        (
            "view\nbreak a state T\n",
            3,
            "text: script line 2 no state\n",
        ),
        (
            "break a state A\nbreak a element 1\n",
            3,
            "text: script line 2 same break\n",
        ),
        ("drop a\n", 3, "text: script line 1 no break\n"),
        ("step 1", 3, "text: script line 1 form\n"),
    ];
    for (script, code, output) in rows {
        let mut input = Vec::from_slice(rt.alloc(), LOOK.as_bytes())?;
        input.extend_from_slice(b"%\n")?;
        input.extend_from_slice(script.as_bytes())?;
        let answer = answer(
            rt.alloc(),
            &["play", "=1", ":1", "=1", "0", "1", "1", "1"],
            input.as_slice(),
        )?;
        assert_eq!(rt; answer.text.as_slice(), output.as_bytes(), "{script}");
        assert_eq!(rt; answer.status.code(), code, "{script}");
    }
    Ok(())
}

#[test]
fn cuts_its_input_before_the_table_is_read(rt: HostRuntime) -> Result<(), Fail> {
    let rows: [(&str, u8, &str); 7] = [
        ("S,/,/\n", 3, "text: no script\n"),
        ("%\n", 3, "text: empty\n"),
        ("S,/,/\n%\nview \n", 3, "text: record 1 fields\n"),
        ("S,/,/,/,0,0,0,F\n%\nview \n", 4, "machine: silent 1\n"),
        ("S,/,/,/,+,0,0,F\n%\nview \n", 5, "word: 1\n"),
        (
            "S,/,/,/,+,0,0,A\nA,1,/,/,1,0,0,F\n%\nview \n",
            6,
            "size: word needs 1\n",
        ),
        ("S,/,/,/,+,0,0,F\n%\r\n", 3, "text: no script\n"),
    ];
    hold(&rt, rt.alloc(), &["play", "=1", "0", "0", "0", "0"], &rows)
}
