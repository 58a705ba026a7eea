//! `view`: every layer of a board.

use crate::desk::{answer, hold_each};
use std::test::Fail;

/// The least machine in standard form.
const LEAST: &str = "S,_,_,+,T\nT,_,_,0,F\n";

/// At the moment of A1', just before it and just behind it.
const AT_MOMENT: &str = "element at 930.w steps 6540\nmodule tape 2 cell 0 line Rd\nquadruple A1'\n\
                         tape 1 from 0 head 0: _ _ _\ntape 2 from 0 head 1: _ _ _\n\
                         tape 3 from 0 head 0: _ _\nmachine compute quintuple 1 step 1\n";

const BEFORE: &str = "element at 853.s steps 6539\nmodule control inside\nquadruple A1\n\
                      tape 1 from 0 head 0: _ _ _\ntape 2 from 0 head 0: _ _ _\n\
                      tape 3 from 0 head 0: _ _\nmachine compute state S step 0\n";

/// At the end of the run.
const ENDED: &str = "element left 848.e steps 67300\nexit end\nquadruple C1\n\
                     tape 1 from 0 head 0: _ _ _\ntape 2 from 0 head 0: _ _ _\n\
                     tape 3 from 0 head 0: _ _\nmachine retrace state S step 0\n";

#[test]
fn shows_the_last_moment(rt: HostRuntime) -> Result<(), Fail> {
    let rows: [(&[&str], &str, u8, &str); 3] = [
        (
            &["view", "=", "0", "2", "2", "1", "6540"],
            LEAST,
            0,
            AT_MOMENT,
        ),
        (&["view", "=", "0", "2", "2", "1", "6539"], LEAST, 0, BEFORE),
        (&["view", "=", "0", "2", "2", "1", "67300"], LEAST, 0, ENDED),
    ];
    hold_each(&rt, rt.alloc(), &rows)
}

#[test]
fn refuses_as_a_run_does(rt: HostRuntime) -> Result<(), Fail> {
    let rows: [(&[&str], &str, u8, &str); 4] = [
        (&["view", "=", "0", "2", "2", "1"], LEAST, 2, "usage\n"),
        (
            &["view", "=", "0", "2", "2", "1", "0"],
            "S,_,_,+\n",
            3,
            "text: record 1 fields\n",
        ),
        (
            &["view", "=", "0", "2", "2", "1", "0"],
            "S,_,_,+,T\n",
            4,
            "machine: S4\n",
        ),
        (
            &["view", "=1", "0", "2", "2", "1", "0"],
            LEAST,
            5,
            "word: 1\n",
        ),
    ];
    hold_each(&rt, rt.alloc(), &rows)?;
    let list = ["view", "=", "0", "2", "1048576", "1", "0"];
    let large = answer(rt.alloc(), &list, LEAST.as_bytes())?;
    assert!(rt; large.text.as_slice().starts_with(b"size: elements "));
    assert_eq!(rt; large.status.code(), 6);
    Ok(())
}

#[test]
fn names_each_line_by_which_a_module_is_entered(rt: HostRuntime) -> Result<(), Fail> {
    let rows: [(&str, &str); 15] = [
        ("0", "module control line Start"),
        ("1564", "module tape 1 cell 0 line Rd"),
        ("1610", "module control line A 0 1"),
        ("2734", "module tape 2 cell 0 line SR"),
        ("2922", "module tape 2 cell 1 line TakeR"),
        ("2970", "module tape 2 cell 0 line DoneR"),
        ("3042", "module control line DoneR 2"),
        ("3558", "module tape 3 cell 0 line W 0"),
        ("3602", "module control line DoneW 3"),
        ("6876", "module tape 2 cell 0 line A 0"),
        ("9240", "module tape 2 cell 0 line DoneW"),
        ("37840", "module tape 1 cell 0 line SL"),
        ("37964", "module tape 1 cell 1 line TakeL"),
        ("37988", "module tape 1 cell 0 line DoneL"),
        ("38018", "module control line DoneL 1"),
    ];
    for (steps, module) in rows {
        let list = ["view", "=", "0", "2", "2", "1", steps];
        let answer = answer(rt.alloc(), &list, LEAST.as_bytes())?;
        let mut lines = answer.text.as_slice().split(|byte| *byte == b'\n').skip(1);
        assert!(rt; lines.next() == Some(module.as_bytes()), "{steps}");
    }
    Ok(())
}
