//! `build`: circuits of machines of quadruples.

use crate::desk::{answer, hold_each};
use bn_top::Status;
use std::test::Fail;

/// The machine that goes one cell to the right and stops.
const LEAST: &str = "S,_,_,+,T\nT,_,_,0,F\n";

/// Adds one to a binary number, with the least digit first; where all digits are 1 they become 0.
const COUNTER: &str = "S,_,/,/,_,0,0,M\nM,/,/,/,+,0,0,C\nC,1,/,/,0,0,0,M\nC,0,/,/,1,0,0,D\n\
                       C,_,/,/,_,0,0,D\nD,/,/,/,-,0,0,L\nL,0,/,/,0,0,0,D\nL,_,/,/,_,0,0,F\n";

#[test]
fn refuses_machines_words_and_sizes_in_order(rt: HostRuntime) -> Result<(), Fail> {
    let rows: [(&[&str], &str, u8, &str); 14] = [
        (&["build", "=", "0", "2", "1", "0"], "", 3, "text: empty\n"),
        // A word that is foreign and too long, and a machine that isn't uniform: the machine comes first, and of its
        // faults the overlaps, then what is read, and what is written.
        (
            &["build", "=9", "0", "0", "1", "0"],
            "A,_,/,/,_,0,0,B\nA,/,_,/,0,_,0,C\n",
            4,
            "machine: domain 1 2\n",
        ),
        (
            &["build", "=9", "0", "0", "1", "0"],
            "A,/,_,/,+,1,0,B\nC,_,_,/,_,1,+,B\n",
            4,
            "machine: range 1 2\n",
        ),
        (
            &["build", "=9", "0", "0", "1", "0"],
            "S,_,/,/,_,0,0,A\nA,0,/,/,1,0,0,F\nA,1,_,/,0,_,0,F\n",
            4,
            "machine: reads 2 3\n",
        ),
        (
            &["build", "=9", "0", "0", "1", "0"],
            "S,_,/,/,_,0,0,A\nB,0,/,/,1,0,0,F\nC,1,_,/,0,_,0,F\n",
            4,
            "machine: writes 2 3\n",
        ),
        (
            &["build", "=", "0", "2", "1", "0"],
            "S,_,/,/,_,0,0,M\nM,/,/,/,0,0,0,S\n",
            4,
            "machine: silent 2\n",
        ),
        (
            &["build", "=", "0", "2", "1", "0"],
            "S,/,/,/,+,0,0,A\nA,1,/,/,0,0,0,S\nA,_,/,/,_,0,0,F\n",
            4,
            "machine: initial 2\n",
        ),
        (
            &["build", "=", "0", "2", "1", "0"],
            "S,/,/,/,+,0,0,A\nA,1,/,/,1,0,0,F\nF,/,/,/,-,0,0,B\nA,_,/,/,_,0,0,F\n",
            4,
            "machine: final 3\n",
        ),
        (
            &["build", "=1012", "0", "3", "0", "0"],
            COUNTER,
            5,
            "word: 4\n",
        ),
        (
            &["build", "=1_1", "0", "3", "0", "0"],
            COUNTER,
            5,
            "word: 2\n",
        ),
        (
            &["build", "=1011", "0", "3", "0", "0"],
            COUNTER,
            6,
            "size: word needs 4\n",
        ),
        (
            &["build", "=11", "0", "1048576", "0", "0"],
            COUNTER,
            6,
            "size: elements 94372134\n",
        ),
        (&["build", "=1", "0", "3", "0"], COUNTER, 2, "usage\n"),
        (
            &["build", "=1", "0", "3", "0", "1048577"],
            COUNTER,
            2,
            "usage\n",
        ),
    ];
    hold_each(&rt, rt.alloc(), &rows)
}

#[test]
fn the_board_of_bennetts_table_is_the_compiled_one(rt: HostRuntime) -> Result<(), Fail> {
    let window = ["=", "0", "2", "2", "1"];
    let table = answer(rt.alloc(), &["bennett"], LEAST.as_bytes())?;
    let built = answer(
        rt.alloc(),
        &[
            "build", window[0], window[1], window[2], window[3], window[4],
        ],
        table.text.as_slice(),
    )?;
    let compiled = answer(
        rt.alloc(),
        &[
            "compile", window[0], window[1], window[2], window[3], window[4],
        ],
        LEAST.as_bytes(),
    )?;
    assert_eq!(rt; built.status, Status::Done);
    assert_eq!(rt; built.text.as_slice(), compiled.text.as_slice());
    Ok(())
}

#[test]
fn a_counter_runs_to_its_end_and_back(rt: HostRuntime) -> Result<(), Fail> {
    let built = answer(
        rt.alloc(),
        &["build", "=11", "0", "3", "0", "0"],
        COUNTER.as_bytes(),
    )?;
    let front = "rotary 2\nelements 564\nstart 0.w\nend 144.e\nsteps 0\nat 0.w\nc 0 15 H\n";
    assert!(rt; built.text.as_slice().starts_with(front.as_bytes()));
    let stepped = answer(rt.alloc(), &["step", "20000"], built.text.as_slice())?;
    let mut lines = stepped.text.as_slice().split(|byte| *byte == b'\n').skip(4);
    assert!(rt; lines.next() == Some(b"steps 15358".as_slice()));
    assert!(rt; lines.next() == Some(b"left 144.e".as_slice()));
    let back = answer(rt.alloc(), &["back", "20000"], stepped.text.as_slice())?;
    assert_eq!(rt; back.text.as_slice(), built.text.as_slice());
    Ok(())
}

#[test]
fn words_stand_on_three_tapes_by_letters_or_by_names(rt: HostRuntime) -> Result<(), Fail> {
    let pairs: [(&[&str], &[&str]); 3] = [
        (
            &["build", "=11", "0", "3", "0", "0"],
            &["build", ":1,1", "0", "3", "0", "0"],
        ),
        (
            &["build", "=11", "0", "3", "0", "0"],
            &["build", "=11", "=", ":", "0", "3", "0", "0"],
        ),
        (
            &["build", "=", "0", "3", "0", "0"],
            &["build", ":", "0", "3", "0", "0"],
        ),
    ];
    for (words, others) in &pairs {
        let one = answer(rt.alloc(), words, COUNTER.as_bytes())?;
        let other = answer(rt.alloc(), others, COUNTER.as_bytes())?;
        assert_eq!(rt; one.status, Status::Done);
        assert_eq!(rt; one.text.as_slice(), other.text.as_slice());
    }
    Ok(())
}

#[test]
fn refuses_words_on_three_tapes_in_order(rt: HostRuntime) -> Result<(), Fail> {
    let rows: [(&[&str], &str, u8, &str); 10] = [
        (
            &["build", ":1,", "0", "3", "0", "0"],
            COUNTER,
            5,
            "word: 2\n",
        ),
        (
            &["build", ":,1", "0", "3", "0", "0"],
            COUNTER,
            5,
            "word: 1\n",
        ),
        (
            &["build", ":1,0,10", "0", "3", "0", "0"],
            COUNTER,
            5,
            "word: 3\n",
        ),
        (
            &["build", ":1,_", "0", "3", "0", "0"],
            COUNTER,
            5,
            "word: 2\n",
        ),
        // A word that is too long, and a later one with a foreign letter.
        (
            &["build", "=1111", "=", "=1", "0", "3", "0", "0"],
            COUNTER,
            5,
            "word: 3 1\n",
        ),
        (
            &["build", "=12", "=1", "=", "0", "3", "0", "0"],
            COUNTER,
            5,
            "word: 1 2\n",
        ),
        (
            &["build", "=1111", "=", "=", "0", "3", "0", "0"],
            COUNTER,
            6,
            "size: word 1 needs 4\n",
        ),
        (
            &["build", "=1", "=11", "=111", "0", "1", "1", "2"],
            "S,/,/,/,+,+,+,A\nA,1,1,1,1,1,1,F\n",
            6,
            "size: word 2 needs 2\n",
        ),
        (
            &["build", "=1", "=1", "=111", "0", "1", "1", "2"],
            "S,/,/,/,+,+,+,A\nA,1,1,1,1,1,1,F\n",
            6,
            "size: word 3 needs 3\n",
        ),
        (
            &["build", "=1", "=", "0", "3", "0", "0"],
            COUNTER,
            2,
            "usage\n",
        ),
    ];
    hold_each(&rt, rt.alloc(), &rows)
}
