//! `realise` on tables of reversible sequential machines.

use crate::desk::{answer, hold_each};
use bn_top::Status;
use std::test::Fail;

/// Two moves that undo each other.
const TWO_MOVES: &str = "1,1,2,2\n2,2,1,1\n";

/// Its bank in state 1 with the signal at line 1.
const BANK: &str = "rotary 2\nelements 6\nstart 0.w\nend 4.e\nsteps 0\nat 0.w\n\
                    c 0 2 H\nr 3.w 4.e\nr 4.w -\nc 3 2 V\nr - -\nr - 0.e\n";

/// The same after its move: state 2 is marked, and the signal has left by line 2.
const MOVED: &str = "rotary 2\nelements 6\nstart 0.w\nend 4.e\nsteps 8\nleft 4.e\n\
                     c 0 2 V\nr 3.w 4.e\nr 4.w -\nc 3 2 H\nr - -\nr - 0.e\n";

#[test]
fn writes_the_bank_of_a_machine(rt: HostRuntime) -> Result<(), Fail> {
    let rows: [(&[&str], &str, u8, &str); 13] = [
        (&["realise", "1", "1"], TWO_MOVES, 0, BANK),
        (&["realise", "3", "1"], TWO_MOVES, 5, "word: state\n"),
        (&["realise", "3", "3"], TWO_MOVES, 5, "word: state\n"),
        (&["realise", "1", "3"], TWO_MOVES, 5, "word: line\n"),
        (
            &["realise", "1", "1"],
            "1,1,2,2\n2,2,1,1\n1,2,2,2\n",
            4,
            "machine: range 1 3\n",
        ),
        (
            &["realise", "9", "9"],
            "1,1,2,2\n1,1,1,1\n",
            4,
            "machine: domain 1 2\n",
        ),
        (
            &["realise", "1", "1"],
            "4,1048576,1,1\n",
            6,
            "size: elements 4194308\n",
        ),
        (
            &["realise", "1", "1"],
            "1,1,2\n",
            3,
            "text: record 1 fields\n",
        ),
        (
            &["realise", "1", "1"],
            "1,0,2,2\n",
            3,
            "text: record 1 field 2 number\n",
        ),
        (&["realise", "1", "1"], "", 3, "text: empty\n"),
        (&["realise", "0", "1"], TWO_MOVES, 2, "usage\n"),
        (&["realise", "1", "01"], TWO_MOVES, 2, "usage\n"),
        (&["realise", "1", "1048577"], TWO_MOVES, 2, "usage\n"),
    ];
    hold_each(&rt, rt.alloc(), &rows)
}

#[test]
fn a_move_is_so_many_steps_of_the_bank(rt: HostRuntime) -> Result<(), Fail> {
    let moved = answer(rt.alloc(), &["step", "8"], BANK.as_bytes())?;
    assert_eq!(rt; moved.text.as_slice(), MOVED.as_bytes());
    let back = answer(rt.alloc(), &["back", "8"], moved.text.as_slice())?;
    assert_eq!(rt; back.text.as_slice(), BANK.as_bytes());
    let other = answer(rt.alloc(), &["realise", "2", "2"], TWO_MOVES.as_bytes())?;
    assert_eq!(rt; other.status, Status::Done);
    let left = answer(rt.alloc(), &["step", "1000"], other.text.as_slice())?;
    let mut lines = left.text.as_slice().split(|byte| *byte == b'\n').skip(4);
    assert!(rt; lines.next() == Some(b"steps 18".as_slice()));
    Ok(())
}
