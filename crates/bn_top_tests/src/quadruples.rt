//! `reversible` and `moments` on tables of quadruples.

use crate::desk::hold;
use std::test::Fail;

/// Bennett's list for the machine that goes one cell to the right and stops.
const BENNETT: &str = "A1,_,/,_,_,+,_,A1'\nA1',/,_,/,+,1,0,A2\nA2,_,/,_,_,+,_,A2'\n\
                       A2',/,_,/,0,2,0,A3\nA3,_,2,_,_,2,_,B1'\nB1',/,/,/,+,0,+,B1\n\
                       B1,_,2,_,_,2,_,B2'\nB2',/,/,/,-,0,-,B2\nB2,_,2,_,_,2,_,C3\n\
                       C3,/,2,/,0,_,0,C2'\nC2',_,/,_,_,-,_,C2\nC2,/,1,/,-,_,0,C1'\n\
                       C1',_,/,_,_,-,_,C1\n";

#[test]
fn tells_whether_quadruples_overlap(rt: HostRuntime) -> Result<(), Fail> {
    let rows = [
        // They read different tapes.
        (
            "A,_,/,/,_,0,0,B\nA,/,_,/,0,_,0,C\n",
            0,
            "deterministic no 1 2\nreversible yes\n",
        ),
        // One shifts the tape that the other writes.
        (
            "A,/,_,/,+,1,0,B\nC,_,_,/,_,1,+,B\n",
            0,
            "deterministic yes\nreversible no 1 2\n",
        ),
        // Both shift tapes 1 and 3, and write the same symbol, and then different ones, on tape 2.
        (
            "A,/,_,/,+,1,0,B\nC,/,_,/,0,1,+,B\n",
            0,
            "deterministic yes\nreversible no 1 2\n",
        ),
        (
            "A,/,_,/,+,1,0,B\nC,/,_,/,0,2,+,B\n",
            0,
            "deterministic yes\nreversible yes\n",
        ),
        // The second overlaps with the third and the fourth.
        (
            "S,_,_,_,_,_,_,A\nA,1,_,_,1,_,_,B\nA,1,_,_,2,_,_,B\nA,1,/,_,1,0,_,B\n",
            0,
            "deterministic no 2 3\nreversible no 2 4\n",
        ),
        (BENNETT, 0, "deterministic yes\nreversible yes\n"),
    ];
    hold(&rt, rt.alloc(), &["reversible"], &rows)
}

#[test]
fn refuses_a_table_of_quadruples_at_its_first_fault(rt: HostRuntime) -> Result<(), Fail> {
    let rows = [
        ("", 3, "text: empty\n"),
        ("A,_,/,/,_,0,0\n", 3, "text: record 1 fields\n"),
        ("A_,_,/,/,_,0,0,B\n", 3, "text: record 1 field 1 name\n"),
        (
            "A,_,/,/,_,0,0,B\nB,//,/,/,0,0,0,C\n",
            3,
            "text: record 2 field 2 symbol\n",
        ),
        ("A,_,/,/,/,0,0,B\n", 3, "text: record 1 field 5 symbol\n"),
        ("A,_,/,/,_,1,0,B\n", 3, "text: record 1 field 6 shift\n"),
        ("A,_,/,/,_,0,0,\n", 3, "text: record 1 field 8 name\n"),
    ];
    hold(&rt, rt.alloc(), &["reversible"], &rows)
}

#[test]
fn tells_each_moment_on_three_tapes(rt: HostRuntime) -> Result<(), Fail> {
    let rows = [
        (
            "A,/,_,/,+,2,0,B\n",
            0,
            "0 A tape 1 from 0 head 0 cells 1: _ tape 2 from 0 head 0 cells 1: _ \
             tape 3 from 0 head 0 cells 1: _ rule 1\n\
             1 B tape 1 from 1 head 1 cells 1: _ tape 2 from 0 head 0 cells 1: 2 \
             tape 3 from 0 head 0 cells 1: _\nhalted 1\n",
        ),
        (
            "A,1,_,/,1,2,0,B\n",
            10,
            "0 A tape 1 from 0 head 0 cells 1: _ tape 2 from 0 head 0 cells 1: _ \
             tape 3 from 0 head 0 cells 1: _\nstuck A _ _ _ 0\n",
        ),
        (
            "A,_,/,/,_,0,0,B\nA,/,_,/,0,_,0,C\n",
            4,
            "machine: domain 1 2\n",
        ),
        (
            "A,/,_,/,+,1,0,B\nC,_,_,/,_,1,+,B\n",
            4,
            "machine: range 1 2\n",
        ),
        ("", 3, "text: empty\n"),
    ];
    hold(&rt, rt.alloc(), &["moments", "=", "5"], &rows)
}
