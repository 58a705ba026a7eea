//! `room`: the least window of a machine of quadruples, and how `drive` ends in it and in smaller ones.

use crate::desk::hold_each;
use std::test::Fail;

/// All three heads go right, and then tape 1 is read.
const RIGHT: &str = "S,/,/,/,+,+,+,A\nA,1,/,1,1,0,1,F\n";

/// The heads go left, right and right, one after another; the machine halts.
const EACH: &str = "S,/,/,/,-,0,0,A\nA,_,/,/,1,+,0,B\nB,/,_,/,+,1,0,C\nC,_,/,/,_,0,+,F\n";

/// The heads of tapes 2 and 3 go left of cell 0 in the first step.
const LEFT: &str = "S,/,/,/,0,-,-,F\n";

/// The head of tape 3 alone does.
const THIRD: &str = "S,/,/,/,-,0,-,F\n";

/// Two quadruples that overlap in domain.
const TWICE: &str = "S,_,/,/,_,0,0,A\nS,_,/,/,_,0,0,B\n";

#[test]
fn finds_the_least_room(rt: HostRuntime) -> Result<(), Fail> {
    let rows: [(&[&str], &str, u8, &str); 13] = [
        (&["room", "=1", "=", "=", "10"], RIGHT, 0, "room 0 1 1 1\n"),
        (&["room", "=", "=", "=1", "10"], RIGHT, 0, "room 0 1 1 1\n"),
        (&["room", "=", "=", "=1", "0"], RIGHT, 12, "running 0\n"),
        (&["room", "=", "4"], EACH, 0, "room 1 0 1 1\n"),
        (&["room", ":", "3"], EACH, 12, "running 3\n"),
        (&["room", "=", "1"], LEFT, 11, "none 2\n"),
        (&["room", "=", "0"], LEFT, 12, "running 0\n"),
        (&["room", "=", "1"], THIRD, 11, "none 3\n"),
        (&["room", "=", "1"], TWICE, 4, "machine: domain 1 2\n"),
        (&["room", "=2", "9"], RIGHT, 5, "word: 1\n"),
        (&["room", "=1", "=", "=2", "9"], RIGHT, 5, "word: 3 1\n"),
        (&["room", "=", "9"], "S\n", 3, "text: record 1 fields\n"),
        (&["room", "=", "1048577"], RIGHT, 2, "usage\n"),
    ];
    hold_each(&rt, rt.alloc(), &rows)
}
