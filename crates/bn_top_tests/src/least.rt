//! `window`: the least window of a run.

use crate::desk::hold_each;
use std::test::Fail;

/// The least machine in standard form.
const LEAST: &str = "S,_,_,+,T\nT,_,_,0,F\n";

/// The increment of a binary number.
const INCREMENT: &str = "S,_,_,+,R1\nR1,0,0,+,R1\nR1,1,1,+,R1\nR1,_,_,-,P1\nP1,1,0,-,P1\n\
                         P1,0,1,-,L1\nP1,_,1,-,L1\nL1,0,0,-,L1\nL1,1,1,-,L1\nL1,_,_,0,F\n";

/// The increment without its third entry.
const BROKEN: &str = "S,_,_,+,R1\nR1,0,0,+,R1\nR1,_,_,-,P1\nP1,1,0,-,P1\n\
                      P1,0,1,-,L1\nP1,_,1,-,L1\nL1,0,0,-,L1\nL1,1,1,-,L1\nL1,_,_,0,F\n";

#[test]
fn finds_the_least_window(rt: HostRuntime) -> Result<(), Fail> {
    let rows: [(&[&str], &str, u8, &str); 9] = [
        (&["window", "=", "9"], LEAST, 0, "window 0 2 2 1\n"),
        (
            &["window", "=1011", "11"],
            INCREMENT,
            0,
            "window 0 5 11 5\n",
        ),
        (&["window", "=1011", "10"], INCREMENT, 12, "running 10\n"),
        (&["window", "=1", "9"], BROKEN, 0, "window 0 1 1 0\n"),
        (&["window", "=12", "9"], INCREMENT, 5, "word: 2\n"),
        (&["window", "=", "9"], "T,_,_,0,F\n", 4, "machine: S2\n"),
        (&["window", "=", "9"], "T\n", 3, "text: record 1 fields\n"),
        (&["window", "1", "9"], "", 2, "usage\n"),
        (&["window", "=1", "1048577"], "", 2, "usage\n"),
    ];
    hold_each(&rt, rt.alloc(), &rows)
}
