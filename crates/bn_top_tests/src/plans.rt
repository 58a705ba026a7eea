//! `plan`: floor plans of circuits.

use crate::desk::{answer, hold_each};
use std::test::Fail;

/// One element, the signal at its north line.
const ELEMENT: &str = "rotary 1\nelements 1\nstart 0.n\nend 0.s\nsteps 0\nat 0.n\ne 0 V - - - -\n";

/// The machine of two moves whose bank has two columns.
const PAIR: &str = "1,1,2,2\n2,2,1,1\n";

/// The plan of that bank.
const PLAN: &str = "elements 6\nwires 18\ntracks 8\ndensest 10\nwire 0.n 2.e track 1\n\
                    wire 0.e 3.w track 2\nwire 0.s 1.n track 3\nwire 0.w 4.e track 4\n\
                    wire 2.w 0.n track 5\nwire 4.w 0.e track 6\nwire 1.n 0.s track 7\n\
                    wire 1.e 4.w track 7\nwire 1.s 2.n track 8\nwire 2.n 1.s track 3\n\
                    wire 2.s 2.s track 3\nwire 3.n 5.e track 1\nwire 3.s 4.n track 3\n\
                    wire 5.w 3.n track 5\nwire 4.n 3.s track 8\nwire 4.s 5.n track 2\n\
                    wire 5.n 4.s track 3\nwire 5.s 5.s track 3\n";

#[test]
fn gives_each_wire_the_least_free_track(rt: HostRuntime) -> Result<(), Fail> {
    let bank = answer(rt.alloc(), &["realise", "1", "1"], PAIR.as_bytes())?;
    let plan = answer(rt.alloc(), &["plan"], bank.text.as_slice())?;
    assert_eq!(rt; plan.text.as_slice(), PLAN.as_bytes());
    assert_eq!(rt; plan.status.code(), 0);
    let rows: [(&[&str], &str, u8, &str); 4] = [
        (
            &["plan"],
            ELEMENT,
            0,
            "elements 1\nwires 0\ntracks 0\ndensest 0\n",
        ),
        (&["plan"], "rotary 2\n", 3, "text: line 2 syntax\n"),
        (&["plan"], "rotary 3\n", 3, "text: line 1 syntax\n"),
        (&["plan", "1"], ELEMENT, 2, "usage\n"),
    ];
    hold_each(&rt, rt.alloc(), &rows)
}
