//! `farm`: several boards under a schedule.

use crate::desk::hold;
use std::test::Fail;

/// An element about to be entered, an endless run, and a schedule; and the answer.
const BEFORE: &str = "rotary 1\nelements 1\nstart 0.n\nend 0.s\nsteps 0\nat 0.n\ne 0 V - - - -\n%\n\
                      rotary 1\nelements 1\nstart 0.e\nend 0.w\nsteps 0\nat 0.n\ne 0 V - - 0.n -\n%\n\
                      + 2 3\n+ 1 5\n- 2 1\n";

const AFTER: &str =
    "rotary 1\nelements 1\nstart 0.n\nend 0.s\nsteps 1\nleft 0.s\ne 0 V - - - -\n%\n\
                     rotary 1\nelements 1\nstart 0.e\nend 0.w\nsteps 2\nat 0.n\ne 0 V - - 0.n -\n%\n\
                     + 2 1\n- 1 1\n- 2 3\n";

/// The answer to that: the first boards, and the lines that made steps.
const BACK: &str = "rotary 1\nelements 1\nstart 0.n\nend 0.s\nsteps 0\nat 0.n\ne 0 V - - - -\n%\n\
                    rotary 1\nelements 1\nstart 0.e\nend 0.w\nsteps 0\nat 0.n\ne 0 V - - 0.n -\n%\n\
                    + 2 3\n+ 1 1\n- 2 1\n";

/// One board of each version, and no event: a farm that stays as it is.
const STILL: &str = "rotary 2\nelements 1\nstart 0.n\nend 0.s\nsteps 0\nat 0.n\ne 0 V - - - -\n%\n\
                     rotary 1\nelements 1\nstart 0.e\nend 0.w\nsteps 0\nat 0.n\ne 0 V - - 0.n -\n%\n";

#[test]
fn boards_are_played_and_refused_in_order(rt: HostRuntime) -> Result<(), Fail> {
    let rows: [(&str, u8, &str); 11] = [
        (BEFORE, 0, AFTER),
        (AFTER, 0, BACK),
        (STILL, 0, STILL),
        ("", 3, "text: no schedule\n"),
        ("rotary 1\n%", 3, "text: no schedule\n"),
        ("%\n+ 9 1\n", 3, "text: board 1 line 1 syntax\n"),
        ("%\n%\nx\n", 3, "text: board 1 line 1 syntax\n"),
        (
            "rotary 1\nelements 1\nstart 0.n\nend 0.s\nsteps 0\nat 0.n\ne 0 V - - - -\n%\n\
             rotary 1\nelements 0\n%\n+ 9 1\n",
            3,
            "text: board 2 line 2 syntax\n",
        ),
        (
            "rotary 1\nelements 1\nstart 0.n\nend 0.s\nsteps 0\nat 0.n\ne 0 V - - - -\n%\n+ 2 1\n+ 1 0\n",
            3,
            "text: schedule line 1 board\n",
        ),
        (
            "rotary 1\nelements 1\nstart 0.n\nend 0.s\nsteps 0\nat 0.n\ne 0 V - - - -\n%\n+ 1 1\n+ 9 0\n",
            3,
            "text: schedule line 2 form\n",
        ),
        (
            "rotary 1\nelements 1\nstart 0.n\nend 0.s\nsteps 0\nat 0.n\ne 0 V - - - -\n%\n- 0 1\n",
            3,
            "text: schedule line 1 board\n",
        ),
    ];
    hold(&rt, rt.alloc(), &["farm"], &rows)
}
