//! `mirror`: circuits whose steps are the steps back of others.

use crate::desk::hold_each;
use std::test::Fail;

/// One element, the signal at its north line.
const ELEMENT: &str = "rotary 1\nelements 1\nstart 0.n\nend 0.s\nsteps 0\nat 0.n\ne 0 V - - - -\n";

/// After one step it has left.
const ELEMENT_LEFT: &str =
    "rotary 1\nelements 1\nstart 0.n\nend 0.s\nsteps 1\nleft 0.s\ne 0 V - - - -\n";

/// The mirror of that.
const ELEMENT_TURNED: &str =
    "rotary 1\nelements 1\nstart 0.s\nend 0.n\nsteps 0\nat 0.s\ne 0 V - - - -\n";

/// And after one step of the mirror.
const ELEMENT_BACK: &str =
    "rotary 1\nelements 1\nstart 0.s\nend 0.n\nsteps 1\nleft 0.n\ne 0 V - - - -\n";

/// Two columns of two rows, the signal at the first row.
const BANK: &str = "rotary 2\nelements 6\nstart 0.w\nend 4.e\nsteps 0\nat 0.w\n\
                    c 0 2 H\nr 3.w 4.e\nr 4.w -\nc 3 2 V\nr - -\nr - 0.e\n";

/// After eight steps the signal has left.
const BANK_LEFT: &str = "rotary 2\nelements 6\nstart 0.w\nend 4.e\nsteps 8\nleft 4.e\n\
                         c 0 2 V\nr 3.w 4.e\nr 4.w -\nc 3 2 H\nr - -\nr - 0.e\n";

/// The mirror of that: the wires of a column are those of a column again.
const BANK_TURNED: &str = "rotary 2\nelements 6\nstart 4.w\nend 0.e\nsteps 0\nat 4.w\n\
                           c 0 2 V\nr - 4.e\nr - -\nc 3 2 H\nr 0.w -\nr 1.w 0.e\n";

/// After eight steps of the mirror the signal has left by its end, and the bars are those of the beginning.
const BANK_BACK: &str = "rotary 2\nelements 6\nstart 4.w\nend 0.e\nsteps 8\nleft 0.e\n\
                         c 0 2 H\nr - 4.e\nr - -\nc 3 2 V\nr 0.w -\nr 1.w 0.e\n";

/// Two elements with two wires, about to enter a line that a wire feeds.
const INSIDE: &str = "rotary 1\nelements 2\nstart 0.n\nend 0.w\nsteps 5\nat 1.n\n\
                      e 0 V - - 1.n -\ne 1 H - 0.e - -\n";

/// Its mirror: the signal is about to enter the line that fed it.
const INSIDE_TURNED: &str = "rotary 1\nelements 2\nstart 0.e\nend 0.n\nsteps 0\nat 0.s\n\
                             e 0 V - - - 1.w\ne 1 H 0.s - - -\n";

#[test]
fn undoes_a_circuit_by_a_circuit(rt: HostRuntime) -> Result<(), Fail> {
    let rows: [(&[&str], &str, u8, &str); 12] = [
        (&["step", "1"], ELEMENT, 0, ELEMENT_LEFT),
        (&["mirror"], ELEMENT_LEFT, 0, ELEMENT_TURNED),
        (&["step", "1"], ELEMENT_TURNED, 0, ELEMENT_BACK),
        (&["mirror"], ELEMENT_BACK, 0, ELEMENT),
        (&["step", "8"], BANK, 0, BANK_LEFT),
        (&["mirror"], BANK_LEFT, 0, BANK_TURNED),
        (&["step", "8"], BANK_TURNED, 0, BANK_BACK),
        (&["mirror"], BANK_BACK, 0, BANK),
        (&["mirror"], INSIDE, 0, INSIDE_TURNED),
        (&["mirror"], "rotary 2\n", 3, "text: line 2 syntax\n"),
        (
            &["mirror"],
            "rotary 1\nelements 0\n",
            3,
            "text: line 2 syntax\n",
        ),
        (&["mirror", "1"], ELEMENT, 2, "usage\n"),
    ];
    hold_each(&rt, rt.alloc(), &rows)
}
