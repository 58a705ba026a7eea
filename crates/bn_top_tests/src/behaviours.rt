//! `behaviour` and `crossings`: the sequential machine of a circuit.

use crate::desk::{answer, hold_each};
use std::test::Fail;

/// A single rotary element whose bar lies.
const ONE: &str = "rotary 1\nelements 1\nstart 0.n\nend 0.w\nsteps 0\nat 0.n\ne 0 H - - - -\n";

/// A circuit whose signal leaves by two ports in turn: its east output leads to its north input.
const TOGGLE: &str = "rotary 1\nelements 1\nstart 0.w\nend 0.w\nsteps 0\nat 0.w\ne 0 V - 0.n - -\n";

#[test]
fn writes_the_table_of_a_circuit(rt: HostRuntime) -> Result<(), Fail> {
    let rows: [(&[&str], &str, u8, &str); 6] = [
        (
            &["behaviour", "65536", "4611686018427387904"],
            ONE,
            0,
            "1,1,2,4\n1,2,1,4\n1,3,2,2\n1,4,1,2\n2,1,2,3\n2,2,1,1\n2,3,2,1\n2,4,1,3\n",
        ),
        (
            &["behaviour", "2", "2", ":0.w", ":0.s,0.w"],
            TOGGLE,
            0,
            "1,1,2,1\n2,1,1,2\n",
        ),
        (
            &["behaviour", "2", "2", ":0.w", ":0.w,0.s"],
            TOGGLE,
            0,
            "1,1,2,2\n2,1,1,1\n",
        ),
        (
            &["behaviour", "2", "2", ":0.w", ":0.s"],
            TOGGLE,
            0,
            "1,1,2,1\n",
        ),
        (
            &["crossings", "2", "2", ":0.w", ":0.s,0.w"],
            TOGGLE,
            0,
            "state 1 in 0.w next 2 out 0.s steps 1\nstate 2 in 0.w next 1 out 0.w steps 2\n",
        ),
        (
            &["crossings", "2", "1"],
            ONE,
            0,
            "state 1 in 0.n next 2 out 0.w steps 1\nstate 1 in 0.e next 1 out 0.w steps 1\n\
             state 1 in 0.s next 2 out 0.e steps 1\nstate 1 in 0.w next 1 out 0.e steps 1\n\
             state 2 in 0.n next 2 out 0.s steps 1\nstate 2 in 0.e next 1 out 0.n steps 1\n\
             state 2 in 0.s next 2 out 0.n steps 1\nstate 2 in 0.w next 1 out 0.s steps 1\n",
        ),
    ];
    hold_each(&rt, rt.alloc(), &rows)
}

#[test]
fn says_where_it_stops(rt: HostRuntime) -> Result<(), Fail> {
    let rows: [(&[&str], &str, u8, &str); 9] = [
        (&["behaviour", "1", "1"], ONE, 12, "more 1 1\n"),
        (
            &["crossings", "1", "2", ":0.w", ":0.s,0.w"],
            TOGGLE,
            12,
            "more 1 1\n",
        ),
        (
            &["behaviour", "2", "1", ":0.w", ":0.s,0.w"],
            TOGGLE,
            12,
            "running 2 1\n",
        ),
        (
            &["behaviour", "9", "9", ":0.w,0.e", ":0.w"],
            TOGGLE,
            4,
            "machine: closed\n",
        ),
        (
            &["crossings", "9", "9", ":", ":"],
            TOGGLE,
            4,
            "machine: closed\n",
        ),
        (
            &["behaviour", "2", "2", ":0.s,0.e,0.s", ":"],
            TOGGLE,
            5,
            "word: in 3\n",
        ),
        (
            &["crossings", "2", "2", ":0.w,0.n", ":0.s"],
            TOGGLE,
            5,
            "word: in 2\n",
        ),
        (
            &["behaviour", "2", "2", ":0.w", ":0.n,0.e"],
            TOGGLE,
            5,
            "word: out 2\n",
        ),
        (
            &["behaviour", "2", "2"],
            "rotary 1\nelements 0\n",
            3,
            "text: line 2 syntax\n",
        ),
    ];
    hold_each(&rt, rt.alloc(), &rows)
}

#[test]
fn other_words_have_no_form(rt: HostRuntime) -> Result<(), Fail> {
    for list in [
        &["behaviour", "0", "1"],
        &["behaviour", "65537", "1"],
        &["crossings", "1", "0"],
        &["crossings", "1", "4611686018427387905"],
        &["behaviour", "1", ":0.n"],
    ] {
        assert_eq!(rt;
            answer(rt.alloc(), list, ONE.as_bytes())?.text.as_slice(),
            b"usage\n".as_slice()
        );
    }
    assert_eq!(rt;
        answer(rt.alloc(), &["behaviour", "2", "2", ":0.w"], b"")?
            .text
            .as_slice(),
        b"usage\n".as_slice()
    );
    assert_eq!(rt;
        answer(rt.alloc(), &["behaviour", "2", "2", ":0.w", "0.s"], b"")?
            .text
            .as_slice(),
        b"usage\n".as_slice()
    );
    Ok(())
}
