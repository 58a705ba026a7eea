//! `drive`: runs of circuits of machines of quadruples.

use crate::desk::{answer, hold_each};
use bn_top::Status;
use std::test::Fail;

/// Goes one cell to the right on each tape, and stops where a 1 stands on each.
const LOOK: &str = "S,/,/,/,+,+,+,A\nA,1,1,1,1,1,1,F\n";

/// Goes one cell to the right, and turns the symbol `ab` into `x`.
const NAMES: &str = "S,/,/,/,+,0,0,A\nA,ab,/,/,x,0,0,F\n";

/// Goes one cell to the left.
const LEFT: &str = "S,/,/,/,-,0,0,F\n";

/// Adds the number on tape 1 to that on tape 2, the least digits first; tape 2 has a 0 behind its digits.
const ADDER: &str =
    "S,_,_,_,_,_,_,K0\nK0,/,/,/,+,+,+,N0\nK1,/,/,/,+,+,+,N1\nN0,/,/,_,0,0,_,F\nN1,/,/,_,0,0,1,F\n\
    F,0,0,_,0,0,_,K0\nF,0,0,1,0,0,1,K0\nF,0,1,_,0,1,_,K0\nF,0,1,1,0,1,1,K1\nF,1,0,_,1,0,_,K0\n\
    F,1,0,1,1,0,1,K1\nF,1,1,_,1,1,_,K1\nF,1,1,1,1,1,1,K1\nF,_,0,_,_,0,_,L0\nF,_,0,1,_,1,_,L1\n\
    L0,/,/,/,-,-,-,M0\nL1,/,/,/,-,-,-,M1\nM0,0,0,_,0,0,_,L0\nM0,0,0,1,0,1,_,L1\nM0,0,1,_,0,1,_,L0\n\
    M0,1,0,_,1,1,_,L0\nM1,0,1,1,0,0,_,L1\nM1,1,0,1,1,0,_,L1\nM1,1,1,_,1,0,_,L0\nM1,1,1,1,1,1,_,L1\n\
    M0,_,_,_,_,_,_,Z\n";

/// Three and three are six, in sixteen steps.
const ADDED: &str = "elements 2500\nexit end\nsteps 129302\nquadruple steps 16\n\
    tape 1 from 0 head 0: _ 1 1 _\ntape 2 from 0 head 0: _ 0 1 1 _\ntape 3 from 0 head 0: _ _ _ _\n";

/// Six less three is three.
const TAKEN: &str = "elements 2500\nexit end\nsteps 129554\nquadruple steps 16\n\
    tape 1 from 0 head 0: _ 1 1 _\ntape 2 from 0 head 0: _ 1 1 0 _\ntape 3 from 0 head 0: _ _ _ _\n";

#[test]
fn tells_each_exit(rt: HostRuntime) -> Result<(), Fail> {
    let rows: [(&[&str], &str, u8, &str); 9] = [
        (
            &["drive", "=1", ":1", "=1", "0", "1", "1", "1", "10000"],
            LOOK,
            0,
            "elements 499\nexit end\nsteps 4500\nquadruple steps 2\ntape 1 from 0 head 1: _ 1\n\
             tape 2 from 0 head 1: _ 1\ntape 3 from 0 head 1: _ 1\n",
        ),
        (
            &["drive", "=", "=1", "=1", "0", "1", "1", "1", "10000"],
            LOOK,
            10,
            "elements 499\nexit stuck A _ 1 1\nsteps 1860\nquadruple steps 1\ntape 1 from 0 head 1: _ _\n\
             tape 2 from 0 head 1: _ 1\ntape 3 from 0 head 1: _ 1\n",
        ),
        (
            &["drive", "=1", "=", "=1", "0", "1", "1", "1", "10000"],
            LOOK,
            10,
            "elements 499\nexit stuck A 1 _ 1\nsteps 2400\nquadruple steps 1\ntape 1 from 0 head 1: _ _\n\
             tape 2 from 0 head 1: _ _\ntape 3 from 0 head 1: _ 1\n",
        ),
        (
            &["drive", "=1", "=1", ":", "0", "1", "1", "1", "10000"],
            LOOK,
            10,
            "elements 499\nexit stuck A 1 1 _\nsteps 2838\nquadruple steps 1\ntape 1 from 0 head 1: _ _\n\
             tape 2 from 0 head 1: _ _\ntape 3 from 0 head 1: _ _\n",
        ),
        (
            &["drive", "=1", "=1", "=1", "0", "1", "1", "1", "0"],
            LOOK,
            12,
            "elements 499\ninside 0.w\nsteps 0\nquadruple steps 0\ntape 1 from 0 head 0: _ 1\n\
             tape 2 from 0 head 0: _ 1\ntape 3 from 0 head 0: _ 1\n",
        ),
        (
            &["drive", "=", "0", "0", "0", "0", "10000"],
            "S,/,/,/,+,0,0,F\n",
            11,
            "elements 108\nexit window 1 right\nsteps 86\nquadruple steps 0\ntape 1 from 0 head ?: _\n\
             tape 2 from 0 head 0: _\ntape 3 from 0 head 0: _\n",
        ),
        (
            &["drive", "=1", "0", "1", "0", "0", "100"],
            LEFT,
            5,
            "word: 1\n",
        ),
        (
            &["drive", "=1", "0", "1", "0", "0", "2305843009213693953"],
            LEFT,
            2,
            "usage\n",
        ),
        (
            &["drive", ":ab", "0", "0", "0", "0", "100"],
            NAMES,
            6,
            "size: word needs 1\n",
        ),
    ];
    hold_each(&rt, rt.alloc(), &rows)
}

#[test]
fn tells_each_window_and_stops_that_are_no_first_reads(rt: HostRuntime) -> Result<(), Fail> {
    let window = ["drive", "=", "0", "0", "0", "0", "1000"];
    let rows: [(&[&str], &str, u8, &str); 9] = [
        (
            &window,
            LEFT,
            11,
            "elements 108\nexit window 1 left\nsteps 74\nquadruple steps 0\ntape 1 from 0 head ?: _\n\
             tape 2 from 0 head 0: _\ntape 3 from 0 head 0: _\n",
        ),
        (
            &window,
            "S,/,/,/,0,+,0,F\n",
            11,
            "elements 108\nexit window 2 right\nsteps 86\nquadruple steps 0\ntape 1 from 0 head 0: _\n\
             tape 2 from 0 head ?: _\ntape 3 from 0 head 0: _\n",
        ),
        (
            &window,
            "S,/,/,/,0,-,0,F\n",
            11,
            "elements 108\nexit window 2 left\nsteps 74\nquadruple steps 0\ntape 1 from 0 head 0: _\n\
             tape 2 from 0 head ?: _\ntape 3 from 0 head 0: _\n",
        ),
        (
            &window,
            "S,/,/,/,0,0,-,F\n",
            11,
            "elements 108\nexit window 3 left\nsteps 74\nquadruple steps 0\ntape 1 from 0 head 0: _\n\
             tape 2 from 0 head 0: _\ntape 3 from 0 head ?: _\n",
        ),
        // Two heads would leave at once: the lesser tape is told.
        (
            &window,
            "S,/,/,/,0,+,+,F\n",
            11,
            "elements 122\nexit window 2 right\nsteps 100\nquadruple steps 0\ntape 1 from 0 head 0: _\n\
             tape 2 from 0 head ?: _\ntape 3 from 0 head 0: _\n",
        ),
        // No quadruple leaves state B.
        (
            &["drive", "=1", "0", "1", "0", "0", "100000"],
            "S,/,/,/,+,0,0,A\nA,1,/,/,1,0,0,B\nC,_,/,/,_,0,0,F\n",
            10,
            "elements 268\nexit stuck B 1 _ _\nsteps 1860\nquadruple steps 2\ntape 1 from 0 head 1: _ _\n\
             tape 2 from 0 head 0: _\ntape 3 from 0 head 0: _\n",
        ),
        // Tape 2 isn't read, and then tape 1.
        (
            &["drive", "=1", "=", "=", "0", "1", "1", "1", "10000"],
            "S,/,/,/,+,+,+,A\nA,1,/,1,1,0,1,F\n",
            10,
            "elements 396\nexit stuck A 1 _ _\nsteps 1973\nquadruple steps 1\ntape 1 from 0 head 1: _ _\n\
             tape 2 from 0 head 1: _ _\ntape 3 from 0 head 1: _ _\n",
        ),
        (
            &["drive", "=", "=1", "=", "0", "1", "1", "1", "10000"],
            "S,/,/,/,+,+,+,A\nA,/,1,1,0,1,1,F\n",
            10,
            "elements 396\nexit stuck A _ 1 _\nsteps 1925\nquadruple steps 1\ntape 1 from 0 head 1: _ _\n\
             tape 2 from 0 head 1: _ _\ntape 3 from 0 head 1: _ _\n",
        ),
        (
            &["drive", "=9", "0", "0", "0", "0", "10"],
            "S,_,/,/,_,0,0,A\nS,_,/,/,_,0,0,B\n",
            4,
            "machine: domain 1 2\n",
        ),
    ];
    hold_each(&rt, rt.alloc(), &rows)
}

#[test]
fn an_adder_adds_and_its_inverse_takes_away(rt: HostRuntime) -> Result<(), Fail> {
    let added = answer(
        rt.alloc(),
        &["drive", "=11", "=110", "=", "0", "3", "4", "3", "1000000"],
        ADDER.as_bytes(),
    )?;
    assert_eq!(rt; added.status, Status::Done);
    assert_eq!(rt; added.text.as_slice(), ADDED.as_bytes());
    let inverse = answer(rt.alloc(), &["inverse"], ADDER.as_bytes())?;
    let taken = answer(
        rt.alloc(),
        &[
            "drive",
            ":1,1",
            ":0,1,1",
            ":",
            "0",
            "3",
            "4",
            "3",
            "2305843009213693952",
        ],
        inverse.text.as_slice(),
    )?;
    assert_eq!(rt; taken.text.as_slice(), TAKEN.as_bytes());
    Ok(())
}
