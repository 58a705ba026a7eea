//! `run =W auto`: windows that the program finds.

use crate::desk::{answer, answer_watched};
use bn_circuits::MemWatch;
use std::test::Fail;

/// The least machine in standard form.
const LEAST: &str = "S,_,_,+,T\nT,_,_,0,F\n";

/// The increment of a binary number.
const INCREMENT: &str = "S,_,_,+,R1\nR1,0,0,+,R1\nR1,1,1,+,R1\nR1,_,_,-,P1\nP1,1,0,-,P1\n\
                         P1,0,1,-,L1\nP1,_,1,-,L1\nL1,0,0,-,L1\nL1,1,1,-,L1\nL1,_,_,0,F\n";

/// The increment without its third entry.
const BROKEN: &str = "S,_,_,+,R1\nR1,0,0,+,R1\nR1,_,_,-,P1\nP1,1,0,-,P1\n\
                      P1,0,1,-,L1\nP1,_,1,-,L1\nL1,0,0,-,L1\nL1,1,1,-,L1\nL1,_,_,0,F\n";

#[test]
fn a_window_is_found(rt: HostRuntime) -> Result<(), Fail> {
    let rows: [(&str, &[&str], u8, &str, &str); 3] = [
        (
            LEAST,
            &["run", "=", "auto"],
            0,
            "window 1 2 2 1\nelements 1266\nexit end\nsteps ",
            "\nquadruple steps 13\ntape 1 from -1 head 0: _ _ _ _\n\
             tape 2 from 0 head 0: _ _ _\ntape 3 from 0 head 0: _ _\noutput =\n",
        ),
        (
            INCREMENT,
            &["run", "=1011", "auto"],
            0,
            "window 1 8 16 8\nelements 18176\nexit end\nsteps ",
            "\noutput =1100\n",
        ),
        (
            BROKEN,
            &["run", "=1", "auto"],
            10,
            "window 1 1 1 1\nelements 5984\nexit stuck R1 1\nsteps ",
            "",
        ),
    ];
    for (table, list, code, front, end) in rows {
        let answer = answer(rt.alloc(), list, table.as_bytes())?;
        assert_eq!(rt; answer.status.code(), code);
        assert!(rt; answer.text.as_slice().starts_with(front.as_bytes()));
        assert!(rt; answer.text.as_slice().ends_with(end.as_bytes()));
    }
    Ok(())
}

#[test]
fn a_found_window_is_run_as_a_given_one(rt: HostRuntime) -> Result<(), Fail> {
    let found = answer(rt.alloc(), &["run", "=1011", "auto"], INCREMENT.as_bytes())?;
    let given = answer(
        rt.alloc(),
        &["run", "=1011", "1", "8", "16", "8"],
        INCREMENT.as_bytes(),
    )?;
    let line = b"window 1 8 16 8\n";
    assert!(rt; found.text.as_slice().starts_with(line));
    assert!(rt; found.text.as_slice().ends_with(given.text.as_slice()));
    assert_eq!(rt; found.text.len(), line.len() + given.text.len());
    Ok(())
}

#[test]
fn all_rounds_are_told(rt: HostRuntime) -> Result<(), Fail> {
    let mut once = MemWatch::try_new(rt.alloc(), 1_000_000)?;
    let mut rounds = MemWatch::try_new(rt.alloc(), 1_000_000)?;
    answer_watched(
        rt.alloc(),
        &["run", "=", "auto"],
        LEAST.as_bytes(),
        &mut once,
    )?;
    let windows: [&[&str]; 3] = [
        &["run", "=", "1", "1", "1", "1"],
        &["run", "=", "1", "1", "2", "1"],
        &["run", "=", "1", "2", "2", "1"],
    ];
    for list in windows {
        answer_watched(rt.alloc(), list, LEAST.as_bytes(), &mut rounds)?;
    }
    assert!(rt; once.places().len() > 10_000);
    assert_eq!(rt; once.places(), rounds.places());
    Ok(())
}
