//! `bennett` on tables of quintuples.

use crate::desk::{answer, hold};
use std::test::Fail;

/// The least machine in standard form.
const LEAST: &str = "S,_,_,+,T\nT,_,_,0,F\n";

/// The thirteen quadruples of its reversible machine.
const LEAST_REVERSIBLE: &str = "A1,_,/,_,_,+,_,A1'\nA1',/,_,/,+,1,0,A2\nA2,_,/,_,_,+,_,A2'\n\
                                A2',/,_,/,0,2,0,A3\nA3,_,2,_,_,2,_,B1'\nB1',/,/,/,+,0,+,B1\n\
                                B1,_,2,_,_,2,_,B2'\nB2',/,/,/,-,0,-,B2\nB2,_,2,_,_,2,_,C3\n\
                                C3,/,2,/,0,_,0,C2'\nC2',_,/,_,_,-,_,C2\nC2,/,1,/,-,_,0,C1'\n\
                                C1',_,/,_,_,-,_,C1\n";

/// The increment of a binary number.
const INCREMENT: &str = "S,_,_,+,R1\nR1,0,0,+,R1\nR1,1,1,+,R1\nR1,_,_,-,P1\nP1,1,0,-,P1\n\
                         P1,0,1,-,L1\nP1,_,1,-,L1\nL1,0,0,-,L1\nL1,1,1,-,L1\nL1,_,_,0,F\n";

#[test]
fn prints_the_reversible_machine(rt: HostRuntime) -> Result<(), Fail> {
    let rows = [
        (LEAST, 0, LEAST_REVERSIBLE),
        ("S,_,_,+,T\nT,a,a,0,F\nT,_,_,0,F\n", 4, "machine: S5 2\n"),
        ("S,_,_,+\n", 3, "text: record 1 fields\n"),
        ("", 3, "text: empty\n"),
    ];
    hold(&rt, rt.alloc(), &["bennett"], &rows)
}

#[test]
fn what_it_prints_is_reversible(rt: HostRuntime) -> Result<(), Fail> {
    for table in [LEAST, INCREMENT] {
        let printed = answer(rt.alloc(), &["bennett"], table.as_bytes())?;
        let tested = answer(rt.alloc(), &["reversible"], printed.text.as_slice())?;
        assert_eq!(rt;
            tested.text.as_slice(),
            b"deterministic yes\nreversible yes\n".as_slice()
        );
    }
    Ok(())
}
