//! `check` and `machine` on tables of quintuples.

use crate::desk::{answer, hold, hold_each};
use bn_top::Status;
use std::test::Fail;

/// The least machine in standard form.
const LEAST: &str = "S,_,_,+,T\nT,_,_,0,F\n";

/// The increment of a binary number.
const INCREMENT: &str = "S,_,_,+,R1\nR1,0,0,+,R1\nR1,1,1,+,R1\nR1,_,_,-,P1\nP1,1,0,-,P1\n\
                         P1,0,1,-,L1\nP1,_,1,-,L1\nL1,0,0,-,L1\nL1,1,1,-,L1\nL1,_,_,0,F\n";

/// The increment without its third entry.
const BROKEN: &str = "S,_,_,+,R1\nR1,0,0,+,R1\nR1,_,_,-,P1\nP1,1,0,-,P1\n\
                      P1,0,1,-,L1\nP1,_,1,-,L1\nL1,0,0,-,L1\nL1,1,1,-,L1\nL1,_,_,0,F\n";

/// Two quintuples lead into the final state.
const TWO_ENDS: &str = "S,_,_,+,T\nT,a,a,0,F\nT,_,_,0,F\n";

#[test]
fn tells_whether_a_table_is_in_standard_form(rt: HostRuntime) -> Result<(), Fail> {
    let rows = [
        (LEAST, 0, "standard states 3 symbols 1 quintuples 2\n"),
        (INCREMENT, 0, "standard states 5 symbols 3 quintuples 10\n"),
        (
            "\"S\",\"_\",_,+,T\nT,_,_,0,F\n",
            0,
            "standard states 3 symbols 1 quintuples 2\n",
        ),
        (
            "S,_,_,+,T\r\nT,_,_,0,F\r\n",
            0,
            "standard states 3 symbols 1 quintuples 2\n",
        ),
        (
            "S,_,_,+,T\nT,_,a,0,U\nU,_,_,0,F\n",
            0,
            "standard states 4 symbols 2 quintuples 3\n",
        ),
        (TWO_ENDS, 4, "machine: S5 2\n"),
        ("S,_,_,+,T\nT,_,_,+,T\nT,_,_,0,F\n", 4, "machine: S1 2 3\n"),
        ("S,a,_,+,T\nT,_,_,0,F\n", 4, "machine: S2\n"),
        ("S,_,_,+,T\nT,a,a,+,S\nT,_,_,0,F\n", 4, "machine: S3 2\n"),
        ("S,_,_,+,T\nT,_,_,+,F\n", 4, "machine: S4\n"),
        ("", 3, "text: empty\n"),
        ("S,_,_,+,T\nT,_,_", 3, "text: record 2 fields\n"),
        ("S,/,_,+,T\n", 3, "text: record 1 field 2 symbol\n"),
        ("S,_,ab,+,T\n", 3, "text: record 1 field 3 symbol\n"),
        ("S,_,_,x,T\n", 3, "text: record 1 field 4 shift\n"),
        ("S,_,_,+,T\nT,_,_,0,\n", 3, "text: record 2 field 5 name\n"),
        (
            "AAAAAAAAAAAAAAAAAAAAAAAAAAAAAAAAA,_,_,+,T\n",
            3,
            "text: record 1 field 1 name\n",
        ),
    ];
    hold(&rt, rt.alloc(), &["check"], &rows)
}

#[test]
fn takes_four_thousand_entries_and_no_more(rt: HostRuntime) -> Result<(), Fail> {
    let mut table = Vec::new(rt.alloc());
    for _ in 0..4001 {
        table.extend_from_slice(b"S,_,_,+,T\n")?;
    }
    let more = answer(rt.alloc(), &["check"], table.as_slice())?;
    assert_eq!(rt;
        more.text.as_slice(),
        b"text: record 4001 too many\n".as_slice()
    );
    assert_eq!(rt; more.status, Status::Text);
    Ok(())
}

#[test]
fn runs_a_machine_by_itself(rt: HostRuntime) -> Result<(), Fail> {
    let rows: [(&[&str], &str, u8, &str); 13] = [
        (
            &["machine", "=1011", "20"],
            INCREMENT,
            0,
            "halted 11\noutput =1100\n",
        ),
        (
            &["machine", "=1011", "11"],
            INCREMENT,
            0,
            "halted 11\noutput =1100\n",
        ),
        (&["machine", "=1011", "10"], INCREMENT, 12, "running 10\n"),
        (
            &["machine", "=", "100"],
            INCREMENT,
            0,
            "halted 4\noutput =1\n",
        ),
        (&["machine", "=", "2"], LEAST, 0, "halted 2\noutput =\n"),
        (&["machine", "=", "1"], LEAST, 12, "running 1\n"),
        (&["machine", "=", "0"], LEAST, 12, "running 0\n"),
        (&["machine", "=1", "5"], BROKEN, 10, "stuck R1 1 1\n"),
        (&["machine", "=12", "5"], INCREMENT, 5, "word: 2\n"),
        (&["machine", "=1_", "5"], INCREMENT, 5, "word: 2\n"),
        (&["machine", "=z", "5"], TWO_ENDS, 4, "machine: S5 2\n"),
        (&["machine", "1011", "20"], INCREMENT, 2, "usage\n"),
        (&["machine", "=1011", "1048577"], INCREMENT, 2, "usage\n"),
    ];
    hold_each(&rt, rt.alloc(), &rows)
}
