//! `standard` on tables of quintuples, and what `check` and `machine` say of what it answers.

use crate::desk::{answer, hold, hold_each};
use std::test::Fail;

/// It turns each letter of its word, from the first one on.
const TURNS: &str = "A,0,1,+,A\nA,1,0,+,A\nA,_,_,-,H\n";

/// The same in standard form.
const NOT: &str =
    "I,_,_,+,Q1\nQ1,0,1,+,Q1\nQ1,1,0,+,Q1\nQ1,_,_,-,Q2\nQ2,0,0,-,Q2\nQ2,1,1,-,Q2\nQ2,_,_,0,O\n";

/// It turns nothing but zeros.
const HALF: &str = "A,0,1,+,A\nA,_,_,-,H\n";

/// The same in standard form.
const HALF_NOT: &str =
    "I,_,_,+,Q1\nQ1,0,1,+,Q1\nQ1,_,_,-,Q2\nQ2,0,0,-,Q2\nQ2,1,1,-,Q2\nQ2,_,_,0,O\n";

#[test]
fn brings_a_table_into_standard_form(rt: HostRuntime) -> Result<(), Fail> {
    let rows = [
        (TURNS, 0, NOT),
        (HALF, 0, HALF_NOT),
        (
            "H,a,_,0,H2\n",
            0,
            "I,_,_,+,Q1\nQ1,a,_,0,Q2\nQ2,a,a,-,Q2\nQ2,_,_,0,O\n",
        ),
        ("A,_,_,+,H\nH,_,_,+,A\n", 4, "machine: halting 1\n"),
        (
            "A,_,_,+,B\nH,_,_,+,B\nB,a,a,+,H\n",
            4,
            "machine: halting 2\n",
        ),
        ("A,_,_,+,H\nA,_,_,0,A\nH,_,_,+,H\n", 4, "machine: S1 1 2\n"),
        ("", 3, "text: empty\n"),
        ("A,0,1,+\n", 3, "text: record 1 fields\n"),
    ];
    hold(&rt, rt.alloc(), &["standard"], &rows)?;
    hold(
        &rt,
        rt.alloc(),
        &["standard", "1"],
        &[(TURNS, 2, "usage\n")],
    )
}

#[test]
fn what_is_brought_into_standard_form_is_run(rt: HostRuntime) -> Result<(), Fail> {
    let rows: [(&[&str], &str, u8, &str); 5] = [
        (
            &["check"],
            NOT,
            0,
            "standard states 4 symbols 3 quintuples 7\n",
        ),
        (
            &["machine", "=101", "20"],
            NOT,
            0,
            "halted 9\noutput =010\n",
        ),
        (&["machine", "=", "20"], NOT, 0, "halted 3\noutput =\n"),
        (&["machine", "=001", "20"], HALF_NOT, 10, "stuck Q1 1 3\n"),
        (&["machine", "=101", "8"], NOT, 12, "running 8\n"),
    ];
    hold_each(&rt, rt.alloc(), &rows)
}

#[test]
fn a_list_of_more_quintuples_than_a_table_has_is_refused(rt: HostRuntime) -> Result<(), Fail> {
    let mut table = String::new(rt.alloc());
    for state in 0..3999 {
        let line = format!(in rt.alloc(); "s{state},_,_,+,t{state}\n")?;
        table.push_str(line.as_str())?;
    }
    let answer = answer(rt.alloc(), &["standard"], table.as_bytes())?;
    assert_eq!(rt;
        answer.text.as_slice(),
        b"size: quintuples 4001\n".as_slice()
    );
    assert_eq!(rt; answer.status.code(), 6);
    Ok(())
}
