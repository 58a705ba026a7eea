//! `erase` on two tables, and the run of what it makes from a word.

use crate::desk::answer;
use std::alloc::{AllocError, Global};
use std::test::Fail;

/// The least machine in standard form.
const LEAST: &str = "S,_,_,+,T\nT,_,_,0,F\n";

/// It turns each letter of its word.
const NOT: &str =
    "I,_,_,+,Q1\nQ1,0,1,+,Q1\nQ1,1,0,+,Q1\nQ1,_,_,-,Q2\nQ2,0,0,-,Q2\nQ2,1,1,-,Q2\nQ2,_,_,0,O\n";

/// It adds one to a binary number.
const INCREMENT: &str = "S,_,_,+,R1\nR1,0,0,+,R1\nR1,1,1,+,R1\nR1,_,_,-,P1\nP1,1,0,-,P1\n\
                         P1,0,1,-,L1\nP1,_,1,-,L1\nL1,0,0,-,L1\nL1,1,1,-,L1\nL1,_,_,0,F\n";

/// It makes each a of its word a b.
const LETTERS: &str = "S,_,_,+,A\nA,a,b,+,A\nA,b,b,+,A\nA,_,_,-,B\nB,b,b,-,B\nB,_,_,0,F\n";

/// The 26 quadruples of the least machine's with itself.
const LEAST_ERASING: &str = "FA1,_,/,_,_,+,_,FA1'\nFA1',/,_,/,+,1,0,FA2\nFA2,_,/,_,_,+,_,FA2'\n\
                             FA2',/,_,/,0,2,0,FA3\nFA3,_,2,_,_,2,_,FB1'\nFB1',/,/,/,+,0,+,FB1\n\
                             FB1,_,2,_,_,2,_,FB2'\nFB2',/,/,/,-,0,-,FB2\nFB2,_,2,_,_,2,_,FC3\n\
                             FC3,/,2,/,0,_,0,FC2'\nFC2',_,/,_,_,-,_,FC2\nFC2,/,1,/,-,_,0,FC1'\n\
                             FC1',_,/,_,_,-,_,FC1\nFC1,_,/,_,_,+,_,GC1'\nGC1',/,_,/,0,1,+,GC2\n\
                             GC2,_,/,_,_,+,_,GC2'\nGC2',/,_,/,0,2,0,GC3\nGC3,_,2,_,_,2,_,GB2\n\
                             GB2,/,/,/,+,0,+,GB2'\nGB2',_,2,_,_,2,_,GB1\nGB1,/,/,/,-,0,-,GB1'\n\
                             GB1',_,2,_,_,2,_,GA3\nGA3,/,2,/,0,_,0,GA2'\nGA2',_,/,_,_,-,_,GA2\n\
                             GA2,/,1,/,0,_,-,GA1'\nGA1',_,/,_,_,-,_,GA1\n";

/// Two tables with the line between them.
fn pair(alloc: Global, first: &str, second: &str) -> Result<String, AllocError> {
    format!(in alloc; "{first}%\n{second}")
}

/// A table of so many quintuples: it passes a word of as many letters less two.
fn chain(alloc: Global, count: u32) -> Result<String, AllocError> {
    let mut table = String::from_str(alloc, "S,_,_,+,a0\n")?;
    for state in 2..count {
        let line = format!(in alloc; "a{},x,x,+,a{}\n", state - 2, state - 1)?;
        table.push_str(line.as_str())?;
    }
    let last = format!(in alloc; "a{},_,_,0,F\n", count.saturating_sub(2))?;
    table.push_str(last.as_str())?;
    Ok(table)
}

#[test]
fn leaves_the_output_alone(rt: HostRuntime) -> Result<(), Fail> {
    let rows: [(&str, &str, &[&str], u8, &str); 14] = [
        (LEAST, LEAST, &["erase"], 0, LEAST_ERASING),
        (
            NOT,
            NOT,
            &["erase", "=101", "200"],
            0,
            "halted 106\nwork =\noutput =010\n",
        ),
        (
            NOT,
            NOT,
            &["erase", "=101", "106"],
            0,
            "halted 106\nwork =\noutput =010\n",
        ),
        (NOT, NOT, &["erase", "=101", "105"], 12, "running 105\n"),
        (NOT, NOT, &["erase", "=101", "0"], 12, "running 0\n"),
        (NOT, LEAST, &["erase", "=101", "1000"], 10, "stuck GC2 55\n"),
        (
            NOT,
            INCREMENT,
            &["erase", "=101", "73"],
            10,
            "stuck GB2' 73\n",
        ),
        (
            NOT,
            INCREMENT,
            &["erase", "=10", "82"],
            0,
            "halted 82\nwork =\noutput =01\n",
        ),
        (
            LEAST,
            LEAST,
            &["erase", "=", "1000"],
            0,
            "halted 26\nwork =\noutput =\n",
        ),
        (LEAST, NOT, &["erase", "=01", "100"], 10, "stuck FA2 2\n"),
        (NOT, LETTERS, &["erase", "=a", "100"], 10, "stuck FA2 2\n"),
        (NOT, NOT, &["erase", "=12", "9"], 5, "word: 2\n"),
        (NOT, LETTERS, &["erase", "=a_", "9"], 5, "word: 2\n"),
        (NOT, NOT, &["erase", "=1"], 2, "usage\n"),
    ];
    for (first, second, words, code, output) in rows {
        let input = pair(rt.alloc(), first, second)?;
        let answer = answer(rt.alloc(), words, input.as_bytes())?;
        assert_eq!(rt; answer.text.as_slice(), output.as_bytes(), "{output}");
        assert_eq!(rt; answer.status.code(), code, "{output}");
    }
    Ok(())
}

#[test]
fn refuses_the_first_table_before_the_second(rt: HostRuntime) -> Result<(), Fail> {
    let rows: [(&str, u8, &str); 10] = [
        ("", 3, "text: no second\n"),
        ("S,_\n", 3, "text: no second\n"),
        ("S,_,_,+,T\n%", 3, "text: no second\n"),
        ("S,_\n%\nS\n", 3, "text: record 1 fields\n"),
        ("%\n", 3, "text: empty\n"),
        ("S,_,_,+,T\nT,_,_,0,F\n%\n", 3, "text: second empty\n"),
        (
            "S,_,_,+,T\nT,a,a,0,F\nT,_,_,0,F\n%\nS,_\n",
            3,
            "text: second record 1 fields\n",
        ),
        (
            "S,_,_,+,T\nT,_,_,0,F\n%\nS,_,_,+,T\n%\nT,_,_,0,F\n",
            3,
            "text: second record 2 fields\n",
        ),
        (
            "S,_,_,+,T\nT,a,a,0,F\nT,_,_,0,F\n%\nS,_,_,-,T\n",
            4,
            "machine: S5 2\n",
        ),
        (
            "S,_,_,+,T\nT,_,_,0,F\n%\nS,_,_,+,T\nT,a,a,0,F\nT,_,_,0,F\n",
            4,
            "machine: second S5 2\n",
        ),
    ];
    for (input, code, output) in rows {
        let listed = answer(rt.alloc(), &["erase"], input.as_bytes())?;
        assert_eq!(rt; listed.text.as_slice(), output.as_bytes(), "{input}");
        assert_eq!(rt; listed.status.code(), code, "{input}");
        let run = answer(rt.alloc(), &["erase", "=?", "9"], input.as_bytes())?;
        assert_eq!(rt; run.text.as_slice(), output.as_bytes(), "{input}");
    }
    Ok(())
}

#[test]
fn refuses_what_is_too_large(rt: HostRuntime) -> Result<(), Fail> {
    let long = chain(rt.alloc(), 2498)?;
    let longer = chain(rt.alloc(), 2499)?;
    let most = pair(rt.alloc(), long.as_str(), long.as_str())?;
    let more = pair(rt.alloc(), long.as_str(), longer.as_str())?;
    let run = answer(rt.alloc(), &["erase", "=x", "1"], most.as_bytes())?;
    assert_eq!(rt; run.text.as_slice(), b"running 1\n".as_slice());
    let listed = answer(rt.alloc(), &["erase"], more.as_bytes())?;
    assert_eq!(rt;
        listed.text.as_slice(),
        b"size: quadruples 20002\n".as_slice()
    );
    assert_eq!(rt; listed.status.code(), 6);
    let mut word = String::from_str(rt.alloc(), "=")?;
    for _ in 0..1_048_577 {
        word.push_str("x")?;
    }
    let letters = answer(rt.alloc(), &["erase", word.as_str(), "1"], more.as_bytes())?;
    assert_eq!(rt;
        letters.text.as_slice(),
        b"size: word needs 1048577\n".as_slice()
    );
    assert_eq!(rt; letters.status.code(), 6);
    Ok(())
}

#[test]
fn what_it_prints_is_reversible(rt: HostRuntime) -> Result<(), Fail> {
    for first in [LEAST, NOT, INCREMENT, LETTERS] {
        for second in [LEAST, NOT, INCREMENT, LETTERS] {
            let input = pair(rt.alloc(), first, second)?;
            let printed = answer(rt.alloc(), &["erase"], input.as_bytes())?;
            let tested = answer(rt.alloc(), &["reversible"], printed.text.as_slice())?;
            assert_eq!(rt;
                tested.text.as_slice(),
                b"deterministic yes\nreversible yes\n".as_slice()
            );
        }
    }
    Ok(())
}
