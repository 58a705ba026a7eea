//! `compile` and `run`: machines on boards.

use crate::desk::{answer, answer_watched, words};
use bn_circuits::{MemWatch, Place, Quiet};
use bn_io::{MemSink, MemSource};
use bn_top::{Status, workbench};
use std::test::Fail;

/// The least machine in standard form.
const LEAST: &str = "S,_,_,+,T\nT,_,_,0,F\n";

/// The increment of a binary number.
const INCREMENT: &str = "S,_,_,+,R1\nR1,0,0,+,R1\nR1,1,1,+,R1\nR1,_,_,-,P1\nP1,1,0,-,P1\n\
                         P1,0,1,-,L1\nP1,_,1,-,L1\nL1,0,0,-,L1\nL1,1,1,-,L1\nL1,_,_,0,F\n";

/// The increment without its third entry.
const BROKEN: &str = "S,_,_,+,R1\nR1,0,0,+,R1\nR1,_,_,-,P1\nP1,1,0,-,P1\n\
                      P1,0,1,-,L1\nP1,_,1,-,L1\nL1,0,0,-,L1\nL1,1,1,-,L1\nL1,_,_,0,F\n";

/// The run that leaves the history's window.
const LEFT_WINDOW: &str = "elements 1064\nexit window 2 right\nsteps 2922\n\
                           tape 1 from 0 head 0: _ _ _\ntape 2 from 0 head ?: _\n\
                           tape 3 from 0 head 0: _ _\n";

/// The least run that halts.
const HALTED: &str = "elements 1244\nexit end\nsteps 67300\nquadruple steps 13\n\
                      tape 1 from 0 head 0: _ _ _\ntape 2 from 0 head 0: _ _ _\n\
                      tape 3 from 0 head 0: _ _\noutput =\n";

/// The same after the first crossing of the control.
const BEGUN: &str = "elements 1244\ninside 864.w\nsteps 1564\ntape 1 from 0 head 0: _ _ _\n\
                     tape 2 from 0 head 0: _ _ _\ntape 3 from 0 head 0: _ _\n";

/// What stands behind the steps where 1011 is incremented.
const INCREMENTED: &str = "quadruple steps 65\ntape 1 from 0 head 0: _ 1 0 1 1 _\n\
                           tape 2 from 0 head 0: _ _ _ _ _ _ _ _ _ _ _ _\n\
                           tape 3 from 0 head 0: _ 1 1 0 0 _\noutput =1100\n";

#[test]
fn tells_a_run_exactly(rt: HostRuntime) -> Result<(), Fail> {
    let rows: [(&[&str], u8, &str); 4] = [
        (&["run", "=", "0", "2", "0", "1"], 11, LEFT_WINDOW),
        (&["run", "=", "0", "2", "2", "1"], 0, HALTED),
        (&["run", "=", "0", "2", "2", "1", "1564"], 12, BEGUN),
        (&["run", "=", "0", "2", "2", "1", "67300"], 0, HALTED),
    ];
    for (list, code, output) in rows {
        let answer = answer(rt.alloc(), list, LEAST.as_bytes())?;
        assert_eq!(rt; answer.text.as_slice(), output.as_bytes());
        assert_eq!(rt; answer.status.code(), code);
    }
    Ok(())
}

#[test]
fn a_run_ends_as_the_machine_does(rt: HostRuntime) -> Result<(), Fail> {
    let rows: [(&str, &[&str], u8, &str, &str); 7] = [
        (
            INCREMENT,
            &["run", "=1011", "0", "5", "11", "5"],
            0,
            "elements 14136\nexit end\nsteps ",
            INCREMENTED,
        ),
        (
            INCREMENT,
            &["run", "=1011", "0", "5", "10", "5"],
            11,
            "",
            "",
        ),
        (INCREMENT, &["run", "=111", "0", "4", "10", "5"], 11, "", ""),
        (
            INCREMENT,
            &["run", "=111", "1", "4", "10", "5"],
            0,
            "elements 13454\nexit end\nsteps ",
            "\noutput =1000\n",
        ),
        (
            INCREMENT,
            &["run", "=1011", "0", "5", "11", "4"],
            11,
            "",
            "",
        ),
        (
            INCREMENT,
            &["run", "=", "1", "1", "4", "2"],
            0,
            "elements 8822\nexit end\nsteps ",
            "tape 3 from 0 head 0: _ 1 _\noutput =1\n",
        ),
        (
            BROKEN,
            &["run", "=1", "0", "3", "3", "3"],
            10,
            "elements 7414\nexit stuck R1 1\nsteps ",
            "",
        ),
    ];
    let exits = [
        "exit end",
        "exit window 2 right",
        "exit window 1 left",
        "exit end",
        "exit window 3 right",
        "exit end",
        "exit stuck R1 1",
    ];
    for ((input, list, code, front, rest), exit) in rows.into_iter().zip(exits) {
        let answer = answer(rt.alloc(), list, input.as_bytes())?;
        assert_eq!(rt; answer.status.code(), code, "{exit}");
        assert!(rt;
            answer.text.as_slice().starts_with(front.as_bytes()),
            "{exit}"
        );
        assert!(rt; answer.text.as_slice().ends_with(rest.as_bytes()), "{exit}");
        let mut lines = answer.text.as_slice().split(|byte| *byte == b'\n').skip(1);
        assert!(rt; lines.next() == Some(exit.as_bytes()), "{exit}");
    }
    Ok(())
}

#[test]
fn refuses_words_and_sizes_in_order(rt: HostRuntime) -> Result<(), Fail> {
    let rows: [(&[&str], u8, &str); 6] = [
        (&["=12", "0", "3", "3", "3"], 5, "word: 2\n"),
        (&["=1_", "0", "3", "3", "3"], 5, "word: 2\n"),
        (&["=1011", "0", "3", "11", "5"], 6, "size: word needs 4\n"),
        (
            &["=1011", "0", "5", "6141", "5"],
            6,
            "size: elements 4194796\n",
        ),
        (&["=1", "0", "3"], 2, "usage\n"),
        (&["=1", "0", "3", "3", "1048577"], 2, "usage\n"),
    ];
    for (behind, code, output) in rows {
        for name in ["compile", "run"] {
            let mut list = vec![in rt.alloc(); name]?;
            list.extend_from_slice(behind)?;
            let answer = answer(rt.alloc(), list.as_slice(), INCREMENT.as_bytes())?;
            assert_eq!(rt; answer.text.as_slice(), output.as_bytes(), "{name}");
            assert_eq!(rt; answer.status.code(), code, "{name}");
        }
    }
    Ok(())
}

#[test]
fn a_compiled_text_runs_to_the_exit_and_back(rt: HostRuntime) -> Result<(), Fail> {
    let rows: [(&str, &[&str], &str, &str, &str); 2] = [
        (
            LEAST,
            &["compile", "=", "0", "2", "0", "1"],
            "2922",
            "steps 2922",
            "left 1011.e",
        ),
        (
            LEAST,
            &["compile", "=", "0", "2", "2", "1"],
            "67300",
            "steps 67300",
            "left 848.e",
        ),
    ];
    for (input, list, count, steps, left) in rows {
        let compiled = answer(rt.alloc(), list, input.as_bytes())?;
        assert_eq!(rt; compiled.status, Status::Done);
        let stepped = answer(rt.alloc(), &["step", count], compiled.text.as_slice())?;
        let mut lines = stepped.text.as_slice().split(|byte| *byte == b'\n').skip(4);
        assert!(rt; lines.next() == Some(steps.as_bytes()));
        assert!(rt; lines.next() == Some(left.as_bytes()));
        let back = answer(rt.alloc(), &["back", count], stepped.text.as_slice())?;
        assert_eq!(rt; back.text.as_slice(), compiled.text.as_slice());
    }
    Ok(())
}

#[test]
fn the_wires_of_a_compiled_text(rt: HostRuntime) -> Result<(), Fail> {
    let compiled = answer(
        rt.alloc(),
        &["compile", "=", "0", "2", "0", "1"],
        LEAST.as_bytes(),
    )?;
    let front = "rotary 2\nelements 1064\nstart 0.w\nend 848.e\nsteps 0\nat 0.w\n\
                 c 0 15 H\nr 16.w 33.e\n";
    assert!(rt; compiled.text.as_slice().starts_with(front.as_bytes()));
    let mut lines = compiled
        .text
        .as_slice()
        .split(|byte| *byte == b'\n')
        .skip_while(|line| *line != b"c 848 15 V".as_slice());
    for line in ["c 848 15 V", "r - -", "r 864.w -", "r 865.w 16.e"] {
        assert!(rt; lines.next() == Some(line.as_bytes()), "{line}");
    }
    Ok(())
}

#[test]
fn a_watch_hears_each_place_of_a_run(rt: HostRuntime) -> Result<(), Fail> {
    let Ok(mut watch) = MemWatch::try_new(rt.alloc(), 3000) else {
        return Err(Fail::from(std::alloc::AllocError));
    };
    let list = ["run", "=", "0", "2", "0", "1"];
    let answer = answer_watched(rt.alloc(), list.as_slice(), LEAST.as_bytes(), &mut watch)?;
    assert_eq!(rt; answer.text.as_slice(), LEFT_WINDOW.as_bytes());
    let places = watch.places();
    assert_eq!(rt; places.len(), 2922);
    for (place, element) in places.iter().zip(1u32..4) {
        assert_eq!(rt; *place, Place::Enter { element, line: 0 });
    }
    let last = Place::Left {
        element: 1011,
        line: 1,
    };
    assert!(rt; places.last() == Some(&last));
    Ok(())
}

#[test]
fn a_sink_that_fails_keeps_a_front_of_a_compiled_text(rt: HostRuntime) -> Result<(), Fail> {
    let list = ["compile", "=", "0", "2", "0", "1"];
    let whole = answer(rt.alloc(), list.as_slice(), LEAST.as_bytes())?;
    let all = words(rt.alloc(), list.as_slice())?;
    let mut source = MemSource::new(
        Vec::from_slice(rt.alloc(), LEAST.as_bytes())?,
        100,
        Vec::new(rt.alloc()),
    );
    let failing = vec![in rt.alloc(); 2u64]?;
    let Ok(mut sink) = MemSink::try_new(rt.alloc(), 100_000, 100, failing) else {
        return Err(Fail::from(std::alloc::AllocError));
    };
    let status = workbench(rt.alloc(), &all, &mut source, &mut sink, &mut Quiet);
    assert_eq!(rt; status.code(), 8);
    assert_eq!(rt; Some(sink.taken()), whole.text.as_slice().get(..100));
    Ok(())
}
