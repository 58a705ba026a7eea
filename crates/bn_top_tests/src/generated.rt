//! `generate`: it reads no source.

use crate::desk::{answer, words};
use bn_circuits::Quiet;
use bn_io::{MemSink, MemSource};
use bn_top::workbench;
use std::test::Fail;

/// What stands before the steps of two increments of 1011, and what stands behind them.
const BEFORE: &str = "increments 2\nelements 55078\nexit end\nsteps ";

const BEHIND: &str = "\nquadruple steps 105\ntape 1 from 0 head 0: _ 1 0 1 1 _\n\
                      tape 2 from 0 head 0: _ _ _ _ _ _ _ _ _ _ _ _ _ _ _ _ _ _ _ _ _ _\n\
                      tape 3 from 0 head 0: _ 1 1 0 1 _\noutput =1101\n";

#[test]
fn two_increments_are_run_from_a_source_that_fails(rt: HostRuntime) -> Result<(), Fail> {
    let all = words(rt.alloc(), &["generate", "2"])?;
    let failing = vec![in rt.alloc(); 1u64]?;
    let mut source = MemSource::new(Vec::from_slice(rt.alloc(), b"unread")?, 4, failing);
    let Ok(mut sink) = MemSink::try_new(rt.alloc(), 1000, 100, Vec::new(rt.alloc())) else {
        return Err(Fail::from(std::alloc::AllocError));
    };
    let status = workbench(rt.alloc(), &all, &mut source, &mut sink, &mut Quiet);
    assert_eq!(rt; status.code(), 0);
    assert!(rt; sink.taken().starts_with(BEFORE.as_bytes()));
    assert!(rt; sink.taken().ends_with(BEHIND.as_bytes()));
    Ok(())
}

#[test]
fn it_is_the_run_of_the_table(rt: HostRuntime) -> Result<(), Fail> {
    let table = "S,_,_,+,R1\nR1,0,0,+,R1\nR1,1,1,+,R1\nR1,_,_,-,P1\nP1,1,0,-,P1\n\
                 P1,0,1,-,L1\nP1,_,1,-,L1\nL1,0,0,-,L1\nL1,1,1,-,L1\nL1,_,_,0,F\n";
    let run = answer(
        rt.alloc(),
        &["run", "=1011", "0", "5", "11", "5"],
        table.as_bytes(),
    )?;
    let generated = answer(rt.alloc(), &["generate", "1"], b"")?;
    let mut text = Vec::from_slice(rt.alloc(), b"increments 1\n")?;
    text.extend_from_slice(run.text.as_slice())?;
    assert_eq!(rt; generated.text.as_slice(), text.as_slice());
    for list in [&["generate", "0"], &["generate", "5"], &["generate", "01"]] {
        assert_eq!(rt;
            answer(rt.alloc(), list, b"")?.text.as_slice(),
            b"usage\n".as_slice()
        );
    }
    Ok(())
}
