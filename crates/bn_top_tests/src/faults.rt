//! Words that form no command, and faults of the outside.

use crate::desk::words;
use bn_circuits::Quiet;
use bn_io::{MemSink, MemSource};
use bn_top::{Status, workbench};
use std::test::Fail;

/// One element, the signal at its north line.
const ELEMENT: &str = "rotary 1\nelements 1\nstart 0.n\nend 0.s\nsteps 0\nat 0.n\ne 0 V - - - -\n";

#[test]
fn words_without_a_form_are_usage_and_read_nothing(rt: HostRuntime) -> Result<(), Fail> {
    let rows: [&[&str]; 8] = [
        &[],
        &["step"],
        &["step", "01"],
        &["step", "4611686018427387905"],
        &["step", "1", "1"],
        &["Step", "1"],
        &["back", "-1"],
        &["reversible", "1"],
    ];
    for list in rows {
        let all = words(rt.alloc(), list)?;
        let mut source = MemSource::new(
            Vec::from_slice(rt.alloc(), b"rotary 1\n")?,
            4,
            Vec::new(rt.alloc()),
        );
        let Ok(mut sink) = MemSink::try_new(rt.alloc(), 100, 4, Vec::new(rt.alloc())) else {
            return Err(Fail::from(std::alloc::AllocError));
        };
        let status = workbench(rt.alloc(), &all, &mut source, &mut sink, &mut Quiet);
        assert_eq!(rt; status, Status::Usage);
        assert_eq!(rt; status.code(), 2);
        assert_eq!(rt; sink.taken(), b"usage\n".as_slice());
        let Ok(rest) = bn_io::read_all(rt.alloc(), &mut source, 100) else {
            return Err(Fail::from(std::alloc::AllocError));
        };
        assert_eq!(rt; rest.as_slice(), b"rotary 1\n".as_slice());
    }
    Ok(())
}

#[test]
fn a_source_that_fails_is_told(rt: HostRuntime) -> Result<(), Fail> {
    let all = words(rt.alloc(), &["step", "1"])?;
    for call in [1u64, 3] {
        let failing = vec![in rt.alloc(); call]?;
        let mut source = MemSource::new(
            Vec::from_slice(rt.alloc(), ELEMENT.as_bytes())?,
            10,
            failing,
        );
        let Ok(mut sink) = MemSink::try_new(rt.alloc(), 100, 100, Vec::new(rt.alloc())) else {
            return Err(Fail::from(std::alloc::AllocError));
        };
        let status = workbench(rt.alloc(), &all, &mut source, &mut sink, &mut Quiet);
        assert_eq!(rt; status.code(), 7);
        assert_eq!(rt; sink.taken(), b"read fault\n".as_slice());
    }
    Ok(())
}

#[test]
fn a_sink_that_fails_keeps_a_front(rt: HostRuntime) -> Result<(), Fail> {
    let all = words(rt.alloc(), &["step", "0"])?;
    for (call, taken) in [(1u64, 0usize), (3, 20)] {
        let failing = vec![in rt.alloc(); call]?;
        let mut source = MemSource::new(
            Vec::from_slice(rt.alloc(), ELEMENT.as_bytes())?,
            10,
            Vec::new(rt.alloc()),
        );
        let Ok(mut sink) = MemSink::try_new(rt.alloc(), 100, 10, failing) else {
            return Err(Fail::from(std::alloc::AllocError));
        };
        let status = workbench(rt.alloc(), &all, &mut source, &mut sink, &mut Quiet);
        assert_eq!(rt; status.code(), 8);
        assert_eq!(rt; Some(sink.taken()), ELEMENT.as_bytes().get(..taken));
    }
    Ok(())
}

#[test]
fn a_fault_that_can_not_be_told_is_the_sinks(rt: HostRuntime) -> Result<(), Fail> {
    let all = words(rt.alloc(), &["check"])?;
    let mut source = MemSource::new(
        Vec::from_slice(rt.alloc(), b"S,_\n")?,
        10,
        vec![in rt.alloc(); 1u64]?,
    );
    let failing = vec![in rt.alloc(); 1u64]?;
    let Ok(mut sink) = MemSink::try_new(rt.alloc(), 100, 100, failing) else {
        return Err(Fail::from(std::alloc::AllocError));
    };
    let status = workbench(rt.alloc(), &all, &mut source, &mut sink, &mut Quiet);
    assert_eq!(rt; status.code(), 8);
    assert!(rt; sink.taken().is_empty());
    Ok(())
}
