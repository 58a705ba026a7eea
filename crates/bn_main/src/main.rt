//! The workbench as a program: the words of its command line, standard input and standard output.
#![tactic(auto)]

use bn_circuits::Quiet;
use bn_io::{StdSink, StdSource};
use bn_top::{Status, workbench};
use std::alloc::AllocError;
use std::process::ExitCode;
use std::{env, io};

fn main(rt: HostRuntime) -> ExitCode {
    let Ok(words) = words_of(&rt) else {
        return ExitCode::from(Status::NoMemory.code());
    };
    let mut source = StdSource::new(rt.stdin());
    let mut sink = StdSink::new(rt.stdout());
    let status = workbench(rt.alloc(), &words, &mut source, &mut sink, &mut Quiet);
    ExitCode::from(status.code())
}

// The words behind the program's name; no words where the runtime refuses them for anything but
// want of memory.
fn words_of(rt: &HostRuntime) -> Result<Vec<String>, AllocError> {
    let mut words = Vec::new(rt.alloc());
    let all = match env::args(rt) {
        Ok(all) => all,
        Err(refusal) if refusal.kind() == io::ErrorKind::OutOfMemory => return Err(AllocError),
        Err(_) => return Ok(words),
    };
    for word in all.skip(1) {
        words.push(word)?;
    }
    Ok(words)
}
