//! The program: the engine over real files, standard output and standard error.
#![tactic(auto)]

use std::alloc::{AllocError, Global};
use std::env;
use std::io::{self, ErrorKind};
use std::process::ExitCode;
use unr_engine::run;
use unr_host::{FileDesk, WriterSink};

// The words after the program's name.
fn words(rt: &HostRuntime, alloc: Global) -> io::Result<Vec<String>> {
    let mut words = Vec::new(alloc);
    for word in env::args(rt)?.skip(1) {
        words.push(word).map_err(AllocError::from)?;
    }
    Ok(words)
}

fn main(rt: HostRuntime) -> ExitCode {
    let alloc = rt.alloc();
    let words = match words(&rt, alloc) {
        Ok(words) => words,
        Err(e) if e.kind() == ErrorKind::OutOfMemory => return ExitCode::from(7),
        // The system does not give the words as text.
        Err(_) => return ExitCode::from(2),
    };
    let mut desk = FileDesk::new(&rt, alloc);
    let mut out = WriterSink::new(rt.stdout());
    let mut err = WriterSink::new(rt.stderr());
    ExitCode::from(run(alloc, &words, &mut desk, &mut out, &mut err))
}
