// Runs over a desk and sinks in memory.
use std::alloc::{AllocError, Global};
use unr_engine::run;
use unr_io::{Fail, Files, MemDesk, MemSink};

/// No call fails.
pub const NONE: Fail = Fail { call: 0, kept: 0 };

/// How a run ended, and what it left.
#[derive(Drop)]
pub struct Ran {
    pub status: u8,
    pub desk: MemDesk,
    pub out: MemSink,
    pub err: MemSink,
}

pub fn words_of(alloc: Global, words: &str) -> Result<Vec<String>, AllocError> {
    let mut list = Vec::new(alloc);
    for word in words.split_whitespace() {
        list.push(String::from_str(alloc, word)?)?;
    }
    Ok(list)
}

/// The text with a line feed for each bar.
pub fn lines(alloc: Global, text: &str) -> Result<Vec<u8>, AllocError> {
    let mut bytes = Vec::new(alloc);
    for byte in text.as_bytes() {
        bytes.push(if *byte == b'|' { b'\n' } else { *byte })?;
    }
    Ok(bytes)
}

fn planned(alloc: Global, fail: Fail) -> Result<Vec<Fail>, AllocError> {
    let mut fails = Vec::new(alloc);
    fails.push(fail)?;
    Ok(fails)
}

/// Runs with these words over these files. Of `fails` the first is the call of the desk that fails, then that of the output and of the error
/// output.
pub fn run_over(
    alloc: Global,
    words: &str,
    files: Files,
    fails: [Fail; 3],
) -> Result<Ran, AllocError> {
    let words = words_of(alloc, words)?;
    let [desk, out, err] = fails;
    let mut desk = MemDesk::make(alloc, files, planned(alloc, desk)?);
    let mut out = MemSink::make(alloc, planned(alloc, out)?);
    let mut err = MemSink::make(alloc, planned(alloc, err)?);
    let status = run(alloc, &words, &mut desk, &mut out, &mut err);
    Ok(Ran {
        status,
        desk,
        out,
        err,
    })
}
