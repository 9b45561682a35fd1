//! Stores and loads real files through the adapters, and prints what was found.
#![tactic(auto)]

use std::alloc::Global;
use unr_host::{FileDesk, WriterSink};
use unr_io::{Desk, Sink};

const LENGTH: usize = 70_000;

// Bytes of which each differs from its neighbours.
fn pattern(alloc: Global) -> anyhow::Result<Vec<u8>> {
    let mut bytes = Vec::new(alloc);
    for i in 0..LENGTH {
        bytes.push((i % 251) as u8)?;
    }
    Ok(bytes)
}

fn main(rt: HostRuntime) -> anyhow::Result<()> {
    let alloc = rt.alloc();
    let bytes = pattern(alloc)?;
    let mut desk = FileDesk::new(&rt, alloc);
    let stored = desk.store("one", bytes.as_slice()).is_ok();
    let again = desk.store("two", b"short".as_slice()).is_ok();
    let whole = match desk.load("one", 100_000) {
        Ok(found) => found.as_slice() == bytes.as_slice(),
        Err(_) => false,
    };
    let front = match desk.load("one", 10) {
        Ok(found) => found.as_slice() == [0u8, 1, 2, 3, 4, 5, 6, 7, 8, 9].as_slice(),
        Err(_) => false,
    };
    let other = match desk.load("two", 10) {
        Ok(found) => found.as_slice() == b"short".as_slice(),
        Err(_) => false,
    };
    let missing = desk.load("three", 10).is_err();
    let nowhere = desk.store("none/four", b"short".as_slice()).is_err();
    println!(rt;
        "stored {stored} {again} whole {whole} front {front} other {other} missing {missing} nowhere {nowhere}"
    )?;
    let mut sink = WriterSink::new(rt.stdout());
    let first = sink.put(b"first ".as_slice()).is_ok();
    let second = sink.put(b"second\n".as_slice()).is_ok();
    println!(rt; "put {first} {second}")?;
    Ok(())
}
