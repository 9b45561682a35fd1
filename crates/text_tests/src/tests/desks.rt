//! Desks and sinks in memory.
use std::test::Fail as TestFail;
use unr_io::{Desk, Fail, Files, MemDesk, MemSink, Sink, SinkError};

#[test]
fn desk_tells_and_fails_as_planned(rt: HostRuntime) -> Result<(), TestFail> {
    let alloc = rt.alloc();
    let mut files = Files::new(alloc);
    files.set(alloc, "a", b"abc")?;
    assert_eq!(rt; files.get("a"), Some(b"abc".as_slice()));
    let mut fails = Vec::new(alloc);
    fails.push(Fail { call: 3, kept: 2 })?;
    let mut desk = MemDesk::make(alloc, files, fails);
    assert_eq!(rt; desk.load("a", 2)?.as_slice(), b"ab".as_slice());
    assert!(rt; desk.load("b", 9).is_err());
    assert!(rt; desk.store("c", b"whole").is_err());
    assert_eq!(rt; desk.file("c"), Some(b"wh".as_slice()));
    desk.store("c", b"new")?;
    assert_eq!(rt; desk.file("c"), Some(b"new".as_slice()));
    assert_eq!(rt; desk.calls().len(), 4);
    Ok(())
}

#[test]
fn sink_tells_and_fails_as_planned(rt: HostRuntime) -> Result<(), TestFail> {
    let alloc = rt.alloc();
    let mut fails = Vec::new(alloc);
    fails.push(Fail { call: 2, kept: 1 })?;
    let mut sink = MemSink::make(alloc, fails);
    sink.put(b"one")?;
    assert_eq!(rt; sink.put(b"two"), Err(SinkError::Failed));
    assert_eq!(rt; sink.bytes(), b"onet".as_slice());
    Ok(())
}
