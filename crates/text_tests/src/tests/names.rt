//! Names.
use std::test::Fail;
use word_core::Name;

#[test]
fn keeps_bytes(rt: HostRuntime) -> Result<(), Fail> {
    let name = Name::make(rt.alloc(), b"top.count[3]")?;
    assert_eq!(rt; name.bytes(), b"top.count[3]".as_slice());
    assert!(rt; name == Name::make(rt.alloc(), name.bytes())?);
    Ok(())
}
