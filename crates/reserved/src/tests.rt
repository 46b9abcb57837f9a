// A reserved list filled within its room, and where more is asked for.
use crate::Reserved;
use std::test::Fail;

#[test]
fn filled(rt: HostRuntime) -> Result<(), Fail> {
    let memory: Reserved<u16, 3> = Reserved::reserve(rt.alloc())?;
    assert_eq!(rt; memory.filled(2, 7).as_slice(), [7, 7].as_slice());
    let memory: Reserved<u16, 3> = Reserved::reserve(rt.alloc())?;
    assert_eq!(rt; memory.filled(4, 7).as_slice(), [7, 7, 7].as_slice());
    Ok(())
}

#[test]
fn an_empty_list(rt: HostRuntime) -> Result<(), Fail> {
    let memory: Reserved<u16, 3> = Reserved::reserve(rt.alloc())?;
    assert!(rt; memory.into_list().is_empty());
    Ok(())
}
