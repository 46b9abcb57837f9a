// Tables written and read back: the smallest and the largest, into buffers that are short, exact and long.
use crate::tests::chain;
use refusals::Refusal;
use std::alloc::Global;
use std::process::Abort;
use std::test::Fail;
use tables::{PlainMemory, PlainTable, Rule, RuleMemory, TableFault};

// The bytes of a rule of this many rows go into a longer buffer, and the rest of it stays.
fn rule_trip(rt: &impl Abort, heap: Global, rows: u16) -> Result<(), Fail> {
    let bytes = chain(heap, rows)?;
    let rule = Rule::read(bytes.as_slice(), RuleMemory::reserve(heap)?)?;
    let mut buffer = vec![in heap; 7; 5130]?;
    let end = rule.write(&mut buffer)?;
    assert_eq!(rt; end, rule.written_len());
    assert!(rt; end <= buffer.len());
    assert_eq!(rt; &buffer[0..end], bytes.as_slice());
    assert!(rt; !buffer[end..].contains(&0));
    let again = Rule::read(&buffer[0..end], RuleMemory::reserve(heap)?)?;
    assert_eq!(rt; again.table().len(), usize::from(rows));
    Ok(())
}

// A plain table of this many rows is read back from a buffer of its own length, and not written to a shorter one.
fn plain_trip(rt: &impl Abort, heap: Global, rows: u16) -> Result<(), Fail> {
    let bytes = chain(heap, rows)?;
    let plain = PlainTable::read(bytes.as_slice(), PlainMemory::reserve(heap)?)?;
    let mut buffer = vec![in heap; 7; bytes.len()]?;
    let again = plain.write_and_read(&mut buffer, PlainMemory::reserve(heap)?)?;
    assert_eq!(rt; again.table().len(), usize::from(rows));
    assert_eq!(rt; buffer.as_slice(), bytes.as_slice());
    let mut short = vec![in heap; 7; bytes.len().saturating_sub(1)]?;
    let refused = plain.write(&mut short);
    assert_eq!(rt; refused, Err(TableFault::BufferShort(bytes.len())));
    assert!(rt; !short.contains(&0));
    Ok(())
}

#[test]
fn rules(rt: HostRuntime) -> Result<(), Fail> {
    rule_trip(&rt, rt.alloc(), 1)?;
    rule_trip(&rt, rt.alloc(), 1024)
}

#[test]
fn plain_tables(rt: HostRuntime) -> Result<(), Fail> {
    plain_trip(&rt, rt.alloc(), 1)?;
    plain_trip(&rt, rt.alloc(), 5120)
}

#[test]
fn refusal_of_a_short_buffer(rt: HostRuntime) {
    let told = Refusal::from(TableFault::BufferShort(9));
    assert_eq!(rt; told.number, 22);
    assert_eq!(rt; told.place, 9);
}
