// How many plain rows two small rules take.
use crate::{TranslatorMemory, translate};
use rows::Kind;
use std::alloc::Global;
use std::process::Abort;
use std::test::Fail;
use tables::{Rule, RuleMemory};

// The bytes of a rule with these rows, two flags used and one code used.
fn rule_bytes(heap: Global, rows: &[(Kind, u16, u16)]) -> Result<Vec<u8>, Fail> {
    let count = u16::try_from(rows.len()).unwrap_or(0);
    let mut bytes = Vec::new(heap);
    bytes.extend_from_slice(&count.to_be_bytes())?;
    bytes.extend_from_slice(&[2, 1])?;
    for row in rows {
        bytes.push(u8::from(row.0))?;
    }
    for row in rows {
        bytes.extend_from_slice(&row.1.to_be_bytes())?;
        bytes.extend_from_slice(&row.2.to_be_bytes())?;
    }
    Ok(bytes)
}

fn takes(
    rt: &impl Abort,
    heap: Global,
    rows: &[(Kind, u16, u16)],
    count: usize,
) -> Result<(), Fail> {
    let bytes = rule_bytes(heap, rows)?;
    let memory = RuleMemory::reserve(heap)?;
    let rule = Rule::read(bytes.as_slice(), memory).ok().ok_or("refused")?;
    let translation = translate(&rule, TranslatorMemory::reserve(heap)?);
    assert_eq!(rt; translation.table.table().len(), count);
    assert_eq!(rt; translation.rows, count);
    Ok(())
}

#[test]
fn plain_rows(rt: HostRuntime) -> Result<(), Fail> {
    let heap = rt.alloc();
    let next_flag = [
        (Kind::Flag, 1, 0),
        (Kind::Next, 0, 0),
        (Kind::Flag, 0, 0),
        (Kind::Flag, 1, 0),
        (Kind::Or, 2, 3),
        (Kind::In, 1, 4),
    ];
    takes(&rt, heap, &next_flag, 12)?;
    let always_code = [
        (Kind::Code, 0, 0),
        (Kind::Always, 0, 0),
        (Kind::Flag, 0, 0),
        (Kind::Flag, 1, 0),
        (Kind::Or, 2, 3),
        (Kind::In, 1, 4),
    ];
    takes(&rt, heap, &always_code, 9)
}
