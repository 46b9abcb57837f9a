// Listings of small packs: each refusal of a table and of a pack, and the edges beside it.
use crate::pack_listing;
use std::alloc::Global;
use std::process::Abort;
use std::test::Fail;

fn lists(rt: &impl Abort, heap: Global, pack: &[u8], text: &str) -> Result<(), Fail> {
    let listing = pack_listing(heap, pack)?;
    assert_eq!(rt; listing.as_str(), text);
    Ok(())
}

// What is listed, after the summary, of a pack of one rule, label 7, with this table.
fn table_lists(rt: &impl Abort, heap: Global, table: &[u8], text: &str) -> Result<(), Fail> {
    let length = u16::try_from(table.len()).unwrap_or(0);
    let mut pack = Vec::new(heap);
    pack.extend_from_slice(&[0, 1, 0, 7])?;
    pack.extend_from_slice(&length.to_be_bytes())?;
    pack.extend_from_slice(table)?;
    let listing = pack_listing(heap, pack.as_slice())?;
    let (_, line) = listing.as_str().split_once('\n').ok_or("no summary")?;
    assert_eq!(rt; line, text);
    Ok(())
}

// A table of this many rows: a top, and then a not of the row before each.
pub(crate) fn chain(heap: Global, rows: u16) -> Result<Vec<u8>, Fail> {
    let mut table = Vec::new(heap);
    table.extend_from_slice(&rows.to_be_bytes())?;
    table.extend_from_slice(&[0, 0, 1])?;
    for _ in 1..rows {
        table.push(4)?;
    }
    table.extend_from_slice(&[0, 0, 0, 0])?;
    for row in 1..rows {
        table.extend_from_slice(&(row - 1).to_be_bytes())?;
        table.extend_from_slice(&[0, 0])?;
    }
    Ok(table)
}

#[test]
fn sizes(rt: HostRuntime) -> Result<(), Fail> {
    let heap = rt.alloc();
    table_lists(&rt, heap, &[], "7 ! 1 0\n")?;
    table_lists(&rt, heap, &[0, 1, 0], "7 ! 1 0\n")?;
    table_lists(&rt, heap, &[0, 0, 0, 0], "7 ! 2 0\n")?;
    table_lists(&rt, heap, &[4, 1, 33, 0], "7 ! 2 0\n")?;
    table_lists(&rt, heap, &[0, 1, 33, 5], "7 ! 3 2\n")?;
    table_lists(&rt, heap, &[0, 1, 32, 5, 1, 0, 0, 0, 0], "7 ! 3 3\n")?;
    table_lists(&rt, heap, &[0, 1, 32, 4, 1, 0, 0, 0], "7 ! 4 4\n")?;
    table_lists(&rt, heap, &[0, 1, 32, 4, 12, 0, 0, 0, 0, 0], "7 ! 4 4\n")?;
    table_lists(&rt, heap, &[0, 1, 32, 4, 1, 0, 0, 0, 0], "7 1 32 4\n")
}

#[test]
fn single_rows(rt: HostRuntime) -> Result<(), Fail> {
    let heap = rt.alloc();
    table_lists(&rt, heap, &[0, 1, 1, 1, 0, 0, 0, 0, 0], "7 ! 5 0\n")?;
    table_lists(&rt, heap, &[0, 1, 1, 1, 12, 0, 0, 0, 0], "7 ! 5 0\n")?;
    table_lists(&rt, heap, &[0, 1, 1, 1, 1, 1, 0, 0, 0], "7 ! 6 0\n")?;
    table_lists(&rt, heap, &[0, 1, 1, 1, 2, 0, 9, 0, 1], "7 ! 6 0\n")?;
    table_lists(&rt, heap, &[0, 1, 1, 1, 2, 0, 1, 0, 0], "7 ! 7 0\n")?;
    table_lists(&rt, heap, &[0, 1, 1, 1, 3, 0, 1, 0, 0], "7 ! 7 0\n")?;
    table_lists(&rt, heap, &[0, 1, 1, 1, 4, 0, 0, 0, 0], "7 ! 8 0\n")?;
    table_lists(
        &rt,
        heap,
        &[0, 2, 1, 1, 1, 4, 0, 0, 0, 0, 0, 1, 0, 0],
        "7 ! 8 1\n",
    )?;
    table_lists(
        &rt,
        heap,
        &[0, 2, 1, 1, 4, 12, 0, 0, 0, 0, 0, 0, 0, 0],
        "7 ! 8 0\n",
    )
}

#[test]
fn whole_rules(rt: HostRuntime) -> Result<(), Fail> {
    let heap = rt.alloc();
    table_lists(
        &rt,
        heap,
        &[0, 2, 0, 0, 1, 1, 0, 0, 0, 0, 0, 0, 0, 0],
        "7 ! 9 0\n",
    )?;
    table_lists(
        &rt,
        heap,
        &[0, 2, 0, 0, 1, 5, 0, 0, 0, 0, 0, 0, 0, 0],
        "7 ! 9 0\n",
    )?;
    let scope_of_code = [0, 3, 0, 1, 1, 3, 11, 0, 0, 0, 0, 0, 0, 0, 0, 0, 0, 0, 1];
    table_lists(&rt, heap, &scope_of_code, "7 ! 10 1\n")?;
    // The scope of row 5 is rows 1 to 4; row 4 is an in row there, and row 2 in its body is the lowest that may not be.
    let in_in_scope = [
        0, 6, 1, 0, 1, 2, 7, 2, 11, 11, 0, 0, 0, 0, 0, 0, 0, 0, 0, 1, 0, 0, 0, 0, 0, 0, 0, 2, 0, 3,
        0, 0, 0, 4,
    ];
    table_lists(&rt, heap, &in_in_scope, "7 ! 10 2\n")?;
    let longest = chain(heap, 1024)?;
    table_lists(&rt, heap, longest.as_slice(), "7 1024 0 0\n")?;
    let longer = chain(heap, 1025)?;
    table_lists(&rt, heap, longer.as_slice(), "7 ! 2 0\n")
}

#[test]
fn whole_packs(rt: HostRuntime) -> Result<(), Fail> {
    let heap = rt.alloc();
    lists(&rt, heap, &[], "! 12 0\n")?;
    lists(&rt, heap, &[0], "! 12 0\n")?;
    lists(&rt, heap, &[0, 0], "! 12 0\n")?;
    lists(&rt, heap, &[0, 65, 0, 0], "! 12 0\n")?;
    lists(&rt, heap, &[0, 1, 0, 7, 0], "! 13 0\n")?;
    lists(
        &rt,
        heap,
        &[0, 1, 0, 7, 0, 0],
        "1 rules, 0 rows, 1 refused\n7 ! 1 0\n",
    )?;
    lists(&rt, heap, &[0, 1, 0, 7, 0, 0, 0], "! 13 0\n")?;
    lists(&rt, heap, &[0, 1, 0, 7, 0, 1], "! 13 0\n")?;
    lists(
        &rt,
        heap,
        &[0, 2, 0, 9, 0, 8, 0, 0, 0, 1, 0],
        "2 rules, 0 rows, 2 refused\n9 ! 1 0\n8 ! 1 0\n",
    )
}
