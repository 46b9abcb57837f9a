// Plain tables marked over small sheets.
use crate::{MarkingFault, Strip};
use scales::{Scale, Score, YesNo};
use sessions::Sheet;
use std::alloc::Global;
use std::test::Fail;
use tables::{PlainMemory, PlainTable};

// Flag 1, eventually that, and next that.
const NEXT_EVENTUALLY: [u8; 19] = [0, 3, 2, 0, 2, 10, 7, 0, 1, 0, 0, 0, 0, 0, 0, 0, 1, 0, 0];

// Code 0, and always code 0.
const ALWAYS: [u8; 14] = [0, 2, 0, 1, 3, 9, 0, 0, 0, 0, 0, 0, 0, 0];

// Two states: flag 0 and code 0 of 5, then flag 1 and code 0 of -3.
const TWO: [u8; 18] = [0, 2, 0, 0, 0, 1, 0, 0, 0, 2, 5, 0, 0, 0, 253, 0, 0, 0];

fn read_table(heap: Global, bytes: &[u8]) -> Result<PlainTable, Fail> {
    let memory = PlainMemory::reserve(heap)?;
    match PlainTable::read(bytes, memory) {
        Ok(table) => Ok(table),
        Err(_) => Err("the table is refused".into()),
    }
}

fn sheet(bytes: &[u8]) -> Result<Sheet<'_>, Fail> {
    match Sheet::check(bytes) {
        Ok(sheet) => Ok(sheet),
        Err(_) => Err("the sheet is refused".into()),
    }
}

#[test]
fn next_on_the_last_state(rt: HostRuntime) -> Result<(), Fail> {
    let table = read_table(rt.alloc(), &NEXT_EVENTUALLY)?;
    let mut marks = [YesNo::No; 7];
    let mut strip = Strip::new(&mut marks);
    assert_eq!(rt; strip.mark_plain(&table, &sheet(&TWO)?), Ok(YesNo::Yes));
    let (yes, no) = (YesNo::Yes, YesNo::No);
    assert_eq!(rt; marks, [no, yes, yes, yes, yes, no, no]);
    Ok(())
}

#[test]
fn a_score_over_all_states(rt: HostRuntime) -> Result<(), Fail> {
    let table = read_table(rt.alloc(), &ALWAYS)?;
    let mut marks = [Score::top(); 4];
    let mut strip = Strip::new(&mut marks);
    let Ok(mark) = strip.mark_plain(&table, &sheet(&TWO)?) else {
        return Err("the strip is refused".into());
    };
    assert_eq!(rt; mark.value(), -3);
    let mut short = Strip::new(&mut marks[0..3]);
    let Err(fault) = short.mark_plain(&table, &sheet(&TWO)?) else {
        return Err("a short strip is taken".into());
    };
    assert_eq!(rt; fault, MarkingFault::StripShort(4));
    Ok(())
}
