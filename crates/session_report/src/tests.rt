// Listings of small sheets and switch logs: each refusal of a session, and the edges beside it.
use crate::{session_listing, sheet_listing};
use sessions::{LogMemory, SessionFault, SwitchLog};
use std::alloc::Global;
use std::process::Abort;
use std::test::Fail;

fn sheet_lists(rt: &impl Abort, heap: Global, sheet: &[u8], text: &str) -> Result<(), Fail> {
    let listing = sheet_listing(heap, sheet)?;
    assert_eq!(rt; listing.as_str(), text);
    Ok(())
}

#[test]
fn sheets(rt: HostRuntime) -> Result<(), Fail> {
    let heap = rt.alloc();
    sheet_lists(&rt, heap, &[], "! 14 0\n")?;
    sheet_lists(&rt, heap, &[0], "! 14 0\n")?;
    sheet_lists(&rt, heap, &[0, 0], "")?;
    sheet_lists(&rt, heap, &[0, 0, 0], "! 14 0\n")?;
    sheet_lists(&rt, heap, &[0, 1, 0, 0, 0, 0, 0, 0, 0], "! 14 0\n")?;
    sheet_lists(
        &rt,
        heap,
        &[0, 1, 128, 0, 0, 5, 127, 128, 255, 0],
        "0 flags 0 2 31 codes 127 -128 -1 0\n",
    )?;
    sheet_lists(
        &rt,
        heap,
        &[0, 2, 0, 0, 0, 0, 0, 0, 1, 0, 1, 2, 3, 4, 5, 6, 7, 8],
        "0 flags none codes 1 2 3 4\n1 flags 8 codes 5 6 7 8\n",
    )
}

fn log_refused(
    rt: &impl Abort,
    heap: Global,
    count: u16,
    ticks: &[u16],
    flags: &[u8],
    fault: SessionFault,
) -> Result<(), Fail> {
    match SwitchLog::new(count, ticks, flags, LogMemory::reserve(heap)?) {
        Ok(_) => Err(Fail::new("the log is not refused")),
        Err(found) => {
            assert_eq!(rt; found, fault);
            Ok(())
        },
    }
}

#[test]
fn logs(rt: HostRuntime) -> Result<(), Fail> {
    let heap = rt.alloc();
    log_refused(&rt, heap, 3, &[0], &[], SessionFault::LogLengths)?;
    log_refused(&rt, heap, 3, &[0, 9], &[1, 32], SessionFault::LogFlag(1))?;
    log_refused(&rt, heap, 3, &[1, 0], &[1, 2], SessionFault::LogTick(1))?;
    log_refused(&rt, heap, 3, &[1, 3], &[1, 2], SessionFault::LogTick(1))?;
    let memory = LogMemory::reserve(heap)?;
    match SwitchLog::new(4, &[0, 0, 1, 2, 2], &[3, 31, 3, 3, 3], memory) {
        Ok(log) => {
            assert_eq!(rt;
                session_listing(heap, &log)?.as_str(),
                "0 flags 3 31 codes 0 0 0 0\n1 flags 31 codes 0 0 0 0\n2 flags 31 codes 0 0 0 0\n3 flags 31 codes 0 0 0 0\n"
            );
            Ok(())
        },
        Err(_) => Err(Fail::new("the log is refused")),
    }
}
