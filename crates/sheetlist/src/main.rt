// Lists the states of the sheet `session.sheet` in the working folder.
#![tactic(auto)]

use files::print_listing;
use session_report::sheet_listing;

fn main(rt: HostRuntime) -> anyhow::Result<()> {
    // A closure: the check does not take a function of another crate by its name here.
    print_listing(&rt, "session.sheet", |heap, file| sheet_listing(heap, file))
}
