// Shows the plain table `plain.table` in the working folder row by row.
#![tactic(auto)]

use files::print_listing;
use report::plain_listing;

fn main(rt: HostRuntime) -> anyhow::Result<()> {
    // A closure: the check does not take a function of another crate by its name here.
    print_listing(&rt, "plain.table", |heap, file| plain_listing(heap, file))
}
