// Lists the rules of the pack `rules.pack` in the working folder.
#![tactic(auto)]

use files::print_listing;
use report::pack_listing;

fn main(rt: HostRuntime) -> anyhow::Result<()> {
    // A closure: the check does not take a function of another crate by its name here.
    print_listing(&rt, "rules.pack", |heap, file| pack_listing(heap, file))
}
