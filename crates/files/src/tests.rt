// A listing of a file that is not there, which has no bytes.
use crate::print_listing;
use std::test::Fail;

#[test]
fn listing_of_no_file(rt: HostRuntime) -> Result<(), Fail> {
    let printed = print_listing(
        &rt,
        "no.file",
        |heap, file| if file.is_empty() {
            String::from_str(heap, "no bytes\n")
        } else {
            String::from_str(heap, "some bytes\n")
        },
    );
    assert!(rt; printed.is_ok());
    Ok(())
}
