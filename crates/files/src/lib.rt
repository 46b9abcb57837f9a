// Files that programs read whole, and what they print of them.
#![tactic(auto)]

ghost use Rattle.std.specs.Prelude.{◌≤◌, length, Ok, IfOk, OnOk, vec_len};

#[cfg(test)]
mod tests;

use std::alloc::{AllocError, Global};
use std::fs::File;
use std::io;
use std::io::{ErrorKind, Read};

// No file that a program reads may be longer. One byte more is read, so that a longer file is seen to be longer.
pub const LONGEST: usize = 65536;

// The bytes of a file, at most one more than the longest may have, and none where there is no such file.
pub fn read_file(rt: &HostRuntime, path: &str) -> io::Result<Vec<u8>>
    ensures { IfOk result (λ bytes. vec_len bytes ≤ 65537) }
{
    let mut bytes = Vec::new(rt.alloc());
    match File::open(rt, path) {
        Ok(file) => {
            file.take(LONGEST as u64 + 1).read_to_end(&mut bytes)?;
        }
        Err(error) if error.kind() == ErrorKind::NotFound => {}
        Err(error) => return Err(error),
    }
    bytes.truncate(LONGEST + 1);
    Ok(bytes)
}

// Prints what a listing says of a file.
pub fn print_listing<F>(rt: &HostRuntime, path: &str, listing: F) -> anyhow::Result<()>
where
    F: FnOnce(Global, &[u8]) -> Result<String, AllocError>,
    requires { F.IsAlwaysCallable listing }
    ensures { OnOk result ((heap : _) × (bytes : _) × (text : _) × (length bytes.now ≤ 65537) × F.post listing heap bytes (Ok text)) }
{
    let bytes = read_file(rt, path)?;
    let text = listing(rt.alloc(), bytes.as_slice())?;
    print!(rt; "{text}")?;
    Ok(())
}
