// Numbers in bytes, the high byte first. A byte past the end is 0.
#![tactic(auto)]

ghost use Rattle.std.specs.Prelude.{◌≡◌, ℕ, ◌+◌, ◌<◌, drop, slice_index};
ghost use Rattle.big_endian.specs.Numbers.{word_at, long_at};

use std::array;

pub fn byte_at(bytes: &[u8], at: usize) -> u8
    ensures { result ≡ slice_index bytes.now at }
{
    bytes.get(at).copied().unwrap_or(0)
}

// The bytes from a place on.
fn rest_from(bytes: &[u8], at: usize) -> &[u8]
    ensures { result.now ≡ drop at bytes.now }
{
    &bytes[at.min(bytes.len())..]
}

// N bytes from a place on.
fn bytes_from<const N: usize>(bytes: &[u8], at: usize) -> [u8; N]
    ensures { (i : ℕ) → i < N → slice_index result i ≡ slice_index bytes.now (at + i) }
{
    let rest = rest_from(bytes, at);
    array::from_fn(|i| byte_at(rest, i))
}

// The number of two bytes at a place.
pub fn word_at(bytes: &[u8], at: usize) -> u16
    ensures { result ≡ word_at bytes.now at }
{
    u16::from_be_bytes(bytes_from(bytes, at))
}

// The number of four bytes at a place.
pub fn long_at(bytes: &[u8], at: usize) -> u32
    ensures { result ≡ long_at bytes.now at }
{
    u32::from_be_bytes(bytes_from(bytes, at))
}
