// Lists whose memory is taken beforehand, so that filling them cannot run out of memory.
#![tactic(auto)]

ghost use Rattle.std.specs.Prelude.{◌≡◌, ◌≤◌, [], IfOk, replicate, vec_len, vec_capacity, min};

#[cfg(test)]
mod tests;

use std::alloc::{AllocError, Global};

// An empty list with room for N items.
#[derive(Drop)]
pub struct Reserved<T, const N: usize> {
    list: Vec<T>,
    ghost empty: { list.items ≡ [] },
    ghost none: { vec_len list ≡ 0 },
    ghost room: { N ≤ vec_capacity list },
}

impl<T, const N: usize> Reserved<T, N> {
    pub fn reserve(heap: Global) -> Result<Reserved<T, N>, AllocError>
        ensures { IfOk result (λ memory. N ≤ vec_capacity memory.list) }
    {
        let list = Vec::with_capacity(heap, N)?;
        Ok(Reserved { list })
    }

    // The list itself.
    pub fn into_list(self) -> Vec<T>
        ensures empty { result.items ≡ [] }
        ensures len { vec_len result ≡ 0 }
        ensures room { N ≤ vec_capacity result }
    {
        let Reserved { list } = self;
        list
    }
}

impl<T: Copy, const N: usize> Reserved<T, N> {
    // The list with this many copies of a value in it, or with N where more are asked for.
    pub fn filled(self, count: usize, value: T) -> Vec<T>
        ensures items { result.items ≡ replicate (min count N) value }
        ensures len { vec_len result ≡ min count N }
        ensures room { N ≤ vec_capacity result }
    {
        let mut list = self.into_list();
        for _ in 0..count.min(N) {
            list.push_reserved(value);
        }
        list
    }
}
