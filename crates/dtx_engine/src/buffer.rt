// Bytes that an engine has made and lends to its caller.
ghost use Rattle.std.specs.Prelude.{◌≡◌, ◌≤◌, ◌+◌, ◌++◌, [], length, IfOk};

use std::alloc::{AllocError, Global};
use std::marker::Model;

/// At most `N` bytes. Its memory is allocated once, and not cleared.
#[derive(Drop)]
pub struct Buffer<const N: usize> {
    bytes: Vec<u8>,
}

impl<const N: usize> Model for Buffer<N> {
    ghost use Rattle.std.specs.Prelude.{ℕ, List, ◌≤◌, vec_len, vec_capacity};

    ghost Value = { List ℕ };

    ghost view = { λ b. b.bytes.items };

    ghost invariant = { λ b. (vec_len b.bytes ≤ N) × (N ≤ vec_capacity b.bytes) };
}

impl<const N: usize> Buffer<N> {
    /// An empty buffer. The only error is out of memory.
    pub fn new(alloc: Global) -> Result<Buffer<N>, AllocError>
        ensures { IfOk result (λ b. b ≡ []) }
    {
        Ok(Buffer {
            bytes: Vec::with_capacity(alloc, N)?,
        })
    }

    /// Empties it.
    pub fn clear(&mut self)
        ensures { self.new ≡ [] }
    {
        self.bytes.clear();
    }

    /// Appends bytes.
    pub fn push(&mut self, bytes: &[u8])
        requires { length self.old + length bytes.now ≤ N }
        ensures { self.new ≡ self.old ++ bytes.now }
    {
        let _ = self.bytes.extend_from_slice(bytes);
    }

    /// The bytes that it holds.
    pub fn bytes(&self) -> &[u8]
        ensures { result.now ≡ self.now }
    {
        self.bytes.as_slice()
    }
}
