//! The symbols whose segments are not given yet.

ghost use Rattle.std.specs.Prelude.{◌≡◌, ◌+◌, ◌<◌, ◌≤◌, ◌++◌, [], IfOk, length, take, drop};

use dtx_sizes::{FIELD_SEGMENTS, SEGMENT};
use std::alloc::{AllocError, Global};
use std::marker::Model;

/// How many symbols are held at most: those of a field and of the segment after it.
pub const MOST_HELD: usize = SEGMENT * (FIELD_SEGMENTS as usize + 1);

/// Symbols in order, in a buffer of fixed size. Contracts see the value as their list.
#[derive(Drop)]
pub struct SymbolWindow {
    symbols: Vec<i8>,
    filled: usize,
}

impl Model for SymbolWindow {
    ghost use Rattle.std.specs.Prelude.{ℤ, List, ◌≡◌, ◌≤◌, take, vec_len};
    ghost use Rattle.dtx_acquire.specs.declared.symbol_window.TheConstants.{MOST_HELD};

    ghost Value = { List ℤ };

    ghost view = { λ h. take h.filled h.symbols.items };

    ghost invariant = { λ h. (h.filled ≤ MOST_HELD) × (vec_len h.symbols ≡ MOST_HELD) };
}

impl SymbolWindow {
    /// An empty buffer. The only error is out of memory.
    pub fn new(alloc: Global) -> Result<SymbolWindow, AllocError>
        ensures { IfOk result (λ held. held ≡ []) }
    {
        Ok(SymbolWindow {
            symbols: vec![in alloc; 0i8; MOST_HELD]?,
            filled: 0,
        })
    }

    /// How many symbols are held.
    pub fn len(&self) -> usize
        ensures long { result ≡ length self.now }
        ensures few { result ≤ MOST_HELD }
    {
        self.filled
    }

    /// All symbols that are held.
    pub fn all(&self) -> &[i8]
        ensures { result.now ≡ self.now }
    {
        &self.symbols[..self.filled]
    }

    /// Appends the first of these symbols, as many as there is room for, and returns how many.
    pub fn take(&mut self, symbols: &[i8]) -> usize
        ensures within { result ≤ length symbols.now }
        ensures held { self.new ≡ self.old ++ take result symbols.now }
        ensures some { 0 < length symbols.now → length self.old < MOST_HELD → 0 < result }
        ensures few { length self.new ≤ MOST_HELD }
    {
        let count = append(&mut self.symbols[..], self.filled, symbols);
        self.filled += count;
        count
    }

    /// Drops the first `count` symbols.
    pub fn leave(&mut self, count: usize)
        requires { count ≤ length self.old }
        ensures { self.new ≡ drop count self.old }
    {
        self.symbols.copy_within(count..self.filled, 0);
        self.filled -= count;
    }
}

/// Copies the first of these symbols after the filled ones, as many as there is room for, and returns how many.
fn append(held: &mut [i8], filled: usize, symbols: &[i8]) -> usize
    requires { filled ≤ length held.old }
    ensures within { result ≤ length symbols.now }
    ensures room { filled + result ≤ length held.old }
    ensures long { length held.new ≡ length held.old }
    ensures held { take (filled + result) held.new ≡ take filled held.old ++ take result symbols.now }
    ensures some { 0 < length symbols.now → filled < length held.old → 0 < result }
{
    let count = symbols.len().min(held.len() - filled);
    held[filled..filled + count].copy_from_slice(&symbols[..count]);
    count
}
