//! What each symbol becomes between two syncs.

ghost use Rattle.std.specs.Prelude.{◌≡◌, ℕ, ℤ, pos, negsuc, true, false, ◌-ℤ◌, ◌*ℤ◌, ◌<◌, ◌≤◌, ◌<ℤ◌, IfOk, length, map};
ghost use Rattle.std.specs.Prelude.{nat_abs, slice_index_or, vec_len, ◌≢◌};
ghost use Rattle.dtx_level.specs.Levelled.{By, in_bounds, level, levelled_symbol, next_whole, nearest};
ghost use Rattle.dtx_level.specs.Shown.{IsBounded};

use std::alloc::{AllocError, Global};

/// The number of symbol values, from -128 to 127.
const SYMBOLS: usize = 256;

/// The gain and the constant by which symbols are levelled, and a table: entry x + 128 is what symbol x becomes.
#[derive(Drop)]
pub(crate) struct Levels {
    pub(crate) begun: bool,
    pub(crate) gain: i64,
    pub(crate) constant: i64,
    table: Vec<i8>,
    ghost long: { vec_len table ≡ 256 },
    ghost each: { (n : ℕ) → n < 256 → slice_index_or table.items n (pos 0)
        ≡ level (record { begun = begun; gain = gain; constant = constant }) (pos n -ℤ pos 128) },
}

impl Levels {
    /// Before the first sync: each symbol becomes 0. The only error is out of memory.
    pub(crate) fn new(alloc: Global) -> Result<Levels, AllocError>
        ensures { IfOk result (λ levels. levels.begun ≡ false) }
    {
        Ok(Levels {
            begun: false,
            gain: 0,
            constant: 0,
            table: vec![in alloc; 0i8; SYMBOLS]?,
        })
    }

    /// From now on, symbols are levelled by a sync with this gain and constant, in the units of `Standing`.
    pub(crate) fn begin(&mut self, gain: i64, constant: i64)
        requires some { gain ≢ pos 0 }
        requires small_gain { IsBounded gain }
        requires small_constant { IsBounded constant }
        ensures begun { self.new.begun ≡ true }
        ensures gain { self.new.gain ≡ gain }
        ensures constant { self.new.constant ≡ constant }
    {
        fill(&mut self.table[..], gain, constant);
        self.begun = true;
        self.gain = gain;
        self.constant = constant;
    }

    /// Writes to `out` what the symbols become.
    pub(crate) fn level_all(&self, symbols: &[i8], out: &mut [i8])
        requires { length out.old ≡ length symbols.now }
        ensures { out.new ≡ map (level (record {
          begun = self.now.begun;
          gain = self.now.gain;
          constant = self.now.constant;
        })) symbols.now }
    {
        for i in 0..symbols.len() {
            out[i] = self.level(symbols[i]);
        }
    }

    /// What a symbol becomes.
    #[inline(always)]
    fn level(&self, symbol: i8) -> i8
        ensures { result ≡ level (record {
          begun = self.now.begun;
          gain = self.now.gain;
          constant = self.now.constant;
        }) symbol }
    {
        self.table[(symbol as i16 + 128) as usize]
    }
}

/// Fills the table with what each symbol becomes at this gain and constant.
fn fill(table: &mut [i8], gain: i64, constant: i64)
    requires long { length table.old ≡ SYMBOLS }
    requires some { gain ≢ pos 0 }
    requires small_gain { IsBounded gain }
    requires small_constant { IsBounded constant }
    ensures long { length table.new ≡ SYMBOLS }
    ensures each { (n : ℕ) → n < SYMBOLS
        → slice_index_or table.new n (pos 0) ≡ levelled_symbol gain constant (pos n -ℤ pos 128) }
{
    for n in 0..SYMBOLS {
        table[n] = levelled(gain, constant, n as i64 - 128);
    }
}

/// What a symbol becomes at this gain and constant.
fn levelled(gain: i64, constant: i64, symbol: i64) -> i8
    requires some { gain ≢ pos 0 }
    requires small_gain { IsBounded gain }
    requires small_constant { IsBounded constant }
    requires small { nat_abs symbol ≤ 128 }
    ensures { result ≡ levelled_symbol gain constant symbol }
{
    nearest(numerator(constant, symbol), gain).clamp(-127, 127) as i8
}

/// The dividend of a symbol, to be divided by the gain: 40 * (2 * 258 * 257 * symbol - constant).
fn numerator(constant: i64, symbol: i64) -> i64
    requires small_constant { IsBounded constant }
    requires small { nat_abs symbol ≤ 128 }
    ensures value { result ≡ pos 40 *ℤ (pos 132612 *ℤ symbol -ℤ constant) }
    ensures small { nat_abs result ≤ 2036925440 }
{
    40 * (132_612 * symbol - constant)
}

/// The whole number next to `number / gain`, for a gain that isn't 0.
fn nearest(number: i64, gain: i64) -> i64
    requires some { gain ≢ pos 0 }
    requires small_gain { IsBounded gain }
    requires small { nat_abs number ≤ 2036925440 }
    ensures { result ≡ nearest number gain }
{
    if gain < 0 {
        next_whole(-number, -gain)
    } else {
        next_whole(number, gain)
    }
}

/// The whole number next to `number / gain`, for a gain above 0. Ties go up.
fn next_whole(number: i64, gain: i64) -> i64
    requires some { pos 0 <ℤ gain }
    requires small_gain { IsBounded gain }
    requires small { nat_abs number ≤ 2036925440 }
    ensures { result ≡ next_whole number gain }
{
    (2 * number + gain).div_euclid(2 * gain)
}
