//! The shortest recurrence of a sequence, by the method of Berlekamp and Massey.

ghost use Rattle.std.specs.Prelude.{◌≡◌, ◌≢◌, ℕ, ◌+◌, ◌-◌, ◌*◌, ◌/◌, ◌<◌, ◌≤◌, IfNone, IfSome, IsFalse, IsTrue};
ghost use Rattle.std.specs.Prelude.{length, slice_index};
ghost use Rattle.std.specs.Int.RustNames.{bit_xor};
ghost use Rattle.dtx_galois.specs.Field.{mul};
ghost use Rattle.dtx_fast.specs.Recurrence.{IsLeast, IsRecurrence, discrepancy, IsStage};
ghost use Rattle.dtx_fast.specs.declared.recurrence.TheConstants.{WIDTH};

use dtx_galois::Gf;
use dtx_laws::correcting::ROOM;

/// How many coefficients a recurrence has room for: more than half as many as a word can have bytes.
pub const WIDTH: usize = 128;

/// What gives each term of a sequence from the `order` terms before it. The coefficient of the newest term, which is 1,
/// stands first.
#[derive(Clone, Copy, Drop)]
pub struct Recurrence {
    pub coefficients: [u8; WIDTH],
    pub order: usize,
    ghost long: { length coefficients ≡ WIDTH },
    ghost room: { order < WIDTH },
}

impl Recurrence {
    fn new(coefficients: &[u8], order: usize) -> Self
        requires long { length coefficients.now ≡ WIDTH }
        requires room { order < WIDTH }
        ensures coefficients { result.coefficients ≡ coefficients.now }
        ensures order { result.order ≡ order }
        ensures bytes { (k : ℕ) → slice_index coefficients.now k < 256 }
    {
        Recurrence {
            coefficients: copied(coefficients),
            order,
        }
    }
}

/// The coefficients, copied to an array.
pub fn copied(coefficients: &[u8]) -> [u8; WIDTH]
    requires { length coefficients.now ≡ WIDTH }
    ensures same { result ≡ coefficients.now }
    ensures bytes { (k : ℕ) → slice_index coefficients.now k < 256 }
{
    let mut own = [0; WIDTH];
    own.copy_from_slice(coefficients);
    own
}

/// The shortest recurrence of the first `count` terms, if its order is at most half of `count`.
#[inline(never)]
pub fn find_recurrence(syndromes: &[u8; ROOM], count: usize) -> Option<Recurrence>
    requires { count < ROOM }
    ensures some { IfSome result (λ found. (found.order ≤ count / 2)
        × ((k : ℕ) → slice_index found.coefficients k < 256)
        × IsRecurrence count found.order (slice_index syndromes.now) (slice_index found.coefficients)
        × IsLeast count found.order (slice_index syndromes.now)) }
    ensures none { IfNone result (IsLeast count (count / 2 + 1) (slice_index syndromes.now)) }
{
    let mut stage = Stage::new();
    for n in 0..count {
        if !stage.take(syndromes, n, count / 2) {
            return None;
        }
    }
    Some(Recurrence::new(&stage.coefficients[..], stage.order))
}

/// The state of the method: a recurrence of the terms so far, and the one before its order last grew. Also how many
/// terms ago that one failed, and the inverse of the discrepancy by which it failed.
#[derive(Drop)]
struct Stage {
    coefficients: [u8; WIDTH],
    order: usize,
    before: [u8; WIDTH],
    gap: usize,
    inverse: Gf,
    ghost long: { length coefficients ≡ WIDTH },
    ghost before_long: { length before ≡ WIDTH },
}

impl Stage {
    /// The state before the first term.
    fn new() -> Self
        ensures stage { (s : ℕ → ℕ) → IsStage 0 result.order result.gap result.inverse.0 s
            (slice_index result.coefficients) (slice_index result.before) }
        ensures empty { result.order ≡ 0 }
    {
        Stage {
            coefficients: one(),
            order: 0,
            before: one(),
            gap: 1,
            inverse: Gf(1),
        }
    }

    /// Takes term `n` in, and returns true, if an order of at most `most` is enough.
    fn take(&mut self, syndromes: &[u8; ROOM], n: usize, most: usize) -> bool
        requires known { n + 1 < ROOM }
        requires room { most < WIDTH }
        requires stage { IsStage n self.old.order self.old.gap self.old.inverse.0 (slice_index syndromes.now)
            (slice_index self.old.coefficients) (slice_index self.old.before) }
        requires half { self.old.order ≤ most }
        ensures taken { IsTrue result → IsStage (n + 1) self.new.order self.new.gap self.new.inverse.0
            (slice_index syndromes.now) (slice_index self.new.coefficients) (slice_index self.new.before) }
        ensures half { IsTrue result → self.new.order ≤ most }
        ensures refused { IsFalse result → IsLeast (n + 1) (most + 1) (slice_index syndromes.now) }
    {
        let difference = self.discrepancy(syndromes, n);
        if difference.0 == 0 {
            self.keep();
            true
        } else if n < 2 * self.order {
            self.mend(difference);
            true
        } else if n + 1 - self.order <= most {
            self.raise(difference, n);
            true
        } else {
            false
        }
    }

    /// The discrepancy of the recurrence at term `n`, which is 0 where it gives this term.
    #[inline(always)]
    fn discrepancy(&self, syndromes: &[u8; ROOM], n: usize) -> Gf
        requires known { n < ROOM }
        requires earlier { self.now.order ≤ n }
        requires room { self.now.order < WIDTH }
        ensures { result.0 ≡ discrepancy (self.now.order + 1) (slice_index self.now.coefficients)
            (slice_index syndromes.now) n }
    {
        let mut sum = Gf(0);
        for k in 0..self.order + 1 {
            sum = sum.add(Gf(self.coefficients[k]).mul(Gf(syndromes[n - k])));
        }
        sum
    }

    /// Takes in a term that the recurrence gives.
    #[inline(always)]
    fn keep(&mut self)
        requires fits { self.old.gap < ROOM }
        ensures stage { (n : ℕ) (s : ℕ → ℕ) → IsStage n self.old.order self.old.gap self.old.inverse.0 s
            (slice_index self.old.coefficients) (slice_index self.old.before)
            → discrepancy (self.old.order + 1) (slice_index self.old.coefficients) s n ≡ 0
            → IsStage (n + 1) self.new.order self.new.gap self.new.inverse.0 s (slice_index self.new.coefficients)
            (slice_index self.new.before) }
        ensures same { self.new.order ≡ self.old.order }
    {
        self.gap += 1;
    }

    /// Takes in a term that the recurrence doesn't give, without a greater order.
    fn mend(&mut self, difference: Gf)
        requires room { self.old.order < WIDTH }
        requires fits { self.old.gap < ROOM }
        ensures stage { (n : ℕ) (s : ℕ → ℕ) → IsStage n self.old.order self.old.gap self.old.inverse.0 s
            (slice_index self.old.coefficients) (slice_index self.old.before) → n < 2 * self.old.order
            → difference.0 ≡ discrepancy (self.old.order + 1) (slice_index self.old.coefficients) s n
            → IsStage (n + 1) self.new.order self.new.gap self.new.inverse.0 s (slice_index self.new.coefficients)
            (slice_index self.new.before) }
        ensures same { self.new.order ≡ self.old.order }
    {
        let factor = difference.mul(self.inverse);
        add_moved(
            &mut self.coefficients,
            &self.before,
            self.gap,
            self.order,
            factor,
        );
        self.gap += 1;
    }

    /// Takes in term `n`, which the recurrence doesn't give, with a greater order.
    fn raise(&mut self, difference: Gf, n: usize)
        requires some { difference.0 ≢ 0 }
        requires known { n < ROOM }
        requires earlier { self.old.order ≤ n }
        requires room { n + 1 - self.old.order < WIDTH }
        ensures stage { (s : ℕ → ℕ) → IsStage n self.old.order self.old.gap self.old.inverse.0 s
            (slice_index self.old.coefficients) (slice_index self.old.before) → 2 * self.old.order ≤ n
            → difference.0 ≡ discrepancy (self.old.order + 1) (slice_index self.old.coefficients) s n
            → IsStage (n + 1) self.new.order self.new.gap self.new.inverse.0 s (slice_index self.new.coefficients)
            (slice_index self.new.before) }
        ensures longer { self.new.order ≡ n + 1 - self.old.order }
    {
        let before = self.coefficients;
        let factor = difference.mul(self.inverse);
        self.order = n + 1 - self.order;
        add_moved(
            &mut self.coefficients,
            &self.before,
            self.gap,
            self.order,
            factor,
        );
        self.before = before;
        self.inverse = difference.inv();
        self.gap = 1;
    }
}

/// A one, and then zeros.
fn one() -> [u8; WIDTH]
    ensures first { slice_index result 0 ≡ 1 }
    ensures others { (k : ℕ) → 0 < k → slice_index result k ≡ 0 }
    ensures long { length result ≡ WIDTH }
{
    let mut one = [0; WIDTH];
    one[0] = 1;
    one
}

/// Adds other coefficients, times `factor` and moved `gap` places on, to those up to place `last`.
#[inline(always)]
fn add_moved(
    coefficients: &mut [u8; WIDTH],
    other: &[u8; WIDTH],
    gap: usize,
    last: usize,
    factor: Gf,
)
    requires { last < WIDTH }
    ensures long { length coefficients.new ≡ WIDTH }
    ensures below { (k : ℕ) → k < gap → slice_index coefficients.new k ≡ slice_index coefficients.old k }
    ensures between { (k : ℕ) → gap ≤ k → k ≤ last → slice_index coefficients.new k
        ≡ bit_xor (slice_index coefficients.old k) (mul factor.0 (slice_index other.now (k - gap))) }
    ensures above { (k : ℕ) → gap ≤ k → last < k → slice_index coefficients.new k ≡ slice_index coefficients.old k }
{
    for k in gap..last + 1 {
        coefficients[k] ^= factor.mul(Gf(other[k - gap])).0;
    }
}
