//! The weights of the levels. They differ as the squares of a symbol's distances from the levels do, in units of the
//! scale, and are small.

ghost use Rattle.std.specs.Prelude.{◌≡◌, ℕ, ◌+◌, ◌*◌, ◌/◌, ◌<◌, ◌≤◌, slice_index};
ghost use Rattle.std.specs.Prelude.{◌==◌, if◌then◌else◌};
ghost use Rattle.dtx_pins.specs.Steps.{depth, fare, ground};
ghost use Rattle.dtx_soft.specs.declared.nearest.TheConstants.{MAX_SCALE};

use dtx_soft::MAX_SCALE;

/// What a level that doesn't give the pair costs more: more than any path, and twice that is still a number.
pub(crate) const PEN: u32 = 1_400_000_000;

/// For each level its number, and what is the same of its weight at each symbol: first for Z2 = 0, then for Z2 = 1.
#[derive(Drop)]
pub(crate) struct Weights {
    pub(crate) scale: u8,
    low: [u32; 4],
    high: [u32; 4],
    ghost some: { 0 < scale },
    ghost small: { scale ≤ MAX_SCALE },
    ghost low_are: { (i : ℕ) → i < 4 → slice_index low i ≡ ground scale i + i / 2 },
    ghost high_are: { (i : ℕ) → i < 4 → slice_index high i ≡ ground scale (4 + i) + (4 + i) / 2 },
}

impl Weights {
    /// The weights at a scale.
    pub(crate) fn new(scale: u8) -> Weights
        requires some { 0 < scale }
        requires small { scale ≤ MAX_SCALE }
        ensures { result.scale ≡ scale }
    {
        Weights {
            scale,
            low: [
                grounded(scale, 0),
                grounded(scale, 1),
                grounded(scale, 2),
                grounded(scale, 3),
            ],
            high: [
                grounded(scale, 4),
                grounded(scale, 5),
                grounded(scale, 6),
                grounded(scale, 7),
            ],
        }
    }

    /// What the levels come to at a symbol, beside the costs behind them: their numbers, weights and pens. First it has
    /// those with Z2 = 0, and then those with Z2 = 1.
    #[inline(always)]
    pub(crate) fn fares(&self, symbol: i8, first: u32, second: u32) -> ([u32; 4], [u32; 4])
        requires first { first ≤ PEN }
        requires second { second ≤ PEN }
        ensures low { (i : ℕ) → i < 4 → slice_index result.0 i ≡ fare self.now.scale symbol first second i }
        ensures high { (i : ℕ) → i < 4 → slice_index result.1 i ≡ fare self.now.scale symbol first second (4 + i) }
    {
        let depth = self.depth(symbol);
        let slopes = slopes(4 * depth, first, second);
        (
            raised(&self.low, &slopes, 0),
            raised(&self.high, &slopes, 16 * depth),
        )
    }

    /// How far a symbol is below the greatest one.
    #[inline(always)]
    fn depth(&self, symbol: i8) -> u32
        ensures depth { result ≡ depth self.now.scale symbol }
        ensures small { result ≤ 255 }
    {
        (127 - symbol as i16) as u32
    }
}

/// What is the same of a level's weight at each symbol, and the level's number.
fn grounded(scale: u8, z: u8) -> u32
    requires scale { scale ≤ MAX_SCALE }
    requires level { z < 8 }
    ensures { result ≡ ground scale z + z / 2 }
{
    let bend = scale as u32 * (z as u32 * (7 - z as u32));
    3584 - 4 * bend - 508 * z as u32 + z as u32 / 2
}

/// What the first four levels come to with their pens, if each weighs so much more than the one before it.
#[inline(always)]
fn slopes(more: u32, first: u32, second: u32) -> [u32; 4]
    requires more { more ≤ 1020 }
    requires first { first ≤ PEN }
    requires second { second ≤ PEN }
    ensures { (i : ℕ) → i < 4 → slice_index result i ≡ i * more + (if i / 2 == 0 then first else second) }
{
    let third = second + (more + more);
    [first, first + more, third, third + more]
}

/// The sums of four numbers and four others, and one that is the same for all.
#[inline(always)]
fn raised(numbers: &[u32; 4], others: &[u32; 4], more: u32) -> [u32; 4]
    requires numbers { (i : ℕ) → i < 4 → slice_index numbers.now i ≤ 3588 }
    requires others { (i : ℕ) → i < 4 → slice_index others.now i ≤ 1_400_003_060 }
    requires more { more ≤ 4080 }
    ensures { (i : ℕ) → i < 4
        → slice_index result i ≡ slice_index numbers.now i + (slice_index others.now i + more) }
{
    [
        numbers[0] + (others[0] + more),
        numbers[1] + (others[1] + more),
        numbers[2] + (others[2] + more),
        numbers[3] + (others[3] + more),
    ]
}
