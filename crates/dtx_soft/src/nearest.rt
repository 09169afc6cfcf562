//! A table: for each symbol, and for each two levels that lead to the same next state, the nearer of them.

ghost use Rattle.std.specs.Prelude.{◌≡◌, ◌<◌, ◌≤◌, pos, ◌+ℤ◌, ◌≤ℤ◌, length};
ghost use Rattle.dtx_soft.specs.Paths.{squared, symbol_at};
ghost use Rattle.dtx_soft.specs.Nearest.{AreNearest, IsNearest, IsTable, IsTieBreak};

/// How many levels there are.
pub(crate) const LEVELS: u8 = 8;

/// The greatest scale. At it the symbols of all levels are signed bytes.
pub const MAX_SCALE: u8 = 18;

/// The greatest square of a symbol's distance from a level: (128 + 7 * 18)^2.
pub(crate) const MAX_SQUARE: u32 = 64_516;

/// What paths over the 828 data symbols of a segment cost at most.
pub const MOST_SEGMENT_COST: u64 = 828 * 64_516;

/// A row of the table. For z below 4 it has the one of levels z and z + 4 that is nearest to the symbol, and the square
/// of the distance. Of two equally near ones it is z. For z = 0 and z = 1 the tie break is 1 where the level of z + 2
/// comes before that of z, else 0.
#[derive(Clone, Copy, Drop)]
pub(crate) struct Nearest {
    pub(crate) levels: [u8; 4],
    pub(crate) squares: [u32; 4],
    pub(crate) tie_breaks: [u32; 2],
    /// Fills the row up to 32 bytes, so that a shift finds it.
    filler: u32,
}

/// The number of symbols, from -128 to 127.
pub(crate) const SYMBOLS: usize = 256;

/// A row of zeros.
pub(crate) const EMPTY: Nearest = Nearest {
    levels: [0; 4],
    squares: [0; 4],
    tie_breaks: [0; 2],
    filler: 0,
};

/// Writes the rows of all symbols. The row of symbol v is number v + 128.
pub(crate) fn fill(rows: &mut [Nearest], scale: u8)
    requires scale { scale ≤ MAX_SCALE }
    requires long { length rows.old ≡ SYMBOLS }
    ensures { IsTable scale rows.new }
{
    for n in 0..SYMBOLS {
        rows[n] = row(scale, (n as i16 - 128) as i8);
    }
}

/// The row of a symbol.
fn row(scale: u8, symbol: i8) -> Nearest
    requires { scale ≤ MAX_SCALE }
    ensures { AreNearest scale symbol result }
{
    let first = nearer(scale, symbol, 0);
    let second = nearer(scale, symbol, 1);
    let third = nearer(scale, symbol, 2);
    let fourth = nearer(scale, symbol, 3);
    Nearest {
        levels: [first.0, second.0, third.0, fourth.0],
        squares: [first.1, second.1, third.1, fourth.1],
        tie_breaks: [tie_break(first.0, third.0), tie_break(second.0, fourth.0)],
        filler: 0,
    }
}

/// 1 where level `other` comes before `level` in order, else 0.
fn tie_break(level: u8, other: u8) -> u32
    ensures { IsTieBreak level other result }
{
    if other < level { 1 } else { 0 }
}

/// The one of levels z and z + 4 that is nearest to a symbol, and the square of the distance.
fn nearer(scale: u8, symbol: i8, z: u8) -> (u8, u32)
    requires scale { scale ≤ MAX_SCALE }
    requires pair { z < 4 }
    ensures { IsNearest scale symbol z result.0 result.1 }
{
    let low = squared_distance(scale, symbol, z);
    let high = squared_distance(scale, symbol, z + 4);
    if high < low { (z + 4, high) } else { (z, low) }
}

/// The square of a symbol's distance from level z.
pub fn squared_distance(scale: u8, symbol: i8, z: u8) -> u32
    requires scale { scale ≤ MAX_SCALE }
    requires level { z < LEVELS }
    ensures square { result ≡ squared symbol (symbol_at scale z) }
    ensures small { result ≤ MAX_SQUARE }
{
    square(symbol, symbol_at(scale, z))
}

/// The square of a symbol's distance from another one.
#[inline(always)]
pub fn square(symbol: i8, other: i16) -> u32
    requires from { pos 0 ≤ℤ (other +ℤ pos 126) }
    requires to { other ≤ℤ pos 126 }
    ensures square { result ≡ squared symbol other }
    ensures small { result ≤ MAX_SQUARE }
{
    let off = (symbol as i16 - other).unsigned_abs();
    (off * off) as u32
}

/// The symbol of level z, which is 2 * z - 7 at scale 1.
#[tactic(auto, unfolding(crate::specs::Paths::symbol_at))]
pub fn symbol_at(scale: u8, z: u8) -> i16
    requires scale { scale ≤ MAX_SCALE }
    requires level { z < LEVELS }
    ensures symbol { result ≡ symbol_at scale z }
    ensures from { pos 0 ≤ℤ (result +ℤ pos 126) }
    ensures to { result ≤ℤ pos 126 }
{
    let up = scale as u16 * (2 * z as u16);
    let down = scale as u16 * 7;
    up as i16 - down as i16
}
