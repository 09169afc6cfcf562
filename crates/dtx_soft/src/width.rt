//! Numbers of 8 and of 16 bits, in which differences of costs are kept.

ghost use Rattle.std.specs.Prelude.{◌≡◌, ℤ, ◌≤◌, ◌+ℤ◌, ◌-ℤ◌, nat_abs};
ghost use Rattle.std.specs.Int.{int_max, int_min};
ghost use Rattle.dtx_soft.specs.Bounds.{AreBounds, Bounds, Fits, bytes, words};
ghost use Rattle.dtx_soft.specs.Gaps.{SaysAbove};
ghost use Rattle.dtx_soft.specs.Nearest.{seen};

/// A signed number. Within its bounds of scales and symbols all differences fit.
pub(crate) trait Width: Copy + Drop {
    ghost value: { Self → ℤ };

    ghost bounds: { Bounds };

    /// A number of these.
    fn number(number: i16) -> Self
        requires { Fits bounds number }
        ensures { value result ≡ number };

    /// A symbol, or 0 at scale 0.
    fn seen(scale: u8, symbol: i8) -> Self
        requires { bounds.least ≤ scale }
        ensures seen { value result ≡ seen scale symbol }
        ensures near { nat_abs (value result) ≤ nat_abs symbol };

    /// The sum of two numbers.
    fn plus(self, other: Self) -> Self
        requires { Fits bounds (value self +ℤ value other) }
        ensures { value result ≡ value self +ℤ value other };

    /// The difference of two numbers.
    fn minus(self, other: Self) -> Self
        requires { Fits bounds (value self -ℤ value other) }
        ensures { value result ≡ value self -ℤ value other };

    /// The lesser of two numbers.
    fn lesser(self, other: Self) -> Self
        ensures { value result ≡ int_min (value self) (value other) };

    /// The greater of two numbers.
    fn greater(self, other: Self) -> Self
        ensures { value result ≡ int_max (value self) (value other) };

    /// 1 where the number is greater than another one, and else 0.
    fn is_above(self, other: Self) -> u8
        ensures { SaysAbove (value other) (value self) result };

    ghost wide: { AreBounds bounds };
}

impl Width for i8 {
    ghost use Rattle.std.proofs.Common.{rules};

    ghost value = { λ z. z };

    ghost bounds = { bytes };

    ghost wide = { Prim.search rules };

    #[inline(always)]
    fn number(number: i16) -> i8 {
        number as i8
    }

    #[inline(always)]
    fn seen(scale: u8, symbol: i8) -> i8 {
        symbol
    }

    #[inline(always)]
    fn plus(self, other: i8) -> i8 {
        self + other
    }

    #[inline(always)]
    fn minus(self, other: i8) -> i8 {
        self - other
    }

    #[inline(always)]
    fn lesser(self, other: i8) -> i8 {
        self.min(other)
    }

    #[inline(always)]
    fn greater(self, other: i8) -> i8 {
        self.max(other)
    }

    #[inline(always)]
    fn is_above(self, other: i8) -> u8 {
        (self > other) as u8
    }
}

impl Width for i16 {
    ghost use Rattle.std.proofs.Common.{rules};

    ghost value = { λ z. z };

    ghost bounds = { words };

    ghost wide = { Prim.search rules };

    #[inline(always)]
    fn number(number: i16) -> i16 {
        number
    }

    #[inline(always)]
    fn seen(scale: u8, symbol: i8) -> i16 {
        if scale == 0 { 0 } else { symbol as i16 }
    }

    #[inline(always)]
    fn plus(self, other: i16) -> i16 {
        self + other
    }

    #[inline(always)]
    fn minus(self, other: i16) -> i16 {
        self - other
    }

    #[inline(always)]
    fn lesser(self, other: i16) -> i16 {
        self.min(other)
    }

    #[inline(always)]
    fn greater(self, other: i16) -> i16 {
        self.max(other)
    }

    #[inline(always)]
    fn is_above(self, other: i16) -> u8 {
        (self > other) as u8
    }
}
