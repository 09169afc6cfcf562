//! The numbers of bytes that the branches hold, in each of the two directions.

ghost use Rattle.std.specs.Prelude.{◌≡◌, ℕ, ◌<◌};
ghost use Rattle.dtx_laws.specs.Branches.{IsInterleaver, spreading, gathering};

/// The widths of `B` branches.
pub(crate) trait Widths<const B: usize, const M: usize> {
    /// How many bytes branch i holds.
    ghost widths: { ℕ → ℕ };

    /// The width of branch `i`.
    fn width(i: usize) -> usize
        requires numbers { IsInterleaver B M }
        requires below { i < B }
        ensures { result ≡ widths i };
}

/// The way out: each branch holds `M` bytes more than the one before it.
pub(crate) struct Spreading;

impl<const B: usize, const M: usize> Widths<B, M> for Spreading {
    ghost widths = { spreading M };

    fn width(i: usize) -> usize {
        M * i
    }
}

/// The way back: each branch holds `M` bytes less than the one before it.
pub(crate) struct Gathering;

impl<const B: usize, const M: usize> Widths<B, M> for Gathering {
    ghost widths = { gathering B M };

    fn width(i: usize) -> usize {
        M * (B - 1 - i)
    }
}
