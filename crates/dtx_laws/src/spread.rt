//! The trait of the interleavers.

ghost use Rattle.std.specs.Prelude.{◌≡◌};
ghost use Rattle.dtx_laws.specs.Branches.{Branching, IsInterleaver, HasWidths, spreading, aligned, leaving_all};
ghost use Rattle.dtx_laws.specs.Branches.{after_all};

/// Spreads bytes over `B` branches. Branch i delays by `B * M * i` bytes (ATSC A/53 Part 2, interleaving).
pub trait Spread<const B: usize, const M: usize> {
    /// The next branch, and what each branch holds, oldest byte first.
    ghost seen: { Self → Branching };

    /// Gives proofs a fact, and has no effect. `B` and `M` are the numbers of an interleaver, the next branch is below
    /// `B`, and branch i holds `M * i` bytes.
    fn known(&self)
        ensures numbers { IsInterleaver B M }
        ensures widths { HasWidths B (spreading M) (seen self.now) };

    /// Replaces each byte by the one that leaves the next branch. The byte is put at the end of this branch, and the
    /// branch's first byte leaves.
    fn pass(&mut self, bytes: &mut [u8])
        ensures bytes { bytes.new ≡ leaving_all B (seen self.old) bytes.old }
        ensures seen { seen self.new ≡ after_all B (seen self.old) bytes.old };

    /// Makes branch 0 the next one. The branches keep what they hold.
    fn align(&mut self)
        ensures { seen self.new ≡ aligned (seen self.old) };
}
