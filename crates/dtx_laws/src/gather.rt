//! The trait of the de-interleavers.

ghost use Rattle.std.specs.Prelude.{◌≡◌};
ghost use Rattle.dtx_laws.specs.Branches.{Branching, IsInterleaver, HasWidths, gathering, aligned, leaving_all};
ghost use Rattle.dtx_laws.specs.Branches.{after_all};

/// Gathers bytes that an interleaver spread. Of the `B` branches, branch i delays by `B * M * (B - 1 - i)` bytes (ATSC
/// A/53 Part 2, interleaving: the way back).
pub trait Gather<const B: usize, const M: usize> {
    /// The next branch, and what each branch holds, oldest byte first.
    ghost seen: { Self → Branching };

    /// Gives proofs a fact, and has no effect. `B` and `M` are the numbers of an interleaver, the next branch is below
    /// `B`, and branch i holds `M * (B - 1 - i)` bytes.
    fn known(&self)
        ensures numbers { IsInterleaver B M }
        ensures widths { HasWidths B (gathering B M) (seen self.now) };

    /// Replaces each byte by the one that leaves the next branch. The byte is put at the end of this branch, and the
    /// branch's first byte leaves.
    fn gather(&mut self, bytes: &mut [u8])
        ensures bytes { bytes.new ≡ leaving_all B (seen self.old) bytes.old }
        ensures seen { seen self.new ≡ after_all B (seen self.old) bytes.old };

    /// Makes branch 0 the next one. The branches keep what they hold.
    fn align(&mut self)
        ensures { seen self.new ≡ aligned (seen self.old) };
}
