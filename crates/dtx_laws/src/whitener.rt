//! The trait of whiteners.

ghost use Rattle.std.specs.Prelude.{◌≡◌, ℕ, ◌<◌, ◌^◌, List, length, slice_index};
ghost use Rattle.dtx_galois.specs.Field.{AreBytes};

/// A value with a list of bytes that are added to data bit by bit, so that no pattern of the data shows (ATSC A/53 Part
/// 2, data randomizer).
pub trait Whitener {
    /// How many bytes there are.
    const PERIOD: usize;

    ghost PERIOD: { ℕ };

    /// The bytes, from byte 0 on.
    ghost bytes: { Self → List ℕ };

    /// Byte `at` of the list.
    fn byte(&self, at: usize) -> u8
        requires { at < PERIOD }
        ensures { result ≡ slice_index (bytes self.now) at };

    /// The list has as many bytes as the constant says.
    ghost long: { (whitener : Self) → length (bytes whitener) ≡ PERIOD };

    /// Each of them is a byte.
    ghost are_bytes: { (whitener : Self) → AreBytes (bytes whitener) };

    /// The constant fits a number of 64 bits.
    ghost fits: { PERIOD < 2 ^ 64 };
}
