//! Laws of the definitions: the bytes come back from the levels of the coders, group after group.

ghost use Rattle.std.specs.Prelude.{◌≡◌, ℕ, ◌+◌, ◌-◌, ◌*◌, ◌<◌, ◌++◌, List, EachIndex, length, drop, slice_index};
ghost use Rattle.dtx_trellis.specs.Trellis.{group_place};
ghost use Rattle.dtx_trellis.specs.Groups.{levels_of, states_after};
ghost use Rattle.dtx_slice.specs.Unrolled.{bytes_back, precoder_bits_after, precoder_bits_in, precoder_bits_of};

use dtx_sizes::{GROUP_BYTES, GROUP_LEVELS, PRECODE};

/// Let the precoder bits be those of the coders' states. Then the bytes of whole groups come back from the levels that
/// the coders give. The precoder bits after these groups are those of the states that the coders leave.
pub fn inverts()
    ensures bytes { (s u : ℕ) (states bytes : List ℕ) → length bytes ≡ GROUP_BYTES * u
        → EachIndex bytes (λ j. slice_index bytes j < 256)
        → bytes_back s (precoder_bits_in states) (levels_of s states bytes) ≡ bytes }
    ensures precoder_bits { (s u : ℕ) (states bytes : List ℕ) → length bytes ≡ GROUP_BYTES * u
        → precoder_bits_after s (precoder_bits_in states) (levels_of s states bytes)
        ≡ precoder_bits_in (states_after s states bytes) }
{}

/// After `u` whole groups the bytes go on from the precoder bits that these leave.
pub fn group_after_group()
    ensures bytes { (s u : ℕ) (precoder_bits y z : List ℕ) → length y ≡ GROUP_LEVELS * u
        → bytes_back s precoder_bits (y ++ z) ≡ bytes_back s precoder_bits y
        ++ bytes_back (group_place s u) (precoder_bits_after s precoder_bits y) z }
    ensures precoder_bits { (s u : ℕ) (precoder_bits y z : List ℕ) → length y ≡ GROUP_LEVELS * u
        → precoder_bits_after s precoder_bits (y ++ z) ≡ precoder_bits_after (group_place s u)
        (precoder_bits_after s precoder_bits y) z }
{}

/// At the end of a field the precoder bits are those of the last twelve levels, which the field sync behind it repeats.
pub fn repeated()
    ensures { (s u : ℕ) (precoder_bits levels : List ℕ) → length levels ≡ GROUP_LEVELS * u → 0 < u → group_place s u ≡ 0
        → precoder_bits_of (drop (GROUP_LEVELS * u - PRECODE) levels) ≡ precoder_bits_after s precoder_bits levels }
{}
