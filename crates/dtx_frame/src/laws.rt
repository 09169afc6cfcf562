//! Laws of the definitions, on what looks like a field sync and what doesn't, on the fixed sequences, and on slicing
//! undamaged segments.

ghost use Rattle.std.specs.Prelude.{◌≡◌, ℕ, ℤ, ◌+◌, ◌-◌, ◌*◌, ◌%◌, ◌<◌, ◌≤◌, Bool, true, false, List, [], ◌∷◌};
ghost use Rattle.std.specs.Prelude.{EachIndex, length, map, take, drop, slice_index, slice_range};
ghost use Rattle.dtx_trellis.specs.Groups.{levels_of};
ghost use Rattle.dtx_slice.specs.Slicing.{sliced, sliced_data, sliced_last};
ghost use Rattle.dtx_frame.specs.Segments.{pn63, pn511, data_segment, field_sync};
ghost use Rattle.dtx_trellis.specs.Trellis.{symbol_of};
ghost use Rattle.dtx_frame.specs.Detection.{differing, looks_like, looks_second};

use dtx_sizes::{GROUP_BYTES, PRECODE, SEGMENT_LEVELS};

/// An undamaged data segment differs from a field sync in at least 64 of its first 515 symbols. So it doesn't look like
/// one. It may be any segment n of whole groups, coded from any states.
pub fn unlike()
    ensures differing { (s u n : ℕ) (states bytes : List ℕ) → length bytes ≡ GROUP_BYTES * u → n < 4 * u
        → 64 ≤ differing (data_segment (slice_range (levels_of s states bytes) (SEGMENT_LEVELS * n)
        (SEGMENT_LEVELS * n + SEGMENT_LEVELS))) }
    ensures looks { (s u n : ℕ) (states bytes : List ℕ) → length bytes ≡ GROUP_BYTES * u → n < 4 * u
        → looks_like (data_segment (slice_range (levels_of s states bytes) (SEGMENT_LEVELS * n)
        (SEGMENT_LEVELS * n + SEGMENT_LEVELS))) ≡ false }
{}

/// Each field sync looks like one, and like that of its field.
pub fn alike()
    ensures differing { (second : Bool) (last : List ℤ) → differing (field_sync second last) ≡ 0 }
    ensures looks { (second : Bool) (last : List ℤ) → looks_like (field_sync second last) ≡ true }
    ensures second { (second : Bool) (last : List ℤ) → looks_second (field_sync second last) ≡ second }
{}

/// Slicing gives back what was sent, where nothing was damaged.
pub fn undamaged()
    ensures symbol { (z : ℕ) → z < 8 → sliced (symbol_of z) ≡ z }
    ensures data { (levels : List ℕ) → EachIndex levels (λ d. slice_index levels d < 8)
        → sliced_data (data_segment levels) ≡ levels }
    ensures end { (levels : List ℕ) → EachIndex levels (λ d. slice_index levels d < 8)
        → sliced_last (data_segment levels) ≡ drop (SEGMENT_LEVELS - PRECODE) levels }
    ensures last { (second : Bool) (last : List ℤ) → sliced_last (field_sync second last) ≡ map sliced last }
{}

/// The sequence of 511 bits (ATSC A/53 Part 2, data field sync): how it begins, and its recurrence.
pub fn long_sequence()
    ensures long { length pn511 ≡ 511 }
    ensures begins { take 9 pn511 ≡ 0 ∷ 0 ∷ 0 ∷ 0 ∷ 0 ∷ 0 ∷ 0 ∷ 1 ∷ 0 ∷ [] }
    ensures goes_on { (n : ℕ) → n < 502
        → slice_index pn511 (n + 9) ≡ (slice_index pn511 (n + 7) + slice_index pn511 (n + 6) + slice_index pn511
        (n + 4) + slice_index pn511 (n + 3) + slice_index pn511 (n + 1) + slice_index pn511 n) % 2 }
{}

/// The sequence of 63 bits (ATSC A/53 Part 2, data field sync): how it begins, and its recurrence.
pub fn short_sequence()
    ensures long { length pn63 ≡ 63 }
    ensures begins { take 6 pn63 ≡ 1 ∷ 1 ∷ 1 ∷ 0 ∷ 0 ∷ 1 ∷ [] }
    ensures goes_on { (n : ℕ) → n < 57
        → slice_index pn63 (n + 6) ≡ (slice_index pn63 (n + 1) + slice_index pn63 n) % 2 }
{}
