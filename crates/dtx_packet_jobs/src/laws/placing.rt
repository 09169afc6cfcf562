//! Laws of the placeholders that are put into a stream.
ghost use Rattle.std.specs.Prelude.{◌≡◌, ◌≢◌, ◌*◌, ◌/◌, ◌%◌, ◌<◌, ◌≤◌, ℕ, List, [], length, take, flat_map};
ghost use Rattle.std.specs.Prelude.{true, slice_index, slice_index_or};
ghost use Rattle.std.specs.List.{list_any};
ghost use Rattle.dtx_adapter.specs.Feed.{is_placeholder};
ghost use Rattle.dtx_packets.specs.Packets.{pid_of, packets_of};
ghost use Rattle.dtx_recipes.specs.Place.{becomes, behind, is_open, placed, placing};

/// The bytes that `place` makes of a stream are those of the packets in `placed`, one behind another.
pub fn what_is_made()
    ensures { (bytes : List ℕ) → (placing.made bytes).first ≡ flat_map (λ p. p) (placed (packets_of bytes)) }
{}

/// Placing again changes nothing.
pub fn placing_twice()
    ensures { (packets : List (List ℕ)) → placed (placed packets) ≡ placed packets }
{}

/// Let a field have a null packet or a placeholder at place 52 or behind. Then it has a placeholder there after
/// placing. No other field has one there.
pub fn fields_with_one()
    ensures { (packets : List (List ℕ)) (field : ℕ)
        → list_any is_placeholder (behind (placed packets) field) ≡ list_any is_open (behind packets field) }
{}

/// The number of packets stays, and the length of each. A packet that isn't a null packet stays as it is. In each
/// packet all bytes stay but byte 2, which doesn't grow. A packet that is changed becomes a placeholder.
pub fn what_stays()
    ensures count { (packets : List (List ℕ)) → length (placed packets) ≡ length packets }
    ensures lengths { (packets : List (List ℕ)) (k : ℕ) → k < length packets
        → length (slice_index_or (placed packets) k []) ≡ length (slice_index_or packets k []) }
    ensures others { (packets : List (List ℕ)) (k : ℕ) → k < length packets
        → pid_of (slice_index_or packets k []) ≢ 0x1FFF
        → slice_index_or (placed packets) k [] ≡ slice_index_or packets k [] }
    ensures bytes { (packets : List (List ℕ)) (k place : ℕ) → k < length packets → place ≢ 2
        → slice_index (slice_index_or (placed packets) k []) place ≡ slice_index (slice_index_or packets k []) place }
    ensures lower { (packets : List (List ℕ)) (k place : ℕ) → k < length packets
        → slice_index (slice_index_or (placed packets) k []) place ≤ slice_index (slice_index_or packets k []) place }
    ensures changed { (packets : List (List ℕ)) (k : ℕ) → k < length packets
        → becomes (take k packets) (slice_index_or packets k []) ≡ true
        → pid_of (slice_index_or (placed packets) k []) ≡ 0x1FFA }
{}

/// Let a placeholder stand at place 52 of its field or behind. Then its group of four packets, too, begins in that
/// field, 52 packets or more behind the field's first packet.
pub fn groups_begin_late()
    ensures late { (k : ℕ) → 52 ≤ k % 312 → 52 ≤ 4 * (k / 4) % 312 }
    ensures field { (k : ℕ) → 52 ≤ k % 312 → 4 * (k / 4) / 312 ≡ k / 312 }
{}
