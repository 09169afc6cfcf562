//! The laws of the randomizer, over the definitions.

ghost use Rattle.std.specs.Prelude.{◌≡◌, ℕ, ◌+◌, ◌-◌, ◌*◌, ◌%◌, ◌<◌, ◌^◌, List, length, drop, slice_index};
ghost use Rattle.std.specs.Prelude.{slice_index_or, []};
ghost use Rattle.std.specs.Int.RustNames.{bit_xor};
ghost use Rattle.dtx_galois.specs.Field.{product, remainder};
ghost use Rattle.dtx_laws.specs.Whitening.{whitened};
ghost use Rattle.dtx_whiten.specs.Randomizer.{polynomial, preload, register, randomizer_byte, randomizer_bytes};
ghost use Rattle.dtx_whiten.specs.Randomizer.{randomized, randomized_stream};

use dtx_sizes::{FIELD_PACKETS, PACKET_DATA};

/// The register's content after t shifts has a lower degree than the generator polynomial. It differs from X^t times
/// the preload by a multiple of this polynomial.
pub fn division()
    ensures small { (t : ℕ) → register t < 2 ^ 16 }
    ensures multiple { (t : ℕ) → (quotient : ℕ) × (quotient < 2 ^ t)
        × (preload * 2 ^ t ≡ bit_xor (product t quotient polynomial) (register t)) }
{}

/// Byte `at` of the list is byte `at` of the randomizer.
pub fn bytes()
    ensures { (at : ℕ) → at < PACKET_DATA * FIELD_PACKETS → slice_index randomizer_bytes at ≡ randomizer_byte at }
{}

/// A packet is randomized by whitening what follows its sync byte, from its own place in the field on.
pub fn packets()
    ensures packet { (k : ℕ) (packet : List ℕ) → length packet ≡ 1 + PACKET_DATA
        → randomized k packet ≡ whitened randomizer_bytes (PACKET_DATA * (k % FIELD_PACKETS)) (drop 1 packet) }
    ensures stream { (stream : List (List ℕ)) (k : ℕ) → k < length stream
        → slice_index_or (randomized_stream stream) k [] ≡ randomized k (slice_index_or stream k []) }
{}
