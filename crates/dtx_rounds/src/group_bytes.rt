//! The bytes of a field's decided segments.

ghost use Rattle.std.specs.Prelude.{◌≡◌, ◌*◌, ◌/◌, ◌%◌, ◌<◌, ◌≤◌, EachIndex, IfOk, length, slice_index, take, true};
ghost use Rattle.std.specs.Prelude.{vec_len};
ghost use Rattle.std.specs.List.{flat_map};
ghost use Rattle.dtx_slice.specs.Slicing.{sliced_data};
ghost use Rattle.dtx_slice.specs.Unrolled.{bytes_back, precoder_bits_after, precoder_bits_of};
ghost use Rattle.dtx_rounds.specs.Found.{IsUnchanged};
ghost use Rattle.dtx_rounds.specs.FieldRound.{IsWritten};

use crate::field::{Field, WORDS};
use dtx_sizes::{CODERS, CODEWORD, GROUP_BYTES, GROUP_LEVELS, GROUP_PACKETS, PRECODE, SEGMENT};
use dtx_slice::{Unroll, put_levels};
use std::alloc::{AllocError, Global};

/// How many groups a field has.
pub(crate) const GROUPS: usize = WORDS / GROUP_PACKETS;

/// Room for the bytes of a field. The only error is out of memory.
pub(crate) fn empty_bytes(alloc: Global) -> Result<Vec<[u8; GROUP_BYTES]>, AllocError>
    ensures { IfOk result (λ bytes. vec_len bytes ≡ GROUPS) }
{
    vec![in alloc; [0u8; GROUP_BYTES]; GROUPS]
}

/// Writes the bytes of the groups of a field, before which the last twelve symbols have these levels. Where the field
/// keeps those already, nothing is written.
pub(crate) fn write_bytes(last: &[u8; PRECODE], field: &mut Field)
    requires levels { EachIndex last.now (λ q. slice_index last.now q < 8) }
    ensures written { IsWritten field.new.count field.new.decided.items last.now field.new.bytes.items }
    ensures rest { IsUnchanged field.old field.new }
{
    if !keeps(field, last) {
        field.written = false;
        let count = field.in_groups();
        write_groups(last, &field.decided[1..count + 1], &mut field.bytes[..]);
        field.last = *last;
        field.written = true;
    }
}

/// Whether a field keeps the bytes that follow these levels.
fn keeps(field: &Field, last: &[u8; PRECODE]) -> bool
    ensures { result ≡ true → IsWritten field.now.count field.now.decided.items last.now field.now.bytes.items }
{
    field.written && field.last == *last
}

/// Writes the bytes of data segments in whole groups.
fn write_groups(last: &[u8; PRECODE], segments: &[[i8; SEGMENT]], bytes: &mut [[u8; GROUP_BYTES]])
    requires room { length bytes.old ≡ GROUPS }
    requires few { length segments.now ≤ WORDS }
    requires whole { length segments.now ≡ GROUP_PACKETS * (length segments.now / GROUP_PACKETS) }
    requires levels { EachIndex last.now (λ q. slice_index last.now q < 8) }
    ensures { take (CODEWORD * length segments.now) (flat_map (λ group. group) bytes.new)
        ≡ bytes_back 0 (precoder_bits_of last.now) (flat_map sliced_data segments.now) }
{
    let mut unroll = Unroll::new();
    unroll.start(last);
    for g in 0..segments.len() / GROUP_PACKETS {
        let first = GROUP_PACKETS * g;
        write_group(
            &mut unroll,
            first as u16,
            &segments[first..first + GROUP_PACKETS],
            &mut bytes[g],
        );
    }
}

/// Writes the bytes of a group of four segments, of which the first stands at place `first` of its field.
fn write_group(
    unroll: &mut Unroll,
    first: u16,
    segments: &[[i8; SEGMENT]],
    bytes: &mut [u8; GROUP_BYTES],
)
    requires in_field { first < WORDS }
    requires whole { first % GROUP_PACKETS ≡ 0 }
    requires four { length segments.now ≡ GROUP_PACKETS }
    ensures bytes { bytes.new ≡ bytes_back first unroll.old (flat_map sliced_data segments.now) }
    ensures precoder_bits { unroll.new ≡ precoder_bits_after first unroll.old (flat_map sliced_data segments.now) }
    ensures coders { length unroll.new ≡ CODERS }
    ensures levels { length (flat_map sliced_data segments.now) ≡ GROUP_LEVELS }
{
    let mut levels = [0; GROUP_LEVELS];
    for i in 0..GROUP_PACKETS {
        put_levels(&segments[i], i, &mut levels);
    }
    unroll.group(first, &levels, bytes);
}
