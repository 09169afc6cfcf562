// Writing an operations packet.
ghost use Rattle.std.specs.Prelude.{◌≡◌, ◌≢◌, ◌+◌, ◌*◌, ◌^◌, ◌<◌, ◌≤◌, [], ◌∷◌, ◌++◌, All, AllPairs, EachIndex, drop};
ghost use Rattle.std.specs.Prelude.{length, map, replicate, slice_index};
ghost use Rattle.std.specs.List.{flat_map};
ghost use Rattle.byteorder.specs.Endian.{big_bytes};
ghost use Rattle.dtx_laws.specs.Words.{codeword};
ghost use Rattle.dtx_ops.specs.Paging.{paging_bytes, count_place, IsPaged};
ghost use Rattle.dtx_ops.specs.Spelling.{entry_bytes, times_bytes, head_bytes, data_of, spelling, IsEntry, IsValid};

use crate::fields::{Entry, Ops};
use crate::packing::packed;
use crate::paging::Paging;
use byteorder::{BigEndian, ByteOrder};
use dtx_laws::Encode;
use dtx_packets::Packet;

/// Makes the packet an operations packet of these fields and this counter. Its byte 0 stays. The stamp and the maximum
/// delay have to be below 10,000,000 ticks, the index below 624 and the counter below 16. The page has to be below the
/// number of pages, which is at most 30. The only page has at most 35 entries, and one of several at most 34. The
/// addresses of the entries have to differ.
#[tactic(auto, unfolding(crate::specs::Spelling::spelling))]
pub fn write<E: Encode<184, 164>>(code: &E, ops: &Ops, counter: u8, packet: &mut Packet)
    requires stamp { ops.now.stamp < 10000000 }
    requires max_delay { ops.now.max_delay < 10000000 }
    requires index { ops.now.index < 624 }
    requires paged { IsPaged ops.now.paging (length ops.now.offsets.items) }
    requires differ { AllPairs (λ a b. a ≢ b) (map (λ e. e.address) ops.now.offsets.items) }
    requires counter { counter < 16 }
    ensures spelling { packet.new.0 ≡ spelling ops.now counter (slice_index packet.old.0 0) }
    ensures valid { IsValid ops.now }
{
    let word = payload(code, ops);
    packet.0[1] = 0x1F;
    packet.0[2] = 0xFA;
    packet.0[3] = 0x10 + counter;
    packet.0[4..].copy_from_slice(&word);
}

/// The payload, which is the codeword of the data.
fn payload<E: Encode<184, 164>>(code: &E, ops: &Ops) -> [u8; 184]
    requires stamp { ops.now.stamp < 10000000 }
    requires max_delay { ops.now.max_delay < 10000000 }
    requires index { ops.now.index < 624 }
    requires paged { IsPaged ops.now.paging (length ops.now.offsets.items) }
    requires differ { AllPairs (λ a b. a ≢ b) (map (λ e. e.address) ops.now.offsets.items) }
    ensures codeword { result ≡ codeword 184 164 (data_of ops.now) }
    ensures valid { IsValid ops.now }
{
    let mut data = [0; 164];
    write_data(ops, &mut data);
    let mut word = [0; 184];
    code.encode(&data, &mut word);
    word
}

/// Writes the data to `out`, which holds 164 zeros.
#[tactic(auto, unfolding(crate::specs::Spelling::data_of))]
fn write_data(ops: &Ops, out: &mut [u8])
    requires stamp { ops.now.stamp < 10000000 }
    requires max_delay { ops.now.max_delay < 10000000 }
    requires index { ops.now.index < 624 }
    requires paged { IsPaged ops.now.paging (length ops.now.offsets.items) }
    requires differ { AllPairs (λ a b. a ≢ b) (map (λ e. e.address) ops.now.offsets.items) }
    requires blank { out.old ≡ replicate 164 0 }
    ensures data { out.new ≡ data_of ops.now }
    ensures valid { IsValid ops.now }
{
    write_head(ops, out);
    write_entries(
        ops.offsets.as_slice(),
        &mut out[ops.paging.count_place() + 1..],
    );
}

/// Writes the data before the entries.
#[tactic(auto, unfolding(crate::specs::Spelling::head_bytes))]
fn write_head(ops: &Ops, out: &mut [u8])
    requires stamp { ops.now.stamp < 10000000 }
    requires max_delay { ops.now.max_delay < 10000000 }
    requires room { 21 ≤ length out.old }
    ensures head { out.new ≡ head_bytes ops.now ++ drop (count_place ops.now.paging + 1) out.old }
    ensures twelve { length ops.now.states ≡ 12 }
    ensures states { EachIndex ops.now.states (λ e. slice_index ops.now.states e < 8) }
    ensures frame { ops.now.frame < 2 ^ 32 }
{
    out[0] = ops.paging.kind();
    BigEndian::write_uint(&mut out[1..], packed(ops.states), 5);
    write_times(ops, &mut out[6..]);
    write_count(ops.paging, ops.offsets.len() as u8, &mut out[18..]);
}

/// Writes stamp, maximum delay, frame and index.
#[tactic(auto, unfolding(crate::specs::Spelling::times_bytes))]
fn write_times(ops: &Ops, out: &mut [u8])
    requires stamp { ops.now.stamp < 10000000 }
    requires max_delay { ops.now.max_delay < 10000000 }
    requires room { 12 ≤ length out.old }
    ensures times { out.new ≡ times_bytes ops.now ++ drop 12 out.old }
    ensures frame { ops.now.frame < 2 ^ 32 }
{
    write_delays(ops.stamp, ops.max_delay, out);
    write_place(ops.frame, ops.index, &mut out[6..]);
}

/// Writes stamp and maximum delay.
fn write_delays(stamp: u32, max_delay: u32, out: &mut [u8])
    requires stamp { stamp < 10000000 }
    requires max_delay { max_delay < 10000000 }
    requires room { 6 ≤ length out.old }
    ensures { out.new ≡ big_bytes 3 stamp ++ big_bytes 3 max_delay ++ drop 6 out.old }
{
    BigEndian::write_u24(out, stamp);
    BigEndian::write_u24(&mut out[3..], max_delay);
}

/// Writes frame and index.
fn write_place(frame: u32, index: u16, out: &mut [u8])
    requires { 6 ≤ length out.old }
    ensures { out.new ≡ big_bytes 4 frame ++ big_bytes 2 index ++ drop 6 out.old }
{
    BigEndian::write_u32(out, frame);
    BigEndian::write_u16(&mut out[4..], index);
}

/// Writes the page and the number of pages, if there are several, and then the count of entries.
fn write_count(paging: Paging, count: u8, out: &mut [u8])
    requires { 3 ≤ length out.old }
    ensures { out.new ≡ (paging_bytes paging ++ count ∷ []) ++ drop (length (paging_bytes paging) + 1) out.old }
{
    match paging {
        Paging::One => out[0] = count,
        Paging::Of { page, pages } => write_paging(page, pages, count, out),
    }
}

/// Writes a page, the number of pages, and a count of entries.
fn write_paging(page: u8, pages: u8, count: u8, out: &mut [u8])
    requires { 3 ≤ length out.old }
    ensures { out.new ≡ page ∷ pages ∷ count ∷ drop 3 out.old }
{
    out[0] = page;
    out[1] = pages;
    out[2] = count;
}

/// Writes the entries, four bytes each.
fn write_entries(entries: &[Entry], out: &mut [u8])
    requires { 4 * length entries.now ≤ length out.old }
    ensures bytes { out.new ≡ flat_map entry_bytes entries.now ++ drop (4 * length entries.now) out.old }
    ensures are { All IsEntry entries.now }
{
    for i in 0..entries.len() {
        write_entry(&entries[i], &mut out[4 * i..]);
    }
}

/// Writes one entry.
#[tactic(auto, unfolding(crate::specs::Spelling::entry_bytes))]
fn write_entry(entry: &Entry, out: &mut [u8])
    requires { 4 ≤ length out.old }
    ensures bytes { out.new ≡ entry_bytes entry.now ++ drop 4 out.old }
    ensures is { IsEntry entry.now }
{
    BigEndian::write_u16(out, entry.address);
    BigEndian::write_i16(&mut out[2..], entry.offset);
}
