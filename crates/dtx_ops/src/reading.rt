// Reading an operations packet.
ghost use Rattle.std.specs.Prelude.{◌≡◌, ◌+◌, ◌*◌, ◌<◌, ◌≤◌, ◌++◌, [], IfOk, Some, None, drop, length, take};
ghost use Rattle.dtx_ops.specs.Fields.{paging_in, count_in, behind_count, entry_in, entries_in, fields};
ghost use Rattle.dtx_ops.specs.Paging.{IsPaged};
ghost use Rattle.dtx_ops.specs.Reading as spec;
ghost use Rattle.dtx_ops.specs.Spelling.{IsValid};

use crate::fields::{Entry, Ops};
use crate::numbers::{bits_at, frame_at, index_at, ticks_at};
use crate::packing::unpacked;
use crate::paging::Paging;
use crate::refusal::OpsNo;
use crate::rules::{head_refusal, page_refusal, rest_refusal};
use arrayvec::ArrayVec;
use byteorder::{BigEndian, ByteOrder};
use dtx_laws::Correct;
use dtx_packets::Packet;
use dtx_sizes::{MOST_ENTRIES, OPERATIONS_PID};

/// Reads an operations packet: its fields, or else the first of the eleven rules that refuses it. It reads only the
/// packet identifier and the payload, and up to ten bytes of the payload may be wrong.
#[tactic(auto, unfolding(crate::specs::Reading::reading))]
pub fn read<C: Correct<184, 164>>(code: &C, packet: &Packet) -> Result<Ops, OpsNo>
    ensures reading { result ≡ spec.reading packet.now.0 }
    ensures valid { IfOk result IsValid }
{
    if packet.pid() != OPERATIONS_PID {
        return Err(OpsNo::NotOps);
    }
    match corrected(code, packet) {
        Some(data) => read_data(&data),
        None => Err(OpsNo::Uncorrectable),
    }
}

/// The data of the payload's correction, where it has one.
#[tactic(auto, unfolding(crate::specs::Reading::corrected))]
fn corrected<C: Correct<184, 164>>(code: &C, packet: &Packet) -> Option<[u8; 164]>
    ensures { result ≡ spec.corrected packet.now.0 }
{
    let mut word = payload(packet);
    match code.correct(&mut word) {
        Ok(_) => Some(data_in(&word)),
        Err(_) => None,
    }
}

/// The bytes of a packet behind its header.
fn payload(packet: &Packet) -> [u8; 184]
    ensures payload { result ≡ drop 4 packet.now.0 }
    ensures long { length result ≡ 184 }
{
    let mut word = [0; 184];
    word.copy_from_slice(&packet.0[4..]);
    word
}

/// The data in a codeword.
fn data_in(word: &[u8; 184]) -> [u8; 164]
    ensures { result ≡ take 164 word.now }
{
    let mut data = [0; 164];
    data.copy_from_slice(&word[..164]);
    data
}

/// The fields in the data, or else the first rule that refuses them.
#[tactic(auto, unfolding(crate::specs::Reading::data_reading, crate::specs::Reading::data_rules), using(crate::proofs::RefusingLemmas::first_none, crate::proofs::RefusingLemmas::first_some))]
fn read_data(bytes: &[u8]) -> Result<Ops, OpsNo>
    requires { length bytes.now ≡ 164 }
    ensures { result ≡ spec.data_reading bytes.now }
{
    match head_refusal(bytes) {
        Some(no) => Err(no),
        None => read_page(paging(bytes), bytes),
    }
}

/// The page that the data carry.
#[tactic(auto, unfolding(crate::specs::Fields::paging_in))]
fn paging(bytes: &[u8]) -> Paging
    requires { length bytes.now ≡ 164 }
    ensures { result ≡ paging_in bytes.now }
{
    if bytes[0] == 2 {
        Paging::Of {
            page: bytes[18],
            pages: bytes[19],
        }
    } else {
        Paging::One
    }
}

/// The fields in the data, or else the first rule on the page, the entries and the bytes behind them that refuses them.
#[tactic(auto, unfolding(crate::specs::Fields::count_in), using(crate::proofs::RefusingLemmas::first_none, crate::proofs::RefusingLemmas::first_some))]
fn read_page(paging: Paging, bytes: &[u8]) -> Result<Ops, OpsNo>
    requires long { length bytes.now ≡ 164 }
    requires paging { paging ≡ paging_in bytes.now }
    ensures { result
        ≡ spec.unless (spec.first (spec.page_rules (paging_in bytes.now) (count_in bytes.now)
        ++ spec.rest_rules (entries_in (count_in bytes.now) (behind_count bytes.now))
        (drop (4 * count_in bytes.now) (behind_count bytes.now)))) (fields bytes.now) }
{
    match page_refusal(paging, bytes[paging.count_place()]) {
        Some(no) => Err(no),
        None => read_rest(paging, bytes),
    }
}

/// The fields in the data, or else the first rule on the entries and the bytes behind them that refuses them.
#[tactic(auto, unfolding(crate::specs::Fields::count_in, crate::specs::Fields::behind_count))]
fn read_rest(paging: Paging, bytes: &[u8]) -> Result<Ops, OpsNo>
    requires long { length bytes.now ≡ 164 }
    requires paging { paging ≡ paging_in bytes.now }
    requires paged { IsPaged paging (count_in bytes.now) }
    ensures { result
        ≡ spec.unless (spec.first (spec.rest_rules (entries_in (count_in bytes.now) (behind_count bytes.now))
        (drop (4 * count_in bytes.now) (behind_count bytes.now)))) (fields bytes.now) }
{
    let place = paging.count_place();
    let count = bytes[place] as usize;
    let page = &bytes[place + 1..];
    let offsets = entries(count, page);
    match rest_refusal(offsets.as_slice(), &page[4 * count..]) {
        Some(no) => Err(no),
        None => Ok(fields_of(bytes, paging, offsets)),
    }
}

/// The fields in the data, whose page and entries are read already.
#[tactic(auto, unfolding(crate::specs::Fields::fields, crate::specs::Fields::states_in, crate::specs::Fields::stamp_in, crate::specs::Fields::max_delay_in, crate::specs::Fields::frame_in, crate::specs::Fields::index_in))]
fn fields_of(bytes: &[u8], paging: Paging, offsets: ArrayVec<Entry, MOST_ENTRIES>) -> Ops
    requires long { length bytes.now ≡ 164 }
    requires paging { paging ≡ paging_in bytes.now }
    requires entries { offsets.items ≡ entries_in (count_in bytes.now) (behind_count bytes.now) }
    ensures { result ≡ fields bytes.now }
{
    Ops {
        states: unpacked(bits_at(bytes, 1)),
        stamp: ticks_at(bytes, 6),
        max_delay: ticks_at(bytes, 9),
        frame: frame_at(bytes, 12),
        index: index_at(bytes, 16),
        paging,
        offsets,
    }
}

/// The first `count` entries.
#[tactic(auto, unfolding(crate::specs::Fields::entries_in))]
fn entries(count: usize, bytes: &[u8]) -> ArrayVec<Entry, MOST_ENTRIES>
    requires few { count ≤ 35 }
    requires room { 4 * count ≤ length bytes.now }
    ensures { result.items ≡ entries_in count bytes.now }
{
    let mut found = ArrayVec::new();
    for i in 0..count {
        found.push(entry(&bytes[4 * i..]));
    }
    found
}

/// The entry in the first four bytes.
#[tactic(auto, unfolding(crate::specs::Fields::entry_in))]
fn entry(bytes: &[u8]) -> Entry
    requires { 4 ≤ length bytes.now }
    ensures { result ≡ entry_in bytes.now }
{
    Entry {
        address: BigEndian::read_u16(bytes),
        offset: BigEndian::read_i16(&bytes[2..]),
    }
}
