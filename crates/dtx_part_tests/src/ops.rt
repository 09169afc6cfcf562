//! Worked operations packets, read, damaged, and written again.

ghost use Rattle.std.specs.Prelude.{◌<◌, ◌≤◌, ◌+◌, ◌*◌, length};
ghost use Rattle.dtx_ops.specs.Spelling.{IsValid};

use crate::expect::expect;
use arrayvec::ArrayVec;
use dtx_fast::Fast;
use dtx_laws::Encode;
use dtx_ops::{Entry, Ops, OpsNo, Paging, read, write};
use dtx_packets::Packet;
use dtx_rs::Rs;
use dtx_sizes::{MOST_ENTRIES, PACKET};
use dtx_trellis::States;
use std::process::Abort;

/// The data of a worked packet, up to the end of its only entry.
const BEGINS: [u8; 23] = [
    0x01, 0x80, 0x00, 0x00, 0x00, 0x10, 0x02, 0x7C, 0x07, 0x4C, 0x4B, 0x40, 0x00, 0x00, 0x00, 0x15,
    0x00, 0x64, 0x01, 0x00, 0x07, 0xFF, 0xF6,
];

/// The data of a worked packet of kind 2, of page 1 of 2, up to the end of its last entry.
const PAGE_BEGINS: [u8; 29] = [
    0x02, 0x80, 0x00, 0x00, 0x00, 0x10, 0x02, 0x7C, 0x07, 0x4C, 0x4B, 0x40, 0x00, 0x00, 0x00, 0x15,
    0x00, 0x64, 0x01, 0x02, 0x02, 0x00, 0x22, 0xFF, 0xF6, 0xFF, 0xFF, 0x7F, 0xFF,
];

/// Its fields.
fn worked() -> Ops {
    let mut offsets = ArrayVec::new();
    offsets.push(Entry {
        address: 7,
        offset: -10,
    });
    Ops {
        states: States([4, 0, 0, 0, 0, 0, 0, 0, 0, 0, 0, 1]),
        stamp: 162823,
        max_delay: 5_000_000,
        frame: 21,
        index: 100,
        paging: Paging::One,
        offsets,
    }
}

/// The fields of the worked packet of kind 2.
fn worked_page() -> Ops {
    let mut offsets = ArrayVec::new();
    offsets.push(Entry {
        address: 34,
        offset: -10,
    });
    offsets.push(Entry {
        address: 65535,
        offset: 32767,
    });
    Ops {
        paging: Paging::Of { page: 1, pages: 2 },
        offsets,
        ..worked()
    }
}

/// Data that begin so, with zeros behind.
fn data_of(begins: &[u8]) -> [u8; 164]
    requires { length begins.now ≤ 164 }
{
    let mut data = [0; 164];
    data[..begins.len()].copy_from_slice(begins);
    data
}

/// The data with four other bytes from a place on.
fn data_with(worked: [u8; 164], at: u8, bytes: [u8; 4]) -> [u8; 164] {
    let mut data = worked;
    for k in 0..4 {
        data[(at as usize + k) % 164] = bytes[k];
    }
    data
}

/// An operations packet of these data, with right parity bytes.
fn packet_of(data: &[u8; 164]) -> Packet {
    let mut payload = [0; 184];
    Rs::new().encode(data, &mut payload);
    let mut packet = Packet([0; PACKET]);
    packet.0[..4].copy_from_slice(&[0x47, 0x1F, 0xFA, 0x10]);
    packet.0[4..].copy_from_slice(&payload);
    packet
}

/// The packet with that byte 0 and that counter.
fn with_header(packet: &Packet, sync: u8, counter: u8) -> Packet
    requires { counter < 16 }
{
    let mut changed = *packet;
    changed.0[0] = sync;
    changed.0[3] = 0x10 + counter;
    changed
}

/// The fields, written into a packet of that byte 0 with that counter, are the packet but for its header.
fn comes_back(packet: &Packet, ops: &Ops, sync: u8, counter: u8) -> bool
    requires valid { IsValid ops.now }
    requires counter { counter < 16 }
{
    let mut written = Packet([sync; PACKET]);
    write(&Rs::new(), ops, counter, &mut written);
    written == with_header(packet, sync, counter)
}

/// What stands up to the first entry of a packet with the greatest numbers.
const GREATEST: [u8; 23] = [
    0x01, 0xFF, 0xFF, 0xFF, 0xFF, 0xF0, 0x98, 0x96, 0x7F, 0x98, 0x96, 0x7F, 0xFF, 0xFF, 0xFF, 0xFF,
    0x02, 0x6F, 35, 0xFF, 0xFF, 0x80, 0x00,
];

/// Data that begin so, behind which so many entries stand: the addresses 0 and so on, and the least offset.
fn full_data(begins: &[u8], count: usize) -> [u8; 164]
    requires { length begins.now + 4 * count ≤ 164 }
{
    let mut data = data_of(begins);
    for k in 0..count {
        data[begins.len() + 4 * k + 1] = k as u8;
        data[begins.len() + 4 * k + 2] = 0x80;
    }
    data
}

/// What stands before the entries of a packet with the last of thirty pages.
const LAST_PAGE: [u8; 21] = [
    0x02, 0, 0, 0, 0, 0, 0, 0, 0, 0, 0, 0, 0, 0, 0, 0, 0, 0, 29, 30, 34,
];

/// Adds so many entries with the least offset: the addresses 0 and so on.
fn fill(offsets: &mut ArrayVec<Entry, MOST_ENTRIES>, count: u16) {
    for address in 0..count {
        let _ = offsets.try_push(Entry {
            address,
            offset: -32768,
        });
    }
}

/// The greatest numbers.
fn greatest() -> Ops {
    let mut offsets = ArrayVec::new();
    offsets.push(Entry {
        address: 65535,
        offset: -32768,
    });
    fill(&mut offsets, 34);
    Ops {
        states: States([7; 12]),
        stamp: 9_999_999,
        max_delay: 9_999_999,
        frame: 0xFFFF_FFFF,
        index: 623,
        paging: Paging::One,
        offsets,
    }
}

/// The last page of the most, full of entries.
fn last_page() -> Ops {
    let mut offsets = ArrayVec::new();
    fill(&mut offsets, 34);
    Ops {
        states: States([0; 12]),
        stamp: 0,
        max_delay: 0,
        frame: 0,
        index: 0,
        paging: Paging::Of {
            page: 29,
            pages: 30,
        },
        offsets,
    }
}

/// Which data a packet has.
#[derive(Clone, Copy)]
enum Kept {
    Worked,
    Page,
    Greatest,
    LastPage,
}

fn data(kept: Kept) -> [u8; 164] {
    match kept {
        Kept::Worked => data_of(&BEGINS),
        Kept::Page => data_of(&PAGE_BEGINS),
        Kept::Greatest => full_data(&GREATEST, 34),
        Kept::LastPage => full_data(&LAST_PAGE, 34),
    }
}

/// The fields that they say.
fn fields(kept: Kept) -> Ops {
    match kept {
        Kept::Worked => worked(),
        Kept::Page => worked_page(),
        Kept::Greatest => greatest(),
        Kept::LastPage => last_page(),
    }
}

/// A packet of the data reads as the fields, with so many entries, and they are written as the packet.
fn is_kept(kept: Kept, sync: u8, counter: u8, entries: usize) -> bool
    requires { counter < 16 }
{
    let packet = packet_of(&data(kept));
    match read(&Fast::new(), &packet) {
        Ok(ops) => {
            ops.offsets.len() == entries
                && ops == fields(kept)
                && comes_back(&packet, &ops, sync, counter)
        }
        Err(_) => false,
    }
}

/// Data, the byte 0 and the counter with which their fields are written, and how many entries they have.
static KEPT: [(Kept, u8, u8, usize); 4] = [
    (Kept::Worked, 0xB8, 13, 1),
    (Kept::Page, 0x47, 9, 2),
    (Kept::Greatest, 0x47, 15, 35),
    (Kept::LastPage, 0x47, 15, 34),
];

#[test]
fn worked_fields_a_page_greatest_numbers_and_the_last_page_of_the_most_are_read_and_written(
    rt: HostRuntime,
) {
    for i in 0..KEPT.len() {
        let (kept, sync, counter, entries) = KEPT[i];
        expect(&rt, is_kept(kept, sync, counter, entries), i);
    }
}

/// Four bytes from a place of the data on, and why a packet with them is refused.
type Row = (u8, [u8; 4], OpsNo);

static ROWS: [Row; 12] = [
    (0, [0x00, 0x80, 0x00, 0x00], OpsNo::Kind),
    (4, [0x00, 0x11, 0x02, 0x7C], OpsNo::Pad),
    (4, [0x00, 0x11, 0x98, 0x96], OpsNo::Pad),
    (6, [0x98, 0x96, 0x80, 0x4C], OpsNo::Stamp),
    (6, [0x98, 0x96, 0x80, 0xFF], OpsNo::Stamp),
    (8, [0x07, 0x98, 0x96, 0x80], OpsNo::Delay),
    (15, [0x15, 0x02, 0x70, 0x01], OpsNo::Index),
    (15, [0x15, 0x02, 0x70, 0x24], OpsNo::Index),
    (15, [0x15, 0x00, 0x64, 0x24], OpsNo::Count),
    (18, [0x03, 0x00, 0x07, 0xFF], OpsNo::Twice),
    (23, [0x01, 0x00, 0x00, 0x00], OpsNo::Fill),
    (160, [0x00, 0x00, 0x00, 0x80], OpsNo::Fill),
];

/// Ends the test at the first row whose bytes, in a packet that begins so, are refused otherwise.
fn expect_refusals(rt: &impl Abort, data: &[u8; 164], rows: &[Row]) {
    for i in 0..rows.len() {
        let (at, bytes, refusal) = rows[i];
        let packet = packet_of(&data_with(*data, at, bytes));
        expect(rt, is_refused(&packet, refusal), i);
    }
}

fn is_refused(packet: &Packet, refusal: OpsNo) -> bool {
    read(&Fast::new(), packet) == Err(refusal)
}

#[test]
fn each_refusal_comes_by_its_rule_and_the_first_one_first(rt: HostRuntime) {
    expect_refusals(&rt, &data_of(&BEGINS), &ROWS);
}

static PAGE_ROWS: [Row; 9] = [
    (0, [0x03, 0x80, 0x00, 0x00], OpsNo::Kind),
    (16, [0x02, 0x70, 0x02, 0x02], OpsNo::Index),
    (18, [0x02, 0x02, 0x02, 0x00], OpsNo::Page),
    (18, [0x00, 0x00, 0x23, 0x00], OpsNo::Page),
    (18, [0x1E, 0x1F, 0x02, 0x00], OpsNo::Page),
    (18, [0x01, 0x02, 0x23, 0x00], OpsNo::Count),
    (25, [0x00, 0x22, 0x7F, 0xFF], OpsNo::Twice),
    (29, [0x01, 0x00, 0x00, 0x00], OpsNo::Fill),
    (160, [0x00, 0x00, 0x00, 0x80], OpsNo::Fill),
];

#[test]
fn each_refusal_of_a_page_comes_by_its_rule_and_the_first_one_first(rt: HostRuntime) {
    expect_refusals(&rt, &data_of(&PAGE_BEGINS), &PAGE_ROWS);
}

const FAR: [u8; 11] = [
    0x01, 0xD8, 0xC2, 0x9F, 0x6F, 0xC7, 0x5E, 0x5F, 0x71, 0x9D, 0xC1,
];

/// The third byte of a header, the last bytes of a payload of zeros, and why the packet is refused.
static WORDS: [(u8, [u8; 11], OpsNo); 3] = [
    (0xFA, [0; 11], OpsNo::Kind),
    (0xFA, FAR, OpsNo::Uncorrectable),
    (0xFB, FAR, OpsNo::NotOps),
];

/// An operations packet but for that byte, with zeros up to these bytes.
fn word(byte: u8, last: &[u8; 11]) -> Packet {
    let mut packet = Packet([0; PACKET]);
    packet.0[..4].copy_from_slice(&[0x47, 0x1F, byte, 0x10]);
    packet.0[177..].copy_from_slice(last);
    packet
}

#[test]
fn a_word_of_zeros_and_one_far_from_every_codeword_are_refused(rt: HostRuntime) {
    for i in 0..WORDS.len() {
        let (byte, last, refusal) = WORDS[i];
        expect(&rt, is_refused(&word(byte, &last), refusal), i);
    }
}
