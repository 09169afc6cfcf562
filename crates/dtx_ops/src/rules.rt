// The rules on the data of an operations packet, in their order.
ghost use Rattle.std.specs.Prelude.{◌≡◌, ◌==◌, ◌&&◌, None, length, not};
ghost use Rattle.std.specs.List.{list_all};
ghost use Rattle.dtx_ops.specs.Paging.{IsPaged};
ghost use Rattle.dtx_ops.specs.Reading as spec;

use crate::fields::Entry;
use crate::numbers::{index_at, ticks_at};
use crate::paging::Paging;
use crate::refusal::OpsNo;
use dtx_sizes::{FRAME_PACKETS, MOST_PAGES, SECOND_TICKS};

/// The first rule that holds, of those on the data before the page.
#[tactic(auto, unfolding(crate::specs::Reading::head_rules, crate::specs::Fields::stamp_in, crate::specs::Fields::max_delay_in, crate::specs::Fields::index_in))]
pub(crate) fn head_refusal(bytes: &[u8]) -> Option<OpsNo>
    requires { length bytes.now ≡ 164 }
    ensures { result ≡ spec.first (spec.head_rules bytes.now) }
{
    if is_unknown(bytes[0]) {
        Some(OpsNo::Kind)
    } else if bytes[5] % 16 != 0 {
        Some(OpsNo::Pad)
    } else if ticks_at(bytes, 6) >= SECOND_TICKS {
        Some(OpsNo::Stamp)
    } else if ticks_at(bytes, 9) >= SECOND_TICKS {
        Some(OpsNo::Delay)
    } else if index_at(bytes, 16) >= FRAME_PACKETS {
        Some(OpsNo::Index)
    } else {
        None
    }
}

/// Whether the kind is neither 1 nor 2.
fn is_unknown(kind: u8) -> bool
    ensures { result ≡ (not (kind == 1) && not (kind == 2)) }
{
    kind != 1 && kind != 2
}

/// The first rule that holds, of those on the page and its count of entries.
pub(crate) fn page_refusal(paging: Paging, count: u8) -> Option<OpsNo>
    ensures first { result ≡ spec.first (spec.page_rules paging count) }
    ensures paged { result ≡ None → IsPaged paging count }
{
    if paging.pages() > MOST_PAGES || paging.page() >= paging.pages() {
        Some(OpsNo::Page)
    } else if count as usize > paging.most_entries() {
        Some(OpsNo::Count)
    } else {
        None
    }
}

/// The first rule that holds, of those on the entries and the bytes behind them.
pub(crate) fn rest_refusal(entries: &[Entry], rest: &[u8]) -> Option<OpsNo>
    ensures { result ≡ spec.first (spec.rest_rules entries.now rest.now) }
{
    if has_twice(entries) {
        Some(OpsNo::Twice)
    } else if !is_blank(rest) {
        Some(OpsNo::Fill)
    } else {
        None
    }
}

/// Whether two of the entries have the same address.
fn has_twice(entries: &[Entry]) -> bool
    ensures { result ≡ spec.has_twice entries.now }
{
    for i in 0..entries.len() {
        if is_among(entries[i].address, &entries[i + 1..]) {
            return true;
        }
    }
    false
}

/// Whether one of the entries has the address.
fn is_among(address: u16, entries: &[Entry]) -> bool
    ensures { result ≡ spec.is_among address entries.now }
{
    for entry in entries {
        if entry.address == address {
            return true;
        }
    }
    false
}

/// Whether all of the bytes are 0.
fn is_blank(bytes: &[u8]) -> bool
    ensures { result ≡ list_all (λ byte. byte == 0) bytes.now }
{
    for byte in bytes {
        if *byte != 0 {
            return false;
        }
    }
    true
}
