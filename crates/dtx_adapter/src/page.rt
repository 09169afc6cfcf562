// Pages of a plan's transmitters (the profile's own).
ghost use Rattle.std.specs.Prelude.{◌≡◌, ◌+◌, ◌*◌, ◌≤◌, length, slice_range};
ghost use Rattle.dtx_adapter.specs.Feed.{paging_of, listed};

use arrayvec::ArrayVec;
use dtx_ops::{Entry, Paging};
use dtx_sizes::{MOST_ENTRIES, MOST_TRANSMITTERS, PAGE_ENTRIES};

/// The first page, where `entries` are all transmitters.
#[tactic(auto, unfolding(crate::specs::Feed::paging_of, crate::specs::Feed::pages_for))]
pub(crate) fn first_page(entries: &[Entry]) -> Paging
    requires { length entries.now ≤ MOST_TRANSMITTERS }
    ensures { result ≡ paging_of entries.now 0 }
{
    let count = entries.len();
    if count <= MOST_ENTRIES {
        return Paging::One;
    }
    Paging::Of {
        page: 0,
        pages: ((count + PAGE_ENTRIES - 1) / PAGE_ENTRIES) as u8,
    }
}

/// The transmitters on a page, where `entries` are all transmitters. One operations packet has room for them.
pub(crate) fn entries_on(entries: &[Entry], paging: Paging) -> ArrayVec<Entry, MOST_ENTRIES>
    requires { length (listed entries.now paging) ≤ MOST_ENTRIES }
    ensures { result.items ≡ listed entries.now paging }
{
    match paging {
        Paging::One => few(entries),
        Paging::Of { page, .. } => part(entries, page),
    }
}

/// The transmitters on page number `page`, where `entries` are all transmitters.
pub(crate) fn part(entries: &[Entry], page: u8) -> ArrayVec<Entry, MOST_ENTRIES>
    ensures { result.items ≡ slice_range entries.now (PAGE_ENTRIES * page) (PAGE_ENTRIES * page + PAGE_ENTRIES) }
{
    let from = (PAGE_ENTRIES * page as usize).min(entries.len());
    let to = (from + PAGE_ENTRIES).min(entries.len());
    few(&entries[from..to])
}

/// A copy of these transmitters, which are at most `MOST_ENTRIES`.
fn few(entries: &[Entry]) -> ArrayVec<Entry, MOST_ENTRIES>
    requires { length entries.now ≤ MOST_ENTRIES }
    ensures { result.items ≡ entries.now }
{
    let mut kept = ArrayVec::new();
    for entry in entries {
        kept.push(*entry);
    }
    kept
}
