// The pages of a network's transmitters, as far as one exciter has received them in orders.
ghost use Rattle.std.specs.Prelude.{◌≡◌, false, None, IfSome, option_map, take, replicate};
ghost use Rattle.std.specs.List.{list_all};
ghost use Rattle.dtx_ops.specs.Spelling.{IsValid};
ghost use Rattle.dtx_exciter.specs.Pages.{entry_of, HoldsMore, begun, with_order, held_after};

use dtx_ops::{Entry, Ops};
use dtx_sizes::MOST_PAGES;

/// The entry in force, and the page that it stands on.
#[derive(Clone, Copy)]
pub(crate) struct PageEntry {
    pub page: u8,
    pub entry: Entry,
}

/// What an exciter keeps of the pages that were told since the number of pages last changed.
#[derive(Clone, Copy)]
pub(crate) struct Pages {
    /// The number of pages, or 0 where there was no order.
    pub count: u8,
    pub told: [bool; MOST_PAGES as usize],
    pub held: Option<PageEntry>,
}

impl Pages {
    /// No page of `count` was told yet.
    pub(crate) fn new(count: u8) -> Pages
        ensures { result ≡ record { count = count; told = replicate 30 false; held = None } }
    {
        Pages {
            count,
            told: [false; MOST_PAGES as usize],
            held: None,
        }
    }

    /// Adds the order of a group, if it has one, for the transmitter `address`.
    pub(crate) fn see(&mut self, address: u16, order: &Option<Ops>)
        requires { IfSome order.now IsValid }
        ensures { HoldsMore address order.now self.old self.new }
    {
        if let Some(ops) = order {
            self.add(address, ops);
        }
    }

    fn add(&mut self, address: u16, ops: &Ops)
        requires { IsValid ops.now }
        ensures { self.new ≡ with_order address ops.now self.old }
    {
        let page = ops.paging.page();
        self.begin(ops.paging.pages());
        self.told[page as usize] = true;
        self.held = held_after(page, entry_of(address, ops), self.held);
    }

    /// Starts over with no page told if the number of pages has changed.
    fn begin(&mut self, count: u8)
        ensures { self.new ≡ begun count self.old }
    {
        if self.count != count {
            *self = Pages::new(count);
        }
    }

    /// Whether each page was told.
    pub(crate) fn all_told(&self) -> bool
        ensures { result ≡ list_all (λ told. told) (take self.now.count self.now.told) }
    {
        for told in &self.told[..self.count.min(MOST_PAGES) as usize] {
            if !told {
                return false;
            }
        }
        true
    }

    /// The entry in force.
    pub(crate) fn entry(&self) -> Option<Entry>
        ensures { result ≡ option_map (λ h. h.entry) self.now.held }
    {
        match self.held {
            Some(held) => Some(held.entry),
            None => None,
        }
    }
}

/// The entry in force after an order of page `page`, whose own entry for the transmitter is `entry`. An older entry
/// stays in force only if its page is another.
fn held_after(page: u8, entry: Option<Entry>, before: Option<PageEntry>) -> Option<PageEntry>
    ensures { result ≡ held_after page entry before }
{
    match entry {
        Some(entry) => Some(PageEntry { page, entry }),
        None => match before {
            Some(held) if page != held.page => Some(held),
            _ => None,
        },
    }
}

/// The first entry of an address in the order, if any.
fn entry_of(address: u16, ops: &Ops) -> Option<Entry>
    ensures { result ≡ entry_of address ops.now }
{
    for entry in ops.offsets.as_slice() {
        if entry.address == address {
            return Some(*entry);
        }
    }
    None
}
