// Which part of the transmitters an operations packet carries (the profile's own).
ghost use Rattle.std.specs.Prelude.{◌≡◌, ◌+◌, ◌*◌, ◌≤◌};
ghost use Rattle.dtx_ops.specs.Paging.{page_of, pages_of, kind_of, count_place, most_of};

use dtx_sizes::{MOST_ENTRIES, PAGE_ENTRIES};

/// The page of transmitters that an operations packet carries.
#[derive(Clone, Copy, Default, PartialEq, Eq)]
pub enum Paging {
    /// The only page, in a packet of kind 1.
    #[default]
    One,
    /// Page number `page`, counted from 0, of `pages` pages, which are at most 30, in a packet of kind 2.
    Of { page: u8, pages: u8 },
}

impl Paging {
    /// The number of the page, counted from 0.
    pub fn page(self) -> u8
        ensures { result ≡ page_of self }
    {
        match self {
            Paging::One => 0,
            Paging::Of { page, .. } => page,
        }
    }

    /// How many pages there are.
    pub fn pages(self) -> u8
        ensures { result ≡ pages_of self }
    {
        match self {
            Paging::One => 1,
            Paging::Of { pages, .. } => pages,
        }
    }

    /// The kind of a packet that carries the page.
    pub(crate) fn kind(self) -> u8
        ensures { result ≡ kind_of self }
    {
        match self {
            Paging::One => 1,
            Paging::Of { .. } => 2,
        }
    }

    /// The index of the data byte that counts the entries. Behind it there is room for the most entries that a page
    /// has.
    pub(crate) fn count_place(self) -> usize
        ensures place { result ≡ count_place self }
        ensures room { result + 4 * most_of self ≤ 163 }
    {
        match self {
            Paging::One => 18,
            Paging::Of { .. } => 20,
        }
    }

    /// How many entries a page has at most.
    pub(crate) fn most_entries(self) -> usize
        ensures most { result ≡ most_of self }
        ensures few { result ≤ MOST_ENTRIES }
    {
        match self {
            Paging::One => MOST_ENTRIES,
            Paging::Of { .. } => PAGE_ENTRIES,
        }
    }
}
