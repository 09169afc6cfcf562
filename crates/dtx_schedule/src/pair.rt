// The two files of one transmitter.
ghost use Rattle.std.specs.Prelude.{◌≡◌, ℕ, List, Some};
ghost use Rattle.std.specs.FinMap as files;
ghost use Rattle.dtx_outside.specs.Counts.{HasGone, blame_of_write};
ghost use Rattle.dtx_outside.specs.Shelf.{Files};
ghost use Rattle.dtx_schedule.specs.Playout.{AreNamesOf, HasPair, IsAddedTo, IsPairOf};

use arrayvec::ArrayString;
use dtx_outside::{Shelf, WriteNo};
use dtx_words::{NETWORK_NAME, log_name, symbol_name};

/// The names of a transmitter's symbol file and log.
#[derive(Default, Drop)]
pub(crate) struct FileNames {
    pub(crate) symbols: ArrayString<NETWORK_NAME>,
    pub(crate) log: ArrayString<NETWORK_NAME>,
}

/// The names of the files of the transmitter at an address.
pub(crate) fn names_of(address: u16) -> FileNames
    ensures { AreNamesOf address result }
{
    FileNames {
        symbols: symbol_name(address),
        log: log_name(address),
    }
}

/// Appends symbols to a transmitter's symbol file, and then a line to its log. Both files must exist. Nothing is
/// appended where there are no symbols or no line.
pub(crate) fn append_both<S: Shelf>(
    shelf: &mut S,
    names: &FileNames,
    symbols: &[u8],
    line: &[u8],
) -> Result<(), WriteNo>
    ensures appended { (address : ℕ) (sent logged : List ℕ) (held : Files) → AreNamesOf address names.now
        → S.files shelf.old ≡ Some held → HasPair address sent logged held
        → IsPairOf address sent logged symbols.now line.now held result (S.files shelf.new) }
    ensures gone { HasGone (S.counts shelf.old) (S.counts shelf.new) (blame_of_write result) }
{
    append_some(shelf, names.symbols.as_str(), symbols)?;
    append_some(shelf, names.log.as_str(), line)
}

/// Appends bytes to a file, which must exist. Where there are no bytes, the file isn't touched.
#[tactic(auto, using(crate::proofs::PairLeft::nothing_appended, crate::proofs::PairLeft::file_appended))]
fn append_some<S: Shelf>(shelf: &mut S, name: &str, bytes: &[u8]) -> Result<(), WriteNo>
    ensures appended { (held : Files) (file : List ℕ) → S.files shelf.old ≡ Some held
        → files.get held name.now ≡ Some file
        → IsAddedTo name.now file bytes.now held result (S.files shelf.new) }
    ensures gone { HasGone (S.counts shelf.old) (S.counts shelf.new) (blame_of_write result) }
{
    if bytes.is_empty() {
        return Ok(());
    }
    shelf.append(name, bytes)
}
