//! The tables that correct up to ten wrong bytes.

ghost use Rattle.std.specs.Prelude.{◌≡◌, ℕ, ◌+◌, ◌-◌, ◌<◌, ◌≤◌, length, slice_index};
ghost use Rattle.std.specs.Int.RustNames.{bit_xor};
ghost use Rattle.dtx_galois.specs.Field.{pow, sums};
ghost use Rattle.dtx_laws.specs.Codeword.{AreSyndromes};
ghost use Rattle.dtx_fast.specs.Recurrence.{walked};
ghost use Rattle.dtx_laws.specs.declared.encoder.TheConstants.{PARITY};

use crate::places::{MOST_ORDER, Places};
use crate::recurrence::Recurrence;
use crate::repair::walk;
use crate::rows::{HALVES, Rows};
use dtx_galois::ALPHA;
use dtx_laws::PARITY;
use dtx_laws::correcting::{ROOM, syndromes_of};

/// The number of rows of syndromes: for as many parity bytes as `Encode::parities` gives.
const SYNDROME_ROWS: usize = HALVES * PARITY;

/// The rows that turn parity bytes into syndromes, and those that walk a recurrence over all places: 24 kB.
#[derive(Drop)]
pub struct Tables {
    syndromes: Rows<PARITY, SYNDROME_ROWS>,
    places: Places,
    ghost powers: { syndromes.base.0 ≡ 2 },
}

impl Tables {
    /// The tables, which are the same for each code.
    pub fn new() -> Self {
        Tables {
            syndromes: Rows::new(ALPHA),
            places: Places::new(),
        }
    }

    /// The syndromes that `dtx_laws::correcting::syndromes_of` gives, by the table where it has enough rows.
    pub fn syndromes(&self, parity: &[u8], right: &[u8]) -> [u8; ROOM]
        requires same { length parity.now ≡ length right.now }
        requires few { length parity.now ≤ 255 }
        ensures long { length result ≡ ROOM }
        ensures values { AreSyndromes (length parity.now) (sums parity.now right.now) result }
    {
        if parity.len() <= PARITY {
            let differences = differences(parity, right);
            widened(&self.syndromes.walk(&differences[..parity.len()]))
        } else {
            syndromes_of(parity, right)
        }
    }

    /// The values that `repair::walk` gives, by the table where it has enough rows.
    pub fn walk(&self, found: &Recurrence, len: usize) -> [u8; ROOM]
        requires { len ≤ 255 }
        ensures long { length result ≡ ROOM }
        ensures values { (q : ℕ) → q < len → slice_index result q
            ≡ walked (found.now.order + 1) (slice_index found.now.coefficients) (pow (pow 2 254) q) }
    {
        if found.order <= MOST_ORDER {
            self.places.walk(found)
        } else {
            walk(found, len)
        }
    }
}

/// The sums of the two lists' bytes, from the last byte on.
fn differences(parity: &[u8], right: &[u8]) -> [u8; PARITY]
    requires same { length parity.now ≡ length right.now }
    requires few { length parity.now ≤ PARITY }
    ensures long { length result ≡ PARITY }
    ensures sums { (k : ℕ) → k < length parity.now → slice_index result k
        ≡ bit_xor (slice_index parity.now (length parity.now - 1 - k))
        (slice_index right.now (length parity.now - 1 - k)) }
{
    let mut differences = [0; PARITY];
    for k in 0..parity.len() {
        let place = parity.len() - 1 - k;
        differences[k] = parity[place] ^ right[place];
    }
    differences
}

/// The syndromes of a row, with zeros behind them.
fn widened(row: &[u8; PARITY]) -> [u8; ROOM]
    ensures long { length result ≡ ROOM }
    ensures same { (i : ℕ) → i < PARITY → slice_index result i ≡ slice_index row.now i }
{
    let mut syndromes = [0; ROOM];
    for i in 0..PARITY {
        syndromes[i] = row[i];
    }
    syndromes
}
