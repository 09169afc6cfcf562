//! Signs of symbols, packed into words.

ghost use Rattle.std.specs.Prelude.{◌≡◌, ℕ, ℤ, ◌+◌, ◌*◌, ◌/◌, ◌%◌, ◌^◌, ◌<◌, ◌≤◌, if◌then◌else◌, List};
ghost use Rattle.std.specs.Prelude.{length, take, drop};
ghost use Rattle.dtx_acquire.specs.Agreement.{is_plus, is_second, unlike, ArePacked, packed};

use dtx_sizes::SEGMENT;

/// How many signs a word has.
pub const WORD: usize = 64;

/// How many words hold the signs with which 64 places are compared with a field sync: those of 515 symbols from each
/// place.
pub const WORDS: usize = 10;

/// How many symbols have their signs in these words.
pub const WINDOW: usize = WORD * WORDS;

/// How many whole words the signs of the first 515 symbols of a field sync fill.
const WHOLE: usize = 8;

/// The signs of the first symbols of a field sync. The first one is bit 0 of the first word. A bit is 1 for plus.
static SIGNS: [u64; 9] = [
    0x8791_1667_553f_e809,
    0x284f_1a25_cdca_cbeb,
    0x2a0f_c208_c328_af3e,
    0x252d_eec6_6957_7f30,
    0x75b3_da8d_f2c2_e8e7,
    0x21ac_5e9c_7493_b69b,
    0x6bf7_8310_a63d_48fb,
    0x8090_360b_43b8_9935,
    0x0000_0000_0000_0003,
];

/// The signs of the middle one of the three short sequences, of 63 symbols, in a first field.
const MIDDLE: u64 = 0x0bca_3083_f566_ed27;

/// 2 to the 63: one more than the greatest number of 63 signs.
const MIDDLE_WORDS: u64 = 1 << 63;

/// The place in a field sync at which the middle short sequence begins.
const MIDDLE_PLACE: usize = 578;

/// 2 to the 64: one more than the greatest number of 64 signs.
const TURN: u128 = 1 << 64;

/// The signs of 64 symbols from a place on, the first as bit 0.
#[inline(always)]
fn pack(symbols: &[i8], place: usize) -> u64
    requires { place + WORD ≤ length symbols.now }
    ensures { result ≡ packed (take 64 (drop place symbols.now)) }
{
    let mut word = 0;
    for j in (0..WORD).rev() {
        let at = place + j;
        word = 2 * word + plus(symbols[at]);
    }
    word
}

/// 1 if the sign is plus, and otherwise 0.
#[inline(always)]
fn plus(symbol: i8) -> u64
    ensures plus { result ≡ (if is_plus symbol then 1 else 0) }
    ensures small { result ≤ 1 }
{
    (symbol > 0) as u64
}

/// The signs of the symbols from a place on.
pub fn window_at(symbols: &[i8], place: usize) -> [u64; WORDS]
    requires { place + WINDOW ≤ length symbols.now }
    ensures { ArePacked result symbols.now place }
{
    let mut words = [0; WORDS];
    for k in 0..WORDS {
        words[k] = pack(symbols, place + WORD * k);
    }
    words
}

/// 64 bits of two words, from bit `from` of the first on.
#[inline(always)]
fn shifted(first: u64, second: u64, from: usize) -> u64
    requires { from < WORD }
    ensures { result ≡ (second * 2 ^ 64 + first) / 2 ^ from % 2 ^ 64 }
{
    (((second as u128 * TURN + first as u128) >> from) % TURN) as u64
}

/// How many of 515 symbols have another sign than the first ones of a field sync. The words hold the signs of the
/// symbols from a place on, and the 515 symbols begin `from` symbols after it.
#[inline(always)]
pub fn unlike_in(words: &[u64; WORDS], from: usize) -> u32
    requires { from < WORD }
    ensures { (symbols : List ℤ) (place : ℕ) → place + WINDOW ≤ length symbols → ArePacked words.now symbols place
        → result ≡ unlike symbols (place + from) 0 515 }
{
    let mut count = 0;
    for k in 0..WHOLE {
        count += (shifted(words[k], words[k + 1], from) ^ SIGNS[k]).count_ones();
    }
    let last = shifted(words[WHOLE], words[WHOLE + 1], from) % 8;
    count + (last ^ SIGNS[WHOLE]).count_ones()
}

/// Whether a sync is that of a second field: at least 32 of the 63 symbols of its middle short sequence have another
/// sign than in a first field.
pub fn is_second(segment: &[i8; SEGMENT]) -> bool
    ensures { result ≡ is_second segment.now }
{
    let word = pack(&segment[..], MIDDLE_PLACE) % MIDDLE_WORDS;
    (word ^ MIDDLE).count_ones() >= 32
}
