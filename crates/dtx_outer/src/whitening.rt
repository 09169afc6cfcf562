//! Whitening of a packet's data. To whiten them again gives them back.

ghost use Rattle.std.specs.Prelude.{◌≡◌, ℕ, ◌+◌, ◌<◌, ◌≤◌, length, slice_index};
ghost use Rattle.std.specs.Int.RustNames.{bit_xor};
ghost use Rattle.dtx_laws.specs.Whitening.{whitened};

use dtx_laws::Whitener;

/// Adds the whitener's bytes from `from` on to the data by exclusive or. The sum is written to a local, and the loop
/// tests nothing, so that the compiler adds many bytes at once.
pub fn whiten<W: Whitener, const K: usize>(whitener: &W, from: usize, head: &[u8]) -> [u8; K]
    requires long { length head.now ≡ K }
    requires within { from + K ≤ W.PERIOD }
    ensures { result ≡ whitened (W.bytes whitener.now) from head.now }
{
    let mut white = [0; K];
    for i in 0..K {
        white[i] = head[i] ^ whitener.byte(from + i);
    }
    white
}

/// How many bytes are written to a place at once.
const PIECE: usize = 16;

/// The same, written to `out` in pieces of sixteen bytes. Each piece is made in a local first, since the compiler can't
/// know that `out` doesn't overlap the data. The last piece ends with the data, so some bytes may be written twice.
pub(crate) fn whiten_to<W: Whitener, const K: usize>(
    whitener: &W,
    from: usize,
    head: &[u8],
    out: &mut [u8],
)
    requires long { length head.now ≡ K }
    requires room { length out.old ≡ K }
    requires within { from + K ≤ W.PERIOD }
    ensures { out.new ≡ whitened (W.bytes whitener.now) from head.now }
{
    if K < PIECE {
        out.copy_from_slice(&whiten::<W, K>(whitener, from, head));
        return;
    }
    for c in 0..K / PIECE {
        whiten_piece(whitener, from, head, PIECE * c, out);
    }
    whiten_piece(whitener, from, head, K - PIECE, out);
}

/// The piece at a place of the data.
fn whiten_piece<W: Whitener>(whitener: &W, from: usize, head: &[u8], at: usize, out: &mut [u8])
    requires long { length out.old ≡ length head.now }
    requires within { from + length head.now ≤ W.PERIOD }
    requires at { at + PIECE ≤ length head.now }
    ensures piece { (j : ℕ) → at ≤ j → j < at + PIECE → slice_index out.new j
        ≡ bit_xor (slice_index head.now j) (slice_index (W.bytes whitener.now) (from + j)) }
    ensures before { (j : ℕ) → j < at → slice_index out.new j ≡ slice_index out.old j }
    ensures same { length out.new ≡ length out.old }
{
    let piece: [u8; PIECE] = whiten(whitener, from + at, &head[at..at + PIECE]);
    out[at..at + PIECE].copy_from_slice(&piece);
}
