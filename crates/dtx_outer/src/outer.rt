//! The outer coding: whitens, encodes and interleaves.

ghost use Rattle.std.specs.Prelude.{◌≡◌, ℕ, ◌+◌, ◌*◌, ◌<◌, ◌≤◌, [], drop, length, map, slice_index_or, take};
ghost use Rattle.std.specs.List.{concat};
ghost use Rattle.dtx_galois.specs.Field.{AreBytes};
ghost use Rattle.dtx_laws.specs.Branches.{IsInterleaver, HasWidths, spreading, leaving_all, after_all, aligned};
ghost use Rattle.dtx_laws.specs.Codeword.{IsCode};
ghost use Rattle.dtx_laws.specs.Whitening.{whitened};
ghost use Rattle.dtx_outer.specs.Outer.{codewords, Held, IsPeriod, coded};

use crate::whitening::{whiten, whiten_to};
use dtx_laws::{Encode, Spread, Whitener};
use std::marker::Model;

/// The outer coding of packets with `K` bytes of data (ATSC A/53 Part 2, data randomizer, Reed-Solomon encoder and
/// interleaving). Contracts see the value as the whitener's bytes and the interleaver's branches.
#[derive(Drop)]
pub struct Outer<
    W: Whitener,
    C: Encode<N, K>,
    S: Spread<B, M>,
    const N: usize,
    const K: usize,
    const B: usize,
    const M: usize,
> {
    whitener: W,
    code: C,
    spread: S,
}

impl<
    W: Whitener,
    C: Encode<N, K>,
    S: Spread<B, M>,
    const N: usize,
    const K: usize,
    const B: usize,
    const M: usize,
> Model for Outer<W, C, S, N, K, B, M> {
    ghost Value = { Held };

    ghost view = { λ outer. record { white = W.bytes outer.whitener; branches = S.seen outer.spread } };

    ghost invariant = { λ _. IsPeriod N K B W.PERIOD };
}

impl<
    W: Whitener,
    C: Encode<N, K>,
    S: Spread<B, M>,
    const N: usize,
    const K: usize,
    const B: usize,
    const M: usize,
> Outer<W, C, S, N, K, B, M> {
    /// The outer coding with these three parts. The whitener's period is a whole number of packets. Their codewords are
    /// a whole number of turns over the branches.
    pub fn new(whitener: W, code: C, spread: S) -> Self
        requires { IsPeriod N K B W.PERIOD }
        ensures { result ≡ record { white = W.bytes whitener; branches = S.seen spread } }
    {
        Outer {
            whitener,
            code,
            spread,
        }
    }

    /// What holds of every value. The numbers are those of a code, of an interleaver and of a whole period. Each branch
    /// holds as many bytes as it delays by. The whitener has a byte for each place of its period.
    pub fn known(&self)
        ensures period { IsPeriod N K B W.PERIOD }
        ensures code { IsCode N K }
        ensures numbers { IsInterleaver B M }
        ensures widths { HasWidths B (spreading M) self.now.branches }
        ensures long { length self.now.white ≡ W.PERIOD }
        ensures are_bytes { AreBytes self.now.white }
    {
        self.code.known();
        self.spread.known();
    }

    /// Codes the data `head` of a packet. It whitens them as packet `place` of the whitener's period, encodes them, and
    /// sets `out` to the bytes that leave the interleaver as the codeword enters it. The parity bytes aren't whitened.
    pub fn code(&mut self, place: usize, head: &[u8; K], out: &mut [u8; N])
        requires { K * place + K ≤ W.PERIOD }
        ensures bytes { out.new ≡ leaving_all B self.old.branches (coded N K self.old.white (K * place) head.now) }
        ensures branches { self.new ≡ record self.old {
          branches = after_all B self.old.branches
              (coded N K self.old.white (K * place) head.now);
        } }
    {
        let white = whiten(&self.whitener, K * place, &head[..]);
        self.code.encode(&white, out);
        self.spread.pass(out);
    }

    /// Sets `words` to the codewords of four packets' data, one after another. The data have `K` bytes each, and are
    /// whitened as packets `place` to `place` + 3 of the whitener's period. The codewords have `N` bytes each. They are
    /// made in place, whatever `words` holds before, so that none is copied. `interleave` of all four gives what four
    /// calls of `code` give.
    pub fn encode_four(&self, place: usize, heads: &[&[u8]; 4], words: &mut [u8])
        requires long { (p : ℕ) → p < 4 → length (slice_index_or (map (λ head. head.now) heads.now) p []) ≡ K }
        requires room { length words.old ≡ N * 4 }
        requires within { K * (place + 4) ≤ W.PERIOD }
        ensures { words.new ≡ concat (codewords N K self.now.white place (map (λ head. head.now) heads.now)) }
    {
        self.known();
        self.begin_four(place, heads, words);
        self.code.complete_four(words);
    }

    /// Replaces bytes by those that leave the interleaver as they enter it. There may be any number of bytes. It makes
    /// no difference how many calls they are given in.
    pub fn interleave(&mut self, bytes: &mut [u8])
        ensures bytes { bytes.new ≡ leaving_all B self.old.branches bytes.old }
        ensures branches { self.new ≡ record self.old { branches = after_all B self.old.branches bytes.old } }
    {
        self.spread.pass(bytes);
    }

    /// Writes the data where their words begin, whitened as packets `place` to `place` + 3 of the whitener's period.
    #[inline(always)]
    fn begin_four(&self, place: usize, heads: &[&[u8]; 4], words: &mut [u8])
        requires code { IsCode N K }
        requires long { (p : ℕ) → p < 4 → length (slice_index_or (map (λ head. head.now) heads.now) p []) ≡ K }
        requires room { length words.old ≡ N * 4 }
        requires within { K * (place + 4) ≤ W.PERIOD }
        ensures { (p : ℕ) → p < 4 → take K (drop (N * p) words.new)
            ≡ whitened self.now.white (K * (place + p)) (slice_index_or (map (λ head. head.now) heads.now) p []) }
    {
        for p in 0..4 {
            let at = N * p;
            let from = K * (place + p);
            whiten_to::<W, K>(&self.whitener, from, heads[p], &mut words[at..at + K]);
        }
    }

    /// Makes the next byte go to branch 0. The branches keep what they hold.
    pub fn align(&mut self)
        ensures { self.new ≡ record self.old { branches = aligned self.old.branches } }
    {
        self.spread.align();
    }
}
