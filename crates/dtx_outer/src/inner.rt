//! Decodes the outer coding: gathers, corrects and unwhitens.

ghost use Rattle.std.specs.Prelude.{◌≡◌, ℕ, ◌+◌, ◌-◌, ◌*◌, ◌/◌, ◌%◌, ◌<◌, ◌≤◌, ◌==◌, if◌then◌else◌, ◌++◌, List, []};
ghost use Rattle.std.specs.Prelude.{MatchResult, length, slice_index_or, take, drop};
ghost use Rattle.std.proofs.Common.{suc};
ghost use Rattle.dtx_galois.specs.Field.{AreBytes};
ghost use Rattle.dtx_laws.specs.Branches.{Branching, IsInterleaver, HasWidths, gathering, leaving_all, after_all};
ghost use Rattle.dtx_laws.specs.Codeword.{IsCode};
ghost use Rattle.dtx_laws.specs.Words.{IsCorrected, IsLeft};
ghost use Rattle.dtx_outer.specs.Outer.{IsPeriod};
ghost use Rattle.dtx_outer.specs.Inner.{Kept, StandsFor, Gives, IsTaken, IsNext, waiting, completing, block_behind};

use crate::whitening::whiten_to;
use dtx_laws::{Correct, Gather, TooMany, Whitener};
use std::marker::Model;

/// What a block of a run gave.
#[derive(Clone, Copy, Debug, PartialEq, Eq)]
pub enum Taken {
    /// No packet: the gatherer isn't full yet.
    None,
    /// A packet's data. Its word had a correction.
    Good {
        /// How many bytes of the word differ from the correction.
        fixed: u8,
    },
    /// A packet's data as they were gathered. Its word had no correction.
    Bad,
}

/// Decodes the outer coding of packets with `K` bytes of data, run by run (ATSC A/53 Part 2, data randomizer,
/// Reed-Solomon encoder and interleaving). A run is given in blocks of `N` bytes. Its first byte entered branch 0 of
/// the interleaver, and begins a packet whose place in the whitener's period is 0. `StandsFor inner y` says that the
/// run has given the bytes `y` so far.
#[derive(Drop)]
pub struct Inner<
    W: Whitener,
    C: Correct<N, K>,
    G: Gather<B, M>,
    const N: usize,
    const K: usize,
    const B: usize,
    const M: usize,
> {
    whitener: W,
    code: C,
    gather: G,
    before: [u8; N],
    waits: usize,
    place: usize,
}

impl<
    W: Whitener,
    C: Correct<N, K>,
    G: Gather<B, M>,
    const N: usize,
    const K: usize,
    const B: usize,
    const M: usize,
> Model for Inner<W, C, G, N, K, B, M> {
    ghost use Rattle.std.specs.Prelude.{◌/◌, ◌<◌};
    ghost use Rattle.dtx_outer.specs.Outer.{IsPeriod};
    ghost use Rattle.dtx_outer.specs.Inner.{Kept};

    ghost Value = { Kept };

    ghost view = { λ inner. record {
      white = W.bytes inner.whitener;
      branches = G.seen inner.gather;
      before = inner.before;
      waits = inner.waits;
      place = inner.place;
    } };

    ghost invariant = { λ inner. IsPeriod N K B W.PERIOD × (inner.place < W.PERIOD / K) };
}

impl<
    W: Whitener,
    C: Correct<N, K>,
    G: Gather<B, M>,
    const N: usize,
    const K: usize,
    const B: usize,
    const M: usize,
> Inner<W, C, G, N, K, B, M> {
    /// A decoder with these three parts, at the start of a run. The whitener's period is a whole number of packets.
    /// Their codewords are a whole number of turns over the branches.
    pub fn new(whitener: W, code: C, gather: G) -> Self
        requires { IsPeriod N K B W.PERIOD }
        ensures white { result.white ≡ W.bytes whitener }
        ensures stands { StandsFor N K B M result [] }
    {
        code.known();
        let mut inner = Inner {
            whitener,
            code,
            gather,
            before: [0; N],
            waits: 0,
            place: 0,
        };
        inner.start();
        inner
    }

    /// Starts a run: its bytes come next.
    pub fn start(&mut self)
        ensures white { self.new.white ≡ self.old.white }
        ensures stands { StandsFor N K B M self.new [] }
    {
        self.known();
        self.gather.align();
        self.waits = waited::<N, B, M>();
        self.place = 0;
    }

    /// What holds of every decoder. The numbers are those of a code, of an interleaver and of a whole period. Each
    /// branch holds as many bytes as it delays by. The whitener has a byte for each place of its period.
    pub fn known(&self)
        ensures period { IsPeriod N K B W.PERIOD }
        ensures code { IsCode N K }
        ensures numbers { IsInterleaver B M }
        ensures widths { HasWidths B (gathering B M) self.now.branches }
        ensures long { length self.now.white ≡ W.PERIOD }
        ensures are_bytes { AreBytes self.now.white }
    {
        self.code.known();
        self.gather.known();
    }

    /// Takes the next block of a run. The first `waiting N B M` blocks give no packet, and `out` stays. Of the later
    /// blocks, counted from 0, block `k` gives packet `k` of the run. `out` is then the first `K` bytes of the word's
    /// correction, unwhitened as packet `k` of a stream. Where the word has no correction, they are those of the word
    /// as it was gathered.
    ///
    /// No call takes memory, and a run may have any number of blocks.
    pub fn take(&mut self, bytes: &[u8; N], out: &mut [u8; K]) -> Taken
        ensures taken { (y : List ℕ) → StandsFor N K B M self.old y
            → IsTaken N K B M self.old.white y bytes.now out.old out.new result }
        ensures stands { (y : List ℕ) → StandsFor N K B M self.old y → StandsFor N K B M self.new (y ++ bytes.now) }
        ensures white { self.new.white ≡ self.old.white }
    {
        self.known();
        let mut word = [0; N];
        self.next_word(bytes, &mut word);
        let corrected = self.code.correct(&mut word);
        self.give_next(corrected, &word, out)
    }

    /// Takes the next blocks of a run, four for each element of `outs`, each as `take` does. They go through the
    /// gatherer in one call, and the bytes that leave it replace them.
    pub fn take_fours(
        &mut self,
        bytes: &mut [u8],
        outs: &mut [[[u8; K]; 4]],
        taken: &mut [[Taken; 4]],
    )
        requires bytes { length bytes.old ≡ N * 4 * length outs.old }
        requires taken { length taken.old ≡ length outs.old }
        ensures taken { (y : List ℕ) (q p : ℕ) → StandsFor N K B M self.old y → q < length outs.old → p < 4
            → IsTaken N K B M self.old.white (y ++ take (N * (4 * q + p)) bytes.old)
            (take N (drop (N * (4 * q + p)) bytes.old)) (slice_index_or (slice_index_or outs.old q []) p [])
            (slice_index_or (slice_index_or outs.new q []) p [])
            (slice_index_or (slice_index_or taken.new q []) p Taken.None) }
        ensures stands { (y : List ℕ) → StandsFor N K B M self.old y → StandsFor N K B M self.new (y ++ bytes.old) }
        ensures bytes { bytes.new ≡ leaving_all B self.old.branches bytes.old }
        ensures white { self.new.white ≡ self.old.white }
    {
        self.known();
        self.gather.gather(bytes);
        for q in 0..outs.len() {
            let from = N * 4 * q;
            taken[q] = self.take_gathered(&bytes[from..from + N * 4], &mut outs[q]);
        }
    }

    /// Takes four blocks of a run that have gone through the gatherer already. Later blocks may have, too. Let `v` be
    /// the gatherer's branches before it was given these blocks, which are the bytes `ys`. Then each block gives what
    /// `take` would have given for it.
    fn take_gathered(&mut self, gathered: &[u8], outs: &mut [[u8; K]; 4]) -> [Taken; 4]
        requires { length gathered.now ≡ N * 4 }
        ensures taken { (v : Branching) (ys y : List ℕ) (p : ℕ) → gathered.now ≡ leaving_all B v ys
            → StandsFor N K B M (record self.old { branches = v }) y → p < 4
            → IsTaken N K B M self.old.white (y ++ take (N * p) ys) (take N (drop (N * p) ys))
            (slice_index_or outs.old p []) (slice_index_or outs.new p []) (slice_index_or result p Taken.None) }
        ensures stands { (v : Branching) (ys y : List ℕ) → gathered.now ≡ leaving_all B v ys
            → StandsFor N K B M (record self.old { branches = v }) y
            → StandsFor N K B M (record self.new { branches = after_all B v ys }) (y ++ ys) }
        ensures branches { self.new.branches ≡ self.old.branches }
        ensures white { self.new.white ≡ self.old.white }
    {
        self.known();
        let mut words = [[0; N]; 4];
        self.next_words(gathered, &mut words);
        let corrected = self.code.correct_four(&mut words);
        let mut taken = [Taken::None; 4];
        for p in 0..4 {
            taken[p] = self.give_next(corrected[p], &words[p], &mut outs[p]);
        }
        taken
    }

    /// What a gathered word gives, once the corrector has made `word` of it.
    fn give_next(
        &mut self,
        corrected: Result<u8, TooMany>,
        word: &[u8; N],
        out: &mut [u8; K],
    ) -> Taken
        requires { IsCode N K }
        ensures waiting { 0 < self.old.waits → (result ≡ Taken.None) × (out.new ≡ out.old) }
        ensures given { self.old.waits ≡ 0 → (gathered : List ℕ)
            → MatchResult corrected (IsCorrected N K gathered word.now) (λ _e. IsLeft N K gathered word.now)
            → Gives N K self.old.white (K * self.old.place) gathered out.new result }
        ensures kept { IsNext K self.old self.new }
    {
        if self.waits > 0 {
            self.waits -= 1;
            return Taken::None;
        }
        let place = self.place;
        self.place = following::<W, K>(place);
        give(corrected, &self.whitener, place, word, out)
    }

    /// Gathers a block. The word is the end of the gathered block before and the beginning of this one. Its first byte
    /// leaves the gatherer `B * M * (B - 1)` bytes after a block of the run began.
    fn next_word(&mut self, bytes: &[u8; N], word: &mut [u8; N])
        requires code { IsCode N K }
        requires numbers { IsInterleaver B M }
        ensures word { word.new ≡ drop (completing N B M) self.old.before
            ++ take (completing N B M) (leaving_all B self.old.branches bytes.now) }
        ensures kept { self.new ≡ record self.old {
          branches = after_all B self.old.branches bytes.now;
          before = leaving_all B self.old.branches bytes.now;
        } }
    {
        let mut now = *bytes;
        self.gather.gather(&mut now);
        window(&self.before, &now, completed::<N, B, M>(), word);
        self.before = now;
    }

    /// The words of four gathered blocks, each made as `next_word` makes it.
    fn next_words(&mut self, gathered: &[u8], words: &mut [[u8; N]; 4])
        requires code { IsCode N K }
        requires numbers { IsInterleaver B M }
        requires four { length gathered.now ≡ N * 4 }
        ensures words { (p : ℕ) → p < 4 → slice_index_or words.new p []
            ≡ drop (completing N B M) (block_behind N self.old.before gathered.now p)
            ++ take (completing N B M) (block_behind N self.old.before gathered.now (suc p)) }
        ensures kept { self.new ≡ record self.old { before = block_behind N self.old.before gathered.now 4 } }
    {
        windows(&self.before, gathered, completed::<N, B, M>(), words);
        self.before.copy_from_slice(block::<N>(gathered, 3));
    }
}

/// The data of a word, unwhitened as packet `place` of the whitener's period.
fn give<W: Whitener, const N: usize, const K: usize>(
    corrected: Result<u8, TooMany>,
    whitener: &W,
    place: usize,
    word: &[u8; N],
    out: &mut [u8; K],
) -> Taken
    requires code { IsCode N K }
    requires within { K * place + K ≤ W.PERIOD }
    ensures { (gathered : List ℕ)
        → MatchResult corrected (IsCorrected N K gathered word.now) (λ _e. IsLeft N K gathered word.now)
        → Gives N K (W.bytes whitener.now) (K * place) gathered out.new result }
{
    whiten_to::<W, K>(whitener, K * place, &word[..K], &mut out[..]);
    match corrected {
        Ok(fixed) => Taken::Good { fixed },
        Err(TooMany) => Taken::Bad,
    }
}

/// How many blocks of a run give no packet.
fn waited<const N: usize, const B: usize, const M: usize>() -> usize
    requires some { 1 ≤ N }
    requires few { N ≤ 255 }
    requires numbers { IsInterleaver B M }
    ensures { result ≡ waiting N B M }
{
    (B * M * (B - 1) + N - 1) / N
}

/// How many bytes of a block complete the word that began in the block before.
fn completed<const N: usize, const B: usize, const M: usize>() -> usize
    requires some { 1 ≤ N }
    requires few { N ≤ 255 }
    requires numbers { IsInterleaver B M }
    ensures at { result ≡ completing N B M }
    ensures within { result ≤ N }
{
    B * M * (B - 1) - N * (waited::<N, B, M>() - 1)
}

/// Sets `word` to the end of one block, from byte `skip` on, and the first `skip` bytes of the next.
fn window(before: &[u8], now: &[u8], skip: usize, word: &mut [u8])
    requires before { length before.now ≡ length word.old }
    requires now { length now.now ≡ length word.old }
    requires skip { skip ≤ length word.old }
    ensures { word.new ≡ drop skip before.now ++ take skip now.now }
{
    let rest = before.len() - skip;
    word[..rest].copy_from_slice(&before[skip..]);
    word[rest..].copy_from_slice(&now[..skip]);
}

/// The four windows of a block and the four blocks after it.
fn windows<const N: usize>(before: &[u8; N], now: &[u8], skip: usize, words: &mut [[u8; N]; 4])
    requires few { N ≤ 255 }
    requires four { length now.now ≡ N * 4 }
    requires skip { skip ≤ N }
    ensures { (p : ℕ) → p < 4 → slice_index_or words.new p []
        ≡ drop skip (block_behind N before.now now.now p) ++ take skip (block_behind N before.now now.now (suc p)) }
{
    window(before, block::<N>(now, 0), skip, &mut words[0]);
    window(block::<N>(now, 0), block::<N>(now, 1), skip, &mut words[1]);
    window(block::<N>(now, 1), block::<N>(now, 2), skip, &mut words[2]);
    window(block::<N>(now, 2), block::<N>(now, 3), skip, &mut words[3]);
}

/// One of four blocks.
fn block<const N: usize>(bytes: &[u8], p: usize) -> &[u8]
    requires few { N ≤ 255 }
    requires four { length bytes.now ≡ N * 4 }
    requires one { p < 4 }
    ensures block { result.now ≡ take N (drop (N * p) bytes.now) }
    ensures long { length result.now ≡ N }
{
    &bytes[N * p..N * p + N]
}

/// The packet of the whitener's period after this one.
fn following<W: Whitener, const K: usize>(place: usize) -> usize
    requires some { 1 ≤ K }
    requires within { place < W.PERIOD / K }
    ensures next { result ≡ (if place + 1 == W.PERIOD / K then 0 else place + 1) }
    ensures within { result < W.PERIOD / K }
{
    if place + 1 == W::PERIOD / K {
        return 0;
    }
    place + 1
}
