//! The fields that are given, and the counts of everything given.

ghost use Rattle.std.specs.Prelude.{◌≡◌, ℕ, ℤ, ◌+◌, ◌*◌, ◌<◌, ◌≤◌, Bool, List, [], IfOk};
ghost use Rattle.std.specs.Prelude.{drop, length, take, vec_len};
ghost use Rattle.dtx_acquire.specs.Acquired.{begun, path_cost, restored, segments_from};
ghost use Rattle.dtx_soft.specs.declared.nearest.TheConstants.{MOST_SEGMENT_COST};

use crate::deciding::Decisions;
use crate::restoring::restore;
use crate::step::FIELD;
use dtx_sizes::{MOST_SEGMENTS, SEGMENT};
use dtx_soft::{FieldDecoder, MAX_SCALE, MOST_SEGMENT_COST};
use std::alloc::{AllocError, Global};

/// What restores fields, with the segments of the last one. It also counts the runs and segments that were given, and
/// the costs of their least paths.
#[derive(Drop)]
pub(crate) struct Giver {
    decoder: FieldDecoder,
    pub(crate) decisions: Decisions,
    pub(crate) segments: Vec<[i8; SEGMENT]>,
    pub(crate) count: usize,
    pub(crate) runs: u64,
    pub(crate) total: u64,
    pub(crate) cost: u64,
    /// What the least paths of the segments cost that were given last.
    pub(crate) field_cost: u64,
    ghost scale: { decoder ≡ decisions.scale },
    ghost long: { vec_len segments ≡ 313 },
    ghost few: { count ≤ 313 },
    ghost runs_small: { runs ≤ total },
    ghost cost_small: { cost ≤ MOST_SEGMENT_COST * total },
    ghost field_cost_small: { field_cost ≤ MOST_SEGMENT_COST * count },
}

impl Giver {
    /// A new giver, which has given nothing. The only error is out of memory.
    pub(crate) fn new(alloc: Global, scale: u8) -> Result<Giver, AllocError>
        requires from { 0 < scale }
        requires to { scale ≤ MAX_SCALE }
        ensures scale { IfOk result (λ giver. giver.decisions.scale ≡ scale) }
        ensures count { IfOk result (λ giver. giver.count ≡ 0) }
        ensures runs { IfOk result (λ giver. giver.runs ≡ 0) }
        ensures total { IfOk result (λ giver. giver.total ≡ 0) }
        ensures cost { IfOk result (λ giver. giver.cost ≡ 0) }
        ensures field_cost { IfOk result (λ giver. giver.field_cost ≡ 0) }
    {
        Ok(Giver {
            segments: empty_field(alloc)?,
            decisions: Decisions::new(alloc, scale)?,
            decoder: FieldDecoder::scaled(alloc, scale)?,
            count: 0,
            runs: 0,
            total: 0,
            cost: 0,
            field_cost: 0,
        })
    }

    /// Gives the first `count` segments of the symbols that are held: a field, or a prefix of one.
    pub(crate) fn give(&mut self, held: &[i8], count: usize, begins: bool)
        requires few { count ≤ FIELD }
        requires room { SEGMENT * count ≤ length held.now }
        requires most { self.old.total ≤ MOST_SEGMENTS }
        ensures given { take self.new.count self.new.segments.items
            ≡ restored self.old.decisions.scale (segments_from held.now 0 count) }
        ensures count { self.new.count ≡ count }
        ensures long { length (take self.new.count self.new.segments.items) ≡ count }
        ensures total { self.new.total ≡ self.old.total + count }
        ensures runs { self.new.runs
            ≡ self.old.runs + begun (record { begins = begins; segments = segments_from held.now 0 count }) }
        ensures cost { self.new.cost
            ≡ self.old.cost + path_cost self.old.decisions.scale (segments_from held.now 0 count) }
        ensures field_cost { self.new.field_cost
            ≡ path_cost self.old.decisions.scale (segments_from held.now 0 count) }
        ensures scale { self.new.decisions.scale ≡ self.old.decisions.scale }
    {
        let cost = restore_front(
            &mut self.decoder,
            &self.decisions,
            held,
            count,
            &mut self.segments,
        );
        self.count = count;
        self.total += count as u64;
        self.runs += run_of(begins, count);
        self.cost += cost;
        self.field_cost = cost;
    }
}

/// Room for the segments of a field.
fn empty_field(alloc: Global) -> Result<Vec<[i8; SEGMENT]>, AllocError>
    ensures { IfOk result (λ segments. vec_len segments ≡ FIELD) }
{
    vec![in alloc; [0i8; SEGMENT]; FIELD]
}

/// 1 if a run begins with this field of `count` segments and something is given of it, and otherwise 0.
fn run_of(begins: bool, count: usize) -> u64
    ensures run { (segments : List (List ℤ)) → length segments ≡ count
        → result ≡ begun (record { begins = begins; segments = segments }) }
    ensures few { result ≤ count }
{
    if begins && count > 0 { 1 } else { 0 }
}

/// Copies the first symbols to the first `count` segments, and restores these. Returns the cost of their least paths.
fn restore_front(
    decoder: &mut FieldDecoder,
    decisions: &Decisions,
    symbols: &[i8],
    count: usize,
    segments: &mut Vec<[i8; SEGMENT]>,
) -> u64
    requires scale { decoder.old ≡ decisions.now.scale }
    requires few { count ≤ FIELD }
    requires long { vec_len segments.old ≡ FIELD }
    requires room { SEGMENT * count ≤ length symbols.now }
    ensures segments { take count segments.new.items
        ≡ restored decisions.now.scale (segments_from symbols.now 0 count) }
    ensures cost { result ≡ path_cost decisions.now.scale (segments_from symbols.now 0 count) }
    ensures most { result ≤ MOST_SEGMENT_COST * count }
    ensures scale { decoder.new ≡ decoder.old }
    ensures long { vec_len segments.new ≡ FIELD }
{
    restore_first(decoder, decisions, symbols, count, &mut segments[..])
}

/// Does the same with a slice of segments.
fn restore_first(
    decoder: &mut FieldDecoder,
    decisions: &Decisions,
    symbols: &[i8],
    count: usize,
    segments: &mut [[i8; SEGMENT]],
) -> u64
    requires scale { decoder.old ≡ decisions.now.scale }
    requires few { count ≤ FIELD }
    requires long { length segments.old ≡ FIELD }
    requires room { SEGMENT * count ≤ length symbols.now }
    ensures segments { take count segments.new
        ≡ restored decisions.now.scale (segments_from symbols.now 0 count) }
    ensures cost { result ≡ path_cost decisions.now.scale (segments_from symbols.now 0 count) }
    ensures most { result ≤ MOST_SEGMENT_COST * count }
    ensures scale { decoder.new ≡ decoder.old }
    ensures long { length segments.new ≡ FIELD }
{
    restore_from(decoder, decisions, symbols, &mut segments[..count])
}

/// Copies the first symbols to all these segments, and restores them. Returns the cost of their least paths.
fn restore_from(
    decoder: &mut FieldDecoder,
    decisions: &Decisions,
    symbols: &[i8],
    segments: &mut [[i8; SEGMENT]],
) -> u64
    requires scale { decoder.old ≡ decisions.now.scale }
    requires few { length segments.old ≤ FIELD }
    requires room { SEGMENT * length segments.old ≤ length symbols.now }
    ensures segments { segments.new
        ≡ restored decisions.now.scale (segments_from symbols.now 0 (length segments.old)) }
    ensures cost { result ≡ path_cost decisions.now.scale (segments_from symbols.now 0 (length segments.old)) }
    ensures most { result ≤ MOST_SEGMENT_COST * length segments.old }
    ensures scale { decoder.new ≡ decoder.old }
{
    gather(symbols, segments);
    restore(decoder, decisions, segments)
}

/// Copies the first symbols to segments.
fn gather(symbols: &[i8], segments: &mut [[i8; SEGMENT]])
    requires { SEGMENT * length segments.old ≤ length symbols.now }
    ensures { segments.new ≡ segments_from symbols.now 0 (length segments.old) }
{
    for i in 0..segments.len() {
        segments[i].copy_from_slice(&symbols[SEGMENT * i..SEGMENT * i + SEGMENT]);
    }
}
