// The engine of `soft`: softens symbols, one piece of their file at a time.
ghost use Rattle.std.specs.Prelude.{◌≡◌, ◌+◌, ◌*◌, ◌<◌, ◌≤◌, ◌++◌, ◌∷◌, [], ℕ, ℤ, List, length, slice_index_or, take};
ghost use Rattle.std.specs.Prelude.{vec_len};
ghost use Rattle.dtx_files.specs.Symbols.{segment_bytes};
ghost use Rattle.dtx_soft.specs.Softened.{softened_cost};
ghost use Rattle.dtx_recipes.specs.Soft.{flushed, groups_in, has_group};
ghost use Rattle.dtx_recipes.specs.SymbolFile.{symbols};
ghost use Rattle.dtx_jobs.specs.Softening.{IsGathering, IsKept, kept_rows};

use crate::symbol_buffer::SymbolBuffer;
use dtx_engine::Shape;
use dtx_forms::{PIECE_SEGMENTS, Stepping, segments};
use dtx_frame::looks;
use dtx_meaning::{Outcome, done};
use dtx_receiver::to_symbols;
use dtx_sizes::{FIELD_PACKETS, GROUP_PACKETS, MOST_SEGMENTS, SEGMENT};
use dtx_soft::{FieldDecoder, MOST_SEGMENT_COST};
use dtx_steps::Step;
use std::alloc::{AllocError, Global};

/// How many data segments a field has.
const FIELD_ROWS: usize = FIELD_PACKETS as usize;

/// The most symbols that a piece brings: its own, and those of a field that began before it.
const SOFT_BYTES: usize = SEGMENT * (PIECE_SEGMENTS + FIELD_ROWS);

/// The most that the least paths of a field cost.
pub(crate) const MOST_COST: u64 = MOST_SEGMENT_COST * FIELD_PACKETS as u64;

/// The data segments of the current field, the symbols that the last piece brought, and the numbers of all segments.
#[derive(Drop)]
pub(crate) struct Softening {
    decoder: FieldDecoder,
    field: Vec<[i8; SEGMENT]>,
    /// The place of the next segment in its field, or `None` where the next segment isn't data.
    place: Option<u16>,
    segment: [i8; SEGMENT],
    symbols: SymbolBuffer<SOFT_BYTES>,
    segments: u64,
    fields: u64,
    cost: u64,
}

impl Softening {
    /// Takes the next segment, and gathers the symbols that it brings. A data segment of a run is kept until its field
    /// ends, and any other one is copied.
    fn take(&mut self, bytes: &[u8; SEGMENT])
        requires most { self.old.segments < MOST_SEGMENTS }
        requires is_kept { IsKept self.old }
        requires room { length self.old.symbols + SEGMENT * (1 + kept_rows self.old) ≤ SOFT_BYTES }
        ensures gathered { (before : List (List ℤ)) (front : List ℕ) → IsGathering self.old before front
            → IsGathering self.new (before ++ symbols bytes.now ∷ []) front }
        ensures is_kept { IsKept self.new }
        ensures long { length self.new.symbols + SEGMENT * kept_rows self.new
            ≡ length self.old.symbols + SEGMENT * (1 + kept_rows self.old) }
    {
        to_symbols(bytes, &mut self.segment);
        self.segments += 1;
        match self.place {
            None => {
                self.symbols.push(&self.segment);
                self.place = looks(&self.segment).then_some(0);
            }
            Some(place) => {
                self.field[place as usize] = self.segment;
                if place + 1 < FIELD_PACKETS {
                    self.place = Some(place + 1);
                } else {
                    self.flush(FIELD_ROWS);
                    self.place = None;
                }
            }
        }
    }

    /// Gathers the symbols of the first `count` data segments of the field. Those in whole groups are softened.
    fn flush(&mut self, count: usize)
        requires few { count ≤ FIELD_ROWS }
        requires room { vec_len self.old.field ≡ FIELD_ROWS }
        requires scale { self.old.decoder ≡ 1 }
        requires fields { self.old.fields ≤ MOST_SEGMENTS }
        requires cost { self.old.cost ≤ MOST_COST * MOST_SEGMENTS }
        requires fits { length self.old.symbols + SEGMENT * count ≤ SOFT_BYTES }
        ensures symbols { self.new.symbols
            ≡ self.old.symbols ++ segment_bytes (flushed (take count self.old.field.items)) }
        ensures long { length self.new.symbols ≡ length self.old.symbols + SEGMENT * count }
        ensures fields { self.new.fields ≡ self.old.fields + has_group (groups_in (take count self.old.field.items)) }
        ensures cost { self.new.cost ≡ self.old.cost + softened_cost 1 (groups_in (take count self.old.field.items)) }
        ensures most { self.new.cost ≤ self.old.cost + MOST_COST }
        ensures scale { self.new.decoder ≡ 1 }
        ensures count { self.new.segments ≡ self.old.segments }
        ensures kept { vec_len self.new.field ≡ FIELD_ROWS }
    {
        self.fields += (count / GROUP_PACKETS).min(1) as u64;
        self.cost += flush_field(&mut self.decoder, &mut self.field, count, &mut self.symbols);
    }
}

impl Step for Softening {
    ghost use Rattle.std.specs.Prelude.{◌≤◌, ◌+◌, ◌*◌, length};
    ghost use Rattle.dtx_engine.specs.Made.{only};
    ghost use Rattle.dtx_forms.specs.Shapes as shapes;
    ghost use Rattle.dtx_recipes.specs.Soft.{softening};
    ghost use Rattle.dtx_recipes.proofs.SofteningLemmas.{softens_more, softens_none};
    ghost use Rattle.dtx_sizes.specs.declared.segments.TheConstants.{SEGMENT};
    ghost use Rattle.dtx_jobs.specs.Softening.{WasSoftened, kept_rows};
    ghost use Rattle.dtx_jobs.specs.declared.softening.TheConstants.{SOFT_BYTES};

    ghost shape = { shapes.segments };

    ghost recipe = { λ _. softening };

    ghost stands = { WasSoftened };

    ghost holds = { λ s. only s.symbols };

    ghost is_ready = { λ s _ count. length s.symbols + SEGMENT * (count + kept_rows s) ≤ SOFT_BYTES };

    fn sizes(&self) -> Shape {
        segments()
    }

    fn allows(&self, _index: u64, _unit: &[u8]) -> bool {
        true
    }

    fn clear(&mut self) {
        self.symbols.clear();
    }

    fn step(&mut self, _first: u64, bytes: &mut [u8]) -> usize {
        let (segments, _) = bytes.as_chunks::<SEGMENT>();
        self.take(&segments[0]);
        1
    }

    fn finish(&mut self, loose: usize) -> Outcome {
        let rows = self.place.unwrap_or(0);
        self.flush(rows as usize);
        done(&[self.segments, self.fields, self.cost, loose as u64])
    }

    fn made(&self) -> &[u8] {
        self.symbols.bytes()
    }

    fn log(&self) -> &[u8] {
        &[]
    }

    ghost starts = { λ _. softens_none };

    ghost grows = { λ _ a b whole. softens_more a b whole };
}

impl Stepping for Softening {
    ghost use Rattle.dtx_words.specs.declared.rows.Command.TheVariants as command;
    ghost use Rattle.dtx_recipes.proofs.AnswersLemmas.{soft_knows};
    ghost use Rattle.dtx_recipes.specs.Soft.{softening};

    ghost command = { command.Soft };

    ghost makes = { softening };

    fn new(alloc: Global) -> Result<Softening, AllocError> {
        Ok(Softening {
            field: vec![in alloc; [0; SEGMENT]; FIELD_ROWS]?,
            place: None,
            segment: [0; SEGMENT],
            symbols: SymbolBuffer::new(alloc)?,
            decoder: FieldDecoder::scaled(alloc, 1)?,
            segments: 0,
            fields: 0,
            cost: 0,
        })
    }

    ghost knows = { soft_knows };
}

/// Gathers the symbols of the first `count` data segments of the field. Those in whole groups are softened. Returns
/// what their least paths cost.
fn flush_field(
    decoder: &mut FieldDecoder,
    field: &mut Vec<[i8; SEGMENT]>,
    count: usize,
    symbols: &mut SymbolBuffer<SOFT_BYTES>,
) -> u64
    requires room { vec_len field.old ≡ FIELD_ROWS }
    requires few { count ≤ FIELD_ROWS }
    requires scale { decoder.old ≡ 1 }
    requires fits { length symbols.old + SEGMENT * count ≤ SOFT_BYTES }
    ensures symbols { symbols.new ≡ symbols.old ++ segment_bytes (flushed (take count field.old.items)) }
    ensures long { length symbols.new ≡ length symbols.old + SEGMENT * count }
    ensures cost { result ≡ softened_cost 1 (groups_in (take count field.old.items)) }
    ensures most { result ≤ MOST_COST }
    ensures scale { decoder.new ≡ 1 }
    ensures kept { vec_len field.new ≡ FIELD_ROWS }
{
    let rows = &mut field[..count];
    let cost = soften(decoder, rows);
    symbols.push_all(rows);
    cost
}

/// Softens those of a field's first data segments that stand in whole groups. Returns what their least paths cost.
fn soften(decoder: &mut FieldDecoder, rows: &mut [[i8; SEGMENT]]) -> u64
    requires scale { decoder.old ≡ 1 }
    requires few { length rows.old ≤ FIELD_PACKETS }
    ensures rows { rows.new ≡ flushed rows.old }
    ensures cost { result ≡ softened_cost 1 (groups_in rows.old) }
    ensures most { result ≤ MOST_COST }
    ensures scale { decoder.new ≡ 1 }
{
    let whole = GROUP_PACKETS * (rows.len() / GROUP_PACKETS);
    let groups = &mut rows[..whole];
    let cost = decoder.field(groups);
    known(groups);
    cost
}

/// Proves that segments have 832 symbols each.
fn known(rows: &[[i8; SEGMENT]])
    ensures { (i : ℕ) → i < length rows.now → length (slice_index_or rows.now i []) ≡ SEGMENT }
{}
