//! Laws of the definitions: the one least path, certificates, and symbols that are a path's own.

ghost use Rattle.std.specs.Prelude.{◌≡◌, ℕ, ℤ, ◌+◌, ◌*◌, ◌<◌, ◌≤◌, List, [], ◌∷◌, length, map, slice_index};
ghost use Rattle.std.specs.Prelude.{slice_index_or};
ghost use Rattle.std.specs.List.{range_with_len};
ghost use Rattle.dtx_trellis.specs.Trellis.{AreBits, State, level};
ghost use Rattle.dtx_soft.specs.Paths.{IsPath, cost, symbol_at};
ghost use Rattle.dtx_soft.specs.Least.{ArePotentials, IsLeast, NoneCostsLess, IsCertificate, least_levels, least_path};
ghost use Rattle.dtx_soft.specs.Least.{least_start};
ghost use Rattle.dtx_soft.specs.Coders.{IsSoftened, coder_symbols, coders_distance, segments_distance};
ghost use Rattle.dtx_soft.specs.Bounds.{AreSigned};
ghost use Rattle.dtx_soft.specs.Softened.{IsOwn, softened, softened_cost};

use dtx_sizes::{CODERS, SEGMENT, SEGMENT_ROUNDS};

/// A certificate proves its path a least one: no path from any state costs less.
#[tactic(auto, using(crate::proofs::Certificates::no_less))]
pub fn certified()
    ensures { (symbols : List ℤ) (start : ℕ) (levels : List ℕ) (potentials : List (List ℕ))
        → IsCertificate symbols start levels potentials → NoneCostsLess 1 symbols levels }
{}

/// The least path and the least costs are a certificate.
#[tactic(auto, using(crate::proofs::Certificates::potentials_certify))]
pub fn certifies()
    ensures { (symbols : List ℤ) (start : ℕ) (levels : List ℕ) (potentials : List (List ℕ))
        → IsLeast 1 symbols start levels → ArePotentials 1 symbols potentials
        → IsCertificate symbols start levels potentials }
{}

/// Where symbols are those of a path's levels, the least path costs nothing and has the same symbols.
#[tactic(auto, using(crate::proofs::OwnSymbols::own_symbols))]
pub fn keeps_own_symbols()
    ensures { (scale start found : ℕ) (levels others : List ℕ) → start < 4 → IsPath start levels
        → IsLeast scale (map (symbol_at scale) levels) found others
        → (cost scale (map (symbol_at scale) levels) others ≡ 0)
        × (map (symbol_at scale) others ≡ map (symbol_at scale) levels) }
{}

/// There is exactly one least path over symbols, and `least_path` gives it.
#[tactic(auto, using(crate::proofs::LeastPathLemmas::least_path_found, crate::proofs::LeastPathLemmas::least_path_is))]
pub fn one_least_path()
    ensures found { (scale : ℕ) (symbols : List ℤ)
        → IsLeast scale symbols (least_start scale symbols) (least_levels scale symbols) }
    ensures one { (scale : ℕ) (symbols : List ℤ) (start : ℕ) (levels : List ℕ) → IsLeast scale symbols start levels
        → least_path scale symbols ≡ start ∷ levels }
{}

/// What `softened` gives is a softening of the segments. No other list of segments with 832 symbols each is one.
pub fn one_softening()
    ensures found { (scale : ℕ) (segments : List (List ℤ)) → IsSoftened scale segments (softened scale segments) }
    ensures one { (scale : ℕ) (old new : List (List ℤ)) → IsSoftened scale old new
        → ((i : ℕ) → i < length new → length (slice_index_or new i []) ≡ SEGMENT) → new ≡ softened scale old }
{}

/// The symbols of the twelve coders move by what their least paths cost, in the sum of the squares. In segments of 832
/// symbols each, all symbols move by the same, summed segment by segment.
pub fn cost_of_softening()
    ensures coders { (scale : ℕ) (old new : List (List ℤ)) → IsSoftened scale old new
        → coders_distance old new CODERS ≡ softened_cost scale old }
    ensures segments { (scale : ℕ) (old new : List (List ℤ)) → IsSoftened scale old new
        → ((i : ℕ) → i < length old → length (slice_index_or old i []) ≡ SEGMENT)
        → ((i : ℕ) → i < length new → length (slice_index_or new i []) ≡ SEGMENT)
        → coders_distance old new CODERS ≡ segments_distance old new }
{}

/// A bound of what the least paths of a field cost, where its symbols are signed bytes. No symbol is off a level by
/// more than 128 and seven times the scale, and each coder has 69 symbols in a segment.
#[tactic(auto, using(crate::proofs::CostLemmas::scaled_costs_small))]
pub fn costs_are_small()
    ensures { (scale : ℕ) (old new : List (List ℤ)) → AreSigned old → IsSoftened scale old new
        → coders_distance old new CODERS
        ≤ CODERS * ((128 + 7 * scale) * (128 + 7 * scale) * (SEGMENT_ROUNDS * length old)) }
{}

/// Let segments have 832 symbols each, and let each coder's symbols be those of a path's own levels. Softening leaves
/// the segments as they are, and the least paths cost nothing.
pub fn keeps_own_field()
    ensures { (scale : ℕ) (segments : List (List ℤ))
        → ((i : ℕ) → i < length segments → length (slice_index_or segments i []) ≡ SEGMENT)
        → ((e : ℕ) → e < CODERS → IsOwn scale (coder_symbols segments e))
        → (softened scale segments ≡ segments) × (softened_cost scale segments ≡ 0) }
{}

/// The levels that a trellis coder gives are a path, whatever its precoder adds. `a` has the higher bits of its pairs,
/// and `b` the lower ones.
#[tactic(auto, using(crate::proofs::CoderPaths::coder_path))]
pub fn coder_takes_a_path()
    ensures { (q : State) (a b : List ℕ) → AreBits q → ((t : ℕ) → t < length a → slice_index b t < 2)
        → IsPath (2 * q.q1 + q.q0) (map (level q a b) (range_with_len 0 (length a))) }
{}
