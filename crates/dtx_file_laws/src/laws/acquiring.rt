//! What `acquire` and `refine` write for a capture of the symbols that `code` wrote (ATSC A/53 Part 2; the capture is
//! the profile's own).

ghost use Rattle.std.specs.Prelude.{◌<◌, ◌≤◌, ℕ, List, length};
ghost use Rattle.dtx_chain.specs.Damage.{ArePackets};
ghost use Rattle.dtx_engine.specs.Made.{only};
ghost use Rattle.dtx_engine.specs.Recipe.{meaning_of_file};
ghost use Rattle.dtx_forms.specs.Shapes as shapes;
ghost use Rattle.dtx_recipes.specs.Acquire.{acquiring};
ghost use Rattle.dtx_recipes.specs.Refine.{refining};
ghost use Rattle.dtx_recipes.specs.SymbolFile.{symbol_bytes};
ghost use Rattle.dtx_file_laws.specs.Damaged.{IsNoisy};
ghost use Rattle.dtx_repeated_feed.specs.DoneWith.{IsDoneWith};

use dtx_sizes::{GROUP_PACKETS, MOST_PACKETS};
use dtx_symbol_laws::acquire_laws::{a_stream_is_acquired, all_is_acquired_of_a_file};
use dtx_symbol_laws::refine_laws::{a_stream_is_refined, all_is_refined_of_a_file};

/// Noise below half the distance of two levels changes nothing. Let each sample of a capture differ by less than SCALE
/// from SCALE times the symbol that `code` wrote. Then `acquire SCALE` writes exactly the file that `code` wrote. So
/// `receive` gives of it what `what_was_coded_is_received` says.
pub fn a_noisy_capture_is_acquired()
    ensures { (names packets : List (List ℕ)) (scale : ℕ) (file : List ℕ) → 0 < scale
        → GROUP_PACKETS ≤ length packets → length packets ≤ MOST_PACKETS
        → IsNoisy scale (symbol_bytes packets) file
        → IsDoneWith names (only (symbol_bytes packets))
        (meaning_of_file shapes.single_bytes (acquiring scale) names file) }
{
    a_stream_is_acquired();
    all_is_acquired_of_a_file();
}

/// The same holds of `refine SCALE ROUNDS`, after any number of rounds, where SCALE is at most 18 and the packets have
/// 188 bytes each, all of them numbers below 256.
pub fn a_noisy_capture_is_refined()
    ensures { (names packets : List (List ℕ)) (scale rounds : ℕ) (file : List ℕ) → 0 < scale → scale ≤ 18
        → ArePackets packets → GROUP_PACKETS ≤ length packets → length packets ≤ MOST_PACKETS
        → IsNoisy scale (symbol_bytes packets) file
        → IsDoneWith names (only (symbol_bytes packets))
        (meaning_of_file shapes.single_bytes (refining scale rounds) names file) }
{
    a_stream_is_refined();
    all_is_refined_of_a_file();
}
