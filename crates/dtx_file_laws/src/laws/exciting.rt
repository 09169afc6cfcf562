//! What `excite` makes of a file with a feed (the profile's own, over ATSC A/53 Part 2 and in the manner of ATSC
//! A/110).

ghost use Rattle.std.specs.Prelude.{◌≡◌, ◌≢◌, ◌+◌, ◌≤◌, ◌∷◌, ◌++◌, [], ℕ, List, codes, decimal, map, slice_range};
ghost use Rattle.dtx_adapter.specs.Feed.{feed};
ghost use Rattle.dtx_engine.specs.Made.{both, only};
ghost use Rattle.dtx_engine.specs.Recipe.{meaning_of_file};
ghost use Rattle.dtx_exciter.specs.Log.{Line};
ghost use Rattle.dtx_files.specs.LogText.{log_text};
ghost use Rattle.dtx_files.specs.Symbols.{segment_bytes};
ghost use Rattle.dtx_forms.specs.Shapes as shapes;
ghost use Rattle.dtx_recipes.specs.Excite.{exciting};
ghost use Rattle.dtx_network.specs.Headline.{HasNoListing, IsFedAnew, IsFirstListing, stretch_of};
ghost use Rattle.dtx_network.specs.Orders.{presets};
ghost use Rattle.dtx_packets.specs.Packets.{packets_of, whole_packets};
ghost use Rattle.dtx_plan.specs.declared.plan.Plan.{Plan};
ghost use Rattle.dtx_plan.specs.declared.transmitter.Transmitter.{Transmitter};
ghost use Rattle.dtx_repeated_feed.specs.DoneWith.{IsDoneWith};
ghost use Rattle.dtx_watch.specs.WatchText.{words_of_lines};
ghost use Rattle.dtx_file_laws.specs.LogLines.{line_words};
ghost use Rattle.dtx_file_laws.specs.Back.{Holds};

use crate::laws::calls::run_of_excite;
use dtx_network::laws::from_a_mark;
use dtx_outside::{Shelf, Sink, Word};
use dtx_sizes::MOST_PACKETS;
use dtx_top::Status;
use std::alloc::Global;

/// Let a file have the packets of a feed from one of its marks on. Packets without a mark may stand before them. Let
/// the plan list the transmitter, and let the delay be in time (`IsFedAnew`). Then `excite` is done, and writes the
/// feed's own symbols and presets. OUT has the feed's segments from the first listing on that begins 52 or more packets
/// after the mark, and nothing else. From there on LOG has one preset line for each group that holds an operations
/// packet, with the moment at the transmitter's offset, and nothing else. If there is no such listing, both files are
/// empty.
pub fn a_feed_is_sent()
    ensures listed { (plan : Plan) (stream : List (List ℕ)) (t : Transmitter) (delay : ℕ) (earlier : List (List ℕ))
        (mark n k : ℕ) (names : List (List ℕ)) (file : List ℕ) → whole_packets file ≤ MOST_PACKETS
        → IsFedAnew plan stream t delay earlier mark n
        → packets_of file ≡ earlier ++ slice_range (feed plan stream) mark (mark + n)
        → IsFirstListing t.address (feed plan stream) mark (mark + n) k
        → IsDoneWith names (both (segment_bytes (stretch_of (feed plan stream) k (mark + n)))
        (log_text (presets plan t.offset 0 (feed plan stream) k (mark + n))))
        (meaning_of_file shapes.coded_packets (exciting t.address delay) names file) }
    ensures unlisted { (plan : Plan) (stream : List (List ℕ)) (t : Transmitter) (delay : ℕ) (earlier : List (List ℕ))
        (mark n : ℕ) (names : List (List ℕ)) (file : List ℕ) → whole_packets file ≤ MOST_PACKETS
        → IsFedAnew plan stream t delay earlier mark n
        → packets_of file ≡ earlier ++ slice_range (feed plan stream) mark (mark + n)
        → HasNoListing t.address (feed plan stream) mark (mark + n)
        → IsDoneWith names (only [])
        (meaning_of_file shapes.coded_packets (exciting t.address delay) names file) }
{
    from_a_mark();
}

/// A log reads back. Cut at each line feed and each space, its text gives the words of its lines, in order, and one
/// empty word after the last line feed. The numbers among the words are spelled in decimal digits.
pub fn log_lines_read_back()
    ensures { (lines : List Line) → words_of_lines (log_text lines) ≡ map line_words lines ++ ([] ∷ []) ∷ [] }
{}

/// Runs `excite FEED ADDRESS DELAY OUT LOG`, where the files are told and the answer is `Done`. FEED and the
/// transmitter meet the clause `listed` of `a_feed_is_sent`, and OUT and LOG are two files. These hold the feed's own
/// symbols and presets. Take two transmitters with the same first listing, whose feeds end with the same group. Their
/// symbol files hold the same bytes, and their logs differ only in the moments.
pub fn run_of_excite_of_a_feed<S: Shelf, O: Sink>(
    alloc: Global,
    words: &[Word],
    shelf: &mut S,
    out: &mut O,
) -> Status
    ensures { (plan : Plan) (stream : List (List ℕ)) (t : Transmitter) (delay : ℕ) (earlier : List (List ℕ))
        (mark n k : ℕ) (input output log file : List ℕ)
        → words.now ≡ codes "excite" ∷ input ∷ decimal t.address ∷ decimal delay ∷ output ∷ log ∷ []
        → t.address ≤ 65535 → delay ≤ 4294967295 → output ≢ log → IsFedAnew plan stream t delay earlier mark n
        → packets_of file ≡ earlier ++ slice_range (feed plan stream) mark (mark + n)
        → IsFirstListing t.address (feed plan stream) mark (mark + n) k
        → Holds (S.files shelf.old) input file → result ≡ Status.Done
        → Holds (S.files shelf.new) output (segment_bytes (stretch_of (feed plan stream) k (mark + n)))
        × Holds (S.files shelf.new) log (log_text (presets plan t.offset 0 (feed plan stream) k (mark + n))) }
{
    a_feed_is_sent();
    run_of_excite(alloc, words, shelf, out)
}
