//! A law of what the command `repeat` makes of a feed that it receives (the profile's own, over ATSC A/53 Part 2 and in
//! the manner of ATSC A/110).

ghost use Rattle.std.specs.Prelude.{◌≡◌, ◌≤◌, ◌∷◌, [], ℕ, ℤ, List, None, Some};
ghost use Rattle.std.specs.FinMap.{get};
ghost use Rattle.dtx_adapter.specs.Feed.{feed};
ghost use Rattle.dtx_engine.specs.Made.{both, only};
ghost use Rattle.dtx_engine.specs.Recipe.{meaning_of_file};
ghost use Rattle.dtx_files.specs.LogText.{log_text};
ghost use Rattle.dtx_files.specs.Symbols.{segment_bytes};
ghost use Rattle.dtx_gap_filler.specs.Heard.{Hears, heard_mark, heard_to};
ghost use Rattle.dtx_recipes.specs.Repeat.{repeating};
ghost use Rattle.dtx_forms.specs.Shapes as shapes;
ghost use Rattle.dtx_recipes.specs.SymbolFile.{file_segments, whole_segments};
ghost use Rattle.dtx_network.specs.Headline.{HasNoListing, IsFirstListing, stretch_of};
ghost use Rattle.dtx_network.specs.Orders.{presets};
ghost use Rattle.dtx_outside.specs.Shelf.{Files};
ghost use Rattle.dtx_plan.specs.declared.plan.Plan.{Plan};
ghost use Rattle.dtx_plan.specs.declared.transmitter.Transmitter.{Transmitter};
ghost use Rattle.dtx_words.specs.Fitting.{command_of, number_in};
ghost use Rattle.dtx_words.specs.Names.{repeated};
ghost use Rattle.dtx_words.specs.declared.rows.Command.TheVariants as command;
ghost use Rattle.dtx_repeated_feed.specs.DoneWith.{IsDoneWith};
ghost use Rattle.dtx_top.specs.Jobs.{means};

use dtx_gap_filler::laws::{is_given_the_feed, repeats};
use dtx_sizes::MOST_SEGMENTS;
use dtx_symbol_laws::laws::repeating::all_is_repeated;

/// Let a symbol file have at most MOST_SEGMENTS segments. Let them be a feed's segments, received with slight damage,
/// where the plan lists the transmitter's address and its delay is in time (`Hears`). Then `repeat` writes the main
/// transmitter's own symbols (ATSC A/53 Part 2) and their presets, and answers `Done`. OUT has the feed's symbols from
/// the first data segment of the first listing on to the last data segment of the last group received whole, and
/// nothing else. LOG has one preset line for each of these groups that holds an operations packet, with the moment at
/// the transmitter's offset, and nothing else. Where the received part of the feed has no first listing, both files are
/// empty. This is the meaning of the command's words, where no name is repeated and the input exists.
pub fn a_heard_feed_is_repeated()
    ensures listed { (plan : Plan) (stream : List (List ℕ)) (t : Transmitter) (delay first k : ℕ)
        (sent : List (List ℤ)) (names : List (List ℕ)) (file : List ℕ) → whole_segments file ≤ MOST_SEGMENTS
        → Hears plan stream t delay first sent (file_segments file)
        → IsFirstListing t.address (feed plan stream) (heard_mark first) (heard_to first (file_segments file)) k
        → IsDoneWith names (both (segment_bytes (stretch_of (feed plan stream) k
        (heard_to first (file_segments file)))) (log_text (presets plan t.offset 0 (feed plan stream) k
        (heard_to first (file_segments file)))))
        (meaning_of_file shapes.segments (repeating t.address delay) names file) }
    ensures unlisted { (plan : Plan) (stream : List (List ℕ)) (t : Transmitter) (delay first : ℕ)
        (sent : List (List ℤ)) (names : List (List ℕ)) (file : List ℕ) → whole_segments file ≤ MOST_SEGMENTS
        → Hears plan stream t delay first sent (file_segments file)
        → HasNoListing t.address (feed plan stream) (heard_mark first) (heard_to first (file_segments file))
        → IsDoneWith names (only []) (meaning_of_file shapes.segments (repeating t.address delay) names file) }
    ensures words { (verb input of_address of_delay output log file : List ℕ) (address delay : ℕ) (held : Files)
        → command_of (verb ∷ input ∷ of_address ∷ of_delay ∷ output ∷ log ∷ []) ≡ Some command.Repeat
        → number_in 65535 of_address ≡ Some address → number_in 4294967295 of_delay ≡ Some delay
        → repeated (input ∷ output ∷ log ∷ []) ≡ None → get held input ≡ Some file
        → means (verb ∷ input ∷ of_address ∷ of_delay ∷ output ∷ log ∷ []) held
        ≡ meaning_of_file shapes.segments (repeating address delay) (output ∷ log ∷ []) file }
{
    repeats();
    is_given_the_feed();
    all_is_repeated();
}
