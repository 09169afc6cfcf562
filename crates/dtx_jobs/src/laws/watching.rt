//! Laws of feeds that are watched (the profile's own).

ghost use Rattle.std.specs.Prelude.{◌≡◌, ◌%◌, ◌<◌, ◌≤◌, ℕ, List, drop, length};
ghost use Rattle.dtx_engine.specs.Recipe.{meaning_of_file};
ghost use Rattle.dtx_packets.specs.Packets.{packets_of, whole_packets};
ghost use Rattle.dtx_watch.specs.Sound.{IsSoundFeed};
ghost use Rattle.dtx_watch.specs.WatchText.{watch_text};
ghost use Rattle.dtx_watch.specs.declared.notes.Note.{Note};
ghost use Rattle.dtx_forms.specs.Shapes as shapes;
ghost use Rattle.dtx_recipes.specs.Watch.{watch_tally, watching};
ghost use Rattle.dtx_recipes.specs.WatchedFeed.{IsWatchedCalmly, tally_of_text, watched_of};

use dtx_sizes::MOST_PACKETS;

/// Let a file have at most MOST_PACKETS whole packets. Then OUT is the text of all notes on its packets, and the
/// numbers of the command's line are counts over that text. They count its lines that begin with `ops`, with `unread`
/// and with `stray`, and those that have the word `slip` or `jump` at its place. The same counts hold for the text of
/// any notes.
pub fn all_is_watched()
    ensures written { (names : List (List ℕ)) (file : List ℕ) → whole_packets file ≤ MOST_PACKETS
        → meaning_of_file shapes.single_packets watching names file ≡ watched_of names file }
    ensures numbers { (packets : ℕ) (notes : List Note)
        → watch_tally packets notes ≡ tally_of_text packets (watch_text notes) }
{}

/// Let the packets of a file be those of a sound feed, from one of its marks on. Then OUT is the line `lock 0` and one
/// line `ops` for each operations packet, in their order, and nothing else. None of these lines has the word `slip` or
/// `jump`. The numbers of the command's line agree with that.
pub fn sound_feeds_are_watched_calmly()
    ensures { (names : List (List ℕ)) (file : List ℕ) (start most mark : ℕ) (feed : List (List ℕ))
        → IsSoundFeed start most feed → mark % 624 ≡ 0 → mark < length feed → packets_of file ≡ drop mark feed
        → whole_packets file ≤ MOST_PACKETS
        → IsWatchedCalmly names (drop mark feed) (length file % 188)
        (meaning_of_file shapes.single_packets watching names file) }
{}
