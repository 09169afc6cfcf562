//! Laws of the notes on a feed, and of their text.

ghost use Rattle.std.specs.Prelude.{◌≡◌, ℕ, ◌*◌, ◌+◌, ◌-◌, ◌/◌, ◌%◌, ◌<◌, ◌≤◌, ◌++◌, ◌∷◌, [], Some, List, length};
ghost use Rattle.std.specs.Prelude.{drop, map, take};
ghost use Rattle.dtx_exciter.specs.Packets.{anchor_of, group_part};
ghost use Rattle.dtx_watch.specs.declared.notes.Note.{Note};
ghost use Rattle.dtx_watch.specs.Sound.{IsSoundFeed, IsCalmAt};
ghost use Rattle.dtx_watch.specs.Watch.{notes_at, told, waiting, watch};
ghost use Rattle.dtx_watch.specs.WatchText.{note_words, words_of_lines, watch_text};

/// Without packets there are no notes. The notes given on some packets stay when more packets come, and further notes
/// follow them. The notes given so far, and then those that wait for the end of the group at hand, are all notes.
pub fn told_in_turn()
    ensures nothing { told [] ≡ [] }
    ensures more { (packets others : List (List ℕ)) → (rest : List Note) × (told (packets ++ others)
        ≡ told packets ++ rest) }
    ensures all { (packets : List (List ℕ)) → watch packets ≡ told packets ++ waiting packets }
{}

/// The notes on each packet before the group at hand stay when more packets come. If there is an anchor at that packet,
/// the packet's own group is whole.
pub fn notes_stay()
    ensures whole { (packets : List (List ℕ)) (k anchor : ℕ) → k < length packets - group_part packets
        → anchor_of (take (k + 1) packets) ≡ Some anchor → anchor + 4 * ((k - anchor) / 4) + 4 ≤ length packets }
    ensures stays { (packets others : List (List ℕ)) (k : ℕ) → k < length packets - group_part packets
        → notes_at (packets ++ others) k ≡ notes_at packets k }
{}

/// A sound feed, watched from any of its marks on, is calm. The only notes are that the first packet is an anchor, and
/// that each operations packet is at its place. No note says that states slip or that a stamp jumps.
pub fn sound_feeds_are_calm()
    ensures { (start most mark k : ℕ) (feed : List (List ℕ)) → IsSoundFeed start most feed → mark % 624 ≡ 0
        → mark < length feed → k < length (drop mark feed) → IsCalmAt (drop mark feed) k }
{}

/// The text of notes, cut at its line feeds, and each line at its spaces, has the words of each note, in the notes'
/// order. Nothing stands behind the last line feed.
pub fn watch_text_has_the_words_of_its_notes()
    ensures { (notes : List Note) → words_of_lines (watch_text notes) ≡ map note_words notes ++ ([] ∷ []) ∷ [] }
{}
