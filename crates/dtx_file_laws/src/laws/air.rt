//! What is received from the symbols that `code` wrote, undamaged and damaged (ATSC A/53 Part 2, and the way back).

ghost use Rattle.std.specs.Prelude.{◌≡◌, ◌<◌, ◌≤◌, ℕ, ℤ, List, length};
ghost use Rattle.dtx_chain.specs.Damage.{AreReceived, IsSlight, to_sync, ArePackets};
ghost use Rattle.dtx_coder.specs.Stream.{a53};
ghost use Rattle.dtx_engine.specs.Made.{only};
ghost use Rattle.dtx_engine.specs.Recipe.{meaning_of_file};
ghost use Rattle.dtx_forms.specs.Shapes as shapes;
ghost use Rattle.dtx_recipes.specs.Code.{coding};
ghost use Rattle.dtx_recipes.specs.Mend.{mending_symbols};
ghost use Rattle.dtx_recipes.specs.MendedBack.{all_back_of};
ghost use Rattle.dtx_recipes.specs.Receive.{receiving};
ghost use Rattle.dtx_recipes.specs.SymbolFile.{file_segments, whole_segments, symbol_bytes};
ghost use Rattle.dtx_packets.specs.Packets.{packets_of, whole_packets};
ghost use Rattle.dtx_repeated_feed.specs.DoneWith.{IsDoneWith};
ghost use Rattle.dtx_file_laws.specs.Back.{CanBeCoded, all_back};
ghost use Rattle.dtx_file_laws.specs.Damaged.{IsBurst, IsGap, SparesSyncs};

use dtx_bursts::laws::{missing_symbols_in_a_row, syncs_are_found, wrong_symbols_in_a_row};
use dtx_chain::laws::received_undamaged;
use dtx_sizes::{GROUP_PACKETS, MOST_PACKETS, MOST_SEGMENTS};
use dtx_symbol_laws::laws::mending::a_stretch_is_mended;

/// What `code` makes of a stream whose packets begin with 0x47 or with the mark 0xB8, and are at most `MOST_PACKETS`.
/// It is done, and OUT is the symbols of the whole groups.
pub fn a_stream_is_coded()
    ensures { (names : List (List ℕ)) (stream : List ℕ) → whole_packets stream ≤ MOST_PACKETS → CanBeCoded stream
        → IsDoneWith names (only (symbol_bytes (packets_of stream)))
        (meaning_of_file shapes.coded_packets coding names stream) }
{}

/// What `receive` makes of segments in a row of a stream, a field sync among them. They are received with at most ten
/// wrong bytes a word, and their field syncs are found. OUT has all packets whose bytes are all there, from the one
/// after the first field sync on, in order, and no other. Each has 0x47 as its sync byte. There is one run, and no
/// packet is flagged.
pub fn a_stretch_is_received()
    ensures { (names stream : List (List ℕ)) (first : ℕ) (sent : List (List ℤ)) (file : List ℕ)
        → whole_segments file ≤ MOST_SEGMENTS → ArePackets stream
        → AreReceived stream first sent (file_segments file) → to_sync first < length sent
        → IsSlight stream first sent (file_segments file)
        → meaning_of_file shapes.segments receiving names file ≡ all_back_of names stream first file }
{}

/// What `receive` makes of the symbols that `code` wrote of a stream of at least four packets. OUT has the packets that
/// were sent but the last 52, or 51 (`back_of_all`), with 0x47 as their sync bytes. No byte is put right, and no packet
/// is flagged. A file of the same length gives the same packets if it has at most ten wrong bytes a word and its field
/// syncs are found. No packet is flagged then either, and `fixed` bytes are put right, perhaps none.
pub fn what_was_coded_is_received()
    ensures undamaged { (names packets : List (List ℕ)) → ArePackets packets → GROUP_PACKETS ≤ length packets
        → length packets ≤ MOST_PACKETS
        → meaning_of_file shapes.segments receiving names (symbol_bytes packets) ≡ all_back names packets 0 }
    ensures near { (names packets : List (List ℕ)) (file : List ℕ) → ArePackets packets
        → GROUP_PACKETS ≤ length packets → length packets ≤ MOST_PACKETS
        → length file ≡ length (symbol_bytes packets) → IsSlight packets 0 (a53 packets) (file_segments file)
        → (fixed : ℕ) × (meaning_of_file shapes.segments receiving names file ≡ all_back names packets fixed) }
{
    received_undamaged();
}

/// Bursts on the air, in the file that `code` wrote of at least four and at most `MOST_PACKETS` packets. If at most
/// 2,022 bytes in a row are wrong, `receive` gives back what it gives of the undamaged file, and no packet is flagged.
/// The same holds of `mend` if bytes are missing (0x80), all among at most 4,141 in a row. The damage may begin at any
/// byte. It has to spare the field syncs: of each it reaches at most 32 of the first 515 symbols. A byte is a symbol,
/// and 10.76 symbols last a microsecond. So 2,022 last more than 187 microseconds, and 4,141 more than 384.
pub fn bursts_come_back()
    ensures wrong { (names packets : List (List ℕ)) (file : List ℕ) (count from : ℕ) → ArePackets packets
        → GROUP_PACKETS ≤ length packets → length packets ≤ MOST_PACKETS → count ≤ 2022
        → IsBurst count from (symbol_bytes packets) file → SparesSyncs count from (length file)
        → (fixed : ℕ) × (meaning_of_file shapes.segments receiving names file ≡ all_back names packets fixed) }
    ensures missing { (names packets : List (List ℕ)) (file : List ℕ) (count from : ℕ) → ArePackets packets
        → GROUP_PACKETS ≤ length packets → length packets ≤ MOST_PACKETS → count ≤ 4141
        → IsGap count from (symbol_bytes packets) file → SparesSyncs count from (length file)
        → (fixed : ℕ) × (meaning_of_file shapes.segments mending_symbols names file ≡ all_back names packets fixed) }
{
    wrong_symbols_in_a_row();
    missing_symbols_in_a_row();
    syncs_are_found();
    a_stretch_is_mended();
}
