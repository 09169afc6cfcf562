// Makes the packets of a run: consecutive groups of the feed, of which only the first may hold placeholders.
ghost use Rattle.std.specs.Prelude.{◌≡◌, ◌⊎◌, ◌<◌, ◌≤◌, ◌+◌, ◌-◌, ◌/◌, ◌%◌, ◌++◌, ℕ, List, length, take, drop};
ghost use Rattle.dtx_coder.specs.Stream.{states};
ghost use Rattle.dtx_plan.specs.declared.plan.Plan.{Plan};
ghost use Rattle.dtx_adapter.specs.Feed.{feed, placeholders};
ghost use Rattle.dtx_adapter.specs.Filling.{Fills};

use crate::filler::{Filler, is_placeholder};
use dtx_coder::BATCH_PACKETS;
use dtx_sizes::{GROUP_PACKETS, MOST_PACKETS, PACKET};
use dtx_trellis::States;

/// How many of the packets make the next run. It ends before the next group that holds a placeholder, and at the end of
/// a sixth of a field. The first packet is packet `first` of the stream.
pub(crate) fn run_packets(first: u64, packets: &[[u8; PACKET]]) -> usize
    requires some { 0 < length packets.now }
    requires open { first % GROUP_PACKETS ≡ 0 }
    ensures some { 0 < result }
    ensures within { result ≤ length packets.now }
    ensures whole { result < length packets.now → result % GROUP_PACKETS ≡ 0 }
    ensures in_batch { first % BATCH_PACKETS + result ≤ BATCH_PACKETS }
    ensures later { placeholders (drop GROUP_PACKETS (take result packets.now)) ≡ 0 }
{
    let most = packets
        .len()
        .min(BATCH_PACKETS - (first % BATCH_PACKETS as u64) as usize);
    for i in GROUP_PACKETS..most {
        if is_placeholder(&packets[i]) {
            return i - i % GROUP_PACKETS;
        }
    }
    most
}

/// Turns the packets of a run of the stream into those of the feed, in place, and answers how many placeholders it
/// filled. Before the run the coders have the states `told`. `first` is the index of its first packet.
pub(crate) fn make_run(
    filler: &mut Filler,
    told: States,
    first: u64,
    packets: &mut [[u8; PACKET]],
) -> u64
    requires most { first + length packets.old ≤ MOST_PACKETS }
    requires later { placeholders (drop GROUP_PACKETS packets.old) ≡ 0 }
    ensures fed { (plan : Plan) (stream : List (List ℕ)) → Fills plan filler.old stream ((length stream - 1) / 4)
        → length stream ≡ first → first % GROUP_PACKETS ≡ 0 → told ≡ states (feed plan stream)
        → packets.new ≡ drop (length stream) (feed plan (stream ++ packets.old)) }
    ensures fills { (plan : Plan) (stream : List (List ℕ)) → Fills plan filler.old stream ((length stream - 1) / 4)
        → length stream ≡ first → first % GROUP_PACKETS ≡ 0
        → Fills plan filler.new (stream ++ packets.old) ((length (stream ++ packets.old) - 1) / 4) }
    ensures filled { result ≡ placeholders packets.old }
{
    let mut filled = 0;
    let mut done = 0;
    while done < packets.len() {
        let end = packets.len().min(done + GROUP_PACKETS);
        filler.begin(told);
        filled += make_group(filler, first + done as u64, &mut packets[done..end]);
        done = end;
    }
    filled
}

/// Turns the packets of a group of the stream into those of the feed, in place, and answers how many placeholders it
/// filled. `first` is the index of the group's first packet.
fn make_group(filler: &mut Filler, first: u64, packets: &mut [[u8; PACKET]]) -> u64
    requires few { length packets.old ≤ GROUP_PACKETS }
    requires most { first + length packets.old ≤ MOST_PACKETS }
    ensures fed { (plan : Plan) (stream : List (List ℕ)) → Fills plan filler.old stream (first / GROUP_PACKETS)
        → length stream ≡ first → first % GROUP_PACKETS ≡ 0
        → (placeholders packets.old ≡ 0) ⊎ (filler.old.states ≡ states (feed plan stream))
        → packets.new ≡ drop (length stream) (feed plan (stream ++ packets.old)) }
    ensures fills { (plan : Plan) (stream : List (List ℕ)) → Fills plan filler.old stream (first / GROUP_PACKETS)
        → length stream ≡ first → first % GROUP_PACKETS ≡ 0
        → Fills plan filler.new (stream ++ packets.old) (first / GROUP_PACKETS) }
    ensures filled { result ≡ placeholders packets.old }
{
    let mut filled = 0;
    for i in 0..packets.len() {
        if filler.make(first + i as u64, &mut packets[i]) {
            filled += 1;
        }
    }
    filled
}
