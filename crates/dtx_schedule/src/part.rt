// Reading the packets of the feed for an event.
ghost use Rattle.std.specs.Prelude.{◌≡◌, ◌<◌, ◌≤◌, ℕ, List, Some, IfErr, IfOk, IfSome, length};
ghost use Rattle.std.specs.FinMap as files;
ghost use Rattle.dtx_outside.specs.Counts.{HasGone};
ghost use Rattle.dtx_meaning.specs.Status.{blame_of_answer};
ghost use Rattle.dtx_packets.specs.Packets.{most_packets, whole_packets};
ghost use Rattle.dtx_plan.specs.Sound.{IsPart};
ghost use Rattle.dtx_words.specs.Names.{feed_name};
ghost use Rattle.dtx_schedule.specs.PlayedSoFar.{IsOfFeed, IsPacketOf, IsPieceCount, IsPieceOf, of_next};

use dtx_meaning::Status;
use dtx_outside::Shelf;
use dtx_packets::{NextNo, PIECE_PACKETS, Packet, PacketReader};
use dtx_words::feed_name;

/// The number of the feed among the inputs of the command.
const FEED: u8 = 2;

/// A range of packets of the feed, and the number of the event that reads them.
#[derive(Clone, Copy)]
pub(crate) struct Part {
    pub event: u32,
    pub from: u64,
    pub count: u64,
}

/// Reads packet `from` of the feed, for event `event`.
pub(crate) fn read_one<S: Shelf>(shelf: &mut S, event: u32, from: u64) -> Result<Packet, Status>
    requires { from < most_packets }
    ensures told { IfSome (S.files shelf.old) (λ held. (feed : List ℕ) → files.get held feed_name ≡ Some feed
        → from < whole_packets feed → IsPacketOf feed from result) }
    ensures kept { S.files shelf.new ≡ S.files shelf.old }
    ensures refusal { IfErr result IsOfFeed }
    ensures gone { HasGone (S.counts shelf.old) (S.counts shelf.new) (blame_of_answer result) }
{
    match PacketReader::at(from, 1).next(shelf, feed_name()) {
        Ok(Some(packet)) => Ok(packet),
        Ok(None) => Err(Status::OutOfFeed(event)),
        Err(cause) => Err(of_next(cause)),
    }
}

/// Reads the first packets of a part into the front of `into`, at most as many as it has room for. Returns how many
/// they are.
pub(crate) fn read_piece<S: Shelf>(
    shelf: &mut S,
    part: &Part,
    packets: &mut [Packet],
) -> Result<usize, Status>
    requires room { length packets.old ≡ PIECE_PACKETS }
    requires part { IsPart part.now.from part.now.count }
    ensures told { IfSome (S.files shelf.old) (λ held. (feed : List ℕ) → files.get held feed_name ≡ Some feed
        → part.now.from < whole_packets feed → IsPieceOf feed part.now.from result packets.new) }
    ensures count { IfOk result (IsPieceCount part.now.count packets.new) }
    ensures kept { S.files shelf.new ≡ S.files shelf.old }
    ensures refusal { IfErr result IsOfFeed }
    ensures gone { HasGone (S.counts shelf.old) (S.counts shelf.new) (blame_of_answer result) }
{
    match PacketReader::at(part.from, part.count).next_many(shelf, feed_name(), packets) {
        Ok(0) => Err(Status::OutOfFeed(part.event)),
        Ok(count) => Ok(count),
        Err(cause) => Err(of_next(cause)),
    }
}

/// The status after a refusal to read the feed.
fn of_next(cause: NextNo) -> Status
    ensures status { result ≡ of_next cause }
    ensures refusal { IsOfFeed result }
{
    match cause {
        NextNo::Absent => Status::Absent(FEED),
        NextNo::Failed => Status::ReadFault,
        NextNo::Memory => Status::Memory,
        NextNo::TooLong => Status::TooLong,
    }
}
