// Why there is no next packet.
use dtx_outside::ReadNo;
use thiserror::Error;

/// Why a reader of packets gave none.
#[derive(Clone, Copy, Debug, PartialEq, Eq, Error)]
pub enum NextNo {
    /// The file isn't there.
    #[error("Absent")]
    Absent,
    /// Reading the file failed.
    #[error("Failed")]
    Failed,
    /// Out of memory.
    #[error("Memory")]
    Memory,
    /// The file has more packets than the reader's limit allows.
    #[error("TooLong")]
    TooLong,
}

impl From<ReadNo> for NextNo {
    ghost use Rattle.std.specs.Prelude.{◌≡◌};
    ghost use Rattle.dtx_packets.specs.Refusal.{next_no_of};

    ghost from_gives = { λ read next. next ≡ next_no_of read };

    fn from(no: ReadNo) -> NextNo {
        match no {
            ReadNo::Absent => NextNo::Absent,
            ReadNo::Failed => NextNo::Failed,
            ReadNo::Memory => NextNo::Memory,
        }
    }
}
