// Why a packet does not read.
use thiserror::Error;

/// Why a packet isn't read. The rules are tried in this order, except that `Page` is tried before `Count`. From `Kind`
/// on they are rules on the corrected data.
#[derive(Clone, Copy, Debug, PartialEq, Eq, Error)]
pub enum OpsNo {
    /// The packet identifier isn't 0x1FFA.
    #[error("NotOps")]
    NotOps,
    /// No codeword lies within ten places of the payload.
    #[error("Uncorrectable")]
    Uncorrectable,
    /// The kind is neither 1 nor 2.
    #[error("Kind")]
    Kind,
    /// The four bits after the states aren't 0.
    #[error("Pad")]
    Pad,
    /// The stamp is 10,000,000 or more.
    #[error("Stamp")]
    Stamp,
    /// The maximum delay is 10,000,000 or more.
    #[error("Delay")]
    Delay,
    /// The index is 624 or more.
    #[error("Index")]
    Index,
    /// The count of entries is above 35 in kind 1, or above 34 in kind 2.
    #[error("Count")]
    Count,
    /// Two entries have one address.
    #[error("Twice")]
    Twice,
    /// A byte after the entries isn't 0.
    #[error("Fill")]
    Fill,
    /// The number of pages is 0 or above 30, or the page isn't below it. It is tried between `Index` and `Count`.
    #[error("Page")]
    Page,
}
