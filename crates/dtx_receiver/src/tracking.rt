//! What the receiver takes a segment for.

/// What a segment is, given the segments before it.
#[derive(Clone, Copy, Debug, PartialEq, Eq)]
pub enum Tracking {
    /// No run is on, and the segment doesn't look like a field sync.
    Searching,
    /// No run was on, and one begins with this segment, which looks like a field sync.
    Began,
    /// A field sync was due in a run, and this segment looks like one.
    Sync,
    /// One of the 312 data segments after a field sync.
    Data,
    /// A field sync was due, and this segment doesn't look like one: the run has ended before it.
    Ended,
}
