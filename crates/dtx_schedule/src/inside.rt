// Whether a schedule stays within its feed.
ghost use Rattle.std.specs.Prelude.{◌≡◌, ◌<◌, ◌^◌, length};
ghost use Rattle.dtx_schedule.specs.Inside.{first_past_feed, reads_past};

use dtx_plan::{Event, Events};

/// The number of the first event that reads past the end of a feed of `packets` packets (the profile's own).
pub fn first_past_feed(events: &Events, packets: u64) -> Option<u32>
    requires { length events.now < 2 ^ 32 }
    ensures { result ≡ first_past_feed events.now packets }
{
    for i in 0..events.len() {
        if reads_past(packets, &events.get(i)) {
            return Some(i as u32);
        }
    }
    None
}

/// Whether the event reads past the end of a feed of `packets` packets.
fn reads_past(packets: u64, event: &Event) -> bool
    ensures { result ≡ reads_past packets event.now }
{
    match *event {
        Event::Send { from, count, .. } => packets < from || packets - from < count,
        Event::Flip { from, .. } | Event::Lie { from, .. } => packets <= from,
        Event::Foreign { .. } | Event::Restart { .. } => false,
    }
}
