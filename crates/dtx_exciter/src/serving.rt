// Whether a transmitter is served under an order, and the preset of the order.
ghost use Rattle.std.specs.Prelude.{◌≡◌, ◌<◌, pos, ◌+ℤ◌, ◌-ℤ◌, option_map};
ghost use Rattle.dtx_ops.specs.Spelling.{IsValid};
ghost use Rattle.dtx_exciter.specs.Pages.{offset_of};
ghost use Rattle.dtx_exciter.specs.Told.{left_of, preset_of, told_why};
ghost use Rattle.dtx_exciter.specs.Step.{served_by};

use crate::answers::{Preset, Told, Why};
use crate::pages::Pages;
use dtx_clock::{hold, moment};
use dtx_ops::{Entry, Ops};

/// The hold in ticks of 100 ns under an order of this maximum delay, or why nothing is sent. `Err(None)` means that the
/// transmitter waits for its page.
pub(crate) fn served(delay: u32, max_delay: u32, pages: &Pages) -> Result<u32, Option<Why>>
    requires { max_delay < 10000000 }
    ensures { result ≡ served_by delay max_delay pages.now }
{
    match pages.entry() {
        Some(entry) => hold_left(delay, max_delay, entry),
        None if pages.all_told() => Err(Some(Why::Unlisted)),
        None => Err(None),
    }
}

/// The preset of an order whose group begins at this place of its frame, with this hold in ticks.
pub(crate) fn preset_of(ops: &Ops, pages: &Pages, place: u16, hold: u32) -> Preset
    requires valid { IsValid ops.now }
    requires place { place < 624 }
    ensures { result ≡ preset_of ops.now (offset_of (option_map (λ h. h.entry) pages.now.held)) place hold }
{
    let offset = match pages.entry() {
        Some(entry) => entry.offset,
        None => 0,
    };
    Preset {
        frame: ops.frame,
        packet: place,
        moment: moment(ops.stamp, ops.max_delay, offset, place),
        hold,
    }
}

/// The answer at an order under which nothing is sent.
pub(crate) fn told_why(why: Option<Why>) -> Told
    ensures { result ≡ told_why why }
{
    match why {
        Some(why) => Told::Muted(why),
        None => Told::Quiet,
    }
}

fn hold_left(delay: u32, max_delay: u32, entry: Entry) -> Result<u32, Option<Why>>
    requires { max_delay < 10000000 }
    ensures { result ≡ left_of (pos max_delay +ℤ entry.offset -ℤ pos delay) }
{
    match hold(max_delay, entry.offset, delay) {
        Ok(left) => Ok(left),
        Err(_) => Err(Some(Why::Late)),
    }
}
