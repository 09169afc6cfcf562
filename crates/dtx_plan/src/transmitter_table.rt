// Reading the array `transmitter`.
ghost use Rattle.std.specs.Prelude.{◌≡◌, ◌^◌, ◌<◌, ◌≤◌, [], length};
ghost use Rattle.toml.specs.View.{view, items_view};
ghost use Rattle.dtx_plan.specs.Rows.{IsAnswer, entries};
ghost use Rattle.dtx_plan.specs.TransmitterTable as spec;

use crate::key::PlanKey;
use crate::refusal::{PlanFault, PlanNo};
use crate::rows::{Row, known, table};
use crate::rule::PlanRule;
use crate::transmitter::Transmitter;
use crate::transmitters::Transmitters;
use dtx_sizes::MOST_TRANSMITTERS;
use std::alloc::Global;
use toml::Value;

/// The keys of an entry.
const KEYS: &[&str] = &["address", "offset", "delay"];

/// Reads the transmitters, entry by entry.
pub(crate) fn transmitters(alloc: Global, values: &[Value]) -> Result<Transmitters, PlanFault>
    requires { length values.now ≤ MOST_TRANSMITTERS }
    ensures { IsAnswer (entries spec.transmitter [] (items_view values.now)) result }
{
    let mut found = Transmitters::none(alloc);
    for value in values {
        let next = transmitter(&found, value)?;
        found.push(next)?;
    }
    Ok(found)
}

/// Reads the entry that follows the earlier ones.
#[tactic(auto, unfolding(crate::specs::TransmitterTable::transmitter))]
fn transmitter(earlier: &Transmitters, value: &Value) -> Result<Transmitter, PlanNo>
    requires { length earlier.now < 2 ^ 32 }
    ensures { result ≡ spec.transmitter earlier.now (view value.now) }
{
    let item = earlier.len() as u32;
    let entry = table(value, PlanKey::Transmitter, item)?;
    known(entry, KEYS, PlanKey::Transmitter, item)?;
    let address = Row::new(entry, "address", PlanKey::Address, item).whole(0, 65535)? as u16;
    if earlier.has(address) {
        return Err(PlanNo::new(PlanKey::Address, item, PlanRule::Twice));
    }
    let offset = Row::new(entry, "offset", PlanKey::Offset, item).signed(-32768, 32767)? as i16;
    let delay = Row::new(entry, "delay", PlanKey::Delay, item).whole_or(0, 0, 4294967295)? as u32;
    Ok(Transmitter {
        address,
        offset,
        delay,
    })
}
