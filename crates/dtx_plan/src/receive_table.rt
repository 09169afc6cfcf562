// Reading the table `receive`.
ghost use Rattle.toml.specs.View.{table_view};
ghost use Rattle.dtx_plan.specs.Rows.{IsAnswer};
ghost use Rattle.dtx_plan.specs.NetTable as spec;

use crate::damage::Damages;
use crate::damage_table::damages;
use crate::key::PlanKey;
use crate::plan::ReceivePlan;
use crate::refusal::{PlanFault, PlanNo};
use crate::rows::{Row, known, member, table};
use crate::rule::PlanRule;
use crate::transmitters::Transmitters;
use std::alloc::Global;
use toml::Table;

/// The keys of the table.
const KEYS: &[&str] = &["from", "damage"];

/// Reads the table `receive`, which says what is received. Gives `None` where the table is absent.
#[tactic(auto, unfolding(crate::specs::NetTable::receive_of))]
pub(crate) fn receive(
    alloc: Global,
    transmitters: &Transmitters,
    net: &Table,
) -> Result<Option<ReceivePlan>, PlanFault>
    ensures { IsAnswer (spec.receive transmitters.now (table_view net.now)) result }
{
    let Some(value) = member(net, "receive") else {
        return Ok(None);
    };
    let entry = table(value, PlanKey::Receive, 0)?;
    known(entry, KEYS, PlanKey::Receive, 0)?;
    let from = Row::new(entry, "from", PlanKey::ReceiveFrom, 0).whole(0, 65535)? as u16;
    if !transmitters.has(from) {
        return Err(PlanFault::No(PlanNo::new(PlanKey::ReceiveFrom, 0, PlanRule::Stranger)));
    }
    let damage = damages(alloc, entry)?;
    Ok(Some(ReceivePlan { from, damage }))
}
