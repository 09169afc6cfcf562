// Reading the root of a plan, and of a file of changes.
ghost use Rattle.toml.specs.View.{table_view};
ghost use Rattle.dtx_plan.specs.Rows.{IsAnswer};
ghost use Rattle.dtx_plan.specs.Plan as spec;

use crate::damage::Damages;
use crate::damage_table::damages;
use crate::key::PlanKey;
use crate::limits::LAST_TICK;
use crate::net_table::net;
use crate::plan::Plan;
use crate::refusal::PlanFault;
use crate::rows::{Row, known};
use crate::transmitter_table::transmitters;
use dtx_sizes::MOST_TRANSMITTERS;
use std::alloc::Global;
use toml::Table;

/// The keys of a plan.
const KEYS: &[&str] = &["start", "max_delay", "transmitter", "net"];

/// Reads the plan from the root table of its file.
#[tactic(auto, unfolding(crate::specs::Plan::plan))]
pub(crate) fn plan(alloc: Global, root: &Table) -> Result<Plan, PlanFault>
    ensures { IsAnswer (spec.plan (table_view root.now)) result }
{
    known(root, KEYS, PlanKey::Whole, 0)?;
    let start = Row::new(root, "start", PlanKey::Start, 0).whole(0, LAST_TICK)? as u32;
    let max_delay = Row::new(root, "max_delay", PlanKey::MaxDelay, 0).whole(0, LAST_TICK)? as u32;
    let row = Row::new(root, "transmitter", PlanKey::Transmitter, 0);
    let items = row.array(1, MOST_TRANSMITTERS)?;
    let transmitters = transmitters(alloc, items)?;
    let net = net(alloc, &transmitters, root)?;
    Ok(Plan {
        start,
        max_delay,
        transmitters,
        net,
    })
}

/// Reads the damage from the root table of a file of changes.
#[tactic(auto, unfolding(crate::specs::Plan::changes))]
pub(crate) fn changes(alloc: Global, root: &Table) -> Result<Damages, PlanFault>
    ensures { IsAnswer (spec.changes (table_view root.now)) result }
{
    known(root, &["damage"], PlanKey::Whole, 0)?;
    damages(alloc, root)
}
