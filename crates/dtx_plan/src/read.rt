// Reading a plan, and a file of changes.
ghost use Rattle.std.specs.Prelude.{IfOk};
ghost use Rattle.toml.specs.View.{table_view};
ghost use Rattle.dtx_plan.specs.Rows.{IsAnswer, seen_by};
ghost use Rattle.dtx_plan.specs.Sound.{IsSound, HasSoundNet, AreDamages};
ghost use Rattle.dtx_plan.specs.Plan as spec;

use crate::damage::Damages;
use crate::key::PlanKey;
use crate::limits::MOST_BYTES;
use crate::plan::Plan;
use crate::refusal::{PlanFault, PlanNo};
use crate::root_table::{changes, plan};
use crate::rule::PlanRule;
use std::alloc::Global;
use toml::Table;

/// Reads a plan from the bytes of its file (the profile's own format). The error is the first rule that the plan
/// breaks, or out of memory.
///
/// The rules are checked in a fixed order, and not in that of the text: `start`, `max_delay`, `transmitter` and `net`,
/// entry by entry, and in each table key by key. Before the values of a table its keys are checked, each of which has
/// to be known. In an event `do` comes first of all, since it says which keys the event may have. Memory may run out at
/// any step.
pub fn read_plan(alloc: Global, bytes: &[u8]) -> Result<Plan, PlanFault>
    ensures walk { IsAnswer (spec.plan_of bytes.now) result }
    ensures sound { IfOk result IsSound }
    ensures net { IfOk result HasSoundNet }
{
    let root = root(alloc, bytes)?;
    plan(alloc, &root)
}

/// Reads damage from the bytes of a file of changes (the profile's own format). Such a file is one array `damage`, as a
/// plan has it. The error is the first rule that it breaks, or out of memory.
pub fn read_changes(alloc: Global, bytes: &[u8]) -> Result<Damages, PlanFault>
    ensures walk { IsAnswer (spec.changes_of bytes.now) result }
    ensures sound { IfOk result AreDamages }
{
    let root = root(alloc, bytes)?;
    changes(alloc, &root)
}

/// Reads the bytes as a TOML table.
fn root(alloc: Global, bytes: &[u8]) -> Result<Table, PlanFault>
    ensures { IsAnswer (spec.root_of bytes.now) (seen_by table_view result) }
{
    if bytes.len() > MOST_BYTES {
        return Err(PlanFault::No(PlanNo::new(PlanKey::Whole, 0, PlanRule::Size)));
    }
    match toml::table_from_slice(alloc, bytes) {
        Ok(root) => Ok(root),
        Err(error) if error.is_memory() => Err(PlanFault::Memory),
        Err(_) => Err(PlanFault::No(PlanNo::new(PlanKey::Whole, 0, PlanRule::Text))),
    }
}
