// Reading the table `net`.
ghost use Rattle.toml.specs.View.{table_view};
ghost use Rattle.dtx_plan.specs.Rows.{IsAnswer};
ghost use Rattle.dtx_plan.specs.NetTable as spec;

use crate::event::Events;
use crate::event_table::events;
use crate::key::PlanKey;
use crate::plan::NetPlan;
use crate::receive_table::receive;
use crate::refusal::{PlanFault, PlanNo};
use crate::rows::{Row, known, member, table};
use crate::rule::PlanRule;
use crate::transmitters::Transmitters;
use dtx_outside::Word;
use std::alloc::Global;
use toml::Table;

/// The keys of the table.
const KEYS: &[&str] = &["stream", "event", "receive"];

/// Reads the table `net`, which says what is done with the transmitters. Gives `None` where the table is absent.
#[tactic(auto, unfolding(crate::specs::NetTable::net_of))]
pub(crate) fn net(
    alloc: Global,
    transmitters: &Transmitters,
    root: &Table,
) -> Result<Option<NetPlan>, PlanFault>
    ensures { IsAnswer (spec.net transmitters.now (table_view root.now)) result }
{
    let Some(value) = member(root, "net") else {
        return Ok(None);
    };
    let entry = table(value, PlanKey::Net, 0)?;
    known(entry, KEYS, PlanKey::Net, 0)?;
    let stream = stream(alloc, entry)?;
    let events = events(alloc, transmitters, entry)?;
    let receive = receive(alloc, transmitters, entry)?;
    Ok(Some(NetPlan {
        stream,
        events,
        receive,
    }))
}

/// Reads `stream`, which names the file of the stream.
fn stream(alloc: Global, entry: &Table) -> Result<Word, PlanFault>
    ensures { IsAnswer (spec.stream (table_view entry.now)) result }
{
    let name = Row::new(entry, "stream", PlanKey::Stream, 0).text()?;
    if name.is_empty() || name.len() > 255 {
        return Err(PlanFault::No(PlanNo::new(PlanKey::Stream, 0, PlanRule::Range)));
    }
    match String::from_str(alloc, name) {
        Ok(text) => Ok(Word::new(text)),
        Err(_) => Err(PlanFault::Memory),
    }
}
