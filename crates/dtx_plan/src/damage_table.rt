// Reading the array `damage`.
ghost use Rattle.std.specs.Prelude.{◌≡◌};
ghost use Rattle.toml.specs.View.{view, table_view};
ghost use Rattle.dtx_plan.specs.Rows.{IsAnswer};
ghost use Rattle.dtx_plan.specs.NetTable.{damage_of};
ghost use Rattle.dtx_plan.specs.DamageTable as spec;

use crate::damage::{Damage, Damages};
use crate::key::PlanKey;
use crate::limits::{LAST_SYMBOL, MOST_DAMAGES};
use crate::refusal::{PlanFault, PlanNo};
use crate::rows::{Row, known, table};
use crate::rule::PlanRule;
use dtx_sizes::MOST_SYMBOLS;
use std::alloc::Global;
use toml::{Table, Value};

/// The keys of an entry.
const KEYS: &[&str] = &["at", "count", "put"];

/// Reads the array `damage` of a table, entry by entry. There are no entries where the key is absent.
pub(crate) fn damages(alloc: Global, entry: &Table) -> Result<Damages, PlanFault>
    ensures { IsAnswer (damage_of (table_view entry.now)) result }
{
    let values = Row::new(entry, "damage", PlanKey::Damage, 0).array_or_none(MOST_DAMAGES)?;
    let mut all = Vec::new(alloc);
    let mut end = 0;
    for value in values {
        let next = damage(end, all.len() as u32, value)?;
        end = next.at + next.count;
        all.push(next)?;
    }
    Ok(Damages { all })
}

/// Reads entry number `item`. The entry before it ends at offset `end`.
#[tactic(auto, unfolding(crate::specs::DamageTable::damage_from))]
fn damage(end: u64, item: u32, value: &Value) -> Result<Damage, PlanNo>
    ensures { result ≡ spec.damage_from end item (view value.now) }
{
    let entry = table(value, PlanKey::Damage, item)?;
    known(entry, KEYS, PlanKey::Damage, item)?;
    let at = Row::new(entry, "at", PlanKey::DamageAt, item).whole(0, LAST_SYMBOL)?;
    if at < end {
        return Err(PlanNo::new(PlanKey::DamageAt, item, PlanRule::Order));
    }
    let row = Row::new(entry, "count", PlanKey::DamageCount, item);
    let count = row.whole_or(1, 1, MOST_SYMBOLS)?;
    let put = Row::new(entry, "put", PlanKey::DamagePut, item).signed(-128, 127)? as i8;
    Ok(Damage { at, count, put })
}
