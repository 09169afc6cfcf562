// The checks that all tables of a plan share: a key is missing, a value has the wrong kind or range, a key is unknown.
ghost use Rattle.std.specs.Prelude.{◌≡◌, ◌≤◌, ◌≤ℤ◌, IfOk, map, option_map, length};
ghost use Rattle.toml.specs.View.{view, table_view, items_view};
ghost use Rattle.toml.specs.Data.{get_member};
ghost use Rattle.dtx_plan.specs.Rows.{seen_by};
ghost use Rattle.dtx_plan.specs.Rows as spec;

use crate::key::PlanKey;
use crate::refusal::PlanNo;
use crate::rule::PlanRule;
use toml::{Table, Value};

/// A row of a table: the value of a key, if there is one, and how a refusal names the key.
#[derive(Clone, Copy)]
pub(crate) struct Row<'a> {
    value: Option<&'a Value>,
    key: PlanKey,
    item: u32,
}

impl<'a> Row<'a> {
    /// The row of the key `name` of a table. A refusal names it by `key`, and by the number `item` of the entry.
    pub(crate) fn new(table: &'a Table, name: &str, key: PlanKey, item: u32) -> Row<'a>
        ensures value { option_map (λ v. view v.now) result.value ≡ get_member name.now (table_view table.now) }
        ensures key { result.key ≡ key }
        ensures item { result.item ≡ item }
    {
        Row {
            value: member(table, name),
            key,
            item,
        }
    }

    fn refusal(self, rule: PlanRule) -> PlanNo
        ensures { result ≡ record { key = self.entry.key; item = self.entry.item; rule = rule } }
    {
        PlanNo::new(self.key, self.item, rule)
    }

    /// The value as a whole number from `least` to `most`.
    pub(crate) fn whole(self, least: u64, most: u64) -> Result<u64, PlanNo>
        ensures row { result
            ≡ spec.whole (option_map (λ v. view v.now) self.entry.value) self.entry.key self.entry.item least most }
        ensures within { IfOk result (λ n. (least ≤ n) × (n ≤ most)) }
    {
        match self.value {
            Some(value) => self.whole_value(value, least, most),
            None => Err(self.refusal(PlanRule::Missing)),
        }
    }

    /// The value as a whole number from `least` to `most`, or `absent` where the key is missing.
    pub(crate) fn whole_or(self, absent: u64, least: u64, most: u64) -> Result<u64, PlanNo>
        requires { (least ≤ absent) × (absent ≤ most) }
        ensures row { result
            ≡ spec.whole_or absent (option_map (λ v. view v.now) self.entry.value) self.entry.key self.entry.item
            least most }
        ensures within { IfOk result (λ n. (least ≤ n) × (n ≤ most)) }
    {
        match self.value {
            Some(value) => self.whole_value(value, least, most),
            None => Ok(absent),
        }
    }

    fn whole_value(self, value: &Value, least: u64, most: u64) -> Result<u64, PlanNo>
        ensures row { result ≡ spec.whole_value (view value.now) self.entry.key self.entry.item least most }
        ensures within { IfOk result (λ n. (least ≤ n) × (n ≤ most)) }
    {
        let number = match value.as_integer() {
            Some(number) if 0 <= number => number as u64,
            Some(_) => return Err(self.refusal(PlanRule::Range)),
            None => return Err(self.refusal(PlanRule::Kind)),
        };
        if least <= number && number <= most {
            Ok(number)
        } else {
            Err(self.refusal(PlanRule::Range))
        }
    }

    /// The value as a number of either sign, from `least` to `most`.
    pub(crate) fn signed(self, least: i64, most: i64) -> Result<i64, PlanNo>
        ensures row { result
            ≡ spec.signed (option_map (λ v. view v.now) self.entry.value) self.entry.key self.entry.item least most }
        ensures within { IfOk result (λ n. (least ≤ℤ n) × (n ≤ℤ most)) }
    {
        match self.value {
            Some(value) => match value.as_integer() {
                Some(number) if least <= number && number <= most => Ok(number),
                Some(_) => Err(self.refusal(PlanRule::Range)),
                None => Err(self.refusal(PlanRule::Kind)),
            },
            None => Err(self.refusal(PlanRule::Missing)),
        }
    }

    /// The value as a text.
    pub(crate) fn text(self) -> Result<&'a str, PlanNo>
        ensures { seen_by (λ s. s.now) result
            ≡ spec.text (option_map (λ v. view v.now) self.entry.value) self.entry.key self.entry.item }
    {
        match self.value {
            Some(value) => match value.as_str() {
                Some(found) => Ok(found),
                None => Err(self.refusal(PlanRule::Kind)),
            },
            None => Err(self.refusal(PlanRule::Missing)),
        }
    }

    /// The value as an array of `least` to `most` entries.
    pub(crate) fn array(self, least: usize, most: usize) -> Result<&'a [Value], PlanNo>
        ensures row { seen_by (λ v. items_view v.now) result
            ≡ spec.array (option_map (λ v. view v.now) self.entry.value) self.entry.key self.entry.item least most }
        ensures within { IfOk result (λ v. (least ≤ length v.now) × (length v.now ≤ most)) }
    {
        match self.value {
            Some(value) => self.array_value(value, least, most),
            None => Err(self.refusal(PlanRule::Missing)),
        }
    }

    /// The value as an array of at most `most` entries, or an empty array where the key is missing.
    pub(crate) fn array_or_none(self, most: usize) -> Result<&'a [Value], PlanNo>
        ensures row { seen_by (λ v. items_view v.now) result
            ≡ spec.array_or_none (option_map (λ v. view v.now) self.entry.value) self.entry.key self.entry.item
            most }
        ensures within { IfOk result (λ v. length v.now ≤ most) }
    {
        match self.value {
            Some(value) => self.array_value(value, 0, most),
            None => Ok(&[]),
        }
    }

    #[tactic(auto, using(crate::proofs::Items::count_of_view))]
    fn array_value<'b>(
        self,
        value: &'b Value,
        least: usize,
        most: usize,
    ) -> Result<&'b [Value], PlanNo>
        ensures row { seen_by (λ v. items_view v.now) result
            ≡ spec.array_value (view value.now) self.entry.key self.entry.item least most }
        ensures within { IfOk result (λ v. (least ≤ length v.now) × (length v.now ≤ most)) }
    {
        let found = match value.as_array() {
            Some(found) => found.as_slice(),
            None => return Err(self.refusal(PlanRule::Kind)),
        };
        if least <= found.len() && found.len() <= most {
            Ok(found)
        } else {
            Err(self.refusal(PlanRule::Range))
        }
    }
}

/// The value as a table.
pub(crate) fn table(value: &Value, key: PlanKey, item: u32) -> Result<&Table, PlanNo>
    ensures { seen_by (λ t. table_view t.now) result ≡ spec.table (view value.now) key item }
{
    match value.as_table() {
        Some(found) => Ok(found),
        None => Err(PlanNo::new(key, item, PlanRule::Kind)),
    }
}

/// Checks that each key of the table is one of these names.
pub(crate) fn known(table: &Table, names: &[&str], key: PlanKey, item: u32) -> Result<(), PlanNo>
    ensures { result ≡ spec.known (map (λ n. n.now) names.now) (table_view table.now) key item }
{
    for (name, _) in table.iter() {
        if !is_listed(name.as_str(), names) {
            return Err(PlanNo::new(key, item, PlanRule::Unknown));
        }
    }
    Ok(())
}

fn is_listed(name: &str, names: &[&str]) -> bool
    ensures { result ≡ spec.is_listed name.now (map (λ n. n.now) names.now) }
{
    names.contains(&name)
}

/// The value of a key, if the table has it.
pub(crate) fn member<'a>(table: &'a Table, name: &str) -> Option<&'a Value>
    ensures { option_map (λ v. view v.now) result ≡ get_member name.now (table_view table.now) }
{
    table.get(name)
}
