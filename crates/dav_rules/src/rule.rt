//! One rule.
ghost use Rattle.std.specs.Prelude.{◌≡◌, map, is_some, option_map};
ghost use Rattle.toml.specs.Data.{get_member};
ghost use Rattle.toml.specs.View.{view, table_view};
ghost use Rattle.dav_rules.specs.Rules.{Reads, rule_value, rule_of, has_only};

use crate::allow::read_allowed;
use crate::error::RuleFault;
use crate::place::read_place;
use crate::who::read_who;
use dav_rights::WrittenRule;
use std::alloc::Global;
use toml::{Table, Value};

/// The keys that a rule may have.
const KEYS: [&str; 6] = ["user", "group", "everyone", "at", "at_and_below", "allow"];

/// Reads a rule, with these groups.
pub(crate) fn read_rule(
    alloc: Global,
    groups: Option<&Value>,
    rule: &Value,
) -> Result<WrittenRule, RuleFault>
    ensures { Reads rule_value result (rule_of (option_map (λ v. view v.now) groups.entry) (view rule.now)) }
{
    let Some(table) = rule.as_table() else {
        return Err(RuleFault::NoTable);
    };
    if !has_only(table, &KEYS) {
        return Err(RuleFault::UnknownKey);
    }
    let who = read_who(alloc, groups, rule)?;
    let (key, below) = read_place(alloc, rule)?;
    let Some(allowed) = read_allowed(rule) else {
        return Err(RuleFault::Allow);
    };
    Ok(WrittenRule {
        who,
        key,
        below,
        allowed,
    })
}

/// Whether a table has no other keys than these, which are distinct.
pub(crate) fn has_only(table: &Table, keys: &[&str]) -> bool
    ensures { result ≡ has_only (map (λ k. k.now) keys.now) (table_view table.now) }
{
    let mut found = 0;
    for key in keys {
        if has_key(table, key) {
            found += 1;
        }
    }
    table.len() == found
}

/// Whether a table has this key.
fn has_key(table: &Table, key: &str) -> bool
    ensures { result ≡ is_some (get_member key.now (table_view table.now)) }
{
    member(table, key).is_some()
}

/// Returns the value at a key.
pub(crate) fn member<'t>(table: &'t Table, key: &str) -> Option<&'t Value>
    ensures { option_map (λ v. view v.now) result ≡ get_member key.now (table_view table.now) }
{
    table.get(key)
}
