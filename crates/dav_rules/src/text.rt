//! The rules of a text.
ghost use Rattle.std.specs.Prelude.{◌≡◌, ◌⊎◌, map, IfOk, IfErr, Some, None};
ghost use Rattle.toml.specs.View.{view};
ghost use Rattle.dav_rules.specs.Rules.{rule_value, rules_in, are_groups, rules_at, data_of, HasRules, HasNoRules};

use crate::error::{RuleFault, RulesError};
use crate::rule::{has_only, member, read_rule};
use dav_rights::{Rules, WrittenRule};
use std::alloc::Global;
use toml::Value;

/// Reads the rules of a text in TOML.
///
/// Errors: `Toml` if it is not TOML; `Keys` if it has other keys than `groups` and `rule`, `groups` is no table, or `rule` is
/// no list; `Rule` if a rule does not say for whom, where and what, or says more; `Memory` at any time.
pub fn read_rules(alloc: Global, text: &str) -> Result<Rules, RulesError>
    ensures ok { IfOk result (λ rules. HasRules text.now rules.rules.items) }
    ensures err { IfErr result (λ e. (e ≡ RulesError.Memory) ⊎ HasNoRules text.now) }
{
    let document = match toml::table_from_str(alloc, text) {
        Ok(document) => document,
        Err(error) if error.is_memory() => return Err(RulesError::Memory),
        Err(error) => return Err(RulesError::Toml(error)),
    };
    let groups = member(&document, "groups");
    if !has_only(&document, &["groups", "rule"]) || !are_groups(groups) {
        return Err(RulesError::Keys);
    }
    match member(&document, "rule") {
        Some(rules) => read_list(alloc, groups, rules),
        None => Ok(Rules {
            rules: Vec::new(alloc),
        }),
    }
}

/// Whether the groups, if there are some, are a table.
fn are_groups(groups: Option<&Value>) -> bool
    ensures { result ≡ are_groups (data_of groups.entry) }
{
    match groups {
        Some(groups) => groups.is_table(),
        None => true,
    }
}

/// Reads a list of rules, with these groups.
fn read_list(alloc: Global, groups: Option<&Value>, rules: &Value) -> Result<Rules, RulesError>
    ensures ok { IfOk result (λ own. rules_in (data_of groups.entry) (Some (view rules.now)) ≡ Some (map rule_value own.rules.items)) }
    ensures err { IfErr result (λ e. (rules_in (data_of groups.entry) (Some (view rules.now)) ≡ None) ⊎ (e ≡ RulesError.Memory)) }
{
    let Some(rules) = rules.as_array() else {
        return Err(RulesError::Keys);
    };
    Ok(Rules {
        rules: read_each(alloc, groups, rules)?,
    })
}

/// Reads rules, with these groups.
fn read_each(
    alloc: Global,
    groups: Option<&Value>,
    values: &[Value],
) -> Result<Vec<WrittenRule>, RulesError>
    ensures ok { IfOk result (λ rules. rules_at (data_of groups.entry) values.now ≡ Some (map rule_value rules.items)) }
    ensures err { IfErr result (λ e. (rules_at (data_of groups.entry) values.now ≡ None) ⊎ (e ≡ RulesError.Memory)) }
{
    let mut rules = Vec::new(alloc);
    for value in values {
        match read_rule(alloc, groups, value) {
            Ok(rule) => rules.push(rule)?,
            Err(fault) => return Err(stopped_at(rules.len() + 1, fault)),
        }
    }
    Ok(rules)
}

/// Returns why reading stops at the rule of this number.
fn stopped_at(number: usize, fault: RuleFault) -> RulesError
    ensures { fault ≡ RuleFault.Memory → result ≡ RulesError.Memory }
{
    match fault {
        RuleFault::Memory => RulesError::Memory,
        fault => RulesError::Rule(number, fault),
    }
}
