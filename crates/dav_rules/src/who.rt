//! For whom a rule is.
ghost use Rattle.std.specs.Prelude.{◌≡◌, IfOk, option_map};
ghost use Rattle.toml.specs.View.{view, items_view};
ghost use Rattle.toml.specs.Data.{as_str};
ghost use Rattle.dav_rules.specs.Rules.{Reads, names_in, names_of, everyone_by, user_by, group_by, each_of, list_of};

use crate::error::RuleFault;
use dav_resource::Text;
use dav_rights::Who;
use std::alloc::{AllocError, Global};
use toml::Value;

/// Reads for whom a rule is.
pub(crate) fn read_who(
    alloc: Global,
    groups: Option<&Value>,
    rule: &Value,
) -> Result<Who, RuleFault>
    ensures { Reads names_in result (names_of (option_map (λ v. view v.now) groups.entry) (view rule.now)) }
{
    match (rule.get("everyone"), rule.get("user"), rule.get("group")) {
        (Some(everyone), None, None) => is_everyone(everyone),
        (None, Some(user), None) => one_user(alloc, user),
        (None, None, Some(group)) => named_group(alloc, groups, group),
        _ => Err(RuleFault::Who),
    }
}

/// Returns everyone, if this is true.
fn is_everyone(everyone: &Value) -> Result<Who, RuleFault>
    ensures { Reads names_in result (everyone_by (view everyone.now)) }
{
    match everyone.as_bool() {
        Some(true) => Ok(Who::Everyone),
        _ => Err(RuleFault::Who),
    }
}

/// Returns the user of this name.
fn one_user(alloc: Global, user: &Value) -> Result<Who, RuleFault>
    ensures { Reads names_in result (user_by (view user.now)) }
{
    let Some(name) = user.as_str() else {
        return Err(RuleFault::Who);
    };
    let mut names = Vec::with_capacity(alloc, 1)?;
    names.push(text_of(alloc, name)?)?;
    Ok(Who::OneOf(names))
}

/// Returns the users of the group of this name.
fn named_group(alloc: Global, groups: Option<&Value>, group: &Value) -> Result<Who, RuleFault>
    ensures { Reads names_in result (group_by (option_map (λ v. view v.now) groups.entry) (view group.now)) }
{
    let Some(name) = group.as_str() else {
        return Err(RuleFault::Who);
    };
    let Some(members) = groups.and_then(|groups| groups.get(name)) else {
        return Err(RuleFault::NoGroup);
    };
    let Some(members) = members.as_array() else {
        return Err(RuleFault::NoGroup);
    };
    Ok(Who::OneOf(read_names(alloc, members)?))
}

/// Reads a list of names.
fn read_names(alloc: Global, values: &[Value]) -> Result<Vec<Text>, RuleFault>
    ensures { Reads (λ names. names.items) result (each_of as_str (list_of (items_view values.now))) }
{
    let mut names = Vec::with_capacity(alloc, values.len())?;
    for value in values {
        let Some(name) = value.as_str() else {
            return Err(RuleFault::NoGroup);
        };
        names.push(text_of(alloc, name)?)?;
    }
    Ok(names)
}

/// Copies a string.
fn text_of(alloc: Global, text: &str) -> Result<Text, AllocError>
    ensures { IfOk result (λ copy. copy ≡ text.now) }
{
    Ok(Text::from_string(String::from_str(alloc, text)?))
}
