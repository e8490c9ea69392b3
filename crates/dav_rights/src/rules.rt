//! Rules as they are written, and those that apply to a caller.
ghost use Rattle.std.specs.Prelude.{◌≡◌, IfOk, IfSome, bytes_eq, option_copied};
ghost use Rattle.std.specs.List.{list_any};
ghost use Rattle.dav_key.specs.Flat.{IsFlatSegment};
ghost use Rattle.dav_rights.specs.Rules.{is_for, own_segment, segment_for, key_for, rule_for, is_misnamed, has_user_segment, is_by_name, is_barred, rules_for};

use crate::rights::Rights;
use crate::rule::{Allowed, Rule};
use dav_key::{FlatKey, KeyBuilder};
use dav_resource::{Text, is_segment};
use std::alloc::{AllocError, Global};

/// The segment of a rule's path that stands for the name of the caller.
const CALLER: &str = "{user}";

/// For whom a rule is made.
#[derive(Debug, Drop)]
pub enum Who {
    /// For each caller, also one without a name.
    Everyone,
    /// For the callers with these names.
    OneOf(Vec<Text>),
}

impl Who {
    /// Whether this is a caller with this name, or one without a name.
    fn is_for(&self, caller: Option<&str>) -> bool
        ensures { result ≡ is_for (option_copied caller.entry) self.now }
    {
        match (self, caller) {
            (Who::Everyone, _) => true,
            (Who::OneOf(names), Some(caller)) => is_among(caller, names),
            (Who::OneOf(_), None) => false,
        }
    }
}

/// Whether a name is one of these.
fn is_among(name: &str, names: &[Text]) -> bool
    ensures { result ≡ list_any (bytes_eq name.now) names.now }
{
    names.iter().any(|other| name == other.as_str())
}

/// A rule as it is written.
#[derive(Debug, Drop)]
pub struct WrittenRule {
    pub who: Who,
    /// The key of the resource for which it is made. A segment `{user}` stands for the name of the caller.
    pub key: FlatKey,
    /// Whether it is made for all resources below that one too.
    pub below: bool,
    pub allowed: Allowed,
}

impl WrittenRule {
    /// Returns the rule for a caller with this name, or one without a name, if it applies to it. `number` is its number
    /// among all rules.
    fn rule_for(
        &self,
        alloc: Global,
        number: usize,
        caller: Option<&str>,
    ) -> Result<Option<Rule>, AllocError>
        ensures { IfOk result (λ rule. rule ≡ rule_for number (option_copied caller.entry) self.now) }
    {
        if !self.who.is_for(caller) {
            return Ok(None);
        }
        let Some(key) = key_for(alloc, &self.key, caller)? else {
            return Ok(None);
        };
        Ok(Some(Rule {
            number,
            key,
            below: self.below,
            allowed: self.allowed,
        }))
    }

    /// Whether the rule is for this caller, and its path has `{user}`.
    fn is_by_name(&self, caller: Option<&str>) -> bool
        ensures { result ≡ is_by_name (option_copied caller.entry) self.now }
    {
        self.who.is_for(caller) && has_user_segment(&self.key)
    }
}

/// The rules of a server, in order.
#[derive(Debug, Drop)]
pub struct Rules {
    pub rules: Vec<WrittenRule>,
}

impl Rules {
    /// Returns the rules that apply to a caller with this name, or to one without a name, in their order. A rule whose
    /// path has `{user}` does not apply to a caller without a name.
    ///
    /// No rule applies to a caller whose name may not be a segment of a path, if a rule for it has `{user}` in its path:
    /// that rule may take rights away, so nothing is allowed. Fails only if memory runs out.
    pub fn rights_of(&self, alloc: Global, caller: Option<&str>) -> Result<Rights, AllocError>
        ensures { IfOk result (λ rights. rights.rules.items ≡ rules_for (option_copied caller.entry) self.now.rules.items) }
    {
        let mut own = Vec::new(alloc);
        if self.bars(caller) {
            return Ok(Rights { rules: own });
        }
        for (index, rule) in self.rules.iter().enumerate() {
            if let Some(rule) = rule.rule_for(alloc, index + 1, caller)? {
                own.push(rule)?;
            }
        }
        Ok(Rights { rules: own })
    }

    /// Whether nothing is allowed to this caller, because a rule for it has `{user}` in its path, and its name may not be
    /// a segment.
    fn bars(&self, caller: Option<&str>) -> bool
        ensures { result ≡ is_barred (option_copied caller.entry) self.now.rules.items }
    {
        is_misnamed(caller) && self.has_rule_by_name(caller)
    }

    /// Whether one of the rules is for this caller and has `{user}` in its path.
    fn has_rule_by_name(&self, caller: Option<&str>) -> bool
        ensures { result ≡ list_any (is_by_name (option_copied caller.entry)) self.now.rules.items }
    {
        self.rules.iter().any(|rule| rule.is_by_name(caller))
    }
}

/// Whether a caller has a name that may not be a segment.
fn is_misnamed(caller: Option<&str>) -> bool
    ensures { result ≡ is_misnamed (option_copied caller.entry) }
{
    match caller {
        Some(name) => !is_segment(name),
        None => false,
    }
}

/// Whether the path of a rule has `{user}`.
fn has_user_segment(key: &FlatKey) -> bool
    ensures { result ≡ has_user_segment key.now }
{
    key.segments().any(|segment| segment == CALLER)
}

/// Returns the key with the name of the caller for each `{user}`, if it has none or the name may be a segment.
fn key_for(
    alloc: Global,
    key: &FlatKey,
    caller: Option<&str>,
) -> Result<Option<FlatKey>, AllocError>
    ensures { IfOk result (λ found. found ≡ key_for (option_copied caller.entry) key.now) }
{
    let mut own = KeyBuilder::with_capacity(alloc, key.len())?;
    for segment in key.segments() {
        let Some(segment) = segment_for(segment, caller) else {
            return Ok(None);
        };
        own.push(segment)?;
    }
    Ok(Some(own.finish()?))
}

/// Returns the segment, or the name of the caller for `{user}`, if that may be a segment.
fn segment_for<'a>(segment: &'a str, caller: Option<&'a str>) -> Option<&'a str>
    requires { IsFlatSegment segment.now }
    ensures value { option_copied result ≡ segment_for (option_copied caller.entry) segment.now }
    ensures segment { IfSome result (λ own. IsFlatSegment own.now) }
{
    if segment == CALLER {
        own_segment(caller)
    } else {
        Some(segment)
    }
}

/// Returns the name of the caller, if it may be a segment.
fn own_segment<'a>(caller: Option<&'a str>) -> Option<&'a str>
    ensures value { option_copied result ≡ own_segment (option_copied caller.entry) }
    ensures segment { IfSome result (λ own. IsFlatSegment own.now) }
{
    match caller {
        Some(name) if is_segment(name) => Some(name),
        _ => None,
    }
}
