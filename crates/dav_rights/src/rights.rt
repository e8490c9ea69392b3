//! What the rules of a caller allow.
ghost use Rattle.std.specs.Prelude.{◌≡◌, not, Some, map, option_copied};
ghost use Rattle.std.specs.List.{list_all, list_any};
ghost use Rattle.dav_rights.specs.Rights.{deciding, longer_of, decide, may_list, leads_to, lets, lets_at, lets_if_below, lets_below, is_free, permits_on, permits_between, permits, may_lock, explanation};

use crate::rule::{Allowed, Rule};
use dav_guarding::Policy;
use dav_key::FlatKey;
use dav_resource::{DavPath, Op};

/// The rules that apply to a caller, in order.
///
/// Of the rules that are made for a resource, the one with the longest key decides, and of several with the same
/// key the first. If there is none, nothing is allowed. What lies above a resource of which a rule allows something
/// may be listed.
#[derive(Debug, Drop)]
pub struct Rights {
    pub rules: Vec<Rule>,
}

/// What is allowed with a resource.
#[derive(Clone, Copy, Debug)]
pub struct Explanation {
    /// The number of the rule that decides, if one does: its place among all rules as they are written, from 1.
    pub rule: Option<usize>,
    /// What one may do. One may list also what is above a resource of which a rule allows something.
    pub allowed: Allowed,
}

/// What a resource has to allow, and all below it.
#[derive(Clone, Copy)]
enum Need {
    /// It is moved away.
    Take,
    /// It is made by a move.
    Make,
}

impl Need {
    /// Whether this is allowed.
    fn is_met(self, allowed: Allowed) -> bool
        ensures { result ≡ lets self allowed }
    {
        match self {
            Need::Take => allowed.read && allowed.write,
            Need::Make => allowed.write,
        }
    }
}

impl Rights {
    /// Whether a call on these paths is allowed.
    pub fn permits(&self, op: Op, paths: &[DavPath]) -> bool
        ensures { result ≡ permits self.now.rules.items op (map (λ path. path.key) paths.now) }
    {
        match paths {
            [] => is_free(op),
            [path] => self.permits_on(op, path.key()),
            [from, to, ..] => self.permits_between(op, from.key(), to.key()),
        }
    }

    /// Returns what is allowed with the resource with this key.
    pub fn explain(&self, key: &FlatKey) -> Explanation
        ensures { result ≡ explanation key.now self.now.rules.items }
    {
        Explanation {
            rule: match self.deciding(false, key) {
                Some(rule) => Some(rule.number),
                None => None,
            },
            allowed: Allowed {
                list: self.may_list(key),
                ..self.decide(false, key)
            },
        }
    }

    /// Whether a lock on the resource with this key is allowed: the caller may write there and, if the lock is `deep`,
    /// wherever something may be below it.
    pub fn may_lock(&self, key: &FlatKey, deep: bool) -> bool
        ensures { result ≡ may_lock key.now deep self.now.rules.items }
    {
        if deep {
            self.lets_below(Need::Make, key)
        } else {
            self.decide(false, key).write
        }
    }

    /// Whether a call on a resource is allowed.
    fn permits_on(&self, op: Op, key: &FlatKey) -> bool
        ensures { result ≡ permits_on self.now.rules.items op key.now }
    {
        match op {
            Op::Metadata | Op::FileMetadata | Op::ReadDir | Op::Entry => self.may_list(key),
            Op::ReadBytes | Op::GetProp | Op::GetProps => self.decide(false, key).read,
            _ => is_free(op) || self.decide(false, key).write,
        }
    }

    /// Whether a call on two resources is allowed.
    fn permits_between(&self, op: Op, from: &FlatKey, to: &FlatKey) -> bool
        ensures { result ≡ permits_between self.now.rules.items op from.now to.now }
    {
        match op {
            Op::Copy => self.decide(false, from).read && self.decide(false, to).write,
            Op::Rename => self.lets_below(Need::Take, from) && self.lets_below(Need::Make, to),
            _ => false,
        }
    }

    /// Whether a resource may be listed.
    fn may_list(&self, key: &FlatKey) -> bool
        ensures { result ≡ may_list key.now self.now.rules.items }
    {
        self.decide(false, key).list || self.leads_on(key)
    }

    /// Whether a resource is above one of which a rule allows something.
    fn leads_on(&self, key: &FlatKey) -> bool
        ensures { result ≡ list_any (leads_to key.now) self.now.rules.items }
    {
        self.rules.iter().any(|rule| rule.leads_to(key))
    }

    /// Whether a resource allows this, and all below it.
    fn lets_below(&self, need: Need, key: &FlatKey) -> bool
        ensures { result ≡ lets_below need self.now.rules.items key.now }
    {
        self.lets_at(need, key) && self.lets_at_each(need, key)
    }

    /// Whether the resources of all rules that are at or below this one allow this.
    fn lets_at_each(&self, need: Need, key: &FlatKey) -> bool
        ensures { result ≡ list_all (lets_if_below need self.now.rules.items key.now) self.now.rules.items }
    {
        self.rules
            .iter()
            .all(|rule| self.lets_if_below(need, key, rule))
    }

    /// Whether the resource of a rule allows this, if it is at or below this one.
    fn lets_if_below(&self, need: Need, key: &FlatKey, rule: &Rule) -> bool
        ensures { result ≡ lets_if_below need self.now.rules.items key.now rule.now }
    {
        !rule.key.is_at_or_below(key) || self.lets_at(need, &rule.key)
    }

    /// Whether a resource allows this, and what is below it as far as no rule has a longer key.
    fn lets_at(&self, need: Need, key: &FlatKey) -> bool
        ensures { result ≡ lets_at need self.now.rules.items key.now }
    {
        need.is_met(self.decide(false, key)) && need.is_met(self.decide(true, key))
    }

    /// What is allowed. With `strict` it is what is allowed below this resource as far as no rule has a longer key.
    fn decide(&self, strict: bool, key: &FlatKey) -> Allowed
        ensures { result ≡ decide strict key.now self.now.rules.items }
    {
        match self.deciding(strict, key) {
            Some(rule) => rule.allowed,
            None => Allowed::NOTHING,
        }
    }

    /// The rule that decides this.
    fn deciding(&self, strict: bool, key: &FlatKey) -> Option<&Rule>
        ensures { option_copied result ≡ deciding strict key.now self.now.rules.items }
    {
        let mut best = None;
        for rule in &self.rules {
            if rule.covers(strict, key) {
                best = longer_of(best, rule);
            }
        }
        best
    }
}

impl Policy for Rights {
    ghost refusals = { λ rights op keys. not (permits rights.rules.items op keys) };

    /// Whether a call on these paths is not allowed.
    fn refuses(&self, op: Op, paths: &[DavPath]) -> bool {
        !self.permits(op, paths)
    }
}

/// Whether a call is everyone's: it reads and changes nothing of a resource.
fn is_free(op: Op) -> bool
    ensures { result ≡ is_free op }
{
    matches!(op, Op::Seek | Op::Flush | Op::GetQuota)
}

/// The rule that decides of two, of which the first comes first in the list.
fn longer_of<'a>(best: Option<&'a Rule>, later: &'a Rule) -> Option<&'a Rule>
    ensures { option_copied result ≡ longer_of (option_copied best.entry) (Some later.entry.now) }
{
    match best {
        Some(best) if !best.gives_way(later) => Some(best),
        _ => Some(later),
    }
}
