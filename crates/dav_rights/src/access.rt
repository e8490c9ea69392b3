//! What a server allows a caller.
ghost use Rattle.std.specs.Prelude.{◌≡◌, IfOk, map, option_copied};

use crate::rights::{Explanation, Rights};
use crate::rule::Allowed;
use crate::rules::Rules;
use dav_guarding::Policy;
use dav_key::FlatKey;
use dav_resource::{DavPath, Op};
use std::alloc::{AllocError, Global};

/// What a server allows a caller: what its rights permit, or everything.
#[derive(Debug, Drop)]
pub enum Access {
    /// Everything.
    Full,
    /// What these rights permit.
    Limited(Rights),
}

impl Access {
    ghost use Rattle.dav_rights.specs.Access.{written_rules, rights_in, rights_under, explanation_by, may_lock_by};

    /// Returns what a caller with this name, or one without a name, may do: what the rules that apply to it permit.
    /// Without rules that is everything. Fails only if memory runs out.
    pub fn of(
        alloc: Global,
        rules: Option<&Rules>,
        caller: Option<&str>,
    ) -> Result<Access, AllocError>
        ensures { IfOk result (λ access. rights_in access ≡ rights_under (written_rules (option_copied rules.entry)) (option_copied caller.entry)) }
    {
        match rules {
            Some(rules) => Ok(Access::Limited(rules.rights_of(alloc, caller)?)),
            None => Ok(Access::Full),
        }
    }

    /// Returns what is allowed with the resource with this key. Without rules none decides.
    pub fn explain(&self, key: &FlatKey) -> Explanation
        ensures { result ≡ explanation_by (rights_in self.now) key.now }
    {
        match self {
            Access::Full => Explanation {
                rule: None,
                allowed: Allowed {
                    list: true,
                    read: true,
                    write: true,
                },
            },
            Access::Limited(rights) => rights.explain(key),
        }
    }

    /// Whether the caller may lock the resource with this key, as `Rights::may_lock` says.
    pub fn may_lock(&self, key: &FlatKey, deep: bool) -> bool
        ensures { result ≡ may_lock_by (rights_in self.now) key.now deep }
    {
        match self {
            Access::Full => true,
            Access::Limited(rights) => rights.may_lock(key, deep),
        }
    }
}

impl Policy for Access {
    ghost use Rattle.dav_rights.specs.Access.{refuses};

    ghost refusals = { refuses };

    fn refuses(&self, op: Op, paths: &[DavPath]) -> bool {
        match self {
            Access::Full => false,
            Access::Limited(rights) => !rights.permits(op, paths),
        }
    }
}
