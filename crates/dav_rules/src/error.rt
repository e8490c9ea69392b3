//! Why a text holds no rules.
ghost use Rattle.std.specs.Prelude.{◌≡◌};

use std::alloc::{AllocError, AllocFailed};
use thiserror::Error;

/// What is wrong with a rule.
#[derive(Clone, Copy, Debug, PartialEq, Eq, Error)]
pub enum RuleFault {
    /// Memory ran out, and nothing is known of the rule.
    #[error("out of memory")]
    Memory,
    /// It is no table.
    #[error("a rule is a table")]
    NoTable,
    /// It has a key that no rule has.
    #[error("a rule has no other keys than user, group, everyone, at, at_and_below and allow")]
    UnknownKey,
    /// It is not for one user, one group or everyone.
    #[error("a rule has one of user, group and everyone = true")]
    Who,
    /// It is for a group that is no list of names.
    #[error("no list of names in groups has the name of this group")]
    NoGroup,
    /// It is not made for one path, or the path does not mean what is written.
    #[error("a rule has one of at and at_and_below, a path: it begins with /, each % is an escape such as %20, and it has no ? or # (write %3F or %23), no empty segment and no segment . or ..")]
    Place,
    /// It does not list what it allows.
    #[error("allow is a list of list, read and write, which may be empty")]
    Allow,
}

/// A failed allocation becomes `Memory`.
impl From<AllocError> for RuleFault {
    ghost use Rattle.dav_rules.specs.declared.error.RuleFault.TheVariants.{Memory};

    ghost from_gives = { λ _ e. e ≡ Memory };

    fn from(_: AllocError) -> RuleFault {
        RuleFault::Memory
    }
}

/// A failed allocation becomes `Memory`.
impl<T: Drop> From<AllocFailed<T>> for RuleFault {
    ghost use Rattle.dav_rules.specs.declared.error.RuleFault.TheVariants.{Memory};

    ghost from_gives = { λ _ e. e ≡ Memory };

    fn from(_: AllocFailed<T>) -> RuleFault {
        RuleFault::Memory
    }
}

/// Why a text holds no rules.
#[derive(Debug, Drop, Error)]
pub enum RulesError {
    /// Memory ran out.
    #[error("out of memory")]
    Memory,
    /// It is not TOML.
    #[error("{0}")]
    Toml(toml::de::Error),
    /// It has other keys than `groups` and `rule`, `groups` is no table, or `rule` is no list.
    #[error("there is a table of groups and a list of rules (rule), and nothing else")]
    Keys,
    /// A rule, counted from 1, and what is wrong with it.
    #[error("rule {0}: {1}")]
    Rule(usize, RuleFault),
}

/// A failed allocation becomes `Memory`.
impl<T: Drop> From<AllocFailed<T>> for RulesError {
    ghost use Rattle.dav_rules.specs.declared.error.RulesError.TheVariants.{Memory};

    ghost from_gives = { λ _ e. e ≡ Memory };

    fn from(_: AllocFailed<T>) -> RulesError {
        RulesError::Memory
    }
}
