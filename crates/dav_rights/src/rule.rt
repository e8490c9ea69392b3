//! A rule, and what it allows.
ghost use Rattle.std.specs.Prelude.{◌≡◌};
ghost use Rattle.dav_rights.specs.Rights.{covers, leads_to, allows_something, gives_way};

use dav_key::FlatKey;

/// What a caller may do with a resource.
#[derive(Clone, Copy, Debug, PartialEq, Eq)]
pub struct Allowed {
    /// See that it is there, and its metadata; for a directory, ask for its members.
    pub list: bool,
    /// Read its bytes and its dead properties.
    pub read: bool,
    /// Make, change and remove it.
    pub write: bool,
}

impl Allowed {
    /// Nothing.
    pub const NOTHING: Allowed = Allowed {
        list: false,
        read: false,
        write: false,
    };

    /// Whether this is anything.
    pub fn is_something(self) -> bool
        ensures { result ≡ allows_something self }
    {
        self.list || self.read || self.write
    }
}

/// A rule that applies to a caller.
#[derive(Debug, Drop)]
pub struct Rule {
    /// Its number among all rules as they are written, from 1.
    pub number: usize,
    /// The key of the resource for which it is made.
    pub key: FlatKey,
    /// Whether it is made for all resources below that one too.
    pub below: bool,
    pub allowed: Allowed,
}

impl Rule {
    /// Whether the rule is made for the resource with this key. With `strict` it is asked of the resources below
    /// that one for which no rule has a longer key.
    pub(crate) fn covers(&self, strict: bool, key: &FlatKey) -> bool
        ensures { result ≡ covers strict key.now self.now }
    {
        key.is_at_or_below(&self.key) && (self.below || !strict && self.key.is_at_or_below(key))
    }

    /// Whether the resource is above the one for which the rule allows something.
    pub(crate) fn leads_to(&self, key: &FlatKey) -> bool
        ensures { result ≡ leads_to key.now self.now }
    {
        self.allowed.is_something()
            && self.key.is_at_or_below(key)
            && !key.is_at_or_below(&self.key)
    }

    /// Whether the rule decides less than one that comes later in the list, since that has a longer key.
    pub(crate) fn gives_way(&self, later: &Rule) -> bool
        ensures { result ≡ gives_way self.now later.now }
    {
        self.key.len() < later.key.len()
    }
}
