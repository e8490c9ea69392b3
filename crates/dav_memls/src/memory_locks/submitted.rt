//! What a request submits.
ghost use Rattle.std.specs.Prelude.{◌≡◌, IfOk, bytes_eq};
ghost use Rattle.std.specs.List.{list_any};
ghost use Rattle.std.specs.Option.{IfSome, option_copied};
ghost use Rattle.std.proofs.Props.{props};
ghost use Rattle.dav_store.specs.Locks.{is_submitted};
ghost use Rattle.dav_memls.specs.Tokens.{HasTokens};

use dav_resource::Text;
use dav_store::DavLock;
use std::alloc::{AllocError, Global};
use std::collections::BTreeSet;

/// More tokens than this are sorted.
const FEW: usize = 8;

/// What a request submits: its tokens, and its principal unless that is ignored. Many tokens are sorted, so
/// that one is found with as many comparisons as the logarithm of their number. If memory for that runs out,
/// they are compared one by one.
#[derive(Drop)]
pub struct Submitted<'a> {
    principal: Option<&'a str>,
    ignore_principal: bool,
    tokens: &'a [Text],
    ordered: Option<BTreeSet<&'a str>>,
    ghost same: { IfSome ordered (HasTokens tokens.now) } by { Prim.hlevel props },
}

impl<'a> Submitted<'a> {
    ghost use Rattle.dav_memls.specs.Submitted.{is_from, passes};

    /// Creates the value for these tokens and this principal.
    pub fn new(
        alloc: Global,
        principal: Option<&'a str>,
        ignore_principal: bool,
        tokens: &'a [Text],
    ) -> Submitted<'a>
        ensures { passes result ≡ is_submitted (option_copied principal.entry) ignore_principal tokens.now }
    {
        let ordered = if tokens.len() > FEW {
            in_order(alloc, tokens).ok()
        } else {
            None
        };
        Submitted {
            principal,
            ignore_principal,
            tokens,
            ordered,
        }
    }

    /// Returns the tokens, in the order of the request.
    pub fn tokens(&self) -> &[Text]
        ensures { result.now ≡ self.now.tokens.now }
    {
        self.tokens
    }

    /// Whether the lock is submitted: its token is one of the tokens, and its principal is that of the
    /// request or is ignored.
    pub fn has(&self, lock: &DavLock) -> bool
        ensures { result ≡ passes self.now lock.now }
    {
        self.has_token(lock.token.as_str()) && self.is_from(lock)
    }

    /// Whether this is one of the tokens.
    fn has_token(&self, token: &str) -> bool
        ensures { result ≡ list_any (bytes_eq token.now) self.now.tokens.now }
    {
        match &self.ordered {
            Some(ordered) => ordered.contains(token),
            None => self.tokens.iter().any(|own| token == own.as_str()),
        }
    }

    /// Whether the lock's principal is that of the request or is ignored.
    pub fn is_from(&self, lock: &DavLock) -> bool
        ensures { result ≡ is_from self.now lock.now }
    {
        if self.ignore_principal {
            return true;
        }
        match (lock.principal.as_ref(), self.principal) {
            (Some(own), Some(principal)) => own.as_str() == principal,
            (None, None) => true,
            _ => false,
        }
    }
}

/// Returns the tokens in a sorted set. Fails only if memory runs out.
fn in_order<'a>(alloc: Global, tokens: &'a [Text]) -> Result<BTreeSet<&'a str>, AllocError>
    ensures { IfOk result (HasTokens tokens.now) }
{
    let mut ordered = BTreeSet::new(alloc);
    for token in tokens {
        ordered.insert(token.as_str())?;
    }
    Ok(ordered)
}
