//! Requests about locks that a server forbids.
ghost use Rattle.std.specs.Prelude.{◌≡◌, false, IfOk, IfErr, Some, bytes_eq};
ghost use Rattle.std.specs.Option.{option_copied, option_eq, option_map_or, option_to_list as to_list};
ghost use Rattle.dav_resource.specs.declared.error.DavError.TheVariants.{Memory};
ghost use Rattle.dav_headers.specs.LockToken.{lock_token_of};
ghost use Rattle.dav_messages.specs.Conditions.{submitted_tokens, token_of, tokens_in};
ghost use Rattle.dav_engine.specs.Rules.{depth_or_all, is_deep as covers_all};
ghost use Rattle.dav_resource.specs.Methods.{method_of};
ghost use Rattle.dav_rights.specs.Access.{rights_in};
ghost use Rattle.dav_server.specs.Owners.{is_of_another as is_lock_of_another, locks_unwritable as locks_unwritable_with, meddles as meddles_with, names_any};

use crate::ExpiringLocks;
use dav_engine::{IfItem, IfList, read_depth, read_if, read_lock_token};
use dav_messages::is_empty_body;
use dav_resource::{DavMethod, DavRequest, DavResult, Depth, Text};
use dav_rights::Access;
use dav_store::GuardedFileSystem;
use std::alloc::Global;

/// Whether the request would remove or refresh a lock of another principal. Fails only if memory runs out.
pub fn meddles<F: GuardedFileSystem<()>, L: ExpiringLocks>(
    alloc: Global,
    fs: &F,
    locks: &L,
    request: &DavRequest,
) -> DavResult<bool>
    ensures ok { IfOk result (λ found. found ≡ meddles_with (Some (L.seen locks.now).list) (F.seen fs.now).facts.bodies request.entry.now) }
    ensures err { IfErr result (λ e. e ≡ Memory) }
{
    match DavMethod::from_method(&request.method) {
        Some(DavMethod::Unlock) => unlocks_anothers(locks, request),
        Some(DavMethod::Lock) if is_empty_body::<(), F>(fs, &request.body) => refreshes_anothers(
            alloc, locks, request,
        ),
        _ => Ok(false),
    }
}

/// Whether the request is for a new lock that this access does not allow: where one may not write, or above such a
/// place.
pub fn locks_unwritable<F: GuardedFileSystem<()>>(
    fs: &F,
    request: &DavRequest,
    access: &Access,
) -> bool
    ensures { result ≡ locks_unwritable_with (method_of request.entry.now.method) (rights_in access.entry.now) (F.seen fs.now).facts.bodies request.entry.now }
{
    match DavMethod::from_method(&request.method) {
        Some(DavMethod::Lock) => {
            !is_empty_body::<(), F>(fs, &request.body)
                && !access.may_lock(request.path.key(), is_deep(request))
        }
        _ => false,
    }
}

/// Whether a new lock covers all below its resource: with any Depth but 0.
fn is_deep(request: &DavRequest) -> bool
    ensures { result ≡ covers_all (depth_or_all request.entry.now) }
{
    !matches!(read_depth(&request.headers), Ok(Some(Depth::Zero)))
}

/// Whether the lock that the header Lock-Token names is that of another principal. Never returns an error.
fn unlocks_anothers<L: ExpiringLocks>(locks: &L, request: &DavRequest) -> DavResult<bool>
    ensures ok { IfOk result (λ found. found ≡ names_any (L.seen locks.now).list request.entry.now.principal (to_list (lock_token_of request.entry.now.headers))) }
    ensures err { IfErr result (λ e. e ≡ Memory) }
{
    match read_lock_token(&request.headers)? {
        Some(token) => Ok(is_of_another(locks, request, token)),
        None => Ok(false),
    }
}

/// Whether a lock whose token the header If submits is that of another principal.
///
/// Fails only if memory runs out.
fn refreshes_anothers<L: ExpiringLocks>(
    alloc: Global,
    locks: &L,
    request: &DavRequest,
) -> DavResult<bool>
    ensures ok { IfOk result (λ found. found ≡ names_any (L.seen locks.now).list request.entry.now.principal (submitted_tokens request.entry.now)) }
    ensures err { IfErr result (λ e. e ≡ Memory) }
{
    let Some(lists) = read_if(alloc, &request.headers)? else {
        return Ok(false);
    };
    Ok(
        lists
            .as_slice()
            .iter()
            .any(|list| submits_anothers(locks, request, list)),
    )
}

/// Whether a lock whose token is among the conditions of this list is that of another principal.
fn submits_anothers<L: ExpiringLocks>(locks: &L, request: &DavRequest, list: &IfList) -> bool
    ensures { result ≡ names_any (L.seen locks.now).list request.entry.now.principal (tokens_in list.now.conditions) }
{
    let conditions = list.conditions.as_slice();
    conditions.iter().any(|condition| names_anothers(locks, request, &condition.item))
}

/// Whether an item is the token of a lock of another principal.
fn names_anothers<L: ExpiringLocks>(locks: &L, request: &DavRequest, item: &IfItem) -> bool
    ensures { result ≡ option_map_or (is_lock_of_another (L.seen locks.now).list request.entry.now.principal) (token_of item.now) false }
{
    match item {
        IfItem::StateToken(token) => is_of_another(locks, request, token.as_str()),
        IfItem::ETag(_) => false,
    }
}

/// Whether the lock of this token is that of another principal.
fn is_of_another<L: ExpiringLocks>(locks: &L, request: &DavRequest, token: &str) -> bool
    ensures { result ≡ is_lock_of_another (L.seen locks.now).list request.entry.now.principal token.now }
{
    match locks.with_token(token) {
        Some(lock) => !is_principal(lock.principal.as_ref(), request.principal.as_ref()),
        None => false,
    }
}

/// Whether both are `None`, or both are the same principal.
fn is_principal(principal: Option<&Text>, other: Option<&Text>) -> bool
    ensures { result ≡ option_eq bytes_eq (option_copied principal.entry) (option_copied other.entry) }
{
    match (principal, other) {
        (Some(principal), Some(other)) => principal.as_str() == other.as_str(),
        (None, None) => true,
        _ => false,
    }
}
