//! Evaluates the header If, list by list.
ghost use Rattle.std.specs.Prelude.{◌≡◌, ◌++◌, Some, Ok, IfOk, option_map, option_copied};
ghost use Rattle.dav_resource.specs.Gives.{GivesBy};
ghost use Rattle.dav_messages.specs.Dialogue.{Judges};
ghost use Rattle.dav_messages.specs.Conditions.{Evaluates, locks_in, token_of, tokens_in, all_tokens, token_holds, tag_holds, item_holds, item_holds_at, turned as turned_by, condition_holds, all_hold, key_of_list, conditions_hold, any_holds, lists_hold};

use crate::conditional::{current_tag, is_tagged};
use crate::lookup::look_up;
use dav_headers::{IfCondition, IfItem, IfList, read_tagged_path};
use dav_resource::{DavPath, DavResult, ETag, Items, Text};
use dav_store::{DavLockSystem, GuardedFileSystem};
use std::alloc::{AllocError, Global};

/// Returns the state tokens of all lists, in order. Fails only if memory runs out.
pub(crate) fn submitted_tokens(
    alloc: Global,
    lists: Option<&Items<IfList>>,
) -> Result<Items<Text>, AllocError>
    ensures { IfOk result (λ tokens. tokens ≡ all_tokens (option_copied lists.entry)) }
{
    let mut tokens = Vec::new(alloc);
    if let Some(lists) = lists {
        for list in lists.as_slice() {
            append_tokens(&mut tokens, list.conditions.as_slice())?;
        }
    }
    Ok(Items::from_vec(tokens))
}

/// Appends the state tokens of these conditions.
fn append_tokens(tokens: &mut Vec<Text>, conditions: &[IfCondition]) -> Result<(), AllocError>
    ensures { IfOk result (λ _. tokens.new.items ≡ tokens.old.items ++ tokens_in conditions.now) }
{
    for condition in conditions {
        if let Some(token) = token_of(condition) {
            tokens.push(token.clone()?)?;
        }
    }
    Ok(())
}

/// Returns the state token of a condition, if it has one, also under `Not`.
fn token_of(condition: &IfCondition) -> Option<&Text>
    ensures { option_copied result ≡ token_of condition.now.item }
{
    match &condition.item {
        IfItem::StateToken(token) => Some(token),
        IfItem::ETag(_) => None,
    }
}

/// Returns whether the header If holds: there is no readable one, or one of its lists holds.
pub(crate) fn if_holds<C, F: GuardedFileSystem<C>, L: DavLockSystem>(
    alloc: Global,
    lists: Option<&Items<IfList>>,
    fs: &mut F,
    ls: Option<&L>,
    path: &DavPath,
    credentials: &C,
) -> DavResult<bool>
    ensures { Evaluates F.seen L.seen (λ c l. lists_hold c l path.now (option_copied lists.entry)) fs.old ls.entry result fs.new }
{
    match lists {
        Some(lists) => any_holds(alloc, lists.as_slice(), fs, ls, path, credentials),
        None => Ok(true),
    }
}

/// Returns whether one of the lists holds, each at the path that it applies to. Each resource tag is parsed
/// once, when its list is reached.
fn any_holds<C, F: GuardedFileSystem<C>, L: DavLockSystem>(
    alloc: Global,
    lists: &[IfList],
    fs: &mut F,
    ls: Option<&L>,
    path: &DavPath,
    credentials: &C,
) -> DavResult<bool>
    ensures { Evaluates F.seen L.seen (λ c l. any_holds c l path.now (Some path.now.key) lists.now) fs.old ls.entry result fs.new }
{
    let mut about = Some(path.clone()?);
    for list in lists {
        about = path_of_list(alloc, list, about, path)?;
        let conditions = list.conditions.as_slice();
        if conditions_hold(conditions, fs, ls, about.as_ref(), credentials)? {
            return Ok(true);
        }
    }
    Ok(false)
}

/// Returns the path that a list applies to: that of its own resource tag, else that of the list before it.
/// Returns `None` if the tag cannot be parsed.
fn path_of_list(
    alloc: Global,
    list: &IfList,
    before: Option<DavPath>,
    path: &DavPath,
) -> DavResult<Option<DavPath>>
    ensures { GivesBy (option_map (λ p. p.key)) result (Ok (key_of_list (option_map (λ p. p.key) before) path.now list.now.resource_tag)) }
{
    match &list.resource_tag {
        Some(tag) => read_tagged_path(alloc, tag.as_str(), path),
        None => Ok(before),
    }
}

/// Returns whether there is a condition, and all conditions hold.
fn conditions_hold<C, F: GuardedFileSystem<C>, L: DavLockSystem>(
    conditions: &[IfCondition],
    fs: &mut F,
    ls: Option<&L>,
    path: Option<&DavPath>,
    credentials: &C,
) -> DavResult<bool>
    ensures { Evaluates F.seen L.seen (λ c l. conditions_hold c l (option_map (λ p. p.now.key) path.entry) conditions.now) fs.old ls.entry result fs.new }
{
    if conditions.is_empty() {
        return Ok(false);
    }
    all_hold(conditions, fs, ls, path, credentials)
}

fn all_hold<C, F: GuardedFileSystem<C>, L: DavLockSystem>(
    conditions: &[IfCondition],
    fs: &mut F,
    ls: Option<&L>,
    path: Option<&DavPath>,
    credentials: &C,
) -> DavResult<bool>
    ensures { Evaluates F.seen L.seen (λ c l. all_hold c l (option_map (λ p. p.now.key) path.entry) conditions.now) fs.old ls.entry result fs.new }
{
    for condition in conditions {
        if !condition_holds(condition, fs, ls, path, credentials)? {
            return Ok(false);
        }
    }
    Ok(true)
}

/// Returns whether a condition holds at a path, with `Not` applied. Without a path, because it could not be
/// parsed, the token or tag of the condition does not hold.
fn condition_holds<C, F: GuardedFileSystem<C>, L: DavLockSystem>(
    condition: &IfCondition,
    fs: &mut F,
    ls: Option<&L>,
    path: Option<&DavPath>,
    credentials: &C,
) -> DavResult<bool>
    ensures { Evaluates F.seen L.seen (λ c l. condition_holds c l (option_map (λ p. p.now.key) path.entry) condition.now) fs.old ls.entry result fs.new }
{
    let holds = item_holds_at(&condition.item, fs, ls, path, credentials)?;
    Ok(turned(condition.not, holds))
}

/// Negates the value if the condition has `Not`.
fn turned(not: bool, holds: bool) -> bool
    ensures { result ≡ turned_by not holds }
{
    holds != not
}

fn item_holds_at<C, F: GuardedFileSystem<C>, L: DavLockSystem>(
    item: &IfItem,
    fs: &mut F,
    ls: Option<&L>,
    path: Option<&DavPath>,
    credentials: &C,
) -> DavResult<bool>
    ensures { Evaluates F.seen L.seen (λ c l. item_holds_at c l (option_map (λ p. p.now.key) path.entry) item.now) fs.old ls.entry result fs.new }
{
    match path {
        Some(path) => item_holds(item, fs, ls, path, credentials),
        None => Ok(false),
    }
}

fn item_holds<C, F: GuardedFileSystem<C>, L: DavLockSystem>(
    item: &IfItem,
    fs: &mut F,
    ls: Option<&L>,
    path: &DavPath,
    credentials: &C,
) -> DavResult<bool>
    ensures { Evaluates F.seen L.seen (λ c l. item_holds c l path.now.key item.now) fs.old ls.entry result fs.new }
{
    match item {
        IfItem::StateToken(token) => Ok(token_holds(ls, path, token)),
        IfItem::ETag(tag) => tag_holds(fs, path, tag, credentials),
    }
}

/// Returns whether a state token holds at a path: there is a lock system, and with only this token submitted
/// it allows any principal to write there. A token that starts with `DAV:` never holds.
fn token_holds<L: DavLockSystem>(ls: Option<&L>, path: &DavPath, token: &Text) -> bool
    ensures { result ≡ token_holds (locks_in L.seen (option_copied ls.entry)) path.now.key token.now }
{
    if token.as_str().starts_with("DAV:") {
        return false;
    }
    match ls {
        Some(ls) => ls.check(path, None, true, false, std::slice::from_ref(token)),
        None => false,
    }
}

/// Returns whether an entity tag holds at a path: a lookup finds a resource there, whose own tag is strongly
/// equal to it.
fn tag_holds<C, F: GuardedFileSystem<C>>(
    fs: &mut F,
    path: &DavPath,
    tag: &ETag,
    credentials: &C,
) -> DavResult<bool>
    ensures { Judges (tag_holds (F.seen fs.old).contents path.now.key tag.now) (F.seen fs.old) result (F.seen fs.new) }
{
    let found = look_up(fs, path, credentials)?;
    let current = current_tag(found.as_ref())?;
    Ok(is_tagged(tag, current.as_ref()))
}
