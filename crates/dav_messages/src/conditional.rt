//! Evaluates the conditions of a request: If-Match, If-None-Match, If-Range and If.
ghost use Rattle.std.specs.Prelude.{◌≡◌, if◌then◌else◌, Ok, Err, IfOk, option_copied};
ghost use Rattle.dav_resource.specs.Gives.{GivesBy};
ghost use Rattle.dav_resource.specs.declared.error.DavError.TheVariants.{Status};
ghost use Rattle.dav_messages.specs.Conditions.{Evaluates, is_tagged, list_matches, current_tag, if_match_fails as fails_if_match, if_none_match_fails as fails_if_none_match, none_match_status as status_of_method, http_verdict, verdict_after as verdict_of_if, submitted_tokens as submitted_tokens_of, dav_if_match as dav_if_match_of, if_match as if_match_of, conditions};

use crate::if_header::{if_holds, submitted_tokens};
use dav_headers::{read_if, read_if_match, read_if_none_match};
use dav_resource::{
    DavError, DavMethod, DavPath, DavRequest, DavResult, ETag, ETagList, IfRange, Items, Meta, Text,
};
use dav_store::{DavLockSystem, GuardedFileSystem};
use http::StatusCode;
use std::alloc::{AllocError, Global};

/// Returns whether the condition of If-Range (RFC 7233, section 3.2) holds: the resource has an entity tag,
/// and it is strongly equal to the header's.
pub fn ifrange_match(hdr: &IfRange, tag: Option<&ETag>) -> bool
    ensures { result ≡ is_tagged hdr.now.tag (option_copied tag.entry) }
{
    is_tagged(&hdr.tag, tag)
}

/// Returns whether the value of If-Match or If-None-Match matches (RFC 7232, sections 3.1 and 3.2). `*`
/// matches if the resource exists. A list matches if the resource has an entity tag that is strongly equal to
/// one of the list.
pub fn etaglist_match(tags: &ETagList, exists: bool, tag: Option<&ETag>) -> bool
    ensures { result ≡ list_matches tags.now exists (option_copied tag.entry) }
{
    match tags {
        ETagList::Star => exists,
        ETagList::Tags(tags) => tags.as_slice().iter().any(|listed| is_tagged(listed, tag)),
    }
}

/// Returns whether there is an entity tag that is strongly equal to the listed one.
pub(crate) fn is_tagged(listed: &ETag, tag: Option<&ETag>) -> bool
    ensures { result ≡ is_tagged listed.now (option_copied tag.entry) }
{
    match tag {
        Some(tag) => listed.strong_eq(tag),
        None => false,
    }
}

/// Returns the status with which If-Match or If-None-Match rejects a request (RFC 7232, section 6), or
/// `None`. `meta` is the metadata found at the request's path. An If-Match that does not match gives 412.
/// After that an If-None-Match that matches gives 304 for GET and HEAD, else 412. The only error is `Memory`.
pub fn http_if_match(
    alloc: Global,
    req: &DavRequest,
    meta: Option<&Meta>,
) -> DavResult<Option<StatusCode>>
    ensures { GivesBy (λ status. status) result (Ok (http_verdict req.entry.now (option_copied meta.entry))) }
{
    let if_match = read_if_match(alloc, &req.headers)?;
    let if_none_match = read_if_none_match(alloc, &req.headers)?;
    if if_match.is_none() && if_none_match.is_none() {
        return Ok(None);
    }
    let tag = current_tag(meta)?;
    if if_match_fails(if_match.as_ref(), meta.is_some(), tag.as_ref()) {
        return Ok(Some(StatusCode::PRECONDITION_FAILED));
    }
    if if_none_match_fails(if_none_match.as_ref(), meta.is_some(), tag.as_ref()) {
        let method = DavMethod::from_method(&req.method);
        return Ok(Some(none_match_status(method)));
    }
    Ok(None)
}

/// Returns the entity tag in the metadata, if there is one. Fails only if memory runs out.
pub(crate) fn current_tag(meta: Option<&Meta>) -> Result<Option<ETag>, AllocError>
    ensures { IfOk result (λ tag. tag ≡ current_tag (option_copied meta.entry)) }
{
    match meta {
        Some(meta) => ETag::from_meta(meta),
        None => Ok(None),
    }
}

/// Returns whether If-Match rejects the request: it is present and does not match.
fn if_match_fails(tags: Option<&ETagList>, exists: bool, tag: Option<&ETag>) -> bool
    ensures { result ≡ fails_if_match (option_copied tags.entry) exists (option_copied tag.entry) }
{
    match tags {
        Some(tags) => !etaglist_match(tags, exists, tag),
        None => false,
    }
}

/// Returns whether If-None-Match rejects the request: it is present and matches.
fn if_none_match_fails(tags: Option<&ETagList>, exists: bool, tag: Option<&ETag>) -> bool
    ensures { result ≡ fails_if_none_match (option_copied tags.entry) exists (option_copied tag.entry) }
{
    match tags {
        Some(tags) => etaglist_match(tags, exists, tag),
        None => false,
    }
}

fn none_match_status(method: Option<DavMethod>) -> StatusCode
    ensures { result ≡ status_of_method method }
{
    match method {
        Some(DavMethod::Get | DavMethod::Head) => StatusCode::NOT_MODIFIED,
        _ => StatusCode::PRECONDITION_FAILED,
    }
}

/// Evaluates the header If (RFC 4918, section 10.4). Returns whether it holds, and the state tokens of all
/// its lists in order, also those under `Not` and those of lists that do not hold. Without a readable header
/// it holds.
///
/// Lists are evaluated in order up to the first that holds. A list is evaluated up to its first condition
/// that does not hold. Each condition on an entity tag that is evaluated makes one lookup of the path that its
/// list applies to. If that path cannot be parsed, there is no lookup. The only error is `Memory`.
pub fn dav_if_match<C, F: GuardedFileSystem<C>, L: DavLockSystem>(
    alloc: Global,
    req: &DavRequest,
    fs: &mut F,
    ls: Option<&L>,
    path: &DavPath,
    credentials: &C,
) -> DavResult<(bool, Items<Text>)>
    ensures tokens { IfOk result (λ held. held.1 ≡ submitted_tokens_of req.entry.now) }
    ensures judged { Evaluates F.seen L.seen (λ c l. dav_if_match_of c l req.entry.now path.now) fs.old ls.entry result fs.new }
{
    let lists = read_if(alloc, &req.headers)?;
    let tokens = submitted_tokens(alloc, lists.as_ref())?;
    let holds = if_holds(alloc, lists.as_ref(), fs, ls, path, credentials)?;
    Ok((holds, tokens))
}

/// Returns the status with which the conditions of a request reject it, or `None`. The header If is evaluated
/// first, as in `dav_if_match`, and gives 412 if it does not hold. Then `http_if_match` is evaluated. The
/// only error is `Memory`.
pub fn if_match<C, F: GuardedFileSystem<C>, L: DavLockSystem>(
    alloc: Global,
    req: &DavRequest,
    meta: Option<&Meta>,
    fs: &mut F,
    ls: Option<&L>,
    path: &DavPath,
    credentials: &C,
) -> DavResult<Option<StatusCode>>
    ensures { Evaluates F.seen L.seen (λ c l. if_match_of c l req.entry.now (option_copied meta.entry) path.now) fs.old ls.entry result fs.new }
{
    let lists = read_if(alloc, &req.headers)?;
    let holds = if_holds(alloc, lists.as_ref(), fs, ls, path, credentials)?;
    verdict_after(holds, alloc, req, meta)
}

/// Returns the status that rejects a request after its header If was evaluated, or `None`.
fn verdict_after(
    holds: bool,
    alloc: Global,
    req: &DavRequest,
    meta: Option<&Meta>,
) -> DavResult<Option<StatusCode>>
    ensures { GivesBy (λ status. status) result (Ok (verdict_of_if holds req.entry.now (option_copied meta.entry))) }
{
    if holds {
        http_if_match(alloc, req, meta)
    } else {
        Ok(Some(StatusCode::PRECONDITION_FAILED))
    }
}

/// Returns the state tokens that a request submits, if its conditions hold. `http_if_match` is evaluated
/// first. If it rejects the request, no call is made to the store. Then the header If is evaluated, as in
/// `dav_if_match`.
///
/// Errors: `Status` with the status that rejects the request (RFC 7232, section 6, and 412 if If does not
/// hold), or `Memory` if memory runs out.
pub fn if_match_get_tokens<C, F: GuardedFileSystem<C>, L: DavLockSystem>(
    alloc: Global,
    req: &DavRequest,
    meta: Option<&Meta>,
    fs: &mut F,
    ls: Option<&L>,
    path: &DavPath,
    credentials: &C,
) -> DavResult<Items<Text>>
    ensures tokens { IfOk result (λ tokens. tokens ≡ submitted_tokens_of req.entry.now) }
    ensures judged { Evaluates F.seen L.seen (λ c l. conditions c l req.entry.now (option_copied meta.entry) path.now) fs.old ls.entry result fs.new }
{
    if let Some(status) = http_if_match(alloc, req, meta)? {
        return Err(DavError::Status(status));
    }
    let (holds, tokens) = dav_if_match(alloc, req, fs, ls, path, credentials)?;
    tokens_where(holds, tokens)
}

/// Returns the tokens if the header If holds, else the status 412 as an error.
fn tokens_where(holds: bool, tokens: Items<Text>) -> DavResult<Items<Text>>
    ensures { result ≡ (if holds then Ok tokens else Err (Status 412)) }
{
    if holds {
        Ok(tokens)
    } else {
        Err(DavError::Status(StatusCode::PRECONDITION_FAILED))
    }
}
