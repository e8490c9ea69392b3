//! The request of a block.
ghost use Rattle.std.specs.Prelude.{◌≡◌, IfOk, string_bytes};
ghost use Rattle.dav_script.specs.Requests.{chosen_token, numbered_token, request_of};

use crate::blocks::Block;
use dav_resource::{DavPath, DavRequest, LockToken};
use std::alloc::{AllocError, Global};

/// Returns the request of the block with this number, from 1, at this time.
pub fn request(
    alloc: Global,
    number: u64,
    now: u64,
    path: DavPath,
    block: Block,
) -> Result<DavRequest, AllocError>
    ensures { IfOk result (λ request. request ≡ request_of number now path block) }
{
    Ok(DavRequest {
        method: block.method,
        path,
        headers: block.headers,
        body: block.body,
        principal: block.principal,
        token: chosen_token(alloc, number, block.token)?,
        now,
    })
}

/// Returns the token for a lock that a block's request creates: the block's own, or one made from the block's
/// number.
fn chosen_token(
    alloc: Global,
    number: u64,
    token: Option<LockToken>,
) -> Result<LockToken, AllocError>
    ensures { IfOk result (λ chosen. chosen ≡ chosen_token number token) }
{
    match token {
        Some(token) => Ok(token),
        None => numbered_token(alloc, number),
    }
}

/// Returns the token for a lock that the request of the block with this number creates, if the block sets
/// none.
fn numbered_token(alloc: Global, number: u64) -> Result<LockToken, AllocError>
    ensures { IfOk result (λ token. token ≡ numbered_token number) }
{
    let text = numbered_text(alloc, number)?;
    Ok(LockToken::from_string(text).unwrap())
}

fn numbered_text(alloc: Global, number: u64) -> Result<String, AllocError>
    ensures { IfOk result (λ text. string_bytes text ≡ numbered_token number) }
{
    format!(in alloc; "urn:lock:{number}")
}
