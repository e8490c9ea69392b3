//! The store's quota, as it is reported for a resource (RFC 4331).
ghost use Rattle.std.specs.Prelude.{◌≡◌, IfOk};
ghost use Rattle.std.specs.Fmt.{decimal};
ghost use Rattle.dav_live.specs.Viewing.{asker_of};
ghost use Rattle.dav_live.specs.Texts.{zero_padded};
ghost use Rattle.dav_live.specs.Quota.{used_bytes as used_at, available_text as text_of_available, used_text as text_of_used};

use crate::text::number_text;
use crate::viewer::{Viewer, is_webdavfs};
use dav_resource::{DavPath, Meta, Text};
use std::alloc::{AllocError, Global};

/// Returns the quota's total less the bytes that `used_bytes` gives for the path, at least 0. Returns `None`
/// if the store did not report a total.
pub(crate) fn available_text(
    alloc: Global,
    viewer: &Viewer<'_>,
    path: &DavPath,
    meta: &Meta,
) -> Result<Option<Text>, AllocError>
    ensures { IfOk result (λ text. text ≡ text_of_available (asker_of viewer.now) path.now.key meta.now) }
{
    let Some((used, total)) = viewer.quota else {
        return Ok(None);
    };
    match total {
        Some(total) => {
            let left = total.saturating_sub(used_bytes(used, path, meta));
            Ok(Some(number_text(alloc, left)?))
        }
        None => Ok(None),
    }
}

/// Returns the bytes that `used_bytes` gives for the path, or `None` if the store did not report its quota.
/// For the macOS file system the number has at least 14 digits.
pub(crate) fn used_text(
    alloc: Global,
    viewer: &Viewer<'_>,
    path: &DavPath,
    meta: &Meta,
) -> Result<Option<Text>, AllocError>
    ensures { IfOk result (λ text. text ≡ text_of_used (asker_of viewer.now) path.now.key meta.now) }
{
    let Some((used, _)) = viewer.quota else {
        return Ok(None);
    };
    let used = used_bytes(used, path, meta);
    if is_webdavfs(viewer.user_agent) {
        Ok(Some(padded_text(alloc, used)?))
    } else {
        Ok(Some(number_text(alloc, used)?))
    }
}

/// Returns the bytes used at a path: at the root all that the store uses, elsewhere the resource's own
/// length.
fn used_bytes(used: u64, path: &DavPath, meta: &Meta) -> u64
    ensures { result ≡ used_at used path.now.key meta.now }
{
    if path.key().is_root() { used } else { meta.len }
}

/// Formats a number with at least 14 digits.
fn padded_text(alloc: Global, number: u64) -> Result<Text, AllocError>
    ensures { IfOk result (λ text. text ≡ zero_padded 14 (decimal number)) }
{
    Ok(Text::from_string(format!(in alloc; "{number:014}")?))
}
