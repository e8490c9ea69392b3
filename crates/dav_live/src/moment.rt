//! The times that are reported for a resource.
ghost use Rattle.std.specs.Prelude.{◌≡◌, ◌≤◌, IfOk, IfSome, option_map};
ghost use Rattle.dav_dates.specs.Moment.{last_shown, shown_moment};
ghost use Rattle.dav_dates.specs.HttpDate.{http_date_text};
ghost use Rattle.dav_dates.specs.CreationDate.{creation_date_text};
ghost use Rattle.dav_live.specs.Moments.{creation_moment, earlier as earlier_moment};

use dav_dates::{creation_date, http_date, shown_moment};
use dav_resource::{Meta, Text};
use std::alloc::{AllocError, Global};

/// Returns the creation time of a resource in seconds since 1970, if it is known.
///
/// If the store does not know it, the time of the last metadata change counts, or that of the last
/// modification if that is earlier. A time after `LAST_SHOWN` counts as unknown.
pub(crate) fn creation_moment(meta: &Meta) -> Option<u64>
    ensures exact { result ≡ creation_moment meta.now }
    ensures shown { IfSome result (λ secs. secs ≤ last_shown) }
{
    match shown_moment(meta.created) {
        Some(secs) => Some(secs),
        None => earlier(
            shown_moment(meta.status_changed),
            shown_moment(meta.modified),
        ),
    }
}

/// Returns the first time, or the second if both are known and it is earlier.
fn earlier(moment: Option<u64>, other: Option<u64>) -> Option<u64>
    requires { IfSome moment (λ secs. secs ≤ last_shown) }
    ensures exact { result ≡ earlier_moment moment other }
    ensures shown { IfSome result (λ secs. secs ≤ last_shown) }
{
    match (moment, other) {
        (Some(secs), Some(others)) => Some(secs.min(others)),
        _ => moment,
    }
}

/// Formats a time as an HTTP date.
pub(crate) fn date_text(alloc: Global, moment: Option<u64>) -> Result<Option<Text>, AllocError>
    requires { IfSome moment (λ secs. secs ≤ last_shown) }
    ensures { IfOk result (λ text. text ≡ option_map http_date_text moment) }
{
    match moment {
        Some(secs) => Ok(Some(Text::from_string(http_date(alloc, secs)?))),
        None => Ok(None),
    }
}

/// Formats a time for the property `DAV:creationdate`.
pub(crate) fn creation_text(alloc: Global, moment: Option<u64>) -> Result<Option<Text>, AllocError>
    requires { IfSome moment (λ secs. secs ≤ last_shown) }
    ensures { IfOk result (λ text. text ≡ option_map creation_date_text moment) }
{
    match moment {
        Some(secs) => Ok(Some(Text::from_string(creation_date(alloc, secs)?))),
        None => Ok(None),
    }
}
