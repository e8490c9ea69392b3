//! The date and time of the property `DAV:creationdate` (RFC 4918, section 15.1).
ghost use Rattle.std.specs.Prelude.{◌≡◌, ◌*◌, ◌≤◌, IfOk, pos, string_bytes};
ghost use Rattle.jiff.specs.Words.{civil_nanos};
ghost use Rattle.dav_dates.specs.Moment.{last_shown};
ghost use Rattle.dav_dates.specs.CreationDate.{creation_date_text};

use jiff::Timestamp;
use jiff::civil::DateTime;
use jiff::tz::Offset;
use std::alloc::{AllocError, Global};

/// Formats a time in seconds since 1970 as a date and time in UTC such as `1970-01-01T00:00:01Z` (RFC 3339,
/// section 5.6). Fails only if memory runs out.
pub fn creation_date(alloc: Global, secs: u64) -> Result<String, AllocError>
    requires { secs ≤ last_shown }
    ensures { IfOk result (λ text. string_bytes text ≡ creation_date_text secs) }
{
    let shown = utc(secs);
    format!(in alloc; "{shown}Z")
}

/// Returns the date and time in UTC of this second since 1970.
fn utc(secs: u64) -> DateTime
    requires { secs ≤ last_shown }
    ensures { civil_nanos result ≡ pos (secs * 1_000_000_000) }
{
    let moment = Timestamp::from_second(secs as i64).unwrap();
    Offset::UTC.to_datetime(moment)
}
