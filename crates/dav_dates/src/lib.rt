//! Times as strings: the HTTP date of a header field, and the date and time of `DAV:creationdate`.
#![tactic(auto)]

mod header_date;
mod utc_date;

pub use header_date::{LAST_SHOWN, http_date, http_date_value, read_http_date, shown_moment};
pub use utc_date::creation_date;
