//! The headers that identify the client: User-Agent and X-Litmus.
ghost use Rattle.std.specs.Prelude.{◌≡◌, IsOkAnd, option_copied};
ghost use Rattle.dav_headers.specs.Client.{user_agent_of, litmus_of};

use crate::values::first_text;
use dav_resource::DavResult;
use http_header::{HeaderMap, HeaderValue};

/// Reads User-Agent (RFC 9110, section 10.1.5), without spaces and tabs at its ends. Returns `None` if there
/// is no such header, or its first value is not readable. Never returns an error.
pub fn read_user_agent(headers: &HeaderMap<HeaderValue>) -> DavResult<Option<&str>>
    ensures { IsOkAnd result (λ text. option_copied text ≡ user_agent_of headers.now) }
{
    Ok(first_text(headers, "user-agent"))
}

/// Reads X-Litmus, in which the test suite litmus sends the name of each request, as User-Agent is read.
/// Never returns an error.
pub fn read_litmus(headers: &HeaderMap<HeaderValue>) -> DavResult<Option<&str>>
    ensures { IsOkAnd result (λ text. option_copied text ≡ litmus_of headers.now) }
{
    Ok(first_text(headers, "x-litmus"))
}
