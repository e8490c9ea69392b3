//! Between HTTP/1.1 messages and the engine's requests and responses.
use crate::xml::document;
use dav_engine::{Body, DavError, DavPath, DavRequest, DavResult, LockToken, ReqBody, Text};
use http::method::MethodError;
use http::{Method, Response, StatusCode};
use http_header::{HeaderMap, HeaderName, HeaderNameError, HeaderValue};
use httparse::{EMPTY_HEADER, Header, Status};
use std::alloc::{AllocError, Global};

/// How many header fields a request may have.
const MAX_FIELDS: usize = 64;

/// What the server supplies with a request beside its bytes.
#[derive(Drop)]
pub struct Arrival {
    /// The authenticated user, where there is one.
    pub principal: Option<Text>,
    /// A new token for the lock that this request may create. No two requests share one.
    pub token: LockToken,
    /// The time, in seconds since 1970. It never goes back.
    pub now: u64,
}

/// Parses the head of a request. The server has read the body already.
///
/// Errors: 431 for too many header fields, 400 for any other malformed head, the error of the path, and `Memory`.
pub fn read_request(
    alloc: Global,
    head: &[u8],
    body: ReqBody,
    arrival: Arrival,
) -> DavResult<DavRequest> {
    let mut fields = [EMPTY_HEADER; MAX_FIELDS];
    let mut parsed = httparse::Request::new(&mut fields);
    match parsed.parse(head) {
        Ok(Status::Complete(_)) => {}
        Err(httparse::Error::TooManyHeaders) => {
            return Err(DavError::StatusClose(StatusCode::REQUEST_HEADER_FIELDS_TOO_LARGE));
        }
        _ => return Err(DavError::StatusClose(StatusCode::BAD_REQUEST)),
    }
    let (Some(method), Some(target)) = (parsed.method, parsed.path) else {
        return Err(DavError::StatusClose(StatusCode::BAD_REQUEST));
    };
    Ok(DavRequest {
        method: read_method(alloc, method)?,
        path: DavPath::from_str_and_prefix(alloc, target, "")?,
        headers: read_headers(alloc, parsed.headers)?,
        body,
        principal: arrival.principal,
        token: arrival.token,
        now: arrival.now,
    })
}

fn read_method(alloc: Global, name: &str) -> DavResult<Method> {
    match Method::from_bytes(alloc, name.as_bytes()) {
        Ok(method) => Ok(method),
        Err(MethodError::Invalid) => Err(DavError::StatusClose(StatusCode::BAD_REQUEST)),
        Err(MethodError::OutOfMemory) => Err(DavError::Memory),
    }
}

/// Copies the header fields, in order. A name may occur more than once.
fn read_headers(alloc: Global, fields: &[Header<'_>]) -> DavResult<HeaderMap<HeaderValue>> {
    let mut headers = HeaderMap::new(alloc);
    for field in fields {
        let name = match HeaderName::from_bytes(alloc, field.name.as_bytes()) {
            Ok(name) => name,
            Err(HeaderNameError::Invalid) => return Err(DavError::StatusClose(
                StatusCode::BAD_REQUEST,
            )),
            Err(HeaderNameError::OutOfMemory) => return Err(DavError::Memory),
        };
        headers.append(name, HeaderValue::from_bytes(alloc, field.value)?)?;
    }
    Ok(headers)
}

/// Writes the result of a request as an HTTP/1.1 message. An error becomes a response with its status, and a tree
/// becomes an XML document. Fails only if memory runs out.
pub fn write_response(
    alloc: Global,
    answer: &DavResult<Response<Body>>,
) -> Result<Vec<u8>, AllocError> {
    let mut message = Vec::new(alloc);
    match answer {
        Ok(response) => {
            write_status(&mut message, response.status())?;
            let body = match response.body() {
                Body::Tree(tree) => document(alloc, tree)?,
                Body::Empty => String::new(alloc),
            };
            for (name, value) in response.headers().iter() {
                // The length of every body is written below.
                if name.as_str() != "content-length" {
                    write_field(&mut message, name.as_bytes(), value.as_bytes())?;
                }
            }
            // A 204 has no length field (RFC 9110, section 8.6).
            if response.status() != StatusCode::NO_CONTENT {
                write_length(alloc, &mut message, body.len())?;
            }
            message.extend_from_slice(b"\r\n")?;
            message.extend_from_slice(body.as_bytes())?;
        }
        Err(error) => {
            write_status(&mut message, error.statuscode())?;
            if error.must_close() {
                write_field(&mut message, b"connection", b"close")?;
            }
            write_length(alloc, &mut message, 0)?;
            message.extend_from_slice(b"\r\n")?;
        }
    }
    Ok(message)
}

fn write_status(message: &mut Vec<u8>, status: StatusCode) -> Result<(), AllocError> {
    message.extend_from_slice(b"HTTP/1.1 ")?;
    message.extend_from_slice(status.as_str().as_bytes())?;
    message.push(b' ')?;
    if let Some(phrase) = status.canonical_reason() {
        message.extend_from_slice(phrase.as_bytes())?;
    }
    message.extend_from_slice(b"\r\n")
}

fn write_field(message: &mut Vec<u8>, name: &[u8], value: &[u8]) -> Result<(), AllocError> {
    message.extend_from_slice(name)?;
    message.extend_from_slice(b": ")?;
    message.extend_from_slice(value)?;
    message.extend_from_slice(b"\r\n")
}

fn write_length(alloc: Global, message: &mut Vec<u8>, length: usize) -> Result<(), AllocError> {
    let digits = format!(in alloc; "{length}")?;
    write_field(message, b"content-length", digits.as_bytes())
}
