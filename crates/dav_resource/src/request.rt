//! Requests, and the bodies of responses.
use crate::{BodyNumber, DavPath, Element, Items, LockToken, Text};
use http::Method;
use http_header::{HeaderMap, HeaderValue};

/// How far below a resource a request applies (RFC 4918, section 10.2).
#[derive(Clone, Copy, Debug, PartialEq, Eq)]
pub enum Depth {
    /// Only the resource.
    Zero,
    /// The resource and its members.
    One,
    /// The resource and everything below it.
    Infinity,
    /// There is no Depth header, and each method defines what that means. No header is parsed into this
    /// variant.
    Default,
}

/// The body of a request, as the HTTP server has read it.
#[derive(Drop, Debug)]
pub enum ReqBody {
    /// No body.
    None,
    /// Bytes that were not parsed.
    Bytes(Items<u8>),
    /// Bytes that were not parsed and that the store holds, under this number. A number that the store does
    /// not know counts as `Malformed`.
    Stored(BodyNumber),
    /// XML, as the tree of its root element.
    Tree(Element),
    /// A body that should be XML and could not be parsed.
    Malformed,
}

/// The body of a response.
#[derive(Drop, Debug)]
pub enum Body {
    /// No body.
    Empty,
    /// XML, as the tree of its root element.
    Tree(Element),
}

/// A request, with the values that the HTTP server supplies beside it.
#[derive(Drop, Debug)]
pub struct DavRequest {
    /// The method.
    pub method: Method,
    /// The path of the requested resource.
    pub path: DavPath,
    /// The header fields.
    pub headers: HeaderMap<HeaderValue>,
    /// The body.
    pub body: ReqBody,
    /// The principal that sent the request, if known.
    pub principal: Option<Text>,
    /// The token for the lock that this request creates, if it creates one.
    pub token: LockToken,
    /// The time of the request, in whole seconds since 1970.
    pub now: u64,
}
