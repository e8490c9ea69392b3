//! The bodies of requests, as the store may hold them.
ghost use Rattle.std.specs.Prelude.{◌≡◌, length, option_map};
ghost use Rattle.dav_messages.specs.RequestBody.{body_bytes, is_empty_body};

use dav_resource::ReqBody;
use dav_store::GuardedFileSystem;

/// Returns the length of a request's body in bytes: 0 for no body. Returns `None` for a body that is not
/// bytes: a tree, a malformed body, or a number under which the store holds no body.
pub fn body_length<C, F: GuardedFileSystem<C>>(fs: &F, body: &ReqBody) -> Option<u64>
    ensures { result ≡ option_map length (body_bytes (F.seen fs.now).facts.bodies body.now) }
{
    match body {
        ReqBody::None => Some(0),
        ReqBody::Bytes(bytes) => Some(bytes.as_slice().len() as u64),
        ReqBody::Stored(number) => fs.body_length(*number),
        ReqBody::Tree(_) | ReqBody::Malformed => None,
    }
}

/// Whether a request has no body, or one of no bytes.
pub fn is_empty_body<C, F: GuardedFileSystem<C>>(fs: &F, body: &ReqBody) -> bool
    ensures { result ≡ is_empty_body (F.seen fs.now).facts.bodies body.now }
{
    body_length::<C, F>(fs, body) == Some(0)
}
