//! Paths of resources: a key below a server's prefix.
ghost use Rattle.std.specs.Prelude.{◌≡◌, ◌↔◌, true, ◌||◌, ◌==◌, [], ◌∷◌, ◌++◌, length, IsTrue, IfOk, OnOk, OnErr, bytes_eq, string_bytes};
ghost use Rattle.std.specs.List.{starts_with};
ghost use Rattle.http_header.specs.FieldValue.{IsFieldValue};
ghost use Rattle.dav_resource.specs.Gives.{GivesBy};
ghost use Rattle.dav_resource.specs.PathText.{read_path, read_path_below, url_text, star_path, IsKey, IsSegment};
ghost use Rattle.dav_resource.specs.Profile.{href_text};
ghost use Rattle.dav_resource.specs.PathForms.{root_path, is_collection, resource_path, parent_path, member_path, prefixed, file_name, ReadsBack};
ghost use Rattle.dav_resource.specs.Mime.{mime_type_of};

use crate::Profile;
use crate::error::DavResult;
use dav_key::{FlatKey, Segments};
use std::alloc::{AllocError, Global};
use std::marker::Model;

mod mime;
mod read;
mod write;

pub use read::is_segment;

/// The path of a resource, below the prefix of a server.
///
/// Its key has a list of segments. A segment is a non-empty string that contains neither `/` nor NUL, and is
/// neither `.` nor `..`. The star path `*` has no segments.
///
/// Copies of a path share the texts of its key and of its prefix, so a copy allocates no memory. A method
/// that makes another key says what it copies.
#[derive(Debug, Drop)]
pub struct DavPath {
    star: bool,
    slash: bool,
    prefix: FlatKey,
    key: FlatKey,
}

impl Model for DavPath {
    ghost use Rattle.dav_resource.specs.PathText.{PathValue};

    ghost Value = { PathValue };

    ghost use Rattle.dav_resource.specs.Path.{path_of};

    ghost view = { path_of };

    ghost use Rattle.dav_resource.specs.Path.{IsPath};

    ghost invariant = { IsPath };
}

impl DavPath {
    /// Parses the path of a URL (RFC 3986, section 3.3), below the prefix of a server.
    ///
    /// `*` is the star path. Otherwise only the part before the first `?` or `#` is parsed. Its segments are
    /// percent-decoded and applied from left to right, as `cd` does: an empty segment and `.` change nothing,
    /// and `..` removes the last segment. Then the prefix, which may be empty, is removed.
    ///
    /// The first error from left to right is returned. Errors of the path come before those of the prefix,
    /// and `IllegalPath` comes last.
    ///
    /// - `InvalidPath`: the path or the prefix does not begin with `/`, or a segment of it has a `%` without
    ///   two hexadecimal digits, or decodes to bytes that are not UTF-8 or that contain NUL or `/`.
    /// - `ForbiddenPath`: a `..` leaves the root.
    /// - `IllegalPath`: the path is not below the prefix.
    /// - `Memory`: memory runs out, at any time.
    pub fn from_str_and_prefix(alloc: Global, text: &str, prefix: &str) -> DavResult<DavPath>
        ensures { GivesBy (λ path. path) result (read_path text.now prefix.now) }
    {
        if text == "*" {
            return Ok(DavPath::without_segments(alloc, true)?);
        }
        let text = read::path_part(text);
        let key = read::read_key(alloc, text)?;
        let prefix = read::read_prefix(alloc, prefix)?;
        read::below_prefix(text.ends_with('/'), &key, prefix)
    }

    /// Parses the path of a URL as `from_str_and_prefix` does, below the prefix of another path. Except for
    /// the star path, the result shares the prefix of that path.
    ///
    /// The errors are those of the path, from left to right, and last `IllegalPath`, if the path is not below
    /// the prefix. `Memory` can come at any time.
    pub fn from_str_beside(alloc: Global, text: &str, path: &DavPath) -> DavResult<DavPath>
        ensures { GivesBy (λ p. p) result (read_path_below text.now path.now.prefix) }
    {
        if text == "*" {
            return Ok(DavPath::without_segments(alloc, true)?);
        }
        let text = read::path_part(text);
        let key = read::read_key(alloc, text)?;
        read::below_prefix(text.ends_with('/'), &key, path.prefix.clone()?)
    }

    /// Returns the root with a trailing slash, below no prefix. Fails only if memory runs out.
    pub fn root(alloc: Global) -> Result<DavPath, AllocError>
        ensures { IfOk result (λ path. path ≡ root_path) }
    {
        DavPath::without_segments(alloc, false)
    }

    /// Returns the path with this key below no prefix. It has a trailing slash if `collection` is set or the
    /// key is the root. The caller ensures that each segment of the key may be one. The path shares the key's
    /// text. Fails only if memory runs out.
    pub fn of_key(key: FlatKey, collection: bool) -> Result<DavPath, AllocError>
        requires { IsKey key }
        ensures { IfOk result (λ path. path ≡ resource_path collection (record root_path { key = key })) }
    {
        Ok(DavPath {
            star: false,
            slash: is_collection(collection, &key),
            prefix: FlatKey::root(key.allocator())?,
            key,
        })
    }

    /// Returns the star path, or the root below no prefix. Fails only if memory runs out.
    fn without_segments(alloc: Global, star: bool) -> Result<DavPath, AllocError>
        ensures { IfOk result (λ path. path ≡ record root_path { star = star }) }
    {
        let root = FlatKey::root(alloc)?;
        Ok(DavPath {
            star,
            slash: true,
            prefix: root.clone()?,
            key: root,
        })
    }

    /// Returns a path with the same contents. It shares the texts of the key and of the prefix, and allocates
    /// no memory. Fails only if there would be more copies at once than a `usize` counts.
    pub fn clone(&self) -> Result<DavPath, AllocError>
        ensures { IfOk result (λ copy. copy ≡ self.now) }
    {
        Ok(DavPath {
            star: self.star,
            slash: self.slash,
            prefix: self.prefix.clone()?,
            key: self.key.clone()?,
        })
    }

    /// Returns the path with the same key below no prefix. It has a trailing slash if `collection` is set or
    /// the key is the root. Both paths share the key's text. Fails only if memory runs out.
    pub fn resource_path(&self, collection: bool) -> Result<DavPath, AllocError>
        ensures { IfOk result (λ path. path ≡ resource_path collection self.now) }
    {
        DavPath::of_key(self.key.clone()?, collection)
    }

    /// Whether this is the star path.
    pub fn is_star(&self) -> bool
        ensures value { result ≡ self.now.star }
        ensures star { IsTrue result → self.now ≡ star_path }
    {
        self.star
    }

    /// Whether the path names a collection: it has a trailing slash, or no segments.
    pub fn is_collection(&self) -> bool
        ensures { result ≡ is_collection self.now }
    {
        is_collection(self.slash, &self.key)
    }

    /// Whether both paths have the same key. Prefixes and trailing slashes are not compared.
    pub fn same_key(&self, other: &DavPath) -> bool
        ensures { IsTrue result ↔ (self.now.key ≡ other.now.key) }
    {
        self.key.same(&other.key)
    }

    /// Whether this path's key is at or below the other's. Prefixes and trailing slashes are not compared.
    pub fn is_at_or_below(&self, other: &DavPath) -> bool
        ensures { result ≡ starts_with bytes_eq self.now.key other.now.key }
    {
        self.key.is_at_or_below(&other.key)
    }

    /// The prefix.
    pub fn prefix(&self) -> &FlatKey
        ensures value { result.now ≡ self.now.prefix }
        ensures key { IsKey self.now.prefix }
    {
        &self.prefix
    }

    /// The key, without the prefix.
    pub fn key(&self) -> &FlatKey
        ensures value { result.now ≡ self.now.key }
        ensures key { IsKey self.now.key }
    {
        &self.key
    }

    /// The segments of the key, first to last.
    pub fn segments(&self) -> Segments<'_>
        ensures value { result ≡ self.now.key }
        ensures key { IsKey self.now.key }
    {
        self.key.segments()
    }

    /// Returns the path of the parent, with a trailing slash. The parent of the root is the root. The
    /// parent's text is copied, and both paths share the prefix. Fails only if memory runs out.
    pub fn parent(&self) -> Result<DavPath, AllocError>
        ensures { IfOk result (λ path. path ≡ parent_path self.now) }
    {
        let mut path = self.clone()?;
        path.key = path.key.parent()?;
        path.slash = true;
        Ok(path)
    }

    /// Appends a segment, and removes the trailing slash: the path becomes that of the member with this name.
    /// The key's text is copied, and paths that shared it do not change. The caller ensures that the name may
    /// be a segment. Fails only if memory runs out, and the path is then unchanged.
    pub fn push_segment(&mut self, name: &str) -> Result<(), AllocError>
        requires { IsSegment name.now }
        ensures ok { OnOk result (self.new ≡ member_path self.old name.now) }
        ensures err { OnErr result (self.new ≡ self.old) }
    {
        self.key = self.key.child(name)?;
        self.star = false;
        self.slash = false;
        Ok(())
    }

    /// Makes the path end in a slash.
    pub fn add_slash(&mut self)
        ensures { self.new ≡ record self.old { slash = true } }
    {
        self.slash = true;
    }

    /// Makes the path end in a slash if `wanted` is set. Otherwise it stays as it is.
    pub fn add_slash_if(&mut self, wanted: bool)
        ensures { self.new ≡ record self.old { slash = self.old.slash || wanted } }
    {
        self.slash |= wanted;
    }

    /// Returns the path whose key is the prefix followed by the key, below no prefix. If the prefix has no
    /// segments, this is a `clone`, otherwise both texts are copied. Fails only if memory runs out.
    pub fn with_prefix(&self) -> Result<DavPath, AllocError>
        ensures { IfOk result (λ path. path ≡ prefixed self.now) }
    {
        if self.prefix.is_root() {
            return self.clone();
        }
        Ok(DavPath {
            star: self.star,
            slash: self.slash,
            prefix: FlatKey::root(self.prefix.allocator())?,
            key: self.prefix.join(&self.key)?,
        })
    }

    /// Writes the path as the path of a URL (RFC 3986, section 2.1), without its prefix. The star path is
    /// `*`, and the root always has its slash. Parsing the result below no prefix gives the path again,
    /// without its prefix. Fails only if memory runs out.
    pub fn as_url_string(&self) -> Result<String, AllocError>
        ensures value { IfOk result (λ text. string_bytes text ≡ url_text self.now) }
        ensures reads_back { IfOk result (λ text. ReadsBack self.now (string_bytes text)) }
        ensures field_value { IfOk result (λ text. IsFieldValue (string_bytes text)) }
    {
        write::path_text(write::ESCAPED, self.star, self.slash, &self.key)
    }

    /// Writes the path as a `D:href` has it (RFC 4918, section 14.7), without its prefix, as `as_url_string` does. In the
    /// profile `Standard` the characters `!$'()*+,:=@` are written as they are, as clients write them that compare it with
    /// an URL of their own. Parsing the result below no prefix gives the path again, without its prefix. Fails only if
    /// memory runs out.
    pub fn as_href(&self, profile: Profile) -> Result<String, AllocError>
        ensures value { IfOk result (λ text. string_bytes text ≡ href_text profile self.now) }
        ensures reads_back { IfOk result (λ text. ReadsBack self.now (string_bytes text)) }
    {
        write::path_text(
            write::escaped_in_href(profile),
            self.star,
            self.slash,
            &self.key,
        )
    }

    /// The bytes of the last segment. They are empty for the root.
    pub fn file_name_bytes(&self) -> &[u8]
        ensures { result.now ≡ file_name self.now.key }
    {
        match self.key.name() {
            Some(name) => name.as_bytes(),
            None => &[],
        }
    }

    /// Returns the media type for the extension of the last segment, in any ASCII case. The extension is what
    /// follows the last `.`. A `.` that is the first character does not begin one.
    pub fn get_mime_type_str(&self) -> &'static str
        ensures { result.now ≡ mime_type_of (file_name self.now.key) }
    {
        mime::mime_type_of(self.file_name_bytes())
    }
}

/// Whether a path with this key names a collection. The root always does.
fn is_collection(slash: bool, key: &FlatKey) -> bool
    ensures { result ≡ (slash || length key.now == 0) }
{
    slash || key.is_root()
}
