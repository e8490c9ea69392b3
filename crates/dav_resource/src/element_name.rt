//! The names of the elements that the server itself writes (RFC 4918, sections 14 to 16).
ghost use Rattle.std.specs.Prelude.{◌≡◌};
ghost use Rattle.dav_resource.specs.ElementNames.{name_text, live_text};

/// The name of an element that the server itself writes, with its prefix. It takes no memory.
#[derive(Clone, Copy, Debug, PartialEq, Eq)]
pub enum ElementName {
    /// `D:multistatus` (RFC 4918, section 14.16).
    Multistatus,
    /// `D:response` (RFC 4918, section 14.24).
    Response,
    /// `D:href` (RFC 4918, section 14.7).
    Href,
    /// `D:propstat` (RFC 4918, section 14.22).
    Propstat,
    /// `D:prop` (RFC 4918, section 14.18).
    Prop,
    /// `D:status` (RFC 4918, section 14.28).
    Status,
    /// `D:error` (RFC 4918, section 14.5).
    Error,
    /// `D:propfind-finite-depth` (RFC 4918, section 16).
    PropfindFiniteDepth,
    /// `D:collection` (RFC 4918, section 14.3).
    Collection,
    /// `D:activelock` (RFC 4918, section 14.1).
    ActiveLock,
    /// `D:lockentry` (RFC 4918, section 14.10).
    LockEntry,
    /// `D:lockscope` (RFC 4918, section 14.13).
    LockScope,
    /// `D:locktype` (RFC 4918, section 14.15).
    LockType,
    /// `D:exclusive` (RFC 4918, section 14.6).
    Exclusive,
    /// `D:shared` (RFC 4918, section 14.27).
    Shared,
    /// `D:write` (RFC 4918, section 14.30).
    Write,
    /// `D:depth` (RFC 4918, section 14.4).
    Depth,
    /// `D:timeout` (RFC 4918, section 14.29).
    Timeout,
    /// `D:locktoken` (RFC 4918, section 14.14).
    LockToken,
    /// `D:lockroot` (RFC 4918, section 14.12).
    LockRoot,
    /// A live property.
    Live(LiveName),
}

/// The name of a live property, with its prefix (RFC 4918, section 15; RFC 4331; RFC 5397; and those of Apache and
/// Microsoft).
#[derive(Clone, Copy, Debug, PartialEq, Eq)]
pub enum LiveName {
    /// `D:creationdate`.
    CreationDate,
    /// `D:getcontentlength`.
    ContentLength,
    /// `D:getcontenttype`.
    ContentType,
    /// `D:getetag`.
    ETag,
    /// `D:getlastmodified`.
    LastModified,
    /// `D:lockdiscovery`.
    LockDiscovery,
    /// `D:resourcetype`.
    ResourceType,
    /// `D:supportedlock`.
    SupportedLock,
    /// `D:current-user-principal`.
    CurrentUserPrincipal,
    /// `D:quota-available-bytes`.
    QuotaAvailableBytes,
    /// `D:quota-used-bytes`.
    QuotaUsedBytes,
    /// `A:executable`.
    Executable,
    /// `Z:Win32CreationTime`.
    Win32CreationTime,
    /// `Z:Win32FileAttributes`.
    Win32FileAttributes,
    /// `Z:Win32LastAccessTime`.
    Win32LastAccessTime,
    /// `Z:Win32LastModifiedTime`.
    Win32LastModifiedTime,
}

impl ElementName {
    /// The prefix, a `:` and the local name (Namespaces in XML 1.0, section 4).
    pub fn as_str(self) -> &'static str
        ensures { result.now ≡ name_text self }
    {
        match self {
            ElementName::Multistatus => "D:multistatus",
            ElementName::Response => "D:response",
            ElementName::Href => "D:href",
            ElementName::Propstat => "D:propstat",
            ElementName::Prop => "D:prop",
            ElementName::Status => "D:status",
            ElementName::Error => "D:error",
            ElementName::PropfindFiniteDepth => "D:propfind-finite-depth",
            ElementName::Collection => "D:collection",
            ElementName::ActiveLock => "D:activelock",
            ElementName::LockEntry => "D:lockentry",
            ElementName::LockScope => "D:lockscope",
            ElementName::LockType => "D:locktype",
            ElementName::Exclusive => "D:exclusive",
            ElementName::Shared => "D:shared",
            ElementName::Write => "D:write",
            ElementName::Depth => "D:depth",
            ElementName::Timeout => "D:timeout",
            ElementName::LockToken => "D:locktoken",
            ElementName::LockRoot => "D:lockroot",
            ElementName::Live(name) => name.as_str(),
        }
    }
}

impl LiveName {
    /// The prefix, a `:` and the local name (Namespaces in XML 1.0, section 4).
    pub fn as_str(self) -> &'static str
        ensures { result.now ≡ live_text self }
    {
        match self {
            LiveName::CreationDate => "D:creationdate",
            LiveName::ContentLength => "D:getcontentlength",
            LiveName::ContentType => "D:getcontenttype",
            LiveName::ETag => "D:getetag",
            LiveName::LastModified => "D:getlastmodified",
            LiveName::LockDiscovery => "D:lockdiscovery",
            LiveName::ResourceType => "D:resourcetype",
            LiveName::SupportedLock => "D:supportedlock",
            LiveName::CurrentUserPrincipal => "D:current-user-principal",
            LiveName::QuotaAvailableBytes => "D:quota-available-bytes",
            LiveName::QuotaUsedBytes => "D:quota-used-bytes",
            LiveName::Executable => "A:executable",
            LiveName::Win32CreationTime => "Z:Win32CreationTime",
            LiveName::Win32FileAttributes => "Z:Win32FileAttributes",
            LiveName::Win32LastAccessTime => "Z:Win32LastAccessTime",
            LiveName::Win32LastModifiedTime => "Z:Win32LastModifiedTime",
        }
    }
}
