//! Which properties are live, and how a response names them.
ghost use Rattle.std.specs.Prelude.{◌≡◌};
ghost use Rattle.dav_resource.specs.ElementNames.{live_text};
ghost use Rattle.dav_live.specs.Names.{live_property_of, named_in_dav, named_in_apache, named_in_microsoft, is_quota, shown_name};

use dav_resource::{Element, LiveName};

/// A live property: its value comes from the server (RFC 4918, section 15; RFC 4331; RFC 5397; and those that
/// clients of Apache's and Microsoft's namespaces ask for).
#[derive(Clone, Copy, Debug, PartialEq, Eq)]
pub enum LiveProperty {
    /// `DAV:creationdate` (RFC 4918, section 15.1).
    CreationDate,
    /// `DAV:getcontentlength` (RFC 4918, section 15.4).
    ContentLength,
    /// `DAV:getcontenttype` (RFC 4918, section 15.5).
    ContentType,
    /// `DAV:getetag` (RFC 4918, section 15.6).
    ETag,
    /// `DAV:getlastmodified` (RFC 4918, section 15.7).
    LastModified,
    /// `DAV:lockdiscovery` (RFC 4918, section 15.8).
    LockDiscovery,
    /// `DAV:resourcetype` (RFC 4918, section 15.9).
    ResourceType,
    /// `DAV:supportedlock` (RFC 4918, section 15.10).
    SupportedLock,
    /// `DAV:current-user-principal` (RFC 5397, section 3).
    CurrentUserPrincipal,
    /// `DAV:quota-available-bytes` (RFC 4331, section 3).
    QuotaAvailableBytes,
    /// `DAV:quota-used-bytes` (RFC 4331, section 4).
    QuotaUsedBytes,
    /// `executable` of `http://apache.org/dav/props/`.
    Executable,
    /// `Win32CreationTime` of `urn:schemas-microsoft-com:`.
    Win32CreationTime,
    /// `Win32FileAttributes` of `urn:schemas-microsoft-com:`.
    Win32FileAttributes,
    /// `Win32LastAccessTime` of `urn:schemas-microsoft-com:`.
    Win32LastAccessTime,
    /// `Win32LastModifiedTime` of `urn:schemas-microsoft-com:`.
    Win32LastModifiedTime,
}

impl LiveProperty {
    /// Returns the live property of this namespace and name, or `None` if there is none.
    pub fn of_element(prop: &Element) -> Option<LiveProperty>
        ensures { result ≡ live_property_of prop.now.tag.namespace prop.now.tag.name }
    {
        match prop.namespace()? {
            "DAV:" => named_in_dav(prop.name()),
            "http://apache.org/dav/props/" => named_in_apache(prop.name()),
            "urn:schemas-microsoft-com:" => named_in_microsoft(prop.name()),
            _ => None,
        }
    }

    /// Returns whether its value comes from the store's quota (RFC 4331).
    pub fn is_quota(self) -> bool
        ensures { result ≡ is_quota self }
    {
        match self {
            LiveProperty::QuotaAvailableBytes | LiveProperty::QuotaUsedBytes => true,
            _ => false,
        }
    }

    /// Returns its prefix and name in a response whose root element declares the prefixes.
    pub(crate) fn shown_name(self) -> LiveName
        ensures { live_text result ≡ shown_name self }
    {
        match self {
            LiveProperty::CreationDate => LiveName::CreationDate,
            LiveProperty::ContentLength => LiveName::ContentLength,
            LiveProperty::ContentType => LiveName::ContentType,
            LiveProperty::ETag => LiveName::ETag,
            LiveProperty::LastModified => LiveName::LastModified,
            LiveProperty::LockDiscovery => LiveName::LockDiscovery,
            LiveProperty::ResourceType => LiveName::ResourceType,
            LiveProperty::SupportedLock => LiveName::SupportedLock,
            LiveProperty::CurrentUserPrincipal => LiveName::CurrentUserPrincipal,
            LiveProperty::QuotaAvailableBytes => LiveName::QuotaAvailableBytes,
            LiveProperty::QuotaUsedBytes => LiveName::QuotaUsedBytes,
            LiveProperty::Executable => LiveName::Executable,
            LiveProperty::Win32CreationTime => LiveName::Win32CreationTime,
            LiveProperty::Win32FileAttributes => LiveName::Win32FileAttributes,
            LiveProperty::Win32LastAccessTime => LiveName::Win32LastAccessTime,
            LiveProperty::Win32LastModifiedTime => LiveName::Win32LastModifiedTime,
        }
    }
}

fn named_in_dav(name: &str) -> Option<LiveProperty>
    ensures { result ≡ named_in_dav name.now }
{
    match name {
        "creationdate" => Some(LiveProperty::CreationDate),
        "getcontentlength" => Some(LiveProperty::ContentLength),
        "getcontenttype" => Some(LiveProperty::ContentType),
        "getetag" => Some(LiveProperty::ETag),
        "getlastmodified" => Some(LiveProperty::LastModified),
        "lockdiscovery" => Some(LiveProperty::LockDiscovery),
        "resourcetype" => Some(LiveProperty::ResourceType),
        "supportedlock" => Some(LiveProperty::SupportedLock),
        "current-user-principal" => Some(LiveProperty::CurrentUserPrincipal),
        "quota-available-bytes" => Some(LiveProperty::QuotaAvailableBytes),
        "quota-used-bytes" => Some(LiveProperty::QuotaUsedBytes),
        _ => None,
    }
}

fn named_in_apache(name: &str) -> Option<LiveProperty>
    ensures { result ≡ named_in_apache name.now }
{
    match name {
        "executable" => Some(LiveProperty::Executable),
        _ => None,
    }
}

fn named_in_microsoft(name: &str) -> Option<LiveProperty>
    ensures { result ≡ named_in_microsoft name.now }
{
    match name {
        "Win32CreationTime" => Some(LiveProperty::Win32CreationTime),
        "Win32FileAttributes" => Some(LiveProperty::Win32FileAttributes),
        "Win32LastAccessTime" => Some(LiveProperty::Win32LastAccessTime),
        "Win32LastModifiedTime" => Some(LiveProperty::Win32LastModifiedTime),
        _ => None,
    }
}
