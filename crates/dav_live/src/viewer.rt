//! The client that requests properties, and what is known besides the resource.
ghost use Rattle.std.specs.Prelude.{◌≡◌, ◌++◌, ◌↔◌, IsTrue};
ghost use Rattle.std.specs.Option.{option_copied};
ghost use Rattle.dav_live.specs.Viewing.{names_microsoft, names_webdavfs};

use dav_resource::Profile;

/// The client that requests properties, the store's quota, and the profile of the engine.
#[derive(Clone, Copy, Debug)]
pub struct Viewer<'r> {
    /// The principal of the request, if known.
    pub principal: Option<&'r str>,
    /// The request's `User-Agent` field, if it has one (RFC 9110, section 10.1.5).
    pub user_agent: Option<&'r str>,
    /// The bytes that the store uses, and the total if known. `None` if the store did not report its quota
    /// (RFC 4331).
    pub quota: Option<(u64, Option<u64>)>,
    /// What is reported where the Rust crate and the standards differ.
    pub profile: Profile,
}

/// Returns whether the client is the macOS file system, whose User-Agent contains `WebDAVFS`.
pub(crate) fn is_webdavfs(user_agent: Option<&str>) -> bool
    ensures { result ≡ names_webdavfs (option_copied user_agent.entry) }
{
    match user_agent {
        Some(agent) => agent.contains("WebDAVFS"),
        None => false,
    }
}

/// Returns whether the client is one of Microsoft's, whose User-Agent contains `Microsoft`.
pub fn is_microsoft(user_agent: Option<&str>) -> bool
    ensures { result ≡ names_microsoft (option_copied user_agent.entry) }
{
    match user_agent {
        Some(agent) => agent.contains("Microsoft"),
        None => false,
    }
}
