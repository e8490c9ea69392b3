//! The methods of WebDAV, and sets of methods.
ghost use Rattle.std.specs.Prelude.{◌≡◌, false, true, if◌then◌else◌};
ghost use Rattle.dav_resource.specs.Methods.{method_of, contains_method, same_method};

use http::Method;

/// A method of a WebDAV server (RFC 9110, section 9; RFC 5789; RFC 4918, section 9). Each variant is the
/// method of the same name.
#[derive(Clone, Copy, Debug, PartialEq, Eq)]
pub enum DavMethod {
    Head,
    Get,
    Put,
    Patch,
    Options,
    PropFind,
    PropPatch,
    MkCol,
    Copy,
    Move,
    Delete,
    Lock,
    Unlock,
}

impl DavMethod {
    /// Converts the method of a request. Returns `None` if it is not one of these. Names are case-sensitive.
    pub fn from_method(method: &Method) -> Option<DavMethod>
        ensures { result ≡ method_of method.now }
    {
        match method.as_str() {
            "HEAD" => Some(DavMethod::Head),
            "GET" => Some(DavMethod::Get),
            "PUT" => Some(DavMethod::Put),
            "PATCH" => Some(DavMethod::Patch),
            "OPTIONS" => Some(DavMethod::Options),
            "PROPFIND" => Some(DavMethod::PropFind),
            "PROPPATCH" => Some(DavMethod::PropPatch),
            "MKCOL" => Some(DavMethod::MkCol),
            "COPY" => Some(DavMethod::Copy),
            "MOVE" => Some(DavMethod::Move),
            "DELETE" => Some(DavMethod::Delete),
            "LOCK" => Some(DavMethod::Lock),
            "UNLOCK" => Some(DavMethod::Unlock),
            _ => None,
        }
    }
}

/// A set of methods.
#[derive(Clone, Copy, Debug, PartialEq, Eq)]
pub struct DavMethodSet {
    /// Whether each method is in the set, in declaration order.
    pub members: [bool; 13],
}

impl DavMethodSet {
    /// Returns the empty set.
    pub fn none() -> DavMethodSet
        ensures { (method : _) → contains_method result method ≡ false }
    {
        DavMethodSet {
            members: [false; 13],
        }
    }

    /// Returns the set of all methods.
    pub fn all() -> DavMethodSet
        ensures { (method : _) → contains_method result method ≡ true }
    {
        DavMethodSet {
            members: [true; 13],
        }
    }

    /// Adds a method. The other methods stay as they are.
    pub fn add(&mut self, method: DavMethod)
        ensures { (other : _) → contains_method self.new other ≡ (if same_method other method then true else contains_method self.old other) }
    {
        self.members[method as usize] = true;
    }

    /// Removes a method. The other methods stay as they are.
    pub fn remove(&mut self, method: DavMethod)
        ensures { (other : _) → contains_method self.new other ≡ (if same_method other method then false else contains_method self.old other) }
    {
        self.members[method as usize] = false;
    }

    /// Whether a method is in the set.
    pub fn contains(&self, method: DavMethod) -> bool
        ensures { result ≡ contains_method self.now method }
    {
        self.members[method as usize]
    }
}
