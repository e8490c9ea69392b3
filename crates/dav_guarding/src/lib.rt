//! A store that lets through what a policy allows its caller.
//!
//! [`Guarding`] wraps any store. A [`Policy`] says which calls the caller may not make, by the kind of the call and the
//! keys of its paths. Such a call is refused with `FsError::Forbidden`, and a member that the caller may not list does not
//! stand in the listing of its directory.
#![tactic(auto)]

mod guard;
mod guarding;
mod listing;
mod policy;

pub use guarding::Guarding;
pub use policy::Policy;
