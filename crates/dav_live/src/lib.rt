//! The live properties of a resource: those whose values come from the server.
#![tactic(auto)]

mod element;
mod moment;
mod property;
mod quota;
mod text;
mod tree;
mod viewer;

pub use element::live_element;
pub use property::LiveProperty;
pub use viewer::{Viewer, is_microsoft};
