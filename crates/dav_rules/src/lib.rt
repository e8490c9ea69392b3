//! Reads the rules of access rights from a text in TOML.
//!
//! ```toml
//! [groups]
//! editors = ["ada", "grace"]
//!
//! [[rule]]
//! group = "editors"
//! at_and_below = "/projects"
//! allow = ["list", "read", "write"]
//! ```
//!
//! A rule is for one caller (`user`), for those of a group (`group`), or for everyone (`everyone = true`). It is made for
//! one resource (`at`), or for it and all below it (`at_and_below`). It allows what it lists: `list`, `read` and `write`,
//! or nothing.
//!
//! The segments of a path are what is written between its slashes, percent-decoded, so `%`, `?` and `#` of a name are
//! escaped. A slash at the end changes nothing. A path of which something would be cut off or dropped is refused: one with
//! `?` or `#`, an empty segment, or a segment `.` or `..`.
#![tactic(auto)]

mod allow;
mod error;
mod place;
mod rule;
mod text;
mod who;

pub use error::{RuleFault, RulesError};
pub use text::read_rules;
