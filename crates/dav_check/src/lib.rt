//! A check of a store: every byte of every file is read.
#![tactic(auto)]

mod checking;
mod pending;
mod reading;

pub use checking::{Checked, check};
