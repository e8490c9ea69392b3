//! The tests of the library: functions that no program calls, each called once, because a body that gives up with
//! `Memory` keeps every contract; and the texts of errors. They are in one crate, because a crate with tests is proved
//! and compiled once more for them. It uses no store and no engine, so that this is cheap.
#![tactic(auto)]

#[cfg(test)]
mod calls;
#[cfg(test)]
mod errors;
#[cfg(test)]
mod frames;
