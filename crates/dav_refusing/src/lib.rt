//! A store for tests: it wraps another store and refuses calls by plan or by number.
#![tactic(auto)]

mod refusing;

pub use refusing::Refusing;
