//! A disk that keeps room back, so that a database on the same file system can still commit when that is full.
//!
//! A store keeps its bytes in a data file, and everything else in a database beside it. When the file system is full,
//! a write of bytes fails. To delete a file must still succeed, and the database needs some room for that. So a second
//! file, the reserve, holds room that nothing else uses. [`Reserved`] lets the data file grow only while the reserve is
//! filled. When a write finds no room, it empties the reserve, and the database has its room.
//!
//! What the reserve is worth depends on the file system: the bytes that are written to it have to take room. They look
//! random, so none is stored as a hole or compressed away.
#![tactic(auto)]

mod fill;
mod reserve;
mod reserved;
mod roomy;

pub use reserve::ROOM;
pub use reserved::Reserved;
pub use roomy::Roomy;
