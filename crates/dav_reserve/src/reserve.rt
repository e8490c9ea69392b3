//! What a reserve holds.

/// How many bytes a store keeps back: 16 MiB. A database's commit takes a small part of them.
pub const ROOM: usize = 16 << 20;

/// What is known of the file that is the reserve.
#[derive(Clone, Copy, Debug)]
pub(crate) enum Reserve {
    /// It has no bytes.
    Empty,
    /// It has all the bytes that are to be kept back.
    Filled,
    /// It may have some: it was not looked at yet, or a call that was to change it failed.
    Unknown,
}
