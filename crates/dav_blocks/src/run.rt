//! A run of bytes of a data file.

/// Bytes that follow each other in a data file.
#[derive(Clone, Copy, Debug)]
pub struct Run {
    /// Where they begin.
    pub at: usize,
    /// How many they are.
    pub len: usize,
}
