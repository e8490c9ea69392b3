//! Disks that report that they are full.
ghost use Rattle.std.specs.Prelude.{◌≡◌, Bool, false};

use sqlite_disk::{Disk, Memory};

/// A disk that reports whether its file can grow.
pub trait Roomy: Disk {
    /// A write found no room, and none that may have made the file longer has succeeded since.
    ghost is_full: { Self → Bool };

    /// Returns whether a write found no room, and none that may have made the file longer has succeeded since.
    fn is_full(&self) -> bool
        ensures { result ≡ is_full self.now };
}

/// A file in memory never runs out of room: a write fails only if an allocation fails.
impl Roomy for Memory {
    ghost is_full = { λ _. false };

    fn is_full(&self) -> bool {
        false
    }
}
