//! Reads of batches.
ghost use Rattle.std.specs.Prelude.{map};
ghost use Rattle.dav_wire.specs.Batches.{batch};
ghost use Rattle.dav_wire.specs.Reads.{ReadsAllocating};

use crate::{Reader, WireError};

impl<'a> Reader<'a> {
    /// Reads a list of byte strings, which are borrowed from the frame.
    pub(crate) fn read_batch(&mut self) -> Result<Vec<&'a [u8]>, WireError>
        ensures { ReadsAllocating batch (λ v. map (λ s. s.now) v.items) self.old result self.new }
    {
        let mut left = self.read_number()?;
        let mut frames = Vec::new(self.alloc);
        while left > 0 {
            let frame = self.read_bytes()?;
            frames.push(frame)?;
            left -= 1;
        }
        Ok(frames)
    }
}
