//! The bodies that are held for requests to come.
ghost use Rattle.std.specs.Prelude.{◌≡◌, ◌⊎◌, length, option_map, OnOk, OnErr, IfOk, IfErr, Some, None};
ghost use Rattle.dav_tree.specs.Bodies.{FailsFor};
ghost use Rattle.dav_tree.specs.Memory.{begun, lengthened, put_held};
ghost use Rattle.dav_tree.specs.MemoryCalls.{start_error, add_error};
ghost use Rattle.dav_tree.specs.KeptCalls.{IsUnchanged};
ghost use Rattle.dav_tree.specs.Kept.{held_of, Has};

use super::Entries;
use crate::medium::Medium;
use dav_resource::{BodyNumber, FsError, FsResult};

impl<M: Medium> Entries<M> {
    /// Starts a body of no bytes, and returns its number. Returns `GeneralFailure` if no number is left, and
    /// `Memory` if memory runs out. After an error nothing has changed.
    pub fn start_body(&mut self) -> FsResult<BodyNumber>
        ensures number { IfOk result (λ number. number ≡ self.old.next) }
        ensures free { (held_of self.old).bodies self.old.next ≡ None }
        ensures due { OnOk result (start_error (held_of self.old) ≡ None) }
        ensures ok { OnOk result (Has self.old.resources (begun (held_of self.old)) self.new) }
        ensures same { OnErr result (IsUnchanged self.old self.new) }
        ensures err { IfErr result (λ e. (e ≡ FsError.Memory) ⊎ (start_error (held_of self.old) ≡ Some e)) }
    {
        let number = self.next;
        let Some(next) = number.checked_add(1) else {
            return Err(FsError::GeneralFailure);
        };
        let body = self.medium.empty(self.alloc);
        self.bodies.insert(number, body)?;
        self.next = next;
        Ok(BodyNumber::from_u64(number))
    }

    /// Adds bytes at the end of the body of a number. Returns `NotFound` if there is no such body, `Memory` if
    /// memory runs out, or an error of the medium's own. After an error nothing has changed. Makes one lookup.
    pub fn add_to_body(&mut self, number: BodyNumber, bytes: &[u8]) -> FsResult<()>
        ensures due { OnOk result (add_error number (held_of self.old) ≡ None) }
        ensures ok { OnOk result (Has self.old.resources (lengthened number bytes.now (held_of self.old)) self.new) }
        ensures same { OnErr result (IsUnchanged self.old self.new) }
        ensures err { IfErr result (λ e. FailsFor M.refuses e ⊎ (add_error number (held_of self.old) ≡ Some e)) }
    {
        let Some(body) = self.bodies.get_mut(&number.as_u64()) else {
            return Err(FsError::NotFound);
        };
        let len = self.medium.len(body);
        self.medium.write(self.alloc, body, len, bytes)
    }

    /// Removes the body of a number, if there is one. Makes one lookup.
    pub fn drop_body(&mut self, number: BodyNumber)
        ensures { Has self.old.resources (put_held number None (held_of self.old)) self.new }
    {
        let _ = self.bodies.remove(&number.as_u64());
    }

    /// Returns the length of the body of a number in bytes, if there is such a body. Makes one lookup.
    pub fn body_length(&self, number: BodyNumber) -> Option<u64>
        ensures { result ≡ option_map length ((held_of self.now).bodies number) }
    {
        match self.bodies.get(&number.as_u64()) {
            Some(body) => Some(self.medium.len(body)),
            None => None,
        }
    }
}
