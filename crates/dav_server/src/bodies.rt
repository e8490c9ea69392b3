//! Bodies of requests that arrive piece by piece.
ghost use Rattle.std.specs.Prelude.{◌≡◌, Some, option_map};
ghost use Rattle.dav_wire.specs.Frames as frames;

use crate::replies::{encode, failed, started};
use crate::server::Server;
use crate::{ExpiringLocks, TimedStore};
use dav_resource::BodyNumber;
use dav_store::GuardedFileSystem;
use dav_wire::Reply;

impl<'a, F: TimedStore, L: ExpiringLocks> Server<'a, F, L> {
    ghost use Rattle.dav_server.specs.State.{HasEmptyLog, state_of, rules_of, loans_of};
    ghost use Rattle.dav_server.specs.Frames.{Reacts};

    /// Starts a body, and returns the encoded reply with its number.
    pub(crate) fn start_body(&mut self) -> Option<Vec<u8>>
        ensures rules { rules_of self.new ≡ rules_of self.old }
        ensures loans { loans_of self.new ≡ loans_of self.old }
        ensures reacts { Reacts F.seen F.reads (rules_of self.old) (Some frames.StartBody) (state_of F.seen L.seen self.old) (option_map (λ v. v.items) result) (state_of F.seen L.seen self.new) }
        ensures log { HasEmptyLog F.seen self.old → HasEmptyLog F.seen self.new }
    {
        let begun = self.engine.fs.start_body();
        let reply = started(begun);
        encode(self.alloc, &reply)
    }

    /// Adds bytes at the end of a body, and returns the encoded reply. If that fails, the body is removed, so that no
    /// request can use it without these bytes.
    pub(crate) fn add_to_body(&mut self, number: BodyNumber, bytes: &[u8]) -> Option<Vec<u8>>
        ensures rules { rules_of self.new ≡ rules_of self.old }
        ensures loans { loans_of self.new ≡ loans_of self.old }
        ensures reacts { Reacts F.seen F.reads (rules_of self.old) (Some (frames.AddToBody number bytes.now)) (state_of F.seen L.seen self.old) (option_map (λ v. v.items) result) (state_of F.seen L.seen self.new) }
        ensures log { HasEmptyLog F.seen self.old → HasEmptyLog F.seen self.new }
    {
        match self.engine.fs.add_to_body(number, bytes) {
            Ok(()) => encode(self.alloc, &Reply::Done),
            Err(error) => {
                self.engine.fs.drop_body(number);
                encode(self.alloc, &failed(error.statuscode()))
            }
        }
    }

    /// Removes a body, if there is one of this number, and returns the encoded reply.
    pub(crate) fn drop_body(&mut self, number: BodyNumber) -> Option<Vec<u8>>
        ensures rules { rules_of self.new ≡ rules_of self.old }
        ensures loans { loans_of self.new ≡ loans_of self.old }
        ensures reacts { Reacts F.seen F.reads (rules_of self.old) (Some (frames.DropBody number)) (state_of F.seen L.seen self.old) (option_map (λ v. v.items) result) (state_of F.seen L.seen self.new) }
        ensures log { HasEmptyLog F.seen self.old → HasEmptyLog F.seen self.new }
    {
        self.engine.fs.drop_body(number);
        encode(self.alloc, &Reply::Done)
    }
}
