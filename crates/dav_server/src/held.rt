//! When the next lock expires, and how much is held.
ghost use Rattle.std.specs.Prelude.{◌≡◌, Some, None, length, option_map};
ghost use Rattle.std.specs.Option.{option_map_or};
ghost use Rattle.dav_memls.specs.Expiry.{earliest_expiry};
ghost use Rattle.dav_wire.specs.Frames as frames;
ghost use Rattle.dav_wire.specs.Views.{reply_of as value_of};
ghost use Rattle.dav_server.specs.Replies.{reply_with};

use crate::replies::{encode, failed};
use crate::server::Server;
use crate::{ExpiringLocks, TimedStore};
use dav_resource::{FsError, FsResult};
use dav_store::GuardedFileSystem;
use dav_wire::{HeldFrame, Reply};

impl<'a, F: TimedStore, L: ExpiringLocks> Server<'a, F, L> {
    ghost use Rattle.dav_server.specs.State.{HasEmptyLog, state_of, rules_of, loans_of, locks_at};
    ghost use Rattle.dav_server.specs.Frames.{Reacts};

    /// Returns the encoded reply with the time at which the next lock expires.
    pub(crate) fn next_expiry(&self) -> Option<Vec<u8>>
        ensures reacts { Reacts F.seen F.reads (rules_of self.entry.now) (Some frames.NextExpiry) (state_of F.seen L.seen self.entry.now) (option_map (λ v. v.items) result) (state_of F.seen L.seen self.entry.now) }
    {
        encode(self.alloc, &Reply::NextExpiry(self.earliest()))
    }

    /// Returns the earliest time at which a lock expires, if one does.
    fn earliest(&self) -> Option<u64>
        ensures { result ≡ option_map_or earliest_expiry (locks_at (state_of F.seen L.seen self.entry.now)) None }
    {
        match &self.engine.ls {
            Some(locks) => locks.next_expiry(),
            None => None,
        }
    }

    /// Returns the number of locks.
    fn lock_count(&self) -> u64
        ensures { result ≡ option_map_or length (locks_at (state_of F.seen L.seen self.entry.now)) 0 }
    {
        match &self.engine.ls {
            Some(locks) => locks.count() as u64,
            None => 0,
        }
    }

    /// Returns the encoded reply with the number of locks and with the store's quota, if it has one.
    pub(crate) fn held(&mut self) -> Option<Vec<u8>>
        ensures rules { rules_of self.new ≡ rules_of self.old }
        ensures loans { loans_of self.new ≡ loans_of self.old }
        ensures reacts { Reacts F.seen F.reads (rules_of self.old) (Some frames.Held) (state_of F.seen L.seen self.old) (option_map (λ v. v.items) result) (state_of F.seen L.seen self.new) }
        ensures log { HasEmptyLog F.seen self.old → HasEmptyLog F.seen self.new }
    {
        let quota = self.engine.fs.get_quota(&());
        self.engine.fs.clear_log();
        let reply = held_reply(self.lock_count(), quota);
        encode(self.alloc, &reply)
    }
}

/// Returns the reply with the number of locks and the quota that the store returned.
fn held_reply(locks: u64, quota: FsResult<(u64, Option<u64>)>) -> Reply<'static>
    ensures { value_of result ≡ reply_with locks quota }
{
    match quota {
        Ok(quota) => Reply::Held(HeldFrame {
            locks,
            quota: Some(quota),
        }),
        Err(FsError::NotImplemented) => Reply::Held(HeldFrame { locks, quota: None }),
        Err(error) => failed(error.statuscode()),
    }
}
