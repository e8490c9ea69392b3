//! The begin and the end of a backup.
ghost use Rattle.std.specs.Prelude.{◌≡◌, true, false, Some, option_map};
ghost use Rattle.dav_wire.specs.Frames as frames;

use crate::replies::encode;
use crate::server::Server;
use crate::{ExpiringLocks, TimedStore};
use dav_wire::Reply;

impl<'a, F: TimedStore, L: ExpiringLocks> Server<'a, F, L> {
    ghost use Rattle.dav_engine.specs.DavInner.{lent};
    ghost use Rattle.dav_server.specs.State.{state_of, rules_of, loans_of};
    ghost use Rattle.dav_server.specs.Frames.{Reacts};

    /// Begins a backup, and returns the encoded reply. The keeper learns of it with each batch.
    pub(crate) fn begin_backup(&mut self) -> Option<Vec<u8>>
        ensures rules { rules_of self.new ≡ rules_of self.old }
        ensures loans { loans_of self.new ≡ loans_of self.old }
        ensures reacts { Reacts F.seen F.reads (rules_of self.old) (Some frames.BeginBackup) (state_of F.seen L.seen self.old) (option_map (λ v. v.items) result) (state_of F.seen L.seen self.new) }
        ensures store { lent self.new.engine ≡ lent self.old.engine }
        ensures begun { self.new.in_backup ≡ true }
    {
        self.in_backup = true;
        encode(self.alloc, &Reply::Done)
    }

    /// Ends the backup, if one has begun, and returns the encoded reply.
    pub(crate) fn end_backup(&mut self) -> Option<Vec<u8>>
        ensures rules { rules_of self.new ≡ rules_of self.old }
        ensures loans { loans_of self.new ≡ loans_of self.old }
        ensures reacts { Reacts F.seen F.reads (rules_of self.old) (Some frames.EndBackup) (state_of F.seen L.seen self.old) (option_map (λ v. v.items) result) (state_of F.seen L.seen self.new) }
        ensures store { lent self.new.engine ≡ lent self.old.engine }
        ensures ended { self.new.in_backup ≡ false }
    {
        self.in_backup = false;
        encode(self.alloc, &Reply::Done)
    }
}
