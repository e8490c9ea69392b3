//! Access rules that a host sends.
ghost use Rattle.std.specs.Prelude.{◌≡◌, Some, option_map};
ghost use Rattle.dav_rights.specs.Access.{rights_in};
ghost use Rattle.dav_wire.specs.Frames as frames;
ghost use Rattle.dav_wire.specs.Replies as replies;
ghost use Rattle.dav_wire.specs.Views.{explain_frame_of, explained_frame_of, reply_of};
ghost use Rattle.dav_server.specs.Events.{explained_by};

use crate::replies::{encode, failed};
use crate::server::Server;
use crate::{ExpiringLocks, TimedStore};
use dav_key::FlatKey;
use dav_resource::DavPath;
use dav_rights::Access;
use dav_rules::{RulesError, read_rules};
use dav_wire::{ExplainFrame, ExplainedFrame, Reply};
use http::StatusCode;
use std::alloc::{AllocError, Global};

impl<'a, F: TimedStore, L: ExpiringLocks> Server<'a, F, L> {
    ghost use Rattle.dav_server.specs.State.{HasEmptyLog, state_of, rules_of, loans_of};
    ghost use Rattle.dav_server.specs.Frames.{Reacts};

    /// Serves by the access rules of this text from now on, and returns the encoded reply. If the text has no rules,
    /// nothing changes, and the reply says why.
    pub(crate) fn set_rights(&mut self, text: &str) -> Option<Vec<u8>>
        ensures rules { rules_of self.new ≡ rules_of self.old }
        ensures loans { loans_of self.new ≡ loans_of self.old }
        ensures reacts { Reacts F.seen F.reads (rules_of self.old) (Some (frames.SetRights text.now)) (state_of F.seen L.seen self.old) (option_map (λ v. v.items) result) (state_of F.seen L.seen self.new) }
        ensures log { HasEmptyLog F.seen self.old → HasEmptyLog F.seen self.new }
    {
        match read_rules(self.alloc, text) {
            Ok(rules) => {
                self.set_rules(Some(rules));
                encode(self.alloc, &Reply::Done)
            }
            Err(RulesError::Memory) => encode(self.alloc, &no_memory()),
            Err(error) => match reason_of(self.alloc, &error) {
                Ok(reason) => encode(self.alloc, &Reply::Refused(&reason)),
                Err(_) => encode(self.alloc, &no_memory()),
            },
        }
    }

    /// Returns the encoded reply with what the access rules allow a principal at a path, or with the status of the path's
    /// error.
    pub(crate) fn explain(&self, asked: ExplainFrame<'_>) -> Option<Vec<u8>>
        ensures reacts { Reacts F.seen F.reads (rules_of self.entry.now) (Some (frames.Explain (explain_frame_of asked.entry))) (state_of F.seen L.seen self.entry.now) (option_map (λ v. v.items) result) (state_of F.seen L.seen self.entry.now) }
    {
        let alloc = self.alloc;
        let path = match DavPath::from_str_and_prefix(alloc, asked.path, self.engine.prefix()) {
            Ok(path) => path,
            Err(error) => return encode(alloc, &failed(error.statuscode())),
        };
        match Access::of(alloc, self.rights.as_ref(), asked.principal) {
            Ok(access) => encode(alloc, &Reply::Explained(explained(&access, path.key()))),
            Err(_) => encode(alloc, &no_memory()),
        }
    }
}

/// Returns what is allowed with a resource, as a reply has it.
fn explained(access: &Access, key: &FlatKey) -> ExplainedFrame
    ensures { explained_frame_of result ≡ explained_by (rights_in access.now) key.now }
{
    let explanation = access.explain(key);
    ExplainedFrame {
        rule: match explanation.rule {
            Some(number) => Some(number as u64),
            None => None,
        },
        list: explanation.allowed.list,
        read: explanation.allowed.read,
        write: explanation.allowed.write,
    }
}

/// Returns the reply to a frame for which memory runs out.
fn no_memory() -> Reply<'static>
    ensures { reply_of result ≡ replies.Failed 507 }
{
    failed(StatusCode::INSUFFICIENT_STORAGE)
}

/// Returns why a text has no rules, in words. Fails only if memory runs out.
fn reason_of(alloc: Global, error: &RulesError) -> Result<String, AllocError> {
    format!(in alloc; "{error}")
}
