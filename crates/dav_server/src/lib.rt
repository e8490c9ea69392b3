//! Serves batches of frames: requests with the engine, bodies of requests piece by piece, and reads of files.
//!
//! A host accepts HTTP connections and sends what arrives as frames, many in a batch. A `Server` serves the frames in
//! order and returns a reply to each. It reads no clock and draws no random number: the time, the lock tokens and the
//! principals come with the frames. The same batches give the same replies and the same state, unless memory runs
//! out.
//!
//! With a `Keeper` a server keeps each batch in a place that survives a crash, before it writes the replies.
#![tactic(auto)]

mod backup;
mod batch;
mod bodies;
mod exchange;
mod held;
mod keeper;
mod keeping;
mod memory;
mod operating;
mod owners;
mod parts;
mod replies;
mod requests;
mod rights;
mod served;
mod server;

pub use batch::BatchReply;
pub use keeper::Keeper;
pub use served::{ExpiringLocks, TimedStore};
pub use server::{Options, Server};
