//! Batches of frames.
ghost use Rattle.std.specs.Prelude.{◌≡◌, ℕ, List, true, false, map, None, IfSome};
ghost use Rattle.dav_server.specs.Batches.{bare_answer, IsNext, begun, AnswersBatch};

use crate::server::Server;
use crate::{ExpiringLocks, TimedStore};
use dav_wire::{BatchHeader, WireError, read_batch};
use http::StatusCode;
use std::alloc::Global;

/// The answer to a batch.
#[derive(Drop, Debug)]
pub struct BatchReply {
    /// The number of the batch. With 409 the number of the last batch of the server.
    pub number: u64,
    /// 200 if the batch was served.
    pub status: StatusCode,
    /// The encoded replies to the frames, in order. `None` is a reply that could not be encoded, in whose place 507
    /// is sent.
    pub replies: Vec<Option<Vec<u8>>>,
}

impl BatchReply {
    ghost use Rattle.dav_server.specs.Answers.{answer_of};

    /// Returns an answer without replies.
    fn bare(alloc: Global, number: u64, status: StatusCode) -> BatchReply
        ensures { answer_of result ≡ bare_answer number status }
    {
        BatchReply {
            number,
            status,
            replies: Vec::new(alloc),
        }
    }
}

impl<'a, F: TimedStore, L: ExpiringLocks> Server<'a, F, L> {
    ghost use Rattle.dav_server.specs.Answers.{answer_of, sent_bytes};
    ghost use Rattle.dav_server.specs.Frames.{ServesFrames};
    ghost use Rattle.dav_server.specs.State.{state_of, rules_of, loans_of};

    /// Serves the frames of a batch in order, at its time, or at that of the last batch if that is later.
    ///
    /// Statuses: 200 if each frame is served, 400 if the content is not a list of frames, 507 if memory runs out
    /// before the first frame. In these cases the number and the time of the batch count. 409 if the batch is not the
    /// next one: then nothing changes, and the answer has the number of the last batch.
    pub fn serve_batch(&mut self, header: &BatchHeader, content: &[u8]) -> BatchReply
        ensures rules { rules_of self.new ≡ rules_of self.old }
        ensures loans { loans_of self.new ≡ loans_of self.old }
        ensures answers { AnswersBatch F.seen F.reads (rules_of self.old) header.entry.now content.now (answer_of result) (state_of F.seen L.seen self.old) (state_of F.seen L.seen self.new) }
    {
        let (alloc, number) = (self.alloc, header.number);
        if !self.begin(header) {
            return BatchReply::bare(alloc, self.last, StatusCode::CONFLICT);
        }
        let frames = match read_batch(alloc, content) {
            Ok(frames) => frames,
            Err(WireError::Malformed) => return BatchReply::bare(
                alloc,
                number,
                StatusCode::BAD_REQUEST,
            ),
            Err(WireError::Memory) => return BatchReply::bare(
                alloc,
                number,
                StatusCode::INSUFFICIENT_STORAGE,
            ),
        };
        match self.serve_frames(&frames) {
            Some(replies) => BatchReply {
                number,
                status: StatusCode::OK,
                replies,
            },
            None => BatchReply::bare(alloc, number, StatusCode::INSUFFICIENT_STORAGE),
        }
    }

    /// Serves the frames in order, and returns the encoded reply to each. The list of replies is allocated first: if
    /// memory runs out, no frame is served and it returns `None`.
    fn serve_frames(&mut self, frames: &[&[u8]]) -> Option<Vec<Option<Vec<u8>>>>
        ensures rules { rules_of self.new ≡ rules_of self.old }
        ensures loans { loans_of self.new ≡ loans_of self.old }
        ensures served { IfSome result (λ replies. ServesFrames F.seen F.reads (rules_of self.old) (state_of F.seen L.seen self.old) (map (λ f. f.now) frames.now) (map sent_bytes replies.items) (state_of F.seen L.seen self.new)) }
        ensures unserved { result ≡ None → state_of F.seen L.seen self.new ≡ state_of F.seen L.seen self.old }
    {
        let Ok(mut replies) = Vec::with_capacity(self.alloc, frames.len()) else {
            return None;
        };
        for frame in frames {
            replies.push(self.serve_frame(frame)).unwrap();
        }
        Some(replies)
    }

    /// Answers 507 to a batch that is too large for memory, whose number and time count. Answers 409 if it is not the
    /// next one: then nothing changes, and the answer has the number of the last batch.
    pub fn skip_batch(&mut self, header: &BatchHeader) -> BatchReply
        ensures rules { rules_of self.new ≡ rules_of self.old }
        ensures loans { loans_of self.new ≡ loans_of self.old }
        ensures answers { (content : List ℕ) → AnswersBatch F.seen F.reads (rules_of self.old) header.entry.now content (answer_of result) (state_of F.seen L.seen self.old) (state_of F.seen L.seen self.new) }
    {
        let alloc = self.alloc;
        if self.begin(header) {
            BatchReply::bare(alloc, header.number, StatusCode::INSUFFICIENT_STORAGE)
        } else {
            BatchReply::bare(alloc, self.last, StatusCode::CONFLICT)
        }
    }

    /// Begins a batch if it is the next one: its number and its time count from now on. Returns whether it is.
    fn begin(&mut self, header: &BatchHeader) -> bool
        ensures rules { rules_of self.new ≡ rules_of self.old }
        ensures loans { loans_of self.new ≡ loans_of self.old }
        ensures next { result ≡ true → IsNext header.entry.now (state_of F.seen L.seen self.old) }
        ensures begun { result ≡ true → state_of F.seen L.seen self.new ≡ begun header.entry.now (state_of F.seen L.seen self.old) }
        ensures other { result ≡ false → ¬ (IsNext header.entry.now (state_of F.seen L.seen self.old)) }
        ensures refused { result ≡ false → state_of F.seen L.seen self.new ≡ state_of F.seen L.seen self.old }
    {
        if self.last.checked_add(1) != Some(header.number) {
            return false;
        }
        self.last = header.number;
        self.now = self.now.max(header.now);
        self.engine.fs.inner_mut().set_now(self.now);
        true
    }
}
