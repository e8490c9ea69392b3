//! Batches between a server and its host.
ghost use Rattle.std.specs.Prelude.{◌≡◌, ◌≢◌, ◌<◌, ◌≤◌, ◌+◌, ◌^◌, ℕ, List, [], ◌∷◌, length, IfOk, IfErr, IfSome, OnOk, OnErr, true, false};
ghost use Rattle.std.specs.IoError.{error_kind};
ghost use Rattle.std.specs.Io.KnownBytes.{Appends, Consumes, IsAtEnd, Keeps};
ghost use Rattle.dav_wire.specs.Batches.{batch_header};
ghost use Rattle.dav_wire.specs.Values.{text};
ghost use Rattle.dav_server.specs.Answers.{answer_of, sent_bytes};
ghost use Rattle.dav_server.specs.Exchanges.{IfRead, OnNone, Skips, ReadsMore, answer_bytes};

use crate::batch::BatchReply;
use crate::server::Server;
use crate::{ExpiringLocks, TimedStore};
use dav_wire::{BatchHeader, ReplyHeader};
use std::alloc::Global;
use std::io::{self, ErrorKind, Read, Write};

/// How many bytes the header of a batch has.
const HEADER: usize = 24;

/// How many bytes of a batch are read at once, so that memory is allocated as they arrive.
const STEP: u64 = 1 << 20;

/// How many bytes of a batch are skipped at once.
const SKIPPED: usize = 4096;

/// The reply that is sent in the place of one that cannot be encoded: a failure with status 507.
const NOT_ENCODED: [u8; 9] = [7, 0, 0, 0, 0, 0, 0, 1, 251];

impl<'a, F: TimedStore, L: ExpiringLocks> Server<'a, F, L> {
    ghost use Rattle.dav_server.specs.State.{state_of, rules_of, loans_of};
    ghost use Rattle.dav_server.specs.Batches.{AnswersBatch};
    ghost use Rattle.dav_server.specs.Exchanges.{ReadsAndAnswers, Exchanges, Ends, StopsInside, Runs, StopsAfter};

    /// Serves batches until the input ends, and writes the replies of each before the next is read.
    ///
    /// Fails if the input or the output fails, or if the input ends inside a batch. All batches before were served.
    pub fn serve<R: Read, W: Write>(&mut self, input: &mut R, output: &mut W) -> io::Result<()>
        ensures rules { rules_of self.new ≡ rules_of self.old }
        ensures loans { loans_of self.new ≡ loans_of self.old }
        ensures end { OnOk result (IsAtEnd (R.remaining input.new)) }
        ensures ran { OnOk result (Runs F.seen F.reads (rules_of self.old)
            (state_of F.seen L.seen self.old) (state_of F.seen L.seen self.new)
            (R.remaining input.old) (R.remaining input.new) (W.contents output.old) (W.contents output.new)) }
        ensures stopped { OnErr result (StopsAfter F.seen F.reads (rules_of self.old)
            (state_of F.seen L.seen self.old) (state_of F.seen L.seen self.new)) }
    {
        // A loop is proved to end, so this one counts the batches.
        for _ in 0..u64::MAX {
            if !self.exchange(input, output)? {
                return Ok(());
            }
        }
        Err(io::Error::from(ErrorKind::Other))
    }

    /// Reads a batch, serves it and writes the replies. Returns `false` if the input has ended before it.
    ///
    /// A batch of more bytes than the server reads, or than memory holds, is skipped and answered 507. Fails if the
    /// input or the output fails, or if the input ends inside the batch. If the output fails, the batch was served.
    pub fn exchange<R: Read, W: Write>(&mut self, input: &mut R, output: &mut W) -> io::Result<bool>
        ensures rules { rules_of self.new ≡ rules_of self.old }
        ensures loans { loans_of self.new ≡ loans_of self.old }
        ensures served { IfOk result (λ more. more ≡ true → Exchanges F.seen F.reads (rules_of self.old)
            (state_of F.seen L.seen self.old) (state_of F.seen L.seen self.new)
            (R.remaining input.old) (R.remaining input.new) (W.contents output.old) (W.contents output.new)) }
        ensures ended { IfOk result (λ more. more ≡ false →
            Ends (state_of F.seen L.seen self.old) (state_of F.seen L.seen self.new)
            (R.remaining input.old) (R.remaining input.new) (W.contents output.old) (W.contents output.new)) }
        ensures stopped { OnErr result (StopsInside F.seen F.reads (rules_of self.old)
            (state_of F.seen L.seen self.old) (state_of F.seen L.seen self.new)) }
    {
        let Some(answer) = self.answer_next(input)? else {
            return Ok(false);
        };
        write_answer(output, &answer)?;
        Ok(true)
    }

    /// Reads a batch and serves it, and writes nothing. Returns `None` if the input has ended before it.
    ///
    /// Fails if the input fails, or if it ends inside the batch. Then nothing has changed.
    pub(crate) fn answer_next<R: Read>(&mut self, input: &mut R) -> io::Result<Option<BatchReply>>
        ensures rules { rules_of self.new ≡ rules_of self.old }
        ensures loans { loans_of self.new ≡ loans_of self.old }
        ensures answered { IfRead result (λ answer. ReadsAndAnswers F.seen F.reads (rules_of self.old) (answer_of answer)
            (state_of F.seen L.seen self.old) (state_of F.seen L.seen self.new) (R.remaining input.old) (R.remaining input.new)) }
        ensures ended { OnNone result (IsAtEnd (R.remaining input.new)) }
        ensures unread { OnNone result (Keeps (R.remaining input.old) (R.remaining input.new)) }
        ensures same { OnNone result (self.new ≡ self.old) }
        ensures failed { OnErr result (self.new ≡ self.old) }
    {
        let Some(header) = read_header(input)? else {
            return Ok(None);
        };
        let content = read_content(self.alloc, input, header.length, self.max_batch)?;
        Ok(Some(self.answer_batch(&header, content)))
    }

    /// Serves a batch with this content. `None` is content that was skipped: the batch is then answered 507, or 409.
    fn answer_batch(&mut self, header: &BatchHeader, content: Option<Vec<u8>>) -> BatchReply
        ensures rules { rules_of self.new ≡ rules_of self.old }
        ensures loans { loans_of self.new ≡ loans_of self.old }
        ensures answers { (bytes : List ℕ) → IfSome content (λ v. bytes ≡ v.items) → AnswersBatch F.seen F.reads
            (rules_of self.old) header.entry.now bytes (answer_of result)
            (state_of F.seen L.seen self.old) (state_of F.seen L.seen self.new) }
    {
        match content {
            Some(bytes) => self.serve_batch(header, bytes.as_slice()),
            None => self.skip_batch(header),
        }
    }
}

/// Reads the header of a batch. Returns `None` if the input has ended before it.
fn read_header<R: Read>(input: &mut R) -> io::Result<Option<BatchHeader>>
    ensures read { IfRead result (λ h. Consumes (R.remaining input.old) (R.remaining input.new) (batch_header.encode h)) }
    ensures ended { OnNone result (IsAtEnd (R.remaining input.new)) }
    ensures kept { OnNone result (Keeps (R.remaining input.old) (R.remaining input.new)) }
{
    let mut bytes = [0; HEADER];
    let Some(first) = read_first(input)? else {
        return Ok(None);
    };
    bytes[0] = first;
    input.read_exact(&mut bytes[1..])?;
    Ok(Some(BatchHeader::from_bytes(&bytes)))
}

/// Reads a byte, again after each interruption. Returns `None` if the input has ended.
fn read_first<R: Read>(input: &mut R) -> io::Result<Option<u8>>
    ensures read { IfRead result (λ byte. Consumes (R.remaining input.old) (R.remaining input.new) (byte ∷ [])) }
    ensures ended { OnNone result (IsAtEnd (R.remaining input.new)) }
    ensures kept { OnNone result (Keeps (R.remaining input.old) (R.remaining input.new)) }
    ensures retried { IfErr result (λ e. error_kind e ≢ ErrorKind.Interrupted) }
{
    let mut bytes = [0];
    // A loop is proved to end, so this one counts its tries.
    for _ in 0..u64::MAX {
        match input.read(&mut bytes) {
            Ok(0) => return Ok(None),
            Ok(_) => return Ok(Some(bytes[0])),
            Err(error) => {
                if error.kind() != ErrorKind::Interrupted {
                    return Err(error);
                }
            }
        }
    }
    Err(io::Error::from(ErrorKind::TimedOut))
}

/// Reads the content of a batch. Returns `None` if it has more bytes than `most`, or than memory holds, and skips it.
fn read_content<R: Read>(
    alloc: Global,
    input: &mut R,
    count: u64,
    most: u64,
) -> io::Result<Option<Vec<u8>>>
    ensures read { IfRead result (λ v. Consumes (R.remaining input.old) (R.remaining input.new) v.items) }
    ensures count { IfRead result (λ v. length v.items ≡ count) }
    ensures limited { IfRead result (λ v. length v.items ≤ most) }
    ensures skipped { OnNone result (Skips (R.remaining input.old) (R.remaining input.new) count) }
{
    let mut content = Vec::new(alloc);
    let mut left = count;
    if count > most {
        skip(input, left)?;
        return Ok(None);
    }
    while left > 0 {
        let step = left.min(STEP);
        if !read_more(input, &mut content, step as usize)? {
            skip(input, left)?;
            return Ok(None);
        }
        left -= step;
    }
    Ok(Some(content))
}

/// Reads this many bytes and appends them. Returns `false` if memory runs out, and then reads nothing.
fn read_more<R: Read>(input: &mut R, content: &mut Vec<u8>, count: usize) -> io::Result<bool>
    requires { length content.old.items + count < 2 ^ 64 }
    ensures read { IfOk result (λ done. done ≡ true →
        ReadsMore (R.remaining input.old) (R.remaining input.new) count content.old.items content.new.items) }
    ensures full { IfOk result (λ done. done ≡ false → input.new ≡ input.old) }
    ensures kept { IfOk result (λ done. done ≡ false → content.new.items ≡ content.old.items) }
{
    let start = content.len();
    if content.resize(start + count, 0).is_err() {
        return Ok(false);
    }
    input.read_exact(&mut content[start..])?;
    Ok(true)
}

/// Reads this many bytes and drops them.
fn skip<R: Read>(input: &mut R, count: u64) -> io::Result<()>
    ensures { OnOk result (Skips (R.remaining input.old) (R.remaining input.new) count) }
{
    let mut bytes = [0; SKIPPED];
    let mut left = count;
    while left > 0 {
        let step = left.min(SKIPPED as u64);
        input.read_exact(&mut bytes[..step as usize])?;
        left -= step;
    }
    Ok(())
}

/// Writes an answer.
pub(crate) fn write_answer<W: Write>(output: &mut W, answer: &BatchReply) -> io::Result<()>
    ensures { OnOk result (Appends (W.contents output.old) (W.contents output.new) (answer_bytes (answer_of answer.entry.now))) }
{
    let header = ReplyHeader {
        number: answer.number,
        status: answer.status.as_u16(),
        count: answer.replies.len() as u64,
    };
    output.write_all(&header.to_bytes())?;
    for reply in &answer.replies {
        write_reply(output, sent(reply))?;
    }
    output.flush()
}

/// Writes a reply as a byte string.
fn write_reply<W: Write>(output: &mut W, bytes: &[u8]) -> io::Result<()>
    ensures { OnOk result (Appends (W.contents output.old) (W.contents output.new) (text.encode bytes.now)) }
{
    output.write_all(&(bytes.len() as u64).to_be_bytes())?;
    output.write_all(bytes)
}

/// Returns the bytes that are sent for a reply.
fn sent(reply: &Option<Vec<u8>>) -> &[u8]
    ensures { result.now ≡ sent_bytes reply.entry.now }
{
    match reply {
        Some(bytes) => bytes.as_slice(),
        None => &NOT_ENCODED,
    }
}
