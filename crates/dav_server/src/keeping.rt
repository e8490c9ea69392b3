//! Batches that are kept before they are answered.
ghost use Rattle.std.specs.Prelude.{◌≡◌, true, false, IfOk, OnOk, OnErr, Some};
ghost use Rattle.std.specs.Io.KnownBytes.{IsAtEnd};
ghost use Rattle.dav_engine.specs.DavInner.{lent, lent_locks, has_locks, loans, made_with};
ghost use Rattle.dav_guarding.specs.Guarding.{inner_of};
ghost use Rattle.dav_server.specs.Exchanges.{Ends};
ghost use Rattle.dav_server.specs.Snapshots.{Snapshot, snapshot_at, saved_of, OnlySavedDiffers, IsResaved, KeepsOne};

use crate::exchange::write_answer;
use crate::server::Server;
use crate::{ExpiringLocks, Keeper, TimedStore};
use dav_engine::DavInner;
use dav_guarding::Guarding;
use dav_rights::Access;
use std::io::{self, ErrorKind, Read, Write};

impl<'a, F: TimedStore, L: ExpiringLocks> Server<'a, F, L> {
    ghost use Rattle.dav_server.specs.State.{state_of, store_in, rules_of, loans_of};
    ghost use Rattle.dav_server.specs.Keeping.{ExchangesAndSaves, RunsAndKeeps, IsKeptSince, StaysKept, LastsEither, StopsInsideKept, StopsAfterKept};

    /// Serves batches until the input ends, as `serve` does, and has the keeper keep each batch before its answer is
    /// written.
    ///
    /// Fails if the input or the output fails, if the input ends inside a batch, or with an error of the keeper. A batch
    /// that is not kept is not answered.
    ///
    /// If at first a crash leaves what is in the server, then at the end it leaves what was in the server after some of
    /// the batches, with the time and the number of then, and the later ones have changed nothing of what is kept. After
    /// an error it leaves this of the batches that were answered, or what is in the server now.
    pub fn serve_kept<K: Keeper<F, L>, R: Read, W: Write>(
        &mut self,
        keeper: &mut K,
        input: &mut R,
        output: &mut W,
    ) -> io::Result<()>
        ensures rules { rules_of self.new ≡ rules_of self.old }
        ensures loans { loans_of self.new ≡ loans_of self.old }
        ensures end { OnOk result (IsAtEnd (R.remaining input.new)) }
        ensures follows { K.follows keeper.old keeper.new }
        ensures ran { OnOk result (RunsAndKeeps F.seen L.seen K.lasts K.same F.reads (rules_of self.old) keeper.old keeper.new
            self.old self.new (R.remaining input.old) (R.remaining input.new) (W.contents output.old) (W.contents output.new)) }
        ensures stopped { OnErr result (StopsAfterKept F.seen L.seen K.lasts K.lasts_either K.same F.reads (rules_of self.old)
            keeper.old keeper.new self.old self.new (W.contents output.old) (W.contents output.new)) }
    {
        // A loop is proved to end, so this one counts the batches.
        for _ in 0..u64::MAX {
            if !self.exchange_kept(keeper, input, output)? {
                return Ok(());
            }
        }
        Err(io::Error::from(ErrorKind::Other))
    }

    /// Reads a batch, serves it, has the keeper keep it, and writes the replies. Returns `false` if the input has ended
    /// before it.
    ///
    /// A batch of more bytes than the server reads, or than memory holds, is skipped and answered 507. Fails if the input
    /// or the output fails, if the input ends inside the batch, or with an error of the keeper. If the output fails, the
    /// batch was served and kept. After other errors nothing was written.
    ///
    /// If a crash leaves an earlier snapshot, of which the server has the same of what is kept, then it does so still, or
    /// it leaves what is in the server now.
    pub fn exchange_kept<K: Keeper<F, L>, R: Read, W: Write>(
        &mut self,
        keeper: &mut K,
        input: &mut R,
        output: &mut W,
    ) -> io::Result<bool>
        ensures rules { rules_of self.new ≡ rules_of self.old }
        ensures loans { loans_of self.new ≡ loans_of self.old }
        ensures follows { K.follows keeper.old keeper.new }
        ensures served { IfOk result (λ more. more ≡ true → ExchangesAndSaves F.seen F.reads (rules_of self.old)
            (state_of F.seen L.seen self.old) (state_of F.seen L.seen self.new)
            (R.remaining input.old) (R.remaining input.new) (W.contents output.old) (W.contents output.new)) }
        ensures ended { IfOk result (λ more. more ≡ false →
            Ends (state_of F.seen L.seen self.old) (state_of F.seen L.seen self.new)
            (R.remaining input.old) (R.remaining input.new) (W.contents output.old) (W.contents output.new)) }
        ensures kept { OnOk result ((earlier : Snapshot F L) → IsKeptSince F.seen K.lasts K.same keeper.old earlier self.old
            → StaysKept F.seen K.lasts K.same keeper.new earlier self.new) }
        ensures stopped { OnErr result (StopsInsideKept F.seen L.seen K.lasts K.lasts_either K.same F.reads (rules_of self.old)
            keeper.old keeper.new self.old self.new (W.contents output.old) (W.contents output.new)) }
    {
        let Some(answer) = self.answer_next(input)? else {
            return Ok(false);
        };
        self.keep(keeper)?;
        write_answer(output, &answer)?;
        Ok(true)
    }

    /// Has the keeper keep the store and the locks. Fails with its error, or if there is no lock system.
    fn keep<K: Keeper<F, L>>(&mut self, keeper: &mut K) -> io::Result<()>
        ensures rules { rules_of self.new ≡ rules_of self.old }
        ensures loans { loans_of self.new ≡ loans_of self.old }
        ensures saved { IsResaved (state_of F.seen L.seen self.old) (state_of F.seen L.seen self.new) }
        ensures follows { K.follows keeper.old keeper.new }
        ensures kept { OnOk result ((before : Snapshot F L) → K.lasts keeper.old (saved_of (F.seen (store_in self.old))) before
            → StaysKept F.seen K.lasts K.same keeper.new before self.new) }
        ensures either { OnErr result ((before : Snapshot F L) → K.lasts keeper.old (saved_of (F.seen (store_in self.old))) before
            → has_locks self.old.engine ≡ true → LastsEither F.seen K.lasts_either keeper.new before self.new) }
    {
        let (now, last) = (self.now, self.last);
        keep_lent(keeper, &mut self.engine, now, last, self.in_backup)
    }
}

/// Has the keeper keep the store and the locks of an engine. Fails with its error, or if there is no lock system.
fn keep_lent<F: TimedStore, L: ExpiringLocks, K: Keeper<F, L>>(
    keeper: &mut K,
    engine: &mut DavInner<'_, (), Guarding<F, Access>, L>,
    now: u64,
    last: u64,
    in_backup: bool,
) -> io::Result<()>
    ensures seen { OnlySavedDiffers (F.seen (inner_of (lent engine.old))) (F.seen (inner_of (lent engine.new))) }
    ensures locks { lent_locks engine.new ≡ lent_locks engine.old }
    ensures loans { loans engine.new ≡ loans engine.old }
    ensures made { made_with engine.new ≡ made_with engine.old }
    ensures follows { K.follows keeper.old keeper.new }
    ensures there { OnOk result (has_locks engine.old ≡ true) }
    ensures ok { OnOk result ((before : Snapshot F L) (locks : L) → K.lasts keeper.old (saved_of (F.seen (inner_of (lent engine.old)))) before
        → lent_locks engine.old ≡ Some locks
        → KeepsOne K.lasts K.same keeper.new (saved_of (F.seen (inner_of (lent engine.new)))) before (snapshot_at (inner_of (lent engine.new)) locks now last)) }
    ensures err { OnErr result ((before : Snapshot F L) (locks : L) → K.lasts keeper.old (saved_of (F.seen (inner_of (lent engine.old)))) before
        → lent_locks engine.old ≡ Some locks
        → K.lasts_either keeper.new (saved_of (F.seen (inner_of (lent engine.new)))) before (snapshot_at (inner_of (lent engine.new)) locks now last)) }
{
    match engine.ls.as_deref() {
        Some(locks) => keeper.keep(engine.fs.inner_mut(), locks, now, last, in_backup),
        None => Err(io::Error::from(ErrorKind::Unsupported)),
    }
}
