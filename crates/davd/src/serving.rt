//! Serving over a store in a folder.
ghost use Rattle.std.specs.Prelude.{◌≡◌, ◌≤◌, ◌⊎◌, true, false, IsOk, IfOk, OnOk, OnErr, IfErr};
ghost use Rattle.std.specs.Io.KnownBytes.{IsAtEnd};
ghost use Rattle.sqlite.specs.WalFiles.{image_at};
ghost use Rattle.sqlite_store.specs.FileStore.{view};
ghost use Rattle.sqlite_trees.specs.View.{IsClean};
ghost use Rattle.dav_folder.specs.Folders.{batch_of};
ghost use Rattle.dav_folder.specs.Lasting.{HasCleanDatabase};
ghost use Rattle.dav_folder.specs.Opening.{opened_at};
ghost use Rattle.dav_last.specs.Batches.{number_of, key_of, is_usable, Names, HasCleanSlots};
ghost use Rattle.davd.specs.Failing.{HoldsOnIfOpened, IsUntouched};
ghost use Rattle.davd.specs.Folder.{IsOpenedAsKept, ServesOpened, StopsOpened, rules_for, state_from};
ghost use Rattle.davd.specs.Leaving.{RunsAndLeaves, RunsWithLog, StopsAndLeaves, GoesOn, GoesOnWithLog, GoesOnAndStops};
ghost use Rattle.davd.specs.Program.{IsNotUsage, is_judged};

use crate::folder::{Held, StartOptions, UnservedOver, open_folder};
use crate::program::Stopped;
use dav_data::{Claim, ClaimedFile};
use dav_folder::{Confirm, Folder, FolderFiles, Numbered, Opened, close_folder, give_up};
use dav_guarding::Guarding;
use dav_keep::KeepError;
use dav_last::LastBatch;
use dav_reserve::{Reserved, Roomy};
use dav_resource::FsError;
use dav_rights::Access;
use dav_server::{Options, Server};
use dav_tree::{Medium, TreeFs};
use sqlite::{Alter, Error, ErrorCode, FileFrom, FileStore, Start};
use sqlite_disk::Disk;
use std::alloc::Global;
use std::io::{self, Read, Write};

/// The data file of a folder, beside which a third file keeps room back.
pub type FolderData<T, C> = ClaimedFile<Reserved<FileFrom<T>, FileFrom<T>>, C>;

/// How a folder is served.
#[derive(Drop)]
pub struct FolderOptions {
    /// How the server serves.
    pub server: Options,
    /// How the folder is opened.
    pub start: StartOptions,
}

/// How serving over a folder ended, and what it leaves: the files of the database and the data file, and those of the number
/// of the last batch.
pub type Ended<R, T, N, C> = EndedOver<
    FileFrom<R>,
    Reserved<FileFrom<T>, FileFrom<T>>,
    FileFrom<N>,
    C,
>;

/// The same, over such disks.
type EndedOver<D, E, L, C> = (Result<(), Stopped>, FolderFiles<D, E, C>, LastBatch<L>);

/// Opens the store of a folder, or makes a new one, and serves the batches of the input over it, and keeps each before its
/// answer is written, until the input ends. Then the log of the database is copied into its file, the number of the last
/// batch is brought to the disk in both of its files, and the files of the folder are given up. `held` stands for what the
/// files of the folder held.
///
/// If they held a store, the run goes on from it; if they held no table, from a new one. At its end a crash leaves what was
/// in the server after some of the batches, with the time and the number of then, and the later ones have changed nothing
/// of what is kept; the database is whole without its log, and each file of the number has that number.
/// After an error it leaves this of the batches that were answered, or what was in the server at last.
///
/// Errors at the start are those of `open_folder`, with what it says of what they leave, and later ones those of
/// `serve_to_the_end`.
pub fn serve_folder<R: Start, T: Start, N: Start, C: Confirm, I: Read, O: Write>(
    rt: &HostRuntime,
    folder: &str,
    held: Held<R, T, N, C>,
    options: FolderOptions,
    input: &mut I,
    output: &mut O,
) -> Result<Ended<R, T, N, C>, UnservedOver<FileFrom<R>, FileFrom<T>, FileFrom<N>, C>>
    ensures served { IfOk result (λ ended. OnOk ended.0 (GoesOn (image_at R.Start) T.Start.db ended.1 (image_at N.Start) ended.2
        ⟦<FolderData<T, C> as Medium>⟧ (rules_for options.server) options.start (I.remaining input.old) (I.remaining input.new) (O.contents output.old) (O.contents output.new))) }
    ensures stopped { IfOk result (λ ended. OnErr ended.0 (GoesOnAndStops (image_at R.Start) T.Start.db ended.1 (image_at N.Start) ended.2
        ⟦<FolderData<T, C> as Medium>⟧ (rules_for options.server) options.start (O.contents output.old) (O.contents output.new)
        ⊎ GoesOnWithLog (image_at R.Start) T.Start.db ended.1 (image_at N.Start) ended.2
        ⟦<FolderData<T, C> as Medium>⟧ (rules_for options.server) options.start (I.remaining input.old) (I.remaining input.new) (O.contents output.old) (O.contents output.new))) }
    ensures end { IfOk result (λ ended. OnOk ended.0 (IsAtEnd (I.remaining input.new))) }
    ensures unread { OnErr result (input.new ≡ input.old) }
    ensures unwritten { OnErr result (output.new ≡ output.old) }
    ensures left { IfErr result (λ e. HoldsOnIfOpened (image_at R.Start) T.Start.db e.start.left) }
    ensures refused { IfErr result (λ e. is_judged e.start.stopped ≡ true → IsUntouched ⟦<FileFrom<N> as Disk>⟧ (image_at R.Start) T.Start.db (image_at N.Start) e) }
    ensures err { IfErr result (λ e. IsNotUsage e.start.stopped) }
    ensures later { IfOk result (λ ended. IfErr ended.0 IsNotUsage) }
    ensures unjudged { IfOk result (λ ended. IfErr ended.0 (λ e. is_judged e ≡ false)) }
{
    let FolderOptions { server, start } = options;
    let (opened, last) = open_folder(rt, folder, start, held)?;
    Ok(serve_to_the_end(rt.alloc(), opened, last, server, input, output))
}

/// Serves the batches of the input over what was opened, as `serve_opened` does. At the end of the input it copies the log
/// of the database into its file, and brings the number of the last batch to the disk in both of its files. Then it gives up
/// the files of the folder.
///
/// Errors: `WithLog` if the log cannot be copied; `Unnumbered` if the number cannot be brought to the disk; otherwise those
/// of `serve_opened`, and then nothing more is written.
pub fn serve_to_the_end<
    D: Disk + Drop,
    E: Roomy + Drop,
    L: Disk + Drop,
    C: Claim,
    I: Read,
    O: Write,
>(
    alloc: Global,
    opened: Opened<FileStore<D>, ClaimedFile<E, C>>,
    last: LastBatch<L>,
    options: Options,
    input: &mut I,
    output: &mut O,
) -> EndedOver<D, E, L, C>
    requires number { number_of last ≡ batch_of opened.folder }
    requires named { Names (batch_of opened.folder) last }
    ensures served { OnOk result.0 (RunsAndLeaves ⟦<ClaimedFile<E, C> as Medium>⟧ (rules_for options) (IsOpenedAsKept opened)
        (state_from (opened_at opened)) result.1 result.2 (I.remaining input.old) (I.remaining input.new) (O.contents output.old) (O.contents output.new)) }
    ensures stopped { OnErr result.0 (StopsAndLeaves ⟦<ClaimedFile<E, C> as Medium>⟧ (rules_for options) (IsOpenedAsKept opened)
        (state_from (opened_at opened)) result.1 result.2 (O.contents output.old) (O.contents output.new)
        ⊎ RunsWithLog ⟦<ClaimedFile<E, C> as Medium>⟧ (rules_for options) (IsOpenedAsKept opened) (state_from (opened_at opened)) result.1 result.2
        (I.remaining input.old) (I.remaining input.new) (O.contents output.old) (O.contents output.new)) }
    ensures clean { IsClean (view result.1.0) → HasCleanDatabase opened.folder }
    ensures calm { HasCleanSlots result.2 → HasCleanSlots last }
    ensures key { key_of result.2 ≡ key_of last }
    ensures end { OnOk result.0 (IsAtEnd (I.remaining input.new)) }
    ensures err { IfErr result.0 IsNotUsage }
    ensures unjudged { IfErr result.0 (λ e. is_judged e ≡ false) }
{
    let (ended, (folder, store), mut last) = serve_opened(
        alloc, opened, last, options, input, output,
    );
    match ended {
        Ok(()) => {
            let (copied, files) = close_folder(folder, store);
            let ended = ended_by(copied, last.sync_both());
            (ended, files, last)
        }
        Err(stopped) => (Err(stopped), give_up(folder, store), last),
    }
}

/// Returns how serving ends at the end of the input, if the log was copied or not, and if this came of the sync of the
/// number.
fn ended_by(copied: bool, synced: io::Result<()>) -> Result<(), Stopped>
    ensures copied { OnOk result (copied ≡ true) }
    ensures synced { OnOk result (IsOk synced) }
    ensures err { IfErr result IsNotUsage }
    ensures unjudged { IfErr result (λ e. is_judged e ≡ false) }
{
    if !copied {
        return Err(Stopped::WithLog);
    }
    match synced {
        Ok(()) => Ok(()),
        Err(_) => Err(Stopped::Unnumbered),
    }
}

/// How serving ended over what was opened: why, the folder and the store as they are then, and the number that was noted.
type EndedOpen<S, D, L, C> = (
    Result<(), Stopped>,
    (Folder<S>, TreeFs<ClaimedFile<D, C>>),
    LastBatch<L>,
);

/// Serves the batches of the input over what was opened, and keeps each before its answer is written, until the input
/// ends. After each batch that changed something it notes its number.
///
/// Errors: `Full` or `NotKept` if a batch cannot be kept; `Unnumbered` if one is kept and its number cannot be written;
/// `Stream` if a stream fails, or if the input ends inside a batch.
pub fn serve_opened<S: Alter + Drop, D: Roomy + Drop, L: Disk + Drop, C: Claim, I: Read, O: Write>(
    alloc: Global,
    opened: Opened<S, ClaimedFile<D, C>>,
    last: LastBatch<L>,
    options: Options,
    input: &mut I,
    output: &mut O,
) -> EndedOpen<S, D, L, C>
    requires number { number_of last ≡ batch_of opened.folder }
    requires named { Names (batch_of opened.folder) last }
    ensures served { OnOk result.0 (ServesOpened L.Disk (rules_for options) opened result.1
        (I.remaining input.old) (I.remaining input.new) (O.contents output.old) (O.contents output.new)) }
    ensures stopped { OnErr result.0 (StopsOpened L.Disk (rules_for options) opened result.1
        (O.contents output.old) (O.contents output.new)) }
    ensures clean { HasCleanDatabase result.1.0 → HasCleanDatabase opened.folder }
    ensures calm { HasCleanSlots result.2 → HasCleanSlots last }
    ensures key { key_of result.2 ≡ key_of last }
    ensures kept { number_of result.2 ≤ batch_of result.1.0 }
    ensures exact { is_usable result.2 ≡ true → number_of result.2 ≡ batch_of result.1.0 }
    ensures end { OnOk result.0 (IsAtEnd (I.remaining input.new)) }
    ensures err { IfErr result.0 IsNotUsage }
    ensures unjudged { IfErr result.0 (λ e. is_judged e ≡ false) }
{
    let Opened {
        folder,
        store,
        mut locks,
        now,
        last: number,
        key: _,
    } = opened;
    let mut keeper = Numbered::new(folder, last, now);
    let mut store = Guarding::new(alloc, store, Access::Full);
    let mut server = Server::resume(alloc, &mut store, &mut locks, options, now, number);
    let ended = server.serve_kept(&mut keeper, input, output);
    let _store = server.into_store();
    let ended = match ended {
        Ok(()) => Ok(()),
        Err(error) => Err(stopped_by(&keeper, error)),
    };
    let (folder, last) = keeper.into_parts();
    (ended, (folder, store.into_inner()), last)
}

/// Returns why serving ended with this error: the keeper says so, or else a stream failed.
fn stopped_by<S: Alter, L: Disk>(keeper: &Numbered<S, L>, error: io::Error) -> Stopped
    ensures err { IsNotUsage result }
    ensures unjudged { is_judged result ≡ false }
{
    match keeper.failure() {
        Some(failure) if is_full(failure) => Stopped::Full,
        Some(_) => Stopped::NotKept,
        None if keeper.is_unnumbered() => Stopped::Unnumbered,
        None => Stopped::Stream(error),
    }
}

/// Whether a batch could not be kept because the disk is full.
fn is_full(failure: &KeepError) -> bool {
    match failure {
        KeepError::Data(error) => matches!(error, FsError::InsufficientStorage),
        KeepError::Database(error) => is_disk_full(error),
        KeepError::Rows(_) => false,
    }
}

fn is_disk_full(error: &Error) -> bool {
    matches!(error, Error::SqliteFailure(ErrorCode::DiskFull))
}
