//! The program: options, the store and the lock system, and the streams.
ghost use Rattle.std.specs.Prelude.{◌≡◌, ◌⊎◌, true, false, Err, IfOk, IfErr, OnOk, OnErr, None, Some};
ghost use Rattle.std.specs.Option.{option_map};
ghost use Rattle.std.specs.Io.KnownBytes.{IsAtEnd};
ghost use Rattle.dav_resource.specs.Texts.{texts};
ghost use Rattle.dav_tree.specs.TreeFs.{memory_of};
ghost use Rattle.dav_tree.specs.Memory.{first_memory};
ghost use Rattle.sqlite.specs.WalFiles.{image_at};
ghost use Rattle.davd.specs.Checking.{ChecksFolder};
ghost use Rattle.davd.specs.Folder.{rules_for};
ghost use Rattle.davd.specs.Options.{OptionsValue, options_of};
ghost use Rattle.davd.specs.Program.{DoCheck, HaveNoFolder, SayFolder, ServesAll, ServesInMemory, IsNotUsage, status_of};
ghost use Rattle.davd.specs.Program.{ServesFolder, ServesWithLog, StopsInFolder, HasNotBegun, RefusesFolder, is_judged};

use crate::checking::{CheckedData, check_folder};
use crate::folder::{Held, StartOptions};
use crate::options::{ProgramOptions, read_options};
use crate::serving::{FolderData, FolderOptions, serve_folder};
use dav_folder::Confirm;
use dav_guarding::Guarding;
use dav_memls::MemLs;
use dav_reserve::Reserved;
use dav_resource::{FsError, FsResult};
use dav_rights::Access;
use dav_server::{Options, Server};
use dav_tree::{InMemory, Medium, MemFs};
use sqlite::{FileFrom, Start};
use sqlite_disk::Disk;
use std::alloc::{AllocError, AllocFailed, Global};
use std::io::{self, ErrorKind, Read, Write};

/// Why the program ends before the end of its input.
#[derive(Drop, Debug)]
pub enum Stopped {
    /// The arguments are wrong.
    Usage,
    /// A stream failed.
    Stream(io::Error),
    /// Memory ran out.
    Memory,
    /// The folder is not one of a store that can be served. It was left as it was.
    Refused(Refusal),
    /// Another process has the folder open.
    InUse,
    /// The folder cannot be read or written at the start.
    Disk(io::Error),
    /// A batch cannot be kept because the disk is full.
    Full,
    /// A batch cannot be kept for another reason.
    NotKept,
    /// A check has found a damaged file.
    Damaged,
    /// Each batch was kept, and at the end the log could not be copied into the database file.
    WithLog,
    /// Each batch was kept, and the number of the last one could not be written, or brought to the disk.
    Unnumbered,
}

/// Why a folder is refused.
#[derive(Clone, Copy, Debug, Drop)]
pub enum Refusal {
    /// The database is damaged.
    Damaged,
    /// The database is not one of a store.
    Foreign,
    /// There are bytes of a store, and its database is missing or empty.
    NoDatabase,
    /// There are bytes of a store, and its database has no table.
    NoTables,
    /// There is a database, and its data file is missing.
    NoData,
    /// The data file is shorter than the database says.
    ShortData,
    /// The database is of an earlier batch than the number that was kept beside it.
    Older,
    /// One of the two files with the number of the last batch is missing.
    HalfNumber,
    /// The number of the last batch is missing, damaged or that of another folder.
    NoNumber,
    /// There are files of a backup that did not end.
    Unfinished,
    /// There is the journal of another program beside one of the files.
    Journal,
    /// There is no store to check.
    NoStore,
}

impl From<io::Error> for Stopped {
    ghost use Rattle.davd.specs.Program.{IsNotUsage};

    ghost from_gives = { λ _ e. IsNotUsage e };

    fn from(error: io::Error) -> Stopped {
        Stopped::Stream(error)
    }
}

impl From<AllocError> for Stopped {
    ghost use Rattle.davd.specs.declared.program.Stopped.TheVariants.{Memory};

    ghost from_gives = { λ _ e. e ≡ Memory };

    fn from(_: AllocError) -> Stopped {
        Stopped::Memory
    }
}

impl<T: Drop> From<AllocFailed<T>> for Stopped {
    ghost use Rattle.davd.specs.declared.program.Stopped.TheVariants.{Memory};

    ghost from_gives = { λ _ e. e ≡ Memory };

    fn from(_: AllocFailed<T>) -> Stopped {
        Stopped::Memory
    }
}

/// A new store fails only if memory runs out.
impl From<FsError> for Stopped {
    ghost use Rattle.davd.specs.declared.program.Stopped.TheVariants.{Memory};

    ghost from_gives = { λ _ e. e ≡ Memory };

    fn from(_: FsError) -> Stopped {
        Stopped::Memory
    }
}

/// Serves the batches of the input, with the options that the arguments say, until the input ends. Or checks a folder, and
/// reads no input, if the arguments say so. `held` stands for what the files of the folder's database and its data file
/// held, and for what is claimed of them: in the program this is not known, so the clauses hold for all contents and each claim.
///
/// Errors: `Usage` if the arguments are wrong; `Memory` if memory runs out before the first batch; `Stream` if a stream
/// fails, or if the input ends inside a batch; over a folder those of `serve_folder`; of a check those of `check_folder`.
/// With wrong arguments nothing is read or written. A folder that is refused for what its files hold stays as it was.
pub fn run_program<R: Start, T: Start, N: Start, C: Confirm, I: Read, O: Write>(
    rt: &HostRuntime,
    arguments: &[String],
    held: Held<R, T, N, C>,
    input: &mut I,
    output: &mut O,
) -> Result<(), Stopped>
    ensures served { HaveNoFolder (texts arguments.now) → OnOk result (ServesAll ⟦<InMemory as Medium>⟧ (texts arguments.now)
        (I.remaining input.old) (I.remaining input.new) (O.contents output.old) (O.contents output.new)) }
    ensures kept { (options : OptionsValue) → SayFolder (texts arguments.now) options
        → OnOk result (ServesFolder ⟦<FileFrom<R> as Disk>⟧ ⟦<FileFrom<N> as Disk>⟧ ⟦<FolderData<T, C> as Medium>⟧ (image_at R.Start) T.Start.db (image_at N.Start)
        options (I.remaining input.old) (I.remaining input.new) (O.contents output.old) (O.contents output.new)) }
    ensures stopped { (options : OptionsValue) → SayFolder (texts arguments.now) options
        → OnErr result (HasNotBegun input.old input.new output.old output.new
        ⊎ (StopsInFolder ⟦<FileFrom<R> as Disk>⟧ ⟦<FileFrom<N> as Disk>⟧ ⟦<FolderData<T, C> as Medium>⟧ (image_at R.Start) T.Start.db (image_at N.Start)
        options (O.contents output.old) (O.contents output.new)
        ⊎ ServesWithLog ⟦<FileFrom<R> as Disk>⟧ ⟦<FileFrom<N> as Disk>⟧ ⟦<FolderData<T, C> as Medium>⟧ (image_at R.Start) T.Start.db (image_at N.Start)
        options (I.remaining input.old) (I.remaining input.new) (O.contents output.old) (O.contents output.new))) }
    ensures refused { (options : OptionsValue) → SayFolder (texts arguments.now) options → IfErr result (λ e. is_judged e ≡ true
        → RefusesFolder ⟦<FileFrom<R> as Disk>⟧ ⟦<Reserved<FileFrom<T>, FileFrom<T>> as Disk>⟧ ⟦<FileFrom<N> as Disk>⟧ C.Claim
        (image_at R.Start) T.Start.db (image_at N.Start) e) }
    ensures end { OnOk result (DoCheck (texts arguments.now) ⊎ IsAtEnd (I.remaining input.new)) }
    ensures checked { DoCheck (texts arguments.now) → input.new ≡ input.old }
    ensures whole { DoCheck (texts arguments.now) → OnOk result (ChecksFolder ⟦<FileFrom<R> as Disk>⟧ ⟦<FileFrom<T> as Disk>⟧ ⟦<FileFrom<N> as Disk>⟧
        ⟦<CheckedData<T> as Medium>⟧ (image_at R.Start) T.Start.db (image_at N.Start)) }
    ensures usage { result ≡ Err Stopped.Usage → options_of (texts arguments.now) ≡ None }
    ensures wrong { options_of (texts arguments.now) ≡ None → (result ≡ Err Stopped.Usage) ⊎ (result ≡ Err Stopped.Memory) }
    ensures unread { options_of (texts arguments.now) ≡ None → input.new ≡ input.old }
    ensures unwritten { options_of (texts arguments.now) ≡ None → output.new ≡ output.old }
{
    let ProgramOptions {
        server,
        quota,
        folder,
        accepts_loss,
        key,
        seed,
        tag_part,
        checks,
    } = read_options(rt.alloc(), arguments)?;
    match folder {
        Some(folder) if checks => check_folder(rt, folder.as_str(), held, output),
        Some(folder) => {
            let start = StartOptions {
                quota,
                accepts_loss,
                key,
                seed,
                tag_part,
            };
            let options = FolderOptions { server, start };
            let served = serve_folder(rt, folder.as_str(), held, options, input, output)?;
            served.0
        }
        None => serve_in_memory(rt.alloc(), quota, tag_part, server, input, output),
    }
}

/// Serves the batches of the input over a store and a lock system in memory, with this quota and this part of the entity
/// tags, until the input ends.
///
/// Errors: `Memory` if memory runs out before the first batch; `Stream` if a stream fails, or if the input ends inside a
/// batch.
fn serve_in_memory<I: Read, O: Write>(
    alloc: Global,
    quota: Option<u64>,
    tag_part: Option<u128>,
    options: Options,
    input: &mut I,
    output: &mut O,
) -> Result<(), Stopped>
    ensures served { OnOk result (ServesInMemory ⟦<InMemory as Medium>⟧ (rules_for options) quota tag_part
        (I.remaining input.old) (I.remaining input.new) (O.contents output.old) (O.contents output.new)) }
    ensures end { OnOk result (IsAtEnd (I.remaining input.new)) }
    ensures err { IfErr result IsNotUsage }
    ensures unjudged { IfErr result (λ e. is_judged e ≡ false) }
{
    let store = new_store(alloc, quota, tag_part)?;
    let mut store = Guarding::new(alloc, store, Access::Full);
    let mut locks = MemLs::new(alloc);
    let mut server = Server::new(alloc, &mut store, &mut locks, options);
    match server.serve(input, output) {
        Ok(()) => Ok(()),
        Err(error) => Err(Stopped::Stream(error)),
    }
}

/// Creates a store that holds only the root, with this quota or without one, and with this part of the entity tags or
/// without one. It marks each directory that gains or loses a member. Fails only if memory runs out.
fn new_store(alloc: Global, quota: Option<u64>, tag_part: Option<u128>) -> FsResult<MemFs>
    ensures { IfOk result (λ store. memory_of store ≡ record (first_memory 0 (option_map Some quota)) { tag_part = tag_part; marks = true }) }
{
    let mut store = match quota {
        Some(bytes) => MemFs::with_quota(alloc, Some(bytes))?,
        None => MemFs::new(alloc)?,
    };
    store.set_tag_part(tag_part);
    store.set_marks_parents(true);
    Ok(store)
}

/// Writes why the program ends, if not at the end of its input, and returns its exit status.
pub fn report<E: Write>(errors: &mut E, ended: Result<(), Stopped>) -> u8
    ensures { result ≡ status_of ended }
{
    match ended {
        Ok(()) => 0,
        Err(stopped) => {
            say(errors, &stopped);
            exit_status(&stopped)
        }
    }
}

/// Returns the exit status of a program that ends for this reason.
fn exit_status(stopped: &Stopped) -> u8
    ensures { result ≡ status_of (Err stopped.now) }
{
    match stopped {
        Stopped::Usage => 2,
        Stopped::Stream(_) | Stopped::Memory => 3,
        Stopped::Refused(_) => 4,
        Stopped::InUse => 5,
        Stopped::Disk(_) => 6,
        Stopped::Full => 7,
        Stopped::NotKept => 8,
        Stopped::Damaged => 1,
        Stopped::WithLog => 9,
        Stopped::Unnumbered => 10,
    }
}

/// What is said when memory runs out, also where a stream reports it.
const OUT_OF_MEMORY: &str = "davd: out of memory";

/// Returns what is said when the program ends for this reason.
fn line_of(stopped: &Stopped) -> &'static str {
    match stopped {
        Stopped::Usage =>
            "usage: davd [-prefix PREFIX] [-anyone-unlocks] [-max-batch BYTES] [-quota BYTES] [-accept-loss] [-key KEY] [-seed SEED] [-tags PART] [FOLDER]\n       davd --check FOLDER",
        Stopped::Stream(error) => cause_of(error),
        Stopped::Memory => OUT_OF_MEMORY,
        Stopped::Refused(refusal) => refusal_of(*refusal),
        Stopped::InUse => "davd: the folder is in use",
        Stopped::Disk(error) if error.kind() == ErrorKind::PermissionDenied =>
            "davd: this user may not read and write the folder, or one of its files",
        Stopped::Disk(_) => "davd: the folder cannot be read or written",
        Stopped::Full => "davd: a batch is not kept, because the disk is full",
        Stopped::NotKept => "davd: a batch is not kept",
        Stopped::Damaged => "davd: a file is damaged",
        Stopped::WithLog =>
            "davd: everything is kept, but meta.db-wal could not be copied into meta.db: keep both files together",
        Stopped::Unnumbered =>
            "davd: everything is kept, but last and last-wal could not be written: the next start may not notice an older meta.db",
    }
}

/// Returns what is said when a folder is refused: what is wrong, and what to do.
fn refusal_of(refusal: Refusal) -> &'static str {
    match refusal {
        Refusal::Damaged =>
            "davd: meta.db or meta.db-wal is damaged, so nothing was changed: restore all files of the folder from one backup",
        Refusal::Foreign =>
            "davd: meta.db has other tables than this version of davd makes, so nothing was changed: remove a table or view that was added, serve it by the later version that made it, or choose another folder",
        Refusal::NoDatabase | Refusal::NoTables =>
            "davd: meta.db and meta.db-wal have no store, and the folder has bytes of one, so nothing was changed: restore all files of the folder from one backup",
        Refusal::NoData =>
            "davd: data is missing, so nothing was changed: restore all files of the folder from one backup",
        Refusal::ShortData =>
            "davd: data is shorter than meta.db says, so nothing was changed: restore all files of the folder from one backup",
        Refusal::Older =>
            "davd: meta.db and meta.db-wal have lost the last batches, so nothing was changed: restore all files of the folder from one backup, or copy it and serve what is left with -accept-loss",
        Refusal::Unfinished =>
            "davd: a backup to this folder did not end, so nothing was changed: make a new one in another folder",
        Refusal::Journal =>
            "davd: there is the journal of another program beside a file of the folder, such as meta.db-journal, so nothing was changed: restore all files of the folder from one backup, and no other",
        Refusal::NoStore => "davd: the folder has no store, so there is nothing to check",
        Refusal::HalfNumber =>
            "davd: last or last-wal is missing, so nothing was changed: restore all files of the folder from one backup, or copy it and serve it with -accept-loss",
        Refusal::NoNumber =>
            "davd: last and last-wal are missing, damaged or of another folder, so nothing was changed: restore all files of the folder from one backup, or copy it and serve it with -accept-loss",
    }
}

/// Returns what is said of a stream that failed.
fn cause_of(error: &io::Error) -> &'static str {
    match error.kind() {
        ErrorKind::OutOfMemory => OUT_OF_MEMORY,
        ErrorKind::UnexpectedEof => "davd: the input ends inside a batch",
        _ => "davd: the input or the output failed",
    }
}

/// Writes why the program ends, with what the system says of it. If that fails, nobody can read it.
fn say<E: Write>(errors: &mut E, stopped: &Stopped) {
    let line = line_of(stopped);
    let _ = match stopped {
        Stopped::Disk(error) if error.raw_os_error().is_some() => {
            writeln!(errors, "{line}: {error}")
        }
        _ => writeln!(errors, "{line}"),
    };
}
