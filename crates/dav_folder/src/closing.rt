//! The files of a folder, given up at the end of a run.
ghost use Rattle.std.specs.Prelude.{◌≡◌, true, IsTrue};
ghost use Rattle.sqlite_store.specs.FileStore.{view};
ghost use Rattle.sqlite_trees.specs.View.{IsClean};
ghost use Rattle.dav_folder.specs.Closing.{LeavesAlone, LeavesOneOf, LeavesWhole};
ghost use Rattle.dav_folder.specs.Lasting.{HasCleanDatabase};

use crate::Folder;
use dav_data::{Claim, ClaimedFile};
use dav_rows_files::{close, into_files};
use dav_tree::TreeFs;
use sqlite::FileStore;
use sqlite_disk::Disk;

/// The files of the database of a folder, and its data file.
pub type FolderFiles<D, E, C> = (FileStore<D>, ClaimedFile<E, C>);

/// Gives up a folder and the store that it keeps, so that what a crash leaves can be said of the files alone: those of the
/// database, and the data file. Nothing is written.
pub fn give_up<D: Disk + Drop, E: Disk + Drop, C: Claim>(
    folder: Folder<FileStore<D>>,
    store: TreeFs<ClaimedFile<E, C>>,
) -> FolderFiles<D, E, C>
    ensures alone { LeavesAlone folder store result }
    ensures either { LeavesOneOf folder store result }
    ensures clean { IsClean (view result.0) → HasCleanDatabase folder }
{
    let files = into_files(folder.into_connection());
    let data = store.into_medium();
    data.show_right();
    data.safe_end();
    (files, data)
}

/// Copies the log of the database into its file, and gives up the folder and the store that it keeps. Returns whether the
/// log was copied. If it was, the database file is whole without it. If it was not, as when the disk is full, the log is
/// needed. Then what was kept is left all the same, but for the case that [`close`] names.
pub fn close_folder<D: Disk + Drop, E: Disk + Drop, C: Claim>(
    folder: Folder<FileStore<D>>,
    store: TreeFs<ClaimedFile<E, C>>,
) -> (bool, FolderFiles<D, E, C>)
    ensures whole { result.0 ≡ true → LeavesWhole folder store result.1 }
    ensures alone { IsTrue (view result.1.0).is_numbered → LeavesAlone folder store result.1 }
    ensures clean { IsClean (view result.1.0) → HasCleanDatabase folder }
{
    let (copied, files) = close(folder.into_connection());
    let data = store.into_medium();
    data.show_right();
    data.safe_end();
    (copied, (files, data))
}
