//! A keeper of a folder that notes how far it is.
ghost use Rattle.std.specs.Prelude.{◌≡◌, ◌≤◌, ◌⊎◌, true, OnOk};
ghost use Rattle.dav_folder.specs.Folders.{batch_of};
ghost use Rattle.dav_last.specs.Batches.{number_of, key_of, is_usable, Names, HasCleanSlots};

use crate::Folder;
use dav_data::{Claim, ClaimedFile};
use dav_keep::KeepError;
use dav_last::LastBatch;
use dav_memls::MemLs;
use dav_reserve::Roomy;
use dav_server::Keeper;
use dav_tree::TreeFs;
use sqlite::Alter;
use sqlite_disk::Disk;
use std::io;

/// Keeps a folder, and writes the number of each batch that was kept beside its database. So a start notices if the
/// database has lost batches.
///
/// It does not wait until the disk has the number, except in the first batch of another second that changes nothing. If the
/// number cannot be written, or cannot be brought to the disk, the batch is kept, and keeping it is an error all the same:
/// nobody would notice a loss any more.
#[derive(Drop)]
pub struct Numbered<S: Alter, L: Disk> {
    folder: Folder<S>,
    last: LastBatch<L>,
    /// The time of the batch that was noted last.
    noted: u64,
    /// Whether the number of a batch that was kept could not be written, or brought to the disk.
    is_unnumbered: bool,
    ghost kept: { number_of last ≤ batch_of folder },
    ghost exact: { is_usable last ≡ true → number_of last ≡ batch_of folder },
}

impl<S: Alter, L: Disk> Numbered<S, L> {
    ghost use Rattle.dav_folder.specs.Numbered.{folder_of, last_of};

    /// Notes how far this folder is. `now` is the time of its last batch.
    pub fn new(folder: Folder<S>, last: LastBatch<L>, now: u64) -> Numbered<S, L>
        requires { number_of last ≡ batch_of folder }
        ensures folder { folder_of result ≡ folder }
        ensures last { last_of result ≡ last }
    {
        Numbered {
            folder,
            last,
            noted: now,
            is_unnumbered: false,
        }
    }

    /// Returns why a batch could not be kept, if one could not.
    pub fn failure(&self) -> Option<&KeepError> {
        self.folder.failure()
    }

    /// Returns whether the number of a batch that was kept could not be written, or brought to the disk.
    pub fn is_unnumbered(&self) -> bool {
        self.is_unnumbered
    }

    /// Returns the folder, and the number that was noted.
    pub fn into_parts(self) -> (Folder<S>, LastBatch<L>)
        ensures folder { result.0 ≡ folder_of self }
        ensures last { result.1 ≡ last_of self }
        ensures kept { number_of result.1 ≤ batch_of result.0 }
        ensures exact { is_usable result.1 ≡ true → number_of result.1 ≡ batch_of result.0 }
    {
        (self.folder, self.last)
    }
}

/// Notes the number of the last batch that changed something, or brings it to the disk if it was noted in another second.
/// `noted` is the time of the batch that was noted last.
///
/// It is an error if the disk fails, or if there is something to write and an earlier sync has failed.
fn note_batch<L: Disk>(
    last: &mut LastBatch<L>,
    noted: &mut u64,
    batch: u64,
    now: u64,
) -> io::Result<()>
    requires { number_of last.old ≤ batch }
    ensures kept { number_of last.new ≤ batch }
    ensures exact { is_usable last.new ≡ true → number_of last.new ≡ batch }
    ensures clean { HasCleanSlots last.new → HasCleanSlots last.old }
    ensures key { key_of last.new ≡ key_of last.old }
    ensures named { OnOk result (Names batch last.new ⊎ ((number_of last.old ≡ batch) × (last.new ≡ last.old))) }
{
    if last.number() < batch {
        *noted = now;
        last.note(batch)
    } else if *noted != now {
        last.sync()
    } else {
        Ok(())
    }
}

impl<D: Roomy + Drop, C: Claim, S: Alter, L: Disk> Keeper<TreeFs<ClaimedFile<D, C>>, MemLs>
    for Numbered<S, L> {
    ghost use Rattle.dav_folder.specs.Lasting.{IsSameKept, same_as};
    ghost use Rattle.dav_folder.specs.Numbered.{LastsNumbered, LastsEitherNumbered, Follows, follows_same, follows_both, as_first, as_second};

    ghost lasts = { LastsNumbered C.Claim };

    ghost lasts_either = { LastsEitherNumbered C.Claim };

    ghost same = { IsSameKept };

    ghost follows = { Follows };

    ghost follows_same = { follows_same };

    ghost follows_both = { follows_both };

    ghost as_first = { as_first C.Claim };

    ghost as_second = { as_second C.Claim };

    ghost same_as = { same_as };

    fn keep(
        &mut self,
        store: &mut TreeFs<ClaimedFile<D, C>>,
        locks: &MemLs,
        now: u64,
        last: u64,
        in_backup: bool,
    ) -> io::Result<()> {
        self.folder.keep_batch(store, locks, now, last, in_backup)?;
        let noted = note_batch(&mut self.last, &mut self.noted, self.folder.batch(), now);
        self.is_unnumbered = noted.is_err();
        noted
    }
}
