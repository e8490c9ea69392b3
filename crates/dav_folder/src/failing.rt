//! What is left of the files of a folder after a start that failed.
use dav_data::{Claim, ClaimedFile};
use sqlite::Leftover;
use sqlite_disk::Disk;

/// What is left of a data file after an error.
#[derive(Drop)]
pub enum DataLeft<E: Disk, C: Claim> {
    /// Its disk: the data file was not opened.
    Disk(E),
    /// The data file, opened. Its contents stayed the same.
    File(ClaimedFile<E, C>),
}

/// What is left of the files of a folder after an error at its start.
#[derive(Drop)]
pub struct Remains<D: Disk, E: Disk, C: Claim> {
    /// The files of the database.
    pub database: Leftover<D>,
    /// The data file.
    pub data_file: DataLeft<E, C>,
}
