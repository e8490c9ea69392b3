//! A new store that a script starts over with.
use dav_headers::read_number;
use dav_resource::FsResult;
use dav_script::{Fault, LineError};
use dav_tree::MemFs;
use std::alloc::Global;

/// A store that has only the root.
#[derive(Drop)]
pub enum NewStore {
    /// A store with a quota: the total number of bytes, if there is a limit.
    Quota(Option<u64>),
    /// A store whose change counter starts at this number.
    Version(u64),
}

impl NewStore {
    /// Reads the store of this name. Returns `None` if there is no such store.
    pub fn read(name: &str, value: &str) -> Result<Option<NewStore>, LineError> {
        match name {
            "with_quota" if value == "none" => Ok(Some(NewStore::Quota(None))),
            "with_quota" => Ok(Some(NewStore::Quota(Some(number_of(value)?)))),
            "with_version" => Ok(Some(NewStore::Version(number_of(value)?))),
            _ => Ok(None),
        }
    }

    /// Creates the store. Fails only if memory runs out.
    pub fn make(self, alloc: Global) -> FsResult<MemFs> {
        match self {
            NewStore::Quota(total) => MemFs::with_quota(alloc, total),
            NewStore::Version(version) => MemFs::with_version(alloc, version),
        }
    }
}

/// Parses a word as a number.
fn number_of(word: &str) -> Result<u64, LineError> {
    Ok(read_number(word).ok_or(Fault::BadValue)?)
}
