//! Calls of the store on an open file.
use crate::answers::{print_done, print_meta};
use crate::body_call::read_body_number;
use crate::store_call::Store;
use dav_headers::read_number;
use dav_resource::{BodyNumber, DavFile, FsError, FsResult};
use dav_script::{Fault, LineError, Stopped, unescape};
use dav_store::GuardedFileSystem;
use std::alloc::Global;
use std::io::Write;

/// A call of the store on the file that was opened last.
#[derive(Drop)]
pub enum FileCall {
    Seek(u64),
    WriteBytes(Vec<u8>),
    WriteBody(BodyNumber),
    Flush,
    FileMetadata,
}

impl FileCall {
    /// Reads the call of this name. Returns `None` if the store has no such call on an open file.
    pub fn read(alloc: Global, name: &str, value: &str) -> Result<Option<FileCall>, LineError> {
        let call = match name {
            "seek" => FileCall::Seek(read_number(value).ok_or(Fault::BadValue)?),
            "write_bytes" => FileCall::WriteBytes(unescape(alloc, value.as_bytes())?),
            "write_body" => FileCall::WriteBody(read_body_number(value)?),
            "flush" if value.is_empty() => FileCall::Flush,
            "file_metadata" if value.is_empty() => FileCall::FileMetadata,
            _ => return Ok(None),
        };
        Ok(Some(call))
    }

    /// Makes the call if a file is open, and prints the result.
    pub fn make<O: Write>(
        self,
        alloc: Global,
        store: &mut Store,
        file: &mut Option<DavFile>,
        output: &mut O,
    ) -> Result<(), Stopped> {
        match file {
            Some(file) => self.make_on(alloc, store, file, output),
            None => Ok(output.write_all(b"no open file\n")?),
        }
    }

    /// Makes the call on this file, and prints the result. After a seek or a write, also prints the file's
    /// offset in bytes.
    fn make_on<O: Write>(
        self,
        alloc: Global,
        store: &mut Store,
        file: &mut DavFile,
        output: &mut O,
    ) -> Result<(), Stopped> {
        match self {
            FileCall::Seek(place) => print_done(output, store.seek(file, place, &()))?,
            FileCall::WriteBytes(bytes) => print_done(output, write_bytes(store, file, &bytes))?,
            FileCall::WriteBody(number) => print_done(output, write_body(store, file, number))?,
            FileCall::Flush => return print_done(output, store.flush(file, &())),
            FileCall::FileMetadata => {
                return print_meta(alloc, output, store.file_metadata(file, &()));
            }
        }
        let place = file.pos;
        Ok(writeln!(output, "place {place}")?)
    }
}

/// Writes bytes to an open file. If the end of the bytes does not fit in 64 bits, the store is not called and
/// the result is `TooLarge`, unless the file is open for appending.
fn write_bytes(store: &mut Store, file: &mut DavFile, bytes: &[u8]) -> FsResult<()> {
    if !file.append && file.pos.checked_add(bytes.len() as u64).is_none() {
        return Err(FsError::TooLarge);
    }
    store.write_bytes(file, bytes, &())
}

/// Writes a body that the store holds to an open file, with the same exception.
fn write_body(store: &mut Store, file: &mut DavFile, number: BodyNumber) -> FsResult<()> {
    let length = GuardedFileSystem::<()>::body_length(store, number).unwrap_or(0);
    if !file.append && file.pos.checked_add(length).is_none() {
        return Err(FsError::TooLarge);
    }
    store.write_body(file, number, &())
}
