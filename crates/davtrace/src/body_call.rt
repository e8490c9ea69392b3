//! Calls of the store on the bodies that it holds.
use crate::answers::{print_body_number, print_done, print_length};
use crate::store_call::Store;
use dav_headers::read_number;
use dav_resource::BodyNumber;
use dav_script::{Fault, LineError, Stopped, unescape};
use dav_store::GuardedFileSystem;
use std::alloc::Global;
use std::io::Write;

/// A call of the store on the bodies that it holds.
#[derive(Drop)]
pub enum BodyCall {
    StartBody,
    AddToBody(BodyNumber, Vec<u8>),
    DropBody(BodyNumber),
    BodyLength(BodyNumber),
}

impl BodyCall {
    /// Reads the call of this name. Returns `None` if the store has no such call on bodies.
    pub fn read(alloc: Global, name: &str, value: &str) -> Result<Option<BodyCall>, LineError> {
        let call = match name {
            "start_body" if value.is_empty() => BodyCall::StartBody,
            "add_to_body" => read_add_to_body(alloc, value)?,
            "drop_body" => BodyCall::DropBody(read_body_number(value)?),
            "body_length" => BodyCall::BodyLength(read_body_number(value)?),
            _ => return Ok(None),
        };
        Ok(Some(call))
    }

    /// Makes the call, and prints the result.
    pub fn make<O: Write>(self, store: &mut Store, output: &mut O) -> Result<(), Stopped> {
        match self {
            BodyCall::StartBody => {
                print_body_number(output, GuardedFileSystem::<()>::start_body(store))
            }
            BodyCall::AddToBody(number, bytes) => {
                let answer = GuardedFileSystem::<()>::add_to_body(store, number, &bytes);
                print_done(output, answer)
            }
            BodyCall::DropBody(number) => {
                GuardedFileSystem::<()>::drop_body(store, number);
                print_done(output, Ok(()))
            }
            BodyCall::BodyLength(number) => {
                print_length(output, GuardedFileSystem::<()>::body_length(store, number))
            }
        }
    }
}

/// Reads `NUMBER TEXT`. Without a text no bytes are added.
fn read_add_to_body(alloc: Global, value: &str) -> Result<BodyCall, LineError> {
    let (number, text) = value.split_once(' ').unwrap_or((value, ""));
    let number = read_body_number(number)?;
    let bytes = unescape(alloc, text.as_bytes())?;
    Ok(BodyCall::AddToBody(number, bytes))
}

/// Reads the number of a body.
pub fn read_body_number(word: &str) -> Result<BodyNumber, LineError> {
    let number = read_number(word).ok_or(Fault::BadValue)?;
    Ok(BodyNumber::from_u64(number))
}
