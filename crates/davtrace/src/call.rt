//! A line that calls the store or the lock system directly.
use crate::body_call::{BodyCall, read_body_number};
use crate::change::read_changes;
use crate::file_call::FileCall;
use crate::lock_call::LockCall;
use crate::new_store::NewStore;
use crate::numbered::NumberedRefusal;
use crate::records::print_records;
use crate::store_call::StoreCall;
use dav_headers::read_number;
use dav_resource::{BodyNumber, DavFile, DavPath, Element};
use dav_script::{
    Fault, LineError, PlannedRefusal, Session, Stopped, outline, read_path, read_refusal,
};
use std::alloc::Global;
use std::io::Write;

/// A line of a block of calls.
#[derive(Drop)]
pub struct CallLine {
    /// The line as written, without its mark.
    text: String,
    call: Call,
}

/// A line that is followed by an outline.
#[derive(Drop)]
pub struct Heading {
    /// The line as written, without its mark.
    text: String,
    calls: Outlined,
}

/// What a line asks for if an outline follows it.
#[derive(Drop)]
enum Outlined {
    /// Prints the outline of its tree.
    Tree,
    /// Changes the properties of this path as the outline says.
    Patch(DavPath),
}

impl Heading {
    /// Reads a line without its mark. Returns `None` if no outline follows such a line.
    pub fn read(alloc: Global, line: &str) -> Result<Option<Heading>, LineError> {
        let (name, value) = line.split_once(' ').unwrap_or((line, ""));
        let calls = match name {
            "xml" if line == name => Outlined::Tree,
            "patch_props" => Outlined::Patch(read_path(alloc, value)?),
            _ => return Ok(None),
        };
        let text = String::from_str(alloc, line)?;
        Ok(Some(Heading { text, calls }))
    }
}

/// What a line asks for.
#[derive(Drop)]
enum Call {
    Store(StoreCall),
    File(FileCall),
    Bodies(BodyCall),
    Locks(LockCall),
    /// Sets the time, in seconds since 1970.
    Now(u64),
    /// Adds a refusal to the store's plan.
    Refuse(PlannedRefusal),
    /// Refuses a call by its number.
    RefuseCall(NumberedRefusal),
    /// Starts over with another store.
    Anew(NewStore),
    /// Prints the outline of this tree.
    Tree(Element),
    /// Gives the body that the store holds under this number to a request that follows.
    NextBody(BodyNumber),
    /// Serves the requests that follow in one run.
    AtOnce,
}

impl CallLine {
    /// Reads a line without its mark: a name, and after a space its arguments, if there are any.
    pub fn read(alloc: Global, line: &str) -> Result<CallLine, LineError> {
        let (name, value) = line.split_once(' ').unwrap_or((line, ""));
        Ok(CallLine {
            text: String::from_str(alloc, line)?,
            call: read_call(alloc, name, value)?,
        })
    }

    /// Returns the line of this heading, with the tree of the outline that follows it.
    pub fn of_outline(
        alloc: Global,
        heading: Heading,
        tree: Element,
    ) -> Result<CallLine, LineError> {
        let Heading { text, calls } = heading;
        let call = match calls {
            Outlined::Tree => Call::Tree(tree),
            Outlined::Patch(path) => {
                Call::Store(StoreCall::PatchProps(path, read_changes(alloc, tree)?))
            }
        };
        Ok(CallLine { text, call })
    }

    /// Returns the number of the stored body that the line gives to a request that follows, if it gives one.
    pub fn next_body(&self) -> Option<BodyNumber> {
        match self.call {
            Call::NextBody(number) => Some(number),
            _ => None,
        }
    }

    /// Returns whether the requests that follow are served in one run.
    pub fn is_at_once(&self) -> bool {
        matches!(self.call, Call::AtOnce)
    }

    /// Makes the call, and prints the line, the result, and the records that the call left in the log. Calls
    /// on an open file use the file that was opened last.
    pub fn make<O: Write>(
        self,
        alloc: Global,
        session: &mut Session<'_>,
        file: &mut Option<DavFile>,
        output: &mut O,
    ) -> Result<(), Stopped> {
        let CallLine { text, call } = self;
        writeln!(output, "! {text}")?;
        match call {
            Call::Store(call) => call.make(alloc, &mut session.store, file, output)?,
            Call::File(call) => call.make(alloc, &mut session.store, file, output)?,
            Call::Bodies(call) => call.make(&mut session.store, output)?,
            Call::Locks(call) => call.make(alloc, session, output)?,
            Call::Now(now) => session.set_now(now),
            Call::Refuse(refusal) => session.plan(refusal)?,
            Call::RefuseCall(refusal) => refusal.plan(&mut session.store),
            Call::Anew(store) => {
                session.set_store(alloc, store.make(alloc)?);
                *file = None;
            }
            Call::Tree(tree) => output.write_all(outline(alloc, &tree)?.as_bytes())?,
            Call::NextBody(_) | Call::AtOnce => {}
        }
        print_records(alloc, output, session)
    }
}

/// Reads the call of this name.
fn read_call(alloc: Global, name: &str, value: &str) -> Result<Call, LineError> {
    match name {
        "now" => Ok(Call::Now(read_number(value).ok_or(Fault::BadValue)?)),
        "refuse" => Ok(Call::Refuse(read_refusal(alloc, value)?)),
        "at_once" if value.is_empty() => Ok(Call::AtOnce),
        "body" => Ok(Call::NextBody(read_body_number(value)?)),
        "refuse_call" => Ok(Call::RefuseCall(NumberedRefusal::read(value)?)),
        _ => read_other(alloc, name, value),
    }
}

/// Reads the new store, the call of the store or the call of the lock system of this name.
fn read_other(alloc: Global, name: &str, value: &str) -> Result<Call, LineError> {
    if let Some(store) = NewStore::read(name, value)? {
        return Ok(Call::Anew(store));
    }
    if let Some(call) = StoreCall::read(alloc, name, value)? {
        return Ok(Call::Store(call));
    }
    if let Some(call) = FileCall::read(alloc, name, value)? {
        return Ok(Call::File(call));
    }
    if let Some(call) = BodyCall::read(alloc, name, value)? {
        return Ok(Call::Bodies(call));
    }
    match LockCall::read(alloc, name, value)? {
        Some(call) => Ok(Call::Locks(call)),
        None => Err(Fault::UnknownDirective.into()),
    }
}
