//! Calls of the lock system.
use crate::answers::print_word;
use dav_headers::read_number;
use dav_memls::MemLs;
use dav_resource::{DavPath, Text};
use dav_script::{Fault, LineError, Session, Stopped, lock_text, read_path};
use dav_store::{DavLock, DavLockSystem, LockError};
use std::alloc::{AllocError, Global};
use std::io::Write;

/// A call of the lock system.
#[derive(Drop)]
pub enum LockCall {
    Check(Check),
    Lock(Asked),
    Unlock(DavPath, String),
    /// A lock's path, its token, and its new timeout in seconds.
    Refresh(DavPath, String, Option<u64>),
    Discover(DavPath),
    Delete(DavPath),
    /// Not a call: prints all locks, in the lock system's order.
    Locks,
}

/// The sender of a request.
#[derive(Drop)]
enum Sender {
    Nobody,
    Anybody,
    Known(String),
}

/// A check whether the locks allow a request.
#[derive(Drop)]
pub struct Check {
    path: DavPath,
    sender: Sender,
    deep: bool,
    tokens: Vec<Text>,
}

/// A requested lock.
#[derive(Drop)]
pub struct Asked {
    path: DavPath,
    sender: Sender,
    shared: bool,
    deep: bool,
    timeout: Option<u64>,
    token: String,
}

impl LockCall {
    /// Reads the call of this name. Returns `None` if the lock system has no such call.
    pub fn read(alloc: Global, name: &str, value: &str) -> Result<Option<LockCall>, LineError> {
        let words: Vec<&str> = value.split(' ').collect(alloc)?;
        let call = match name {
            "check" => LockCall::Check(Check::read(alloc, &words)?),
            "lock" => LockCall::Lock(Asked::read(alloc, &words)?),
            "unlock" => read_unlock(alloc, &words)?,
            "refresh" => read_refresh(alloc, &words)?,
            "discover" => LockCall::Discover(read_path(alloc, value)?),
            "delete" => LockCall::Delete(read_path(alloc, value)?),
            "locks" if value.is_empty() => LockCall::Locks,
            _ => return Ok(None),
        };
        Ok(Some(call))
    }

    /// Makes the call, and prints the result.
    pub fn make<O: Write>(
        self,
        alloc: Global,
        session: &mut Session<'_>,
        output: &mut O,
    ) -> Result<(), Stopped> {
        let now = session.now();
        let locks = &mut session.locks;
        match self {
            LockCall::Check(check) => print_word(output, check.holds(locks)),
            LockCall::Lock(asked) => print_lock(alloc, output, asked.ask(locks, now)),
            LockCall::Unlock(path, token) => print_done(output, locks.unlock(&path, &token)),
            LockCall::Refresh(path, token, timeout) => {
                print_lock(alloc, output, locks.refresh(&path, &token, timeout, now))
            }
            LockCall::Discover(path) => match locks.discover(&path) {
                Ok(found) => print_locks(alloc, output, found.as_slice()),
                Err(error) => print_done(output, Err(error)),
            },
            LockCall::Delete(path) => print_done(output, locks.delete(&path)),
            LockCall::Locks => print_all(alloc, output, locks),
        }
    }
}

impl Check {
    /// Reads `PATH SENDER shallow|deep TOKEN ..`.
    fn read(alloc: Global, words: &[&str]) -> Result<Check, LineError> {
        let [path, sender, depth, handed @ ..] = words else {
            return Err(Fault::BadValue.into());
        };
        let mut tokens = Vec::new(alloc);
        for token in handed {
            tokens.push(Text::from_string(String::from_str(alloc, token)?))?;
        }
        Ok(Check {
            path: read_path(alloc, path)?,
            sender: Sender::read(alloc, sender)?,
            deep: read_either(depth, "shallow", "deep")?,
            tokens,
        })
    }

    fn holds(&self, locks: &MemLs) -> bool {
        let anybody = matches!(&self.sender, Sender::Anybody);
        locks.check(
            &self.path,
            self.sender.name(),
            anybody,
            self.deep,
            &self.tokens,
        )
    }
}

impl Asked {
    /// Reads `PATH SENDER exclusive|shared 0|infinity TIMEOUT TOKEN`.
    fn read(alloc: Global, words: &[&str]) -> Result<Asked, LineError> {
        let [path, sender, scope, depth, timeout, token] = words else {
            return Err(Fault::BadValue.into());
        };
        Ok(Asked {
            path: read_path(alloc, path)?,
            sender: Sender::read(alloc, sender)?,
            shared: read_either(scope, "exclusive", "shared")?,
            deep: read_either(depth, "0", "infinity")?,
            timeout: read_timeout(timeout)?,
            token: String::from_str(alloc, token)?,
        })
    }

    fn ask(&self, locks: &mut MemLs, now: u64) -> Result<DavLock, LockError> {
        locks.lock(
            &self.path,
            self.sender.name(),
            None,
            self.timeout,
            self.shared,
            self.deep,
            &self.token,
            now,
        )
    }
}

impl Sender {
    /// Reads a name. `-` is no principal, and `*` is any principal.
    fn read(alloc: Global, word: &str) -> Result<Sender, AllocError> {
        match word {
            "-" => Ok(Sender::Nobody),
            "*" => Ok(Sender::Anybody),
            _ => Ok(Sender::Known(String::from_str(alloc, word)?)),
        }
    }

    fn name(&self) -> Option<&str> {
        match self {
            Sender::Known(name) => Some(name.as_str()),
            _ => None,
        }
    }
}

/// Reads `PATH TOKEN`.
fn read_unlock(alloc: Global, words: &[&str]) -> Result<LockCall, LineError> {
    let [path, token] = words else {
        return Err(Fault::BadValue.into());
    };
    let token = String::from_str(alloc, token)?;
    Ok(LockCall::Unlock(read_path(alloc, path)?, token))
}

/// Reads `PATH TOKEN TIMEOUT`.
fn read_refresh(alloc: Global, words: &[&str]) -> Result<LockCall, LineError> {
    let [path, token, timeout] = words else {
        return Err(Fault::BadValue.into());
    };
    let token = String::from_str(alloc, token)?;
    let timeout = read_timeout(timeout)?;
    Ok(LockCall::Refresh(read_path(alloc, path)?, token, timeout))
}

/// Returns whether the word is `yes`. A word that is neither `yes` nor `no` is a fault.
fn read_either(word: &str, no: &str, yes: &str) -> Result<bool, LineError> {
    if word == yes {
        Ok(true)
    } else if word == no {
        Ok(false)
    } else {
        Err(Fault::BadValue.into())
    }
}

/// Reads a timeout as it is printed: `Infinite`, or `Second-` and the number of seconds.
fn read_timeout(word: &str) -> Result<Option<u64>, LineError> {
    if word == "Infinite" {
        return Ok(None);
    }
    let seconds = word.strip_prefix("Second-").ok_or(Fault::BadValue)?;
    Ok(Some(read_number(seconds).ok_or(Fault::BadValue)?))
}

/// Prints a lock, or the error's name.
fn print_lock<O: Write>(
    alloc: Global,
    output: &mut O,
    answer: Result<DavLock, LockError>,
) -> Result<(), Stopped> {
    match answer {
        Ok(lock) => print_held(alloc, output, &lock),
        Err(error) => print_done(output, Err(error)),
    }
}

/// Prints a line for each lock, in order, and then `ok`.
fn print_locks<O: Write>(alloc: Global, output: &mut O, locks: &[DavLock]) -> Result<(), Stopped> {
    for lock in locks {
        print_held(alloc, output, lock)?;
    }
    print_done(output, Ok(()))
}

/// Prints a line for each lock in the lock system, in its order, and then `ok`.
fn print_all<O: Write>(alloc: Global, output: &mut O, locks: &MemLs) -> Result<(), Stopped> {
    for lock in locks.locks() {
        print_held(alloc, output, lock)?;
    }
    print_done(output, Ok(()))
}

/// Prints a lock as in the list at the end of the output, with its expiry time in seconds since 1970, if it
/// has one.
fn print_held<O: Write>(alloc: Global, output: &mut O, lock: &DavLock) -> Result<(), Stopped> {
    let text = lock_text(alloc, lock)?;
    match lock.timeout_at {
        Some(end) => writeln!(output, "{text} until {end}")?,
        None => writeln!(output, "{text}")?,
    }
    Ok(())
}

/// Prints `ok`, or the error's name.
fn print_done<O: Write>(output: &mut O, answer: Result<(), LockError>) -> Result<(), Stopped> {
    let word = match answer {
        Ok(()) => "ok",
        Err(LockError::Conflict) => "Conflict",
        Err(LockError::NotFound) => "NotFound",
        Err(LockError::Failed) => "Failed",
        Err(LockError::Memory) => "Memory",
    };
    Ok(writeln!(output, "{word}")?)
}
