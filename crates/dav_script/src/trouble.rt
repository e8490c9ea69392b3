//! Why a program ends without having served a script, and its exit status.
ghost use Rattle.std.specs.Prelude.{◌≡◌, ◌⊎◌, OnOk};
ghost use Rattle.std.specs.Io.KnownBytes.{Appends};
ghost use Rattle.dav_script.specs.Status.{status_of, trouble_line};

use crate::faults::{Fault, ScriptError};
use dav_resource::FsError;
use std::alloc::{AllocError, AllocFailed};
use std::fmt;
use std::io::{self, Write};

/// What may stop the program at any time.
#[derive(Clone, Copy, Debug, PartialEq, Eq)]
pub enum Stopped {
    InputOutput,
    Memory,
}

/// Why a script was not served.
#[derive(Clone, Copy, Debug, PartialEq, Eq)]
pub enum Trouble {
    /// The arguments are not at most one valid prefix.
    Usage,
    /// The number of the first faulty line of the script, from 1, and its fault.
    Fault(u64, Fault),
    Stopped(Stopped),
}

/// Writes why the program with this name ends, and returns its exit status: 2 for a fault in the arguments or
/// the script, 3 if input, output or an allocation failed. The status is also 3 if the message could not be
/// written.
pub fn report<E: Write>(errors: &mut E, program: &str, trouble: Trouble) -> u8
    ensures status { (result ≡ 3) ⊎ (result ≡ status_of trouble) }
    ensures said { result ≡ 2 → Appends (E.contents errors.old) (E.contents errors.new) (trouble_line program.now trouble) }
{
    if say(errors, program, trouble).is_err() {
        return 3;
    }
    match trouble {
        Trouble::Usage | Trouble::Fault(..) => 2,
        Trouble::Stopped(_) => 3,
    }
}

/// Writes why the program ends, as one line.
fn say<E: Write>(errors: &mut E, program: &str, trouble: Trouble) -> io::Result<()>
    ensures { OnOk result (Appends (E.contents errors.old) (E.contents errors.new) (trouble_line program.now trouble)) }
{
    let message = Message { program, trouble };
    writeln!(errors, "{message}")?;
    errors.flush()
}

/// The message that says why the program with this name ends.
#[derive(Drop)]
struct Message<'a> {
    program: &'a str,
    trouble: Trouble,
}

impl fmt::Display for Message<'_> {
    ghost use Rattle.std.specs.Prelude.{Some};
    ghost use Rattle.dav_script.specs.Texts.{trouble_text};

    ghost output = { λ message. Some (trouble_text message.program.now message.trouble) };

    fn fmt<W: fmt::Write>(&self, f: &mut fmt::Formatter<W>) -> fmt::Result {
        let program = self.program;
        match self.trouble {
            Trouble::Usage => write!(f, "usage: {program} [PREFIX]"),
            Trouble::Fault(line, fault) => write!(f, "line {line}: {fault}"),
            Trouble::Stopped(Stopped::InputOutput) => write!(
                f,
                "{program}: input or output failed"
            ),
            Trouble::Stopped(Stopped::Memory) => write!(f, "{program}: no memory"),
        }
    }
}

impl From<ScriptError> for Trouble {
    ghost use Rattle.dav_script.specs.Errors.{from_script};

    ghost from_gives = { λ error e. e ≡ from_script error };

    fn from(error: ScriptError) -> Trouble {
        match error {
            ScriptError::Fault(line, fault) => Trouble::Fault(line, fault),
            ScriptError::Memory => Trouble::Stopped(Stopped::Memory),
        }
    }
}

impl From<Stopped> for Trouble {
    ghost use Rattle.dav_script.specs.declared.trouble.Trouble.TheVariants.{Stopped};

    ghost from_gives = { λ stopped e. e ≡ Stopped stopped };

    fn from(stopped: Stopped) -> Trouble {
        Trouble::Stopped(stopped)
    }
}

impl From<io::Error> for Stopped {
    ghost use Rattle.std.specs.IoError.{error_kind};
    ghost use Rattle.dav_script.specs.Errors.{from_kind};

    ghost from_gives = { λ error e. e ≡ from_kind (error_kind error) };

    fn from(error: io::Error) -> Stopped {
        match error.kind() {
            io::ErrorKind::OutOfMemory => Stopped::Memory,
            _ => Stopped::InputOutput,
        }
    }
}

impl From<AllocError> for Stopped {
    ghost use Rattle.dav_script.specs.declared.trouble.Stopped.TheVariants.{Memory};

    ghost from_gives = { λ _ e. e ≡ Memory };

    fn from(_: AllocError) -> Stopped {
        Stopped::Memory
    }
}

impl<T: Drop> From<AllocFailed<T>> for Stopped {
    ghost use Rattle.dav_script.specs.declared.trouble.Stopped.TheVariants.{Memory};

    ghost from_gives = { λ _ e. e ≡ Memory };

    fn from(_: AllocFailed<T>) -> Stopped {
        Stopped::Memory
    }
}

/// Creating a store, dumping it and planning a refusal fail only if memory runs out.
impl From<FsError> for Stopped {
    ghost use Rattle.dav_script.specs.declared.trouble.Stopped.TheVariants.{Memory};

    ghost from_gives = { λ _ e. e ≡ Memory };

    fn from(_: FsError) -> Stopped {
        Stopped::Memory
    }
}
