//! The faults of a script.
ghost use Rattle.std.specs.Prelude.{◌≡◌};

use http::method::MethodError;
use http_header::{HeaderMapError, HeaderNameError, HeaderValueError};
use std::alloc::{AllocError, AllocFailed};
use std::fmt;

/// What is wrong with a line.
#[derive(Clone, Copy, Debug, PartialEq, Eq)]
pub enum Fault {
    NotUtf8,
    BadRequestLine,
    StarPath,
    BadHeader,
    UnknownDirective,
    BadValue,
    BadOutline,
    /// A line of an outline is one level deeper than an outline may be.
    OutlineTooDeep,
}

/// Why a line could not be read.
#[derive(Clone, Copy, Debug, PartialEq, Eq)]
pub enum LineError {
    Fault(Fault),
    Memory,
}

/// Why a script could not be read.
#[derive(Clone, Copy, Debug, PartialEq, Eq)]
pub enum ScriptError {
    /// The number of the first faulty line, from 1, and its fault.
    Fault(u64, Fault),
    Memory,
}

impl LineError {
    ghost use Rattle.dav_script.specs.Errors.{at_line};

    /// Returns this error as the script's error at a line number.
    pub fn at(self, number: u64) -> ScriptError
        ensures { result ≡ at_line number self }
    {
        match self {
            LineError::Fault(fault) => ScriptError::Fault(number, fault),
            LineError::Memory => ScriptError::Memory,
        }
    }
}

impl fmt::Display for Fault {
    ghost use Rattle.std.specs.Prelude.{Some};
    ghost use Rattle.dav_script.specs.Texts.{fault_text};

    ghost output = { λ fault. Some (fault_text fault) };

    fn fmt<W: fmt::Write>(&self, f: &mut fmt::Formatter<W>) -> fmt::Result {
        f.write_str(match self {
            Fault::NotUtf8 => "not UTF-8",
            Fault::BadRequestLine => "bad request line",
            Fault::StarPath => "star path without OPTIONS",
            Fault::BadHeader => "bad header",
            Fault::UnknownDirective => "unknown directive",
            Fault::BadValue => "bad value",
            Fault::BadOutline => "bad outline",
            Fault::OutlineTooDeep => "outline too deep",
        })
    }
}

impl From<Fault> for LineError {
    ghost use Rattle.dav_script.specs.declared.faults.LineError.TheVariants.{Fault};

    ghost from_gives = { λ fault e. e ≡ Fault fault };

    fn from(fault: Fault) -> LineError {
        LineError::Fault(fault)
    }
}

impl From<AllocError> for LineError {
    ghost use Rattle.dav_script.specs.declared.faults.LineError.TheVariants.{Memory};

    ghost from_gives = { λ _ e. e ≡ Memory };

    fn from(_: AllocError) -> LineError {
        LineError::Memory
    }
}

impl<T: Drop> From<AllocFailed<T>> for LineError {
    ghost use Rattle.dav_script.specs.declared.faults.LineError.TheVariants.{Memory};

    ghost from_gives = { λ _ e. e ≡ Memory };

    fn from(_: AllocFailed<T>) -> LineError {
        LineError::Memory
    }
}

impl From<AllocError> for ScriptError {
    ghost use Rattle.dav_script.specs.declared.faults.ScriptError.TheVariants.{Memory};

    ghost from_gives = { λ _ e. e ≡ Memory };

    fn from(_: AllocError) -> ScriptError {
        ScriptError::Memory
    }
}

impl<T: Drop> From<AllocFailed<T>> for ScriptError {
    ghost use Rattle.dav_script.specs.declared.faults.ScriptError.TheVariants.{Memory};

    ghost from_gives = { λ _ e. e ≡ Memory };

    fn from(_: AllocFailed<T>) -> ScriptError {
        ScriptError::Memory
    }
}

impl From<MethodError> for LineError {
    ghost use Rattle.dav_script.specs.Errors.{from_method};

    ghost from_gives = { λ error e. e ≡ from_method error };

    fn from(error: MethodError) -> LineError {
        match error {
            MethodError::Invalid => LineError::Fault(Fault::BadRequestLine),
            MethodError::OutOfMemory => LineError::Memory,
        }
    }
}

impl From<HeaderNameError> for LineError {
    ghost use Rattle.dav_script.specs.Errors.{from_name};

    ghost from_gives = { λ error e. e ≡ from_name error };

    fn from(error: HeaderNameError) -> LineError {
        match error {
            HeaderNameError::Invalid => LineError::Fault(Fault::BadHeader),
            HeaderNameError::OutOfMemory => LineError::Memory,
        }
    }
}

impl From<HeaderValueError> for LineError {
    ghost use Rattle.dav_script.specs.Errors.{from_value};

    ghost from_gives = { λ error e. e ≡ from_value error };

    fn from(error: HeaderValueError) -> LineError {
        match error {
            HeaderValueError::Invalid => LineError::Fault(Fault::BadHeader),
            HeaderValueError::OutOfMemory => LineError::Memory,
        }
    }
}

impl From<HeaderMapError> for LineError {
    ghost use Rattle.dav_script.specs.Errors.{from_map};

    ghost from_gives = { λ error e. e ≡ from_map error };

    fn from(error: HeaderMapError) -> LineError {
        match error {
            HeaderMapError::MaxSizeReached => LineError::Fault(Fault::BadHeader),
            HeaderMapError::OutOfMemory => LineError::Memory,
        }
    }
}
