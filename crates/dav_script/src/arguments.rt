//! The arguments of a program.
use crate::trouble::{Stopped, Trouble};
use std::{env, io};

/// Returns the arguments without the program's name. An argument that is not UTF-8 cannot be a prefix, and is
/// a usage error.
pub fn arguments_of(rt: &HostRuntime) -> Result<Vec<String>, Trouble> {
    match env::args(rt) {
        Ok(arguments) => Ok(
            arguments
                .skip(1)
                .collect(rt.alloc())
                .map_err(Stopped::from)?,
        ),
        Err(error) if error.kind() == io::ErrorKind::InvalidData => Err(Trouble::Usage),
        Err(error) => Err(Stopped::from(error).into()),
    }
}
