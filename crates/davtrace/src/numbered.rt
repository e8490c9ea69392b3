//! The refusal of a call by its number.
ghost use Rattle.std.specs.Prelude.{◌≤◌};
ghost use Rattle.dav_store.specs.Calls.{IsOwn};

use dav_headers::read_number;
use dav_refusing::Refusing;
use dav_resource::FsError;
use dav_script::{Fault, LineError, refusal_error};
use dav_tree::MemFs;

/// A call to refuse, by its number.
#[derive(Drop)]
pub struct NumberedRefusal {
    /// The number of the call, counted from 1 from the next call on.
    number: u64,
    /// The error that the call returns.
    error: FsError,
    ghost counted: { 1 ≤ number },
    ghost own: { IsOwn error },
}

impl NumberedRefusal {
    /// Reads `N ERROR`, where N is at least 1.
    pub fn read(value: &str) -> Result<NumberedRefusal, LineError> {
        let (number, error) = value.split_once(' ').ok_or(Fault::BadValue)?;
        let number = read_number(number).ok_or(Fault::BadValue)?;
        if number == 0 {
            return Err(Fault::BadValue.into());
        }
        let Some(error) = refusal_error(error) else {
            return Err(Fault::BadValue.into());
        };
        Ok(NumberedRefusal { number, error })
    }

    /// Makes a store refuse that call.
    pub fn plan(self, store: &mut Refusing<MemFs>) {
        store.refuse_call(self.number, self.error);
    }
}
