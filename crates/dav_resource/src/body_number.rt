//! The numbers of bodies that a store holds.
ghost use Rattle.std.specs.Prelude.{◌≡◌};

use std::marker::Model;

/// The number under which a store holds the body of a request. In contracts its value is the number.
#[derive(Clone, Copy, Debug, PartialEq, Eq)]
pub struct BodyNumber {
    number: u64,
}

impl Model for BodyNumber {
    ghost use Rattle.std.specs.Prelude.{ℕ};

    ghost Value = { ℕ };

    ghost view = { λ n. n.number };

    ghost inverse = { λ n. record { number = n } };
}

impl BodyNumber {
    /// Converts a number into a `BodyNumber`.
    pub fn from_u64(number: u64) -> BodyNumber
        ensures { result ≡ number }
    {
        BodyNumber { number }
    }

    /// Returns the number.
    pub fn as_u64(self) -> u64
        ensures { result ≡ self }
    {
        self.number
    }
}
