//! What is supposed of a data file.
ghost use Rattle.std.specs.Prelude.{ℕ, Bool, false};

/// What is supposed of a data file before it is opened, as ghost members of a type. A function over `C: Claim` is proved
/// for each claim, which no code can read, and the claim is the same as long as the type is.
pub trait Claim: Drop {
    /// The key of the digests.
    ghost key: { ℕ };

    /// Whether the blocks of each body that the data file is opened with have their digests under this key.
    ghost holds: { Bool };
}

/// Supposes nothing, for `main` to name: at this type a clause on digests says nothing.
#[derive(Drop)]
pub struct Unclaimed;

impl Claim for Unclaimed {
    ghost key = { 0 };

    ghost holds = { false };
}
