//! The paths of a call, as its record keeps them.
ghost use Rattle.std.specs.Prelude.{◌≡◌, ◌∷◌, [], IfOk};

use crate::DavPath;
use std::alloc::AllocError;
use std::marker::Model;

/// The paths of a call, in the order of its arguments: at most two. They need no list on the heap. In
/// contracts their value is the list of the paths.
#[derive(Drop, Debug)]
pub struct Paths {
    held: Held,
}

/// The paths, by their number.
#[derive(Drop, Debug)]
enum Held {
    None,
    One([DavPath; 1]),
    Two([DavPath; 2]),
}

impl Model for Paths {
    ghost use Rattle.std.specs.Prelude.{List};
    ghost use Rattle.dav_resource.specs.PathText.{PathValue};
    ghost use Rattle.dav_resource.specs.Paths.{paths_in};

    ghost Value = { List PathValue };

    ghost view = { λ p. paths_in p.held };
}

impl Paths {
    /// No path, for a call that has none.
    pub fn none() -> Paths
        ensures { result ≡ [] }
    {
        Paths { held: Held::None }
    }

    /// The path of a call that has one.
    pub fn one(path: DavPath) -> Paths
        ensures { result ≡ path ∷ [] }
    {
        Paths {
            held: Held::One([path]),
        }
    }

    /// The paths of a call that has two, in order.
    pub fn two(from: DavPath, to: DavPath) -> Paths
        ensures { result ≡ from ∷ to ∷ [] }
    {
        Paths {
            held: Held::Two([from, to]),
        }
    }

    /// Borrows the paths, in order.
    pub fn as_slice(&self) -> &[DavPath]
        ensures { result.now ≡ self.now }
    {
        match &self.held {
            Held::None => &[],
            Held::One(path) => path.as_slice(),
            Held::Two(paths) => paths.as_slice(),
        }
    }

    /// Returns a copy. Fails only if memory runs out.
    pub fn clone(&self) -> Result<Paths, AllocError>
        ensures { IfOk result (λ copy. copy ≡ self.now) }
    {
        Ok(match &self.held {
            Held::None => Paths::none(),
            Held::One([path]) => Paths::one(path.clone()?),
            Held::Two([from, to]) => Paths::two(from.clone()?, to.clone()?),
        })
    }
}
