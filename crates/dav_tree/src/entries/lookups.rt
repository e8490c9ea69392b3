//! Lookups of parents, of files and of stored bodies, and copies to a looked-up place.
ghost use Rattle.std.specs.Prelude.{◌≡◌, ◌<◌, ◌^◌, length, MatchResult, OnOk, OnErr, IfErr, Some, IsSome};
ghost use Rattle.std.specs.FinMap as map;
ghost use Rattle.dav_key.specs.Key.{parent};
ghost use Rattle.dav_store.specs.BodyCalls.{stored_bytes};
ghost use Rattle.dav_store.specs.Calls.{file_bar};
ghost use Rattle.dav_tree.specs.Bodies.{FailsFor};
ghost use Rattle.dav_tree.specs.Found.{Finds, IsFileFound, FindsDirectory};
ghost use Rattle.dav_tree.specs.KeptCalls.{CopiesTo};
ghost use Rattle.dav_tree.specs.Kept.{held_of, IsNumber, KeepsNumbers};
ghost use Rattle.dav_tree.specs.Memory.{tree_of};

use super::{Entries, Place};
use crate::medium::Medium;
use dav_key::FlatKey;
use dav_resource::{BodyNumber, FsError, FsResult};

impl<M: Medium> Entries<M> {
    /// Returns where the parent of a key is, if there is a resource. The parent of the root is the root. Makes
    /// one lookup.
    pub fn find_above(&self, key: &FlatKey) -> Option<Place>
        ensures { Finds self.now (parent key.now) result }
    {
        let Some(number) = self.tree.nodes.find_above(key) else {
            return None;
        };
        let Some(entry) = self.tree.nodes.at(number) else {
            unreachable!()
        };
        let directory = entry.is_directory();
        Some(Place { number, directory })
    }

    /// Returns the number of the parent of a key, if it is a directory. Makes one lookup.
    pub fn directory_above(&self, key: &FlatKey) -> Option<usize>
        ensures { FindsDirectory self.now (parent key.now) result }
    {
        let Some(place) = self.find_above(key) else {
            return None;
        };
        if !place.directory {
            return None;
        }
        Some(place.number)
    }

    /// Returns the number of the file at a key. Returns `NotFound` if there is no file. Makes one lookup.
    pub fn find_file(&mut self, key: &FlatKey) -> FsResult<usize>
        ensures found { MatchResult result (IsFileFound self.old key.now) (λ e. file_bar (map.get (tree_of self.old.resources) key.now) ≡ Some e) }
        ensures same { self.new ≡ self.old }
    {
        let Some(place) = self.find(key) else {
            return Err(FsError::NotFound);
        };
        if place.directory {
            return Err(FsError::NotFound);
        }
        Ok(place.number)
    }

    /// Returns the number of bytes of the body of a number, or 0 if there is no such body. Makes one lookup.
    pub fn stored_len(&self, number: BodyNumber) -> u64
        ensures value { result ≡ length (stored_bytes (held_of self.now).bodies number) }
        ensures small { result < 2 ^ 63 }
    {
        match self.bodies.get(&number.as_u64()) {
            Some(body) => self.medium.len(body),
            None => 0,
        }
    }

    /// Copies a resource to a key, which was looked up, and which has a resource or whose parent has one, as
    /// change number `version` at time `now`. The copy replaces the resource at the key. Returns `Memory` if
    /// memory runs out, or an error of the medium's own. After an error nothing has changed.
    pub fn copy_to(
        &mut self,
        from: usize,
        to: &FlatKey,
        there: Option<Place>,
        version: u64,
        now: u64,
    ) -> FsResult<()>
        requires from { IsNumber self.old from }
        requires there { Finds self.old to.now there }
        requires above { IsSome (map.get self.old.numbers (parent to.now)) }
        ensures ok { CopiesTo result from to.now version now self.old self.new }
        ensures numbers { OnOk result (KeepsNumbers self.old self.new) }
        ensures same { OnErr result (self.new ≡ self.old) }
        ensures err { IfErr result (FailsFor M.refuses) }
    {
        match there {
            Some(place) => self.copy_over(from, place.number, version, now),
            None => self.copy_new(from, to, version, now),
        }
    }
}
