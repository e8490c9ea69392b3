//! Changes that bring the rows of a resource up to date.
ghost use Rattle.std.specs.Prelude.{◌≡◌, ◌<◌, ◌^◌, [], length, IfErr, OnOk};
ghost use Rattle.std.specs.FinMap.{empty};
ghost use Rattle.std.specs.Option.{option_map};
ghost use Rattle.dav_nodes.specs.Rows.{row_in};
ghost use Rattle.dav_rows.specs.Contents.{Contents};
ghost use Rattle.dav_store_rows.specs.Saves.{counts_of, IsCounted, Saves, Fits};
ghost use Rattle.dav_store_rows.specs.SaveErrors.{FailsToSave};

mod error;
mod groups;
mod puts;
mod rows;
mod updates;

use dav_nodes::PlacedValue;
use dav_pieces::Body;
use dav_rows::{Change, Table};
use dav_tree::Entry;
pub use error::SaveError;
use puts::{put_rows, remove_parts};
use std::alloc::{AllocError, Global};
use std::marker::Model;
pub use updates::save_changes;

/// How many rows of extents and of properties are saved of a resource.
#[derive(Clone, Copy, Debug)]
pub struct Counts {
    pub extents: usize,
    pub properties: usize,
}

/// How many rows are saved of each resource. In contracts its value is the list of them by number. A number past
/// the list has no rows.
#[derive(Debug, Drop)]
pub struct SavedCounts {
    counts: Vec<Counts>,
}

impl Model for SavedCounts {
    ghost use Rattle.std.specs.Prelude.{List};
    ghost use Rattle.dav_store_rows.specs.declared.saving.Counts.{Counts};

    ghost Value = { List Counts };

    ghost view = { λ s. s.counts.items };
}

impl SavedCounts {
    /// Creates counts of no rows.
    pub fn new(alloc: Global) -> SavedCounts
        ensures none { result ≡ [] }
        ensures fits { (m : Contents) → m.resources ≡ empty → m.extents ≡ empty → m.properties ≡ empty → Fits result m }
    {
        SavedCounts {
            counts: Vec::new(alloc),
        }
    }

    /// Appends the changes after which the rows of a number are those of this resource, or none if there is no
    /// resource. After an error the list and the counts must be dropped.
    ///
    /// - `TooLarge`: a number, a size, a time or a count does not fit in a row.
    /// - `TooDeep`: the element of a property has more levels than a cell holds.
    /// - `Memory`: memory runs out.
    pub fn save_resource(
        &mut self,
        changes: &mut Vec<Change>,
        number: usize,
        placed: Option<PlacedValue<'_, Entry<Body>>>,
    ) -> Result<(), SaveError>
        ensures ok { OnOk result (Saves number (option_map row_in placed.entry) self.old changes.old.items self.new changes.new.items) }
        ensures err { IfErr result (FailsToSave number (option_map row_in placed.entry) (counts_of self.old number)) }
    {
        let old = self.counts_of(number);
        let new = put_rows(changes, number, placed)?;
        remove_parts(changes, Table::Extent, number, new.extents, old.extents)?;
        remove_parts(
            changes,
            Table::Property,
            number,
            new.properties,
            old.properties,
        )?;
        self.set_counts(number, new)?;
        Ok(())
    }

    /// Returns how many numbers have counts.
    pub(crate) fn len(&self) -> usize
        ensures { result ≡ length self.now }
    {
        self.counts.len()
    }

    /// Returns how many rows a number has.
    pub(crate) fn counts_of(&self, number: usize) -> Counts
        ensures { result ≡ counts_of self.now number }
    {
        match self.counts.get(number) {
            Some(counts) => *counts,
            None => Counts {
                extents: 0,
                properties: 0,
            },
        }
    }

    /// Sets how many rows a number has. Fails only if memory runs out.
    pub(crate) fn set_counts(&mut self, number: usize, counts: Counts) -> Result<(), AllocError>
        requires { number < 2 ^ 63 }
        ensures { OnOk result (IsCounted number counts self.old self.new) }
    {
        if self.counts.len() <= number {
            let none = Counts {
                extents: 0,
                properties: 0,
            };
            self.counts.resize(number + 1, none)?;
        }
        self.counts[number] = counts;
        Ok(())
    }
}
