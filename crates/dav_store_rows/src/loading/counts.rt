//! Counts of loaded rows.
ghost use Rattle.std.specs.Prelude.{◌≡◌, ◌<◌, ◌^◌, ℕ, map, IfOk, IfErr, OnOk, IsOk};
ghost use Rattle.dav_nodes.specs.Tree.{Tree};
ghost use Rattle.dav_rows.specs.Contents.{Contents};
ghost use Rattle.dav_rows.specs.Changes.{resource_entry, extent_entry, property_entry};
ghost use Rattle.dav_rows.specs.Loading.{AreAll};
ghost use Rattle.dav_store_rows.specs.Parts.{MOST, part_key};
ghost use Rattle.dav_store_rows.specs.Resources.{Kept};
ghost use Rattle.dav_store_rows.specs.Stands.{StandFor};
ghost use Rattle.dav_store_rows.specs.Saves.{Fits};
ghost use Rattle.dav_store_rows.specs.Loads.{IsMemory};
ghost use Rattle.dav_store_rows.specs.Counted.{Grows, IsNumber, HasCounts, IsPartIn, IsExtentCounted, IsPropertyCounted, AllKeys};

use crate::{LoadError, SavedCounts};
use dav_rows::{ExtentRow, PropertyRow, ResourceRow, Rows};
use std::alloc::Global;

/// How many parts a resource has at most.
const MOST_PARTS: usize = 1 << 32;

impl SavedCounts {
    /// Counts loaded rows.
    ///
    /// - `Damaged`: a number is negative, or a row is of a resource that is not there.
    /// - `Memory`: memory runs out.
    pub fn from_rows(alloc: Global, rows: &Rows) -> Result<SavedCounts, LoadError>
        ensures ok { (m : Contents) → AreAll rows.now m → IfOk result (λ counts. Fits counts m) }
        ensures err { (m : Contents) (tree : Tree Kept) → AreAll rows.now m → StandFor m tree → IfErr result IsMemory }
    {
        let mut saved = SavedCounts::new(alloc);
        count_resources(&mut saved, &rows.resources)?;
        count_extents(&mut saved, &rows.extents)?;
        count_properties(&mut saved, &rows.properties)?;
        Ok(saved)
    }
}

/// Gives each resource counts.
///
/// - `Damaged`: a number is negative.
/// - `Memory`: memory runs out.
fn count_resources(saved: &mut SavedCounts, rows: &[ResourceRow]) -> Result<(), LoadError>
    ensures counted { OnOk result (AllKeys (HasCounts saved.new) (map resource_entry rows.now)) }
    ensures err { AllKeys IsNumber (map resource_entry rows.now) → IfErr result IsMemory }
{
    'rows: for row in rows {
        count_resource(saved, row.number)?;
    }
    Ok(())
}

/// Gives a resource counts. Errors are as for `count_resources`.
fn count_resource(saved: &mut SavedCounts, key: i64) -> Result<(), LoadError>
    ensures grows { OnOk result (Grows saved.old saved.new) }
    ensures counted { OnOk result (HasCounts saved.new key) }
    ensures err { IsNumber key → IfErr result IsMemory }
{
    let Ok(number) = usize::try_from(key) else {
        return Err(LoadError::Damaged);
    };
    let counts = saved.counts_of(number);
    saved.set_counts(number, counts)?;
    Ok(())
}

/// Counts extents.
///
/// - `Damaged`: a number is negative, or a row is of a resource without counts.
/// - `Memory`: memory runs out.
fn count_extents(saved: &mut SavedCounts, rows: &[ExtentRow]) -> Result<(), LoadError>
    ensures grows { OnOk result (Grows saved.old saved.new) }
    ensures counted { OnOk result (AllKeys (IsExtentCounted saved.new) (map extent_entry rows.now)) }
    ensures err { AllKeys (IsPartIn saved.old) (map extent_entry rows.now) → IfErr result IsMemory }
{
    'rows: for row in rows {
        count_extent(saved, row.number)?;
    }
    Ok(())
}

/// Counts one extent. Errors are as for `count_extents`.
fn count_extent(saved: &mut SavedCounts, key: i64) -> Result<(), LoadError>
    ensures grows { OnOk result (Grows saved.old saved.new) }
    ensures counted { OnOk result (IsExtentCounted saved.new key) }
    ensures err { IsPartIn saved.old key → IfErr result IsMemory }
{
    let (number, index) = part_of(key)?;
    if number >= saved.len() {
        return Err(LoadError::Damaged);
    }
    let mut counts = saved.counts_of(number);
    counts.extents = counts.extents.max(index + 1);
    saved.set_counts(number, counts)?;
    Ok(())
}

/// Counts properties. Errors are as for `count_extents`.
fn count_properties(saved: &mut SavedCounts, rows: &[PropertyRow]) -> Result<(), LoadError>
    ensures grows { OnOk result (Grows saved.old saved.new) }
    ensures counted { OnOk result (AllKeys (IsPropertyCounted saved.new) (map property_entry rows.now)) }
    ensures err { AllKeys (IsPartIn saved.old) (map property_entry rows.now) → IfErr result IsMemory }
{
    'rows: for row in rows {
        count_property(saved, row.number)?;
    }
    Ok(())
}

/// Counts one property. Errors are as for `count_extents`.
fn count_property(saved: &mut SavedCounts, key: i64) -> Result<(), LoadError>
    ensures grows { OnOk result (Grows saved.old saved.new) }
    ensures counted { OnOk result (IsPropertyCounted saved.new key) }
    ensures err { IsPartIn saved.old key → IfErr result IsMemory }
{
    let (number, index) = part_of(key)?;
    if number >= saved.len() {
        return Err(LoadError::Damaged);
    }
    let mut counts = saved.counts_of(number);
    counts.properties = counts.properties.max(index + 1);
    saved.set_counts(number, counts)?;
    Ok(())
}

/// Returns the number of the resource that a row is a part of, and the index of the part. Returns `Damaged` if the
/// key is negative.
fn part_of(key: i64) -> Result<(usize, usize), LoadError>
    ensures key { IfOk result (λ part. key ≡ part_key part.0 part.1) }
    ensures index { IfOk result (λ part. part.1 < MOST) }
    ensures number { IfOk result (λ part. part.0 < 2 ^ 31) }
    ensures ok { IsNumber key → IsOk result }
{
    match usize::try_from(key) {
        Ok(key) => Ok((key / MOST_PARTS, key % MOST_PARTS)),
        Err(_) => Err(LoadError::Damaged),
    }
}
