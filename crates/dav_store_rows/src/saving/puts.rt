//! Changes that put the rows of a resource, and that remove rows.
ghost use Rattle.std.specs.Prelude.{◌≡◌, ◌<◌, ◌≤◌, ◌-◌, ◌^◌, [], true, length, Some, IfOk, IfErr, OnOk};
ghost use Rattle.dav_cells.specs.Elements.{element_codec};
ghost use Rattle.dav_cells.specs.Pieces.{pieces_codec};
ghost use Rattle.std.specs.Option.{option_map};
ghost use Rattle.dav_nodes.specs.Rows.{row_in};
ghost use Rattle.dav_store_rows.specs.Parts.{MOST};
ghost use Rattle.dav_store_rows.specs.Resources.{extent_values, property_values, pieces_in};
ghost use Rattle.dav_store_rows.specs.SaveErrors.{FailsUnless, HasPartKeys, FitsPieces, FitsRow, FitsRows, IsFlat, AreFlatProps, AreFlat, HasFlat};
ghost use Rattle.dav_store_rows.specs.Changed.{Appends, with_extent, with_property, removed_parts};
ghost use Rattle.dav_store_rows.specs.Puts.{PutsExtents, PutsListed, PutsRows};

use crate::part_key::key_of_part;
use crate::saving::groups::first_group;
use crate::saving::rows::{extent_row, property_row, resource_row};
use crate::{Counts, SaveError};
use dav_nodes::PlacedValue;
use dav_pieces::{Body, Piece};
use dav_resource::{DavProp, Element};
use dav_rows::{Change, Table};
use dav_tree::{Content, Entry};

/// Appends the changes that put all rows of a resource, or that remove its own row if there is no resource.
/// Returns how many rows of extents and properties were put. Errors are as for `SavedCounts::save_resource`.
pub(super) fn put_rows(
    changes: &mut Vec<Change>,
    number: usize,
    placed: Option<PlacedValue<'_, Entry<Body>>>,
) -> Result<Counts, SaveError>
    ensures rows { IfOk result (λ counts. PutsRows number (option_map row_in placed.entry) counts changes.old.items changes.new.items) }
    ensures few { OnOk result (number < 2 ^ 63) }
    ensures err { IfErr result (FailsUnless (FitsRows number (option_map row_in placed.entry)) (HasFlat (option_map row_in placed.entry))) }
{
    match placed {
        Some(placed) => put_placed(changes, number, &placed),
        None => {
            changes.push(Change::Remove(Table::Resource, i64::try_from(number)?))?;
            Ok(Counts {
                extents: 0,
                properties: 0,
            })
        }
    }
}

/// Appends the changes that put all rows of a resource, as `put_rows` does.
fn put_placed(
    changes: &mut Vec<Change>,
    number: usize,
    placed: &PlacedValue<'_, Entry<Body>>,
) -> Result<Counts, SaveError>
    ensures rows { IfOk result (λ counts. PutsRows number (Some (row_in placed.now)) counts changes.old.items changes.new.items) }
    ensures few { OnOk result (number < 2 ^ 63) }
    ensures err { IfErr result (FailsUnless (HasPartKeys number × FitsRow (row_in placed.now)) (AreFlat placed.now.value.now.properties)) }
{
    let entry = placed.value;
    let row = resource_row(*changes.allocator(), number, placed)?;
    changes.push(Change::PutResource(row))?;
    let extents = put_content(changes, number, &entry.content)?;
    let props = entry.properties.list(*changes.allocator())?;
    let properties = put_properties(changes, number, &props)?;
    Ok(Counts {
        extents,
        properties,
    })
}

/// Appends the changes that put the extents of a resource. Returns how many there are: none for a directory.
fn put_content(
    changes: &mut Vec<Change>,
    number: usize,
    content: &Content<Body>,
) -> Result<usize, SaveError>
    ensures ok { IfOk result (λ count. PutsExtents number (pieces_in content.now) count changes.old.items changes.new.items) }
    ensures err { IfErr result (FailsUnless (HasPartKeys number × FitsPieces (pieces_in content.now)) (Unit {0})) }
{
    match content {
        Content::File(body) => put_extents(changes, number, body.pieces()),
        Content::Directory => Ok(0),
    }
}

/// Appends the changes that put the extents of a file with these pieces. Returns how many there are.
fn put_extents(
    changes: &mut Vec<Change>,
    number: usize,
    pieces: &[Piece],
) -> Result<usize, SaveError>
    ensures ok { IfOk result (λ count. PutsExtents number pieces.now count changes.old.items changes.new.items) }
    ensures err { IfErr result (FailsUnless (HasPartKeys number × FitsPieces pieces.now) (Unit {0})) }
{
    let mut rest = pieces;
    let mut place = 0;
    let mut count = 0;
    'groups: while !rest.is_empty() {
        let Some((len, end)) = first_group(rest, place) else {
            return Err(SaveError::TooLarge);
        };
        let (group, later) = rest.split_at(len);
        put_extent(changes, number, count, place, group)?;
        place = end;
        rest = later;
        count += 1;
    }
    Ok(count)
}

/// Appends the change that puts one extent.
fn put_extent(
    changes: &mut Vec<Change>,
    number: usize,
    index: usize,
    place: u64,
    group: &[Piece],
) -> Result<(), SaveError>
    ensures ok { OnOk result (Appends (with_extent number index (extent_values number place group.now)) changes.old.items changes.new.items) }
    ensures valid { OnOk result (pieces_codec.is_valid group.now ≡ true) }
    ensures few { OnOk result (index < MOST) }
    ensures err { IfErr result (FailsUnless (HasPartKeys number × (index < MOST) × (place < 2 ^ 63)) (Unit {0})) }
{
    let row = extent_row(*changes.allocator(), number, index, place, group)?;
    changes.push(Change::PutExtent(row))?;
    Ok(())
}

/// Appends the changes that put properties, each of which has an element. Returns how many there are.
fn put_properties(
    changes: &mut Vec<Change>,
    number: usize,
    props: &[DavProp],
) -> Result<usize, SaveError>
    ensures ok { IfOk result (λ count. PutsListed number props.now count changes.old.items changes.new.items) }
    ensures err { IfErr result (FailsUnless (HasPartKeys number × (length props.now ≤ MOST)) (AreFlatProps props.now)) }
{
    let mut count = 0;
    'properties: for prop in props {
        if let Some(element) = &prop.element {
            put_property(changes, number, count, element.as_element())?;
            count += 1;
        }
    }
    Ok(count)
}

/// Appends the change that puts one property.
fn put_property(
    changes: &mut Vec<Change>,
    number: usize,
    index: usize,
    element: &Element,
) -> Result<(), SaveError>
    ensures ok { OnOk result (Appends (with_property number index (property_values number ([], element.now))) changes.old.items changes.new.items) }
    ensures valid { OnOk result (element_codec.is_valid element.now ≡ true) }
    ensures few { OnOk result (index < MOST) }
    ensures err { IfErr result (FailsUnless (HasPartKeys number × (index < MOST)) (IsFlat element.now)) }
{
    let row = property_row(*changes.allocator(), number, index, element)?;
    changes.push(Change::PutProperty(row))?;
    Ok(())
}

/// Appends the changes that remove the parts of a resource from one index to another.
pub(super) fn remove_parts(
    changes: &mut Vec<Change>,
    table: Table,
    number: usize,
    from: usize,
    to: usize,
) -> Result<(), SaveError>
    ensures ok { OnOk result (Appends (removed_parts table number from (to - from)) changes.old.items changes.new.items) }
    ensures few { OnOk result (from < to → to ≤ MOST) }
    ensures err { IfErr result (FailsUnless (HasPartKeys number × (to ≤ MOST)) (Unit {0})) }
{
    'parts: for index in from..to {
        changes.push(Change::Remove(table, key_of_part(number, index)?))?;
    }
    Ok(())
}
