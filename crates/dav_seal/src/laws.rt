//! What a seal shows of the rows.
ghost use Rattle.dav_rows.specs.declared.change.Table.TheVariants.{Resource, Extent, Property, Lock, State};
ghost use Rattle.dav_rows.specs.Contents.{resource_cells, extent_cells, property_cells, lock_cells, state_cells};
ghost use Rattle.dav_seal.specs.Seals.{AreSealsOf};
ghost use Rattle.dav_seal.specs.Laws.{IsWhole, SealsDetermine, SumsDetermineOne, SumsDetermineMissing, BytesDetermine};

/// Where two stores differ and have one seal, two different lists of rows have one sum of their digests. Where such lists differ
/// in one row alone, wherever it is in the order, two different rows have one digest: so one damaged row is found, but for a
/// collision of digests. One missing row is found unless its digest is 0. It does nothing: callers learn this of all rows.
pub fn show_collision()
    ensures seals { SealsDetermine }
    ensures one_row { SumsDetermineOne }
    ensures missing { SumsDetermineMissing }
    ensures whole { (key : _) (m : _) (seals : _) → AreSealsOf key m seals → IsWhole m }
{}

/// Rows of a table with the same bytes are the same row. It does nothing: callers learn this of all rows.
pub fn show_bytes()
    ensures resources { BytesDetermine Resource resource_cells }
    ensures extents { BytesDetermine Extent extent_cells }
    ensures properties { BytesDetermine Property property_cells }
    ensures locks { BytesDetermine Lock lock_cells }
    ensures states { BytesDetermine State state_cells }
{}
