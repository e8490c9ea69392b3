//! What holds of every store that was kept.
ghost use Rattle.dav_folder.specs.Files.{HoldsUtf8};

use dav_data::Claim;

/// Each text in the tables of a store that was kept is UTF-8, as the clause `err` of `start` in `dav_rows_files` assumes.
/// It does nothing: callers learn this of the tables.
pub fn show_utf8<C: Claim>()
    ensures { HoldsUtf8 C.Claim }
{}
