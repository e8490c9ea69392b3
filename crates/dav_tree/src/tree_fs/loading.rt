//! A store made from what was saved.
ghost use Rattle.std.specs.Prelude.{◌≡◌, true, [], All, IfOk, IfErr};
ghost use Rattle.dav_nodes.specs.Tree.{Tree};
ghost use Rattle.dav_nodes.specs.TreeRows.{AreRowsOf};
ghost use Rattle.dav_tree.specs.Before.{entries_code, IsSaved};
ghost use Rattle.dav_tree.specs.Entry.{is_held};
ghost use Rattle.dav_tree.specs.Kept.{resources_by};
ghost use Rattle.dav_tree.specs.Loading.{loaded_memory};
ghost use Rattle.dav_tree.specs.Memory.{IsSound};
ghost use Rattle.dav_tree.specs.TreeFs.{memory_of, store_of, records_of, entries_of, older_of, honest_of, settled_of};
ghost use Rattle.dav_tree.specs.declared.entry.Entry.{Entry};
ghost use base.Stored.{gnil};

use super::TreeFs;
use crate::entries::{Entries, are_sound};
use crate::entry::{Content, Entry};
use crate::medium::Medium;
use dav_nodes::{Nodes, NumberedValue, RowsError};
use std::alloc::Global;

impl<M: Medium> TreeFs<M> {
    /// Creates a store of resources that were saved elsewhere, over a medium on which their bodies are safe. There
    /// are no bodies for requests to come, and the time is 0. The change counter is at `version`, the quota is
    /// `limit`, the entity tags have no part beside the version, directories are not marked, and the log is empty. What
    /// is loaded counts as saved.
    ///
    /// The rows are in ascending order of their numbers, as `resource` returns them. Of the first row, the root's,
    /// only the number and the value are read. Makes at most one pass over the rows for each level of the tree.
    ///
    /// - `NotATree`: these are not the rows of a store. The root and each parent must be a directory, each name must
    ///   be valid in a path, and each property's element must have the property's name.
    /// - `Memory`: memory runs out.
    ///
    /// The medium comes back with the error, as it was.
    pub fn load(
        alloc: Global,
        medium: M,
        rows: Vec<NumberedValue<Entry<M::Body>>>,
        version: u64,
        limit: Option<Option<u64>>,
    ) -> Result<TreeFs<M>, (RowsError, M)>
        requires { All (λ row. is_held (M.safe medium) row.value.content ≡ true) rows.items }
        ensures memory { (tree : Tree (Entry M.Body)) → AreRowsOf rows.items tree → IfOk result (λ store. memory_of store ≡ loaded_memory M.body_code (M.bytes medium) tree version limit) }
        ensures entries { (tree : Tree (Entry M.Body)) → AreRowsOf rows.items tree → IfOk result (λ store. entries_of store ≡ entries_code M.body_code tree) }
        ensures saved { IfOk result (λ store. IsSaved store.entries) }
        ensures older { IfOk result (λ store. older_of store ≡ gnil) }
        ensures log { IfOk result (λ store. (store_of store).log ≡ []) }
        ensures records { IfOk result (λ store. records_of store ≡ []) }
        ensures honest { IfOk result (λ store. honest_of store ≡ M.is_honest medium) }
        ensures settled { IfOk result (λ store. settled_of store ≡ M.settled medium) }
        ensures err { (tree : Tree (Entry M.Body)) → AreRowsOf rows.items tree → IsSound (resources_by (M.bytes medium) tree) → IfErr result (λ e. e.0 ≡ RowsError.Memory) }
        ensures back { IfErr result (λ e. e.1 ≡ medium) }
    {
        let root = || Entry::new(alloc, Content::Directory, 0, 0);
        let nodes = match Nodes::from_rows(alloc, rows, root) {
            Ok(nodes) => nodes,
            Err(error) => return Err((error, medium)),
        };
        if !are_sound(&nodes) {
            return Err((RowsError::NotATree, medium));
        }
        let entries = match Entries::load(alloc, medium, nodes) {
            Ok(entries) => entries,
            Err(medium) => return Err((RowsError::Memory, medium)),
        };
        Ok(TreeFs {
            entries,
            version,
            moment: 0,
            limit,
            tag_part: None,
            marks_parents: false,
            log: Vec::new(alloc),
        })
    }
}
