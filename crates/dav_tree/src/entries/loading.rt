//! Entries with the resources of a tree that was loaded.
ghost use Rattle.std.specs.Prelude.{◌≡◌, ◌<◌, ◌*◌, ◌≤◌, ◌^◌, true, All, length, IfOk, IfErr};
ghost use Rattle.std.specs.List.{sum_by};
ghost use Rattle.dav_nodes.specs.Listing.{HasFlatKeys};
ghost use Rattle.dav_tree.specs.Entry.{node_by, is_held};
ghost use Rattle.dav_tree.specs.Kept.{resources_by, AreHeld};
ghost use Rattle.dav_tree.specs.Loading.{IsLoaded};
ghost use Rattle.dav_tree.specs.Memory.{size_of, used_by};

use super::Entries;
use crate::entry::{self, Entry};
use crate::medium::Medium;
use dav_key::FlatKey;
use dav_nodes::{Nodes, NotedNodes};
use std::alloc::{AllocError, Global};
use std::collections::BTreeMap;

impl<M: Medium> Entries<M> {
    /// Creates entries with the resources of a tree, whose bodies are safe on the medium, and without bodies for
    /// requests to come. What there is counts as saved. Fails only if memory runs out, and then gives the medium back.
    pub fn load(alloc: Global, medium: M, nodes: Nodes<Entry<M::Body>>) -> Result<Entries<M>, M>
        requires safe { AreHeld (M.safe medium) nodes }
        requires keys { HasFlatKeys nodes.values }
        ensures loaded { IfOk result (IsLoaded M.body_code (M.bytes medium) nodes) }
        ensures honest { IfOk result (λ entries. entries.honest ≡ M.is_honest medium) }
        ensures settled { IfOk result (λ entries. entries.settled ≡ M.settled medium) }
        ensures err { IfErr result (λ back. back ≡ medium) }
    {
        let Ok(used) = used_in(alloc, &medium, &nodes) else {
            return Err(medium);
        };
        Ok(Entries {
            alloc,
            tree: NotedNodes::saved(alloc, nodes),
            medium,
            used,
            bodies: BTreeMap::new(alloc),
            next: 0,
            older: None,
        })
    }
}

/// Returns the number of bytes in all files. Fails only if memory runs out.
fn used_in<M: Medium>(
    alloc: Global,
    medium: &M,
    nodes: &Nodes<Entry<M::Body>>,
) -> Result<u128, AllocError>
    requires held { AreHeld (M.holds medium.now) nodes.now }
    requires keys { HasFlatKeys nodes.now.values }
    ensures { IfOk result (λ used. used ≡ used_by (resources_by (M.bytes medium.now) nodes.now)) }
{
    let entries = nodes.entries(alloc)?;
    Ok(used_by_entries(medium, &entries))
}

/// Returns the number of bytes in these files.
fn used_by_entries<M: Medium>(medium: &M, entries: &[(FlatKey, &Entry<M::Body>)]) -> u128
    requires { All (λ e. is_held (M.holds medium.now) e.1.now.content ≡ true) entries.now }
    ensures { result ≡ sum_by (λ e. size_of (node_by (M.bytes medium.now) e.1.now.content)) entries.now }
{
    let mut used = 0;
    for entry in entries {
        used += entry::len(medium, &entry.1.content) as u128;
    }
    used
}
