//! Tests that functions succeed which no program calls. Their contracts say with which trees.
use dav_memls::MemLs;
use dav_messages::{build_lock_prop, list_lockdiscovery};
use dav_resource::{DavPath, Text};
use dav_store::DavLock;
use std::alloc::Global;
use std::test::Fail;

/// Returns a lock of everything below `/a/`.
fn deep_lock(alloc: Global) -> Result<DavLock, Fail> {
    Ok(DavLock {
        token: Text::from_str(alloc, "t")?,
        path: DavPath::from_str_and_prefix(alloc, "/a/", "")?,
        principal: None,
        owner: None,
        timeout: Some(5),
        timeout_at: Some(5),
        shared: true,
        deep: true,
    })
}

#[test]
fn the_tree_of_a_lock_is_built(rt: HostRuntime) -> Result<(), Fail> {
    let lock = deep_lock(rt.alloc())?;
    let tree = build_lock_prop(rt.alloc(), &lock, false)?;
    assert_eq!(rt; tree.name(), "activelock");
    Ok(())
}

#[test]
fn the_tree_of_no_locks_is_built(rt: HostRuntime) -> Result<(), Fail> {
    let path = DavPath::root(rt.alloc())?;
    let tree = list_lockdiscovery(rt.alloc(), None::<&MemLs>, &path)?;
    assert!(rt; !tree.has_child_elems());
    Ok(())
}
