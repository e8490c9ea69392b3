//! The store's calls on dead properties.
ghost use Rattle.std.specs.Prelude.{◌≡◌, All, length, replicate, IfOk, Some};
ghost use Rattle.std.specs.FinMap.{get};
ghost use Rattle.dav_tree.specs.TreeFs.{memory_of, GivesIn};
ghost use Rattle.dav_tree.specs.Memory.{contents_of, with_patches};
ghost use Rattle.dav_tree.specs.MemoryCalls.{kept, get_prop_error, properties_error, IsPropertyList};
ghost use Rattle.dav_store.specs.PropertyCalls.{IsWhole, name_of, properties_at};

use super::TreeFs;
use crate::medium::Medium;
use dav_resource::{DavPath, DavProp, Element, FsError, FsResult, PropertyPatch};
use http::StatusCode;
use std::alloc::{AllocError, Global};

impl<M: Medium> TreeFs<M> {
    /// Returns the element of a property.
    pub(super) fn find_prop(&mut self, path: &DavPath, prop: &DavProp) -> FsResult<Element>
        ensures log { self.new.log ≡ self.old.log }
        ensures element { IfOk result (λ element. get (properties_at (contents_of (memory_of self.old)) path.now.key) (name_of prop.now) ≡ Some element) }
        ensures answer { GivesIn (get_prop_error path.now.key (name_of prop.now)) kept self.old result self.new }
    {
        let Some(place) = self.entries.find(path.key()) else {
            return Err(FsError::NotFound);
        };
        let found = self.entries.properties(place.number).get(prop)?;
        match found {
            Some(element) => Ok(element.as_element().clone()?),
            None => Err(FsError::NotFound),
        }
    }

    /// Returns all properties of a path.
    pub(super) fn list_props(&mut self, path: &DavPath) -> FsResult<Vec<DavProp>>
        ensures log { self.new.log ≡ self.old.log }
        ensures props { IfOk result (λ props. IsPropertyList (properties_at (contents_of (memory_of self.old)) path.now.key) props.items) }
        ensures answer { GivesIn (properties_error path.now.key) kept self.old result self.new }
    {
        let Some(place) = self.entries.find(path.key()) else {
            return Err(FsError::NotFound);
        };
        let properties = self.entries.properties(place.number);
        Ok(properties.list(*self.log.allocator())?)
    }

    /// Sets and removes properties, and sets times, in order. Returns `NotFound` if nothing exists at the path, and `Memory`
    /// if memory runs out. After an error nothing has changed. Costs what `Properties::patch` costs.
    pub(super) fn patch(
        &mut self,
        path: &DavPath,
        patches: &[PropertyPatch],
    ) -> FsResult<Vec<StatusCode>>
        requires { All IsWhole patches.now }
        ensures log { self.new.log ≡ self.old.log }
        ensures statuses { IfOk result (λ statuses. statuses.items ≡ replicate (length patches.now) 200) }
        ensures patched { GivesIn (properties_error path.now.key) (with_patches path.now.key patches.now) self.old result self.new }
    {
        let Some(place) = self.entries.find(path.key()) else {
            return Err(FsError::NotFound);
        };
        let statuses = all_ok(*self.log.allocator(), patches.len())?;
        self.entries.patch(place.number, patches)?;
        Ok(statuses)
    }
}

/// Returns `count` times the status 200.
pub(super) fn all_ok(alloc: Global, count: usize) -> Result<Vec<StatusCode>, AllocError>
    ensures { IfOk result (λ statuses. statuses.items ≡ replicate count 200) }
{
    vec![in alloc; StatusCode::OK; count]
}
