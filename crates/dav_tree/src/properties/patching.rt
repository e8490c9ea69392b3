//! Changes to properties: all requested changes are made, or none.
ghost use Rattle.std.specs.Prelude.{◌≡◌, Some, None, IfOk, OnOk, OnErr, true, false};
ghost use Rattle.std.specs.FinMap as map;
ghost use Rattle.dav_key.specs.Below.{put_at};
ghost use Rattle.dav_store.specs.PropertyCalls.{name_of, patched};
ghost use Rattle.dav_tree.specs.PropertyNames.{key_of};
ghost use Rattle.dav_tree.specs.Patching.{changes_of, AreOthers, ArePut, AreChanged, IsPlan, PlansMore, replaced_by};

use super::{Properties, PropertyName};
use dav_resource::{DavProp, PropertyPatch, SharedElement};
use std::alloc::AllocError;
use std::collections::BTreeMap;

/// Planned changes. `added` has the properties to add, none of which exists yet. `changed` has the changes of
/// existing properties by name: the new element, or `None` to remove the property.
#[derive(Drop)]
struct Plan {
    added: Properties,
    changed: BTreeMap<PropertyName, Option<SharedElement>>,
}

impl Properties {
    /// Sets and removes properties, in order. A property that is set gets the element that the change has, and is
    /// removed if the change has none. Fails only if memory runs out, and then nothing changes. Each change makes a
    /// few lookups among the properties and among the changes, and at most two copies of its name. Properties that
    /// are not changed cost nothing.
    pub fn patch(&mut self, patches: &[PropertyPatch]) -> Result<(), AllocError>
        ensures ok { OnOk result (self.new ≡ patched patches.now self.old) }
        ensures err { OnErr result (self.new ≡ self.old) }
    {
        let Plan { added, changed } = self.plan(patches)?;
        added.add_to(self)?;
        self.change_all(changed);
        Ok(())
    }

    /// Returns the combined effect of these changes. Fails only if memory runs out.
    fn plan(&self, patches: &[PropertyPatch]) -> Result<Plan, AllocError>
        ensures { IfOk result (λ plan. IsPlan self.now plan.added (changes_of plan.changed) (patched patches.now self.now)) }
    {
        let mut plan = Plan {
            added: Properties::new(self.alloc),
            changed: BTreeMap::new(self.alloc),
        };
        for patch in patches {
            match patch {
                PropertyPatch::Set(prop) => self.note(&mut plan, prop, wanted(prop)?)?,
                PropertyPatch::Remove(prop) => self.note(&mut plan, prop, None)?,
                PropertyPatch::Modified(_) | PropertyPatch::Created(_) => {}
            }
        }
        Ok(plan)
    }

    /// Notes in the plan that a property gets this element, or that it is removed. Fails only if memory runs out.
    fn note(
        &self,
        plan: &mut Plan,
        prop: &DavProp,
        element: Option<SharedElement>,
    ) -> Result<(), AllocError>
        ensures { OnOk result (PlansMore self.now plan.old plan.new (name_of prop.now) element) }
    {
        let name = PropertyName::of(self.alloc, prop)?;
        if self.has(&name) {
            plan.change(name, element)
        } else {
            plan.add(name, element)
        }
    }

    /// Adds copies of these properties to others, which have none of these names. Fails only if memory runs
    /// out, and then nothing changes.
    fn add_to(&self, others: &mut Properties) -> Result<(), AllocError>
        requires { AreOthers self.now others.old }
        ensures ok { OnOk result (ArePut self.now others.old others.new) }
        ensures err { OnErr result (others.new ≡ others.old) }
    {
        if let Err(lacking) = self.put_into(others) {
            self.take_out_of(others);
            return Err(lacking);
        }
        Ok(())
    }

    /// Replaces or removes the existing properties with these names. A change of a property that does not
    /// exist has no effect.
    fn change_all(&mut self, changed: BTreeMap<PropertyName, Option<SharedElement>>)
        ensures { AreChanged (changes_of changed) self.old self.new }
    {
        for (name, element) in changed {
            self.change(&name, element);
        }
    }

    /// Replaces the element of the property with a name, if it exists, or removes the property if there is no
    /// element.
    fn change(&mut self, name: &PropertyName, element: Option<SharedElement>)
        ensures { self.new ≡ put_at self.old (key_of name.now) (replaced_by (Some element) (map.get self.old (key_of name.now))) }
    {
        match element {
            Some(element) => self.replace(name, element),
            None => self.remove(name),
        }
    }
}

impl Plan {
    /// Notes the change of an existing property. Fails only if memory runs out.
    fn change(
        &mut self,
        name: PropertyName,
        element: Option<SharedElement>,
    ) -> Result<(), AllocError>
        ensures added { self.new.added ≡ self.old.added }
        ensures changed { OnOk result (changes_of self.new.changed ≡ map.insert (changes_of self.old.changed) (key_of name) element) }
    {
        self.changed.insert(name, element)?;
        Ok(())
    }

    /// Notes that a property that does not exist is to be added, or, without an element, that it is not.
    /// Fails only if memory runs out.
    fn add(&mut self, name: PropertyName, element: Option<SharedElement>) -> Result<(), AllocError>
        ensures added { OnOk result (self.new.added ≡ put_at self.old.added (key_of name) element) }
        ensures changed { self.new.changed ≡ self.old.changed }
    {
        if let Some(element) = element {
            return self.added.insert(name, element);
        }
        self.added.remove(&name);
        Ok(())
    }
}

/// Returns the element of a property, if it has one. Fails only if memory runs out.
fn wanted(prop: &DavProp) -> Result<Option<SharedElement>, AllocError>
    ensures { IfOk result (λ element. element ≡ prop.now.element) }
{
    match &prop.element {
        Some(element) => Ok(Some(element.clone()?)),
        None => Ok(None),
    }
}
