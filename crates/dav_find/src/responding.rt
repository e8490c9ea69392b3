//! The properties that are reported for one resource.
ghost use Rattle.std.specs.Prelude.{◌≡◌, IfErr};
ghost use Rattle.dav_resource.specs.declared.error.DavError.TheVariants.{Memory};
ghost use Rattle.dav_find.specs.ByFinder.{RespondsBy};

use crate::finding::{Finder, QuotaAnswer};
use crate::reporting::{PropertyStatus, report};
use dav_resource::{DavResult, Items};
use dav_store::{DavLockSystem, GuardedFileSystem};
use dav_walks::Resource;

impl<'r, C, L: DavLockSystem> Finder<'r, C, L> {
    /// Returns the properties that are reported for a resource, each with its status, and the quota as the
    /// store reported it so far. The only error is `Memory`.
    pub(crate) fn respond<F: GuardedFileSystem<C>>(
        &self,
        fs: &mut F,
        here: &Resource,
        quota: Option<QuotaAnswer>,
    ) -> DavResult<(Items<PropertyStatus>, Option<QuotaAnswer>)>
        ensures response { RespondsBy L.seen self.now here.now quota (F.seen fs.old) result (F.seen fs.new) }
        ensures err { IfErr result (λ e. e ≡ Memory) }
    {
        let (found, quota) = self.find_each(fs, here, quota)?;
        let stored = self.find_stored(fs, &here.path)?;
        let reported = report(self.alloc, self.search.kind, found.into_vec(), &stored)?;
        Ok((Items::from_vec(reported), quota))
    }
}
