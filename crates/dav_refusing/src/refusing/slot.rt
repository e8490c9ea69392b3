//! The calls of a store that share the refusals of a plan.
ghost use Rattle.std.specs.Prelude.{◌≡◌, IfOk, refl};
ghost use Rattle.std.specs.Ordering.{eq_by_cmp, as_partial_cmp};
ghost use Rattle.std.specs.Cmp.{eq_by_cmp_equiv, partial_equiv_from_equiv, partial_order_from_total};
ghost use Rattle.dav_key.specs.Flat.{flat, IsFlatKey};
ghost use Rattle.dav_refusing.specs.Plans.{first_key, planned_key};
ghost use Rattle.dav_refusing.specs.Slots.{slot_call, slot_cmp, slot_cmp_total, slot_key};

use dav_resource::{DavPath, Op};
use std::alloc::AllocError;
use std::cmp::Ordering;

/// The calls of one kind whose first paths have one key. Those of `Op::GetQuota` have no path.
///
/// Slots are ordered by the kind of call and then by the key. Nothing else of a path counts.
#[derive(Debug, Drop)]
pub(super) struct Slot {
    op: Op,
    path: Option<DavPath>,
}

impl Slot {
    /// Returns the slot of a call of this kind on these paths. It allocates nothing, because the slot shares
    /// the texts of the path. It fails only if the number of copies of a path at one time does not fit in
    /// a `usize`.
    pub(super) fn of_call(op: Op, paths: &[DavPath]) -> Result<Slot, AllocError>
        ensures { IfOk result (λ slot. slot_call slot ≡ (op, first_key paths.now)) }
    {
        let path = match paths.first() {
            Some(path) => Some(path.clone()?),
            None => None,
        };
        Ok(Slot { op, path })
    }

    /// Returns the slot of the calls that a refusal of this kind at this path is for.
    pub(super) fn of_refusal(op: Op, path: DavPath) -> Slot
        ensures { slot_call result ≡ (op, planned_key op path.key) }
    {
        let path = match op {
            Op::GetQuota => None,
            _ => Some(path),
        };
        Slot { op, path }
    }

    /// Returns the text of the key. Without a path it is that of the root.
    fn key_str(&self) -> &str
        ensures text { result.now ≡ flat (slot_key self.now) }
        ensures key { IsFlatKey (slot_key self.now) }
    {
        match &self.path {
            Some(path) => path.key().as_str(),
            None => "",
        }
    }
}

impl PartialEq for Slot {
    ghost eq = { eq_by_cmp slot_cmp };

    ghost laws = { partial_equiv_from_equiv (eq_by_cmp_equiv slot_cmp_total) };

    fn eq(&self, other: &Slot) -> bool {
        self.cmp(other).is_eq()
    }
}

impl Eq for Slot {
    ghost laws = { eq_by_cmp_equiv slot_cmp_total };
}

impl PartialOrd for Slot {
    ghost partial_cmp = { as_partial_cmp slot_cmp };

    ghost laws = { partial_order_from_total slot_cmp_total };

    fn partial_cmp(&self, other: &Slot) -> Option<Ordering> {
        Some(self.cmp(other))
    }
}

impl Ord for Slot {
    ghost cmp = { slot_cmp };

    ghost total = { slot_cmp_total };

    ghost matches_partial_cmp = { λ a b. refl };

    ghost matches_eq = { λ a b. refl };

    fn cmp(&self, other: &Slot) -> Ordering {
        (self.op as u8)
            .cmp(&(other.op as u8))
            .then(self.key_str().cmp(other.key_str()))
    }
}
