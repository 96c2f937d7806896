//! The sites of one place: `SiteRow`.

ghost use Rattle.std.specs.Prelude.{◌≡◌, ◌+◌, ℕ, IsTrue, OnOk, IfOk, length};
ghost use Rattle.bit_rows.specs.declared.set.NumberSet.TheVariants.{Empty};
ghost use Rattle.bit_rows.specs.Sets.{HasMore, IsInBoth, IsNew, IsIn, numbers_of};

use bit_rows::NumberSet;
use std::alloc::{AllocError, Global};

/// The sites of a place, and those of them that are not passed on yet.
#[derive(Drop)]
pub struct SiteRow {
    pub held: NumberSet,
    pub fresh: NumberSet,
}

/// How many sites a row got, and whether it has fresh ones where it had none.
#[derive(Clone, Copy)]
pub(crate) struct RowGain {
    pub(crate) count: u64,
    pub(crate) wakes: bool,
}

impl SiteRow {
    /// No site. It takes no memory.
    pub(crate) fn new() -> Self
        ensures held { result.held ≡ Empty }
        ensures fresh { result.fresh ≡ Empty }
    {
        SiteRow {
            held: NumberSet::new(),
            fresh: NumberSet::new(),
        }
    }

    /// Adds the sites of a set that are in the mask too. Those that are new are fresh.
    pub(crate) fn add_fitting(
        &mut self,
        alloc: Global,
        sites: &NumberSet,
        mask: &NumberSet,
    ) -> Result<RowGain, AllocError>
        requires within { (n : ℕ) → IsIn self.old.fresh n → IsIn self.old.held n }
        ensures held { OnOk result (HasMore self.old.held self.new.held (IsInBoth sites.now mask.now)) }
        ensures fresh { OnOk result (HasMore self.old.fresh self.new.fresh (IsNew self.old.held (IsInBoth sites.now mask.now))) }
        ensures held_count { IfOk result (λ gain. length (numbers_of self.new.held) ≡ length (numbers_of self.old.held) + gain.count) }
        ensures fresh_count { IfOk result (λ gain. length (numbers_of self.new.fresh) ≡ length (numbers_of self.old.fresh) + gain.count) }
        ensures wakes { IfOk result (λ gain. self.old.fresh ≡ Empty → (self.new.fresh ≡ Empty → ⊥) → IsTrue gain.wakes) }
    {
        let was_idle = self.fresh.is_empty();
        let count = self.held.add_fitting(alloc, sites, mask, &mut self.fresh)?;
        let wakes = does_wake(was_idle, self.fresh.is_empty());
        Ok(RowGain { count, wakes })
    }
}

/// Whether there are fresh sites where there were none.
fn does_wake(was_idle: bool, is_idle: bool) -> bool
    ensures { IsTrue was_idle → (IsTrue is_idle → ⊥) → IsTrue result }
{
    was_idle && !is_idle
}
