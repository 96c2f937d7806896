//! What the solver works on while it takes in an item: memory, the tables that number, and the items that follow.

ghost use Rattle.std.specs.Prelude.{◌≡◌, [], length, Some, slice_get, OnOk};
ghost use Rattle.jvm_model.specs.declared.site.Site.{Site};
ghost use Rattle.points_to_rules.specs.Facts.{Holder};
ghost use Rattle.points_to_constraints.specs.Items.{Constraint as ItemConstraint};
ghost use Rattle.points_to_numbers.specs.Numbered.{Grows, IsNumbered, IsHolderAt, IsConstraintAt, none_numbered};
ghost use Rattle.points_to_numbers.specs.Steps.{Adds, IsUseOf, IsHoldingOf};

use crate::item::Item;
use crate::keys::Constraint;
use crate::tables::Tables;
use jvm_model::SiteNo;
use points_to_rules::Place;
use program_index::index_failure::IndexFailure;
use std::alloc::Global;

/// Memory, the tables by which items are numbered, and the steps: the items that follow from what is taken in, in the order in which they are
/// found.
#[derive(Drop)]
pub struct Work {
    pub alloc: Global,
    pub tables: Tables,
    pub steps: Vec<Item>,
}

impl Work {
    /// Nothing is numbered, and there are no steps. It takes no memory.
    pub fn new(alloc: Global) -> Self
        ensures tables { result.tables ≡ none_numbered }
        ensures steps { result.steps.items ≡ [] }
    {
        Work {
            alloc,
            tables: Tables::new(alloc),
            steps: Vec::new(alloc),
        }
    }

    /// Adds a constraint to a place: each object in the points-to set of the place goes to it.
    pub fn add_constraint(
        &mut self,
        place: Place,
        constraint: Constraint,
    ) -> Result<(), IndexFailure>
        requires place { (h : Holder) × IsHolderAt self.old.tables place h }
        requires constraint { (u : ItemConstraint) × IsConstraintAt self.old.tables constraint u }
        ensures grows { OnOk result (Grows self.old.tables self.new.tables) }
        ensures calls { OnOk result (length self.new.tables.calls ≡ length self.old.tables.calls) }
        ensures adds { OnOk result (Adds self.new.tables (IsUseOf self.old.tables place constraint) self.old.steps.items self.new.steps.items) }
    {
        let place = self.tables.place(place)?;
        let constraint = self.tables.constraint(constraint)?;
        self.steps.push(Item::Constrains(place, constraint))?;
        Ok(())
    }

    /// Adds the objects of an allocation site to the points-to set of a place.
    pub fn add_holding(&mut self, place: Place, site: SiteNo) -> Result<(), IndexFailure>
        requires place { (h : Holder) × IsHolderAt self.old.tables place h }
        requires site { IsNumbered self.old.tables.sites site.0 }
        ensures grows { OnOk result (Grows self.old.tables self.new.tables) }
        ensures calls { OnOk result (length self.new.tables.calls ≡ length self.old.tables.calls) }
        ensures adds { OnOk result ((s : Site) → slice_get self.old.tables.sites site.0 ≡ Some s → Adds self.new.tables (IsHoldingOf self.old.tables place s) self.old.steps.items self.new.steps.items) }
    {
        let place = self.tables.place(place)?;
        self.steps.push(Item::Holds(place, site))?;
        Ok(())
    }
}
