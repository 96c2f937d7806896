//! Constraints, and objects of allocation sites, that are added for places which stand for one thing whatever is numbered.

ghost use Rattle.std.specs.Prelude.{◌≡◌, length, Some, slice_get, IfOk, OnOk};
ghost use Rattle.jvm_model.specs.declared.site.Site.{Site};
ghost use Rattle.points_to_constraints.specs.Items.{known, constrained};
ghost use Rattle.points_to_numbers.specs.Steps.{Makes};
ghost use Rattle.points_to_methods.specs.Fixed.{holder_of, constraint_by};
ghost use Rattle.points_to_rules.specs.Facts.{Holder, may_hold};
ghost use Rattle.points_to_numbers.specs.Numbered.{Grows, IsHolderAt, IsNumbered, IsConstraintAt, Numbered};

use jvm_model::{FieldNo, MethodNo, SiteNo};
use points_to_numbers::{Constraint, Tables, Work};
use points_to_rules::{Place, PlaceNo};
use program_index::index_failure::IndexFailure;
use slot_names::Variable;

/// A place that stands for one thing whatever is numbered: it is not one of the objects of a site.
#[derive(Clone, Copy)]
pub enum FixedPlace {
    Variable(Variable),
    Static(FieldNo),
    Kept,
    Returned(MethodNo),
    Thrown(MethodNo),
}

/// The kind of a constraint between two places: it passes on the objects of the first one.
#[derive(Clone, Copy)]
pub enum Passing<'a> {
    /// Copy: the second place holds them too.
    To,
    /// Filter: the second place holds them too, where they fit the class.
    Fitting(&'a [u8]),
    /// Load: what their field holds, the second place holds.
    LoadField(FieldNo),
    /// Store: what the second place holds, their field holds.
    StoreField(FieldNo),
    /// Load of arrays: what their elements hold, the second place holds.
    LoadElements,
    /// Store of arrays: what the second place holds, their elements hold.
    StoreElements,
}

/// A constraint whose second place is still open.
#[derive(Clone, Copy)]
pub struct Outgoing<'a> {
    pub from: FixedPlace,
    pub passing: Passing<'a>,
}

/// The key of a place.
pub fn key_of(place: FixedPlace) -> Place
    ensures { (n : Numbered) → IsHolderAt n result (holder_of place) }
{
    match place {
        FixedPlace::Variable(variable) => Place::Variable(variable),
        FixedPlace::Static(field) => Place::Static(field),
        FixedPlace::Kept => Place::Kept,
        FixedPlace::Returned(method) => Place::Returned(method),
        FixedPlace::Thrown(method) => Place::Thrown(method),
    }
}

/// The key of a constraint whose second place is numbered.
fn constraint_of(
    tables: &mut Tables,
    passing: Passing<'_>,
    to: PlaceNo,
) -> Result<Constraint, IndexFailure>
    requires { IsNumbered tables.old.holders to.0 }
    ensures grows { OnOk result (Grows tables.old tables.new) }
    ensures calls { OnOk result (length tables.new.calls ≡ length tables.old.calls) }
    ensures stands { IfOk result (λ constraint. (h : Holder) → slice_get tables.old.holders to.0 ≡ Some h → IsConstraintAt tables.new constraint (constraint_by passing.entry h)) }
{
    Ok(match passing {
        Passing::To => Constraint::CopyTo(to),
        Passing::Fitting(class) => Constraint::FilterTo(tables.class_name(class)?, to),
        Passing::LoadField(field) => Constraint::LoadField(field, to),
        Passing::StoreField(field) => Constraint::StoreField(field, to),
        Passing::LoadElements => Constraint::LoadElements(to),
        Passing::StoreElements => Constraint::StoreElements(to),
    })
}

/// Adds a constraint between two places.
pub fn pass(
    from: FixedPlace,
    passing: Passing<'_>,
    to: FixedPlace,
    work: &mut Work,
) -> Result<(), IndexFailure>
    ensures { OnOk result (Makes work.old.tables work.new.tables (λ x. x ≡ constrained (holder_of from) (constraint_by passing.entry (holder_of to))) work.old.steps.items work.new.steps.items) }
{
    let to = work.tables.place(key_of(to))?;
    let constraint = constraint_of(&mut work.tables, passing, to)?;
    work.add_constraint(key_of(from), constraint)?;
    Ok(())
}

/// Adds the objects of an allocation site to the points-to set of a place.
pub fn hold(place: FixedPlace, site: SiteNo, work: &mut Work) -> Result<(), IndexFailure>
    requires { IsNumbered work.old.tables.sites site.0 }
    ensures { (s : Site) → slice_get work.old.tables.sites site.0 ≡ Some s
        → OnOk result (Makes work.old.tables work.new.tables (λ x. x ≡ known (may_hold (holder_of place) s)) work.old.steps.items work.new.steps.items) }
{
    work.add_holding(key_of(place), site)?;
    Ok(())
}
