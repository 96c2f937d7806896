//! The constraints of a call: from its arguments, and to the places of its result.

ghost use Rattle.std.specs.Prelude.{◌≡◌, Some, slice_get, IfOk, OnOk};
ghost use Rattle.program_model.specs.Numbers.{IsMethodNumber};
ghost use Rattle.points_to_calls.specs.Giving.{MakesConstraint, ResolvesIn};
ghost use Rattle.points_to_calls.specs.Parts.{RuleOrigin, Gets, GetsAt, GetsUnit, IsOriginAt, ResultsGet};
ghost use Rattle.points_to_numbers.specs.Steps.{Makes};
ghost use Rattle.points_to_constraints.specs.Items.{CallSite as ItemCallSite, Constraint as ItemConstraint, constrained};
ghost use Rattle.points_to_rules.specs.Facts.{Holder};
ghost use Rattle.points_to_numbers.specs.Numbered.{IsNumbered, IsConstraintAt};

use crate::origin::Origin;
use crate::reading::{argument_of, result_count, result_of};
use jvm_model::MethodNo;
use op_model::CallKind;
use points_to_numbers::{CallNo, Constraint, Item, Tables, Work};
use points_to_rules::{Place, PlaceNo};
use program_index::index_failure::IndexFailure;
use program_model::program::Program;

/// Adds a constraint to a place.
pub(crate) fn add_constraint_at(
    place: PlaceNo,
    constraint: Constraint,
    work: &mut Work,
) -> Result<(), IndexFailure>
    requires place { IsNumbered work.old.tables.holders place.0 }
    requires constraint { (u : ItemConstraint) × IsConstraintAt work.old.tables constraint u }
    ensures { OnOk result ((h : Holder) (u : ItemConstraint) → slice_get work.old.tables.holders place.0 ≡ Some h → IsConstraintAt work.old.tables constraint u
        → Makes work.old.tables work.new.tables (λ x. x ≡ constrained h u) work.old.steps.items work.new.steps.items) }
{
    let constraint = work.tables.constraint(constraint)?;
    work.steps.push(Item::Constrains(place, constraint))?;
    Ok(())
}

/// The constraint to which the objects of the first unit of the arguments go, where they are given to a place: at a special call they have to fit the
/// class of the resolved method, and an object by which a call selects is not given here.
fn first_constraint(
    program: &Program,
    tables: &mut Tables,
    kind: CallKind,
    resolved: MethodNo,
    to: PlaceNo,
) -> Result<Option<Constraint>, IndexFailure>
    requires resolved { IsMethodNumber program.now resolved.0 }
    requires to { IsNumbered tables.old.holders to.0 }
    ensures { IfOk result (λ constraint. (h : Holder) → slice_get tables.old.holders to.0 ≡ Some h → MakesConstraint program.now tables.old tables.new kind resolved 0 h constraint) }
{
    match kind {
        CallKind::Virtual => Ok(None),
        CallKind::Special => {
            let class = tables.class_name(program.class_name(program.method(resolved).class))?;
            Ok(Some(Constraint::FilterTo(class, to)))
        }
        CallKind::Static => Ok(Some(Constraint::CopyTo(to))),
        CallKind::Interface => Ok(None),
    }
}

/// The constraint to which the objects of any unit of the arguments of a call go, where they are given to a place.
fn unit_constraint(
    program: &Program,
    tables: &mut Tables,
    call: CallNo,
    unit: usize,
    to: PlaceNo,
) -> Result<Option<Constraint>, IndexFailure>
    requires call { IsNumbered tables.old.calls call.0 }
    requires resolved { ResolvesIn program.now tables.old call.0 }
    requires to { IsNumbered tables.old.holders to.0 }
    ensures { IfOk result (λ constraint. (site : ItemCallSite) (h : Holder) → slice_get tables.old.calls call.0 ≡ Some site → slice_get tables.old.holders to.0 ≡ Some h
        → MakesConstraint program.now tables.old tables.new site.kind site.resolved unit h constraint) }
{
    if unit > 0 {
        return Ok(Some(Constraint::CopyTo(to)));
    }
    let entry = tables.call_of(call);
    let kind = entry.kind;
    let resolved = entry.resolved;
    first_constraint(program, tables, kind, resolved, to)
}

/// Adds the constraint of a unit of the arguments of a call that gives it to a place.
fn give_unit(
    program: &Program,
    call: CallNo,
    unit: usize,
    to: PlaceNo,
    work: &mut Work,
) -> Result<(), IndexFailure>
    requires call { IsNumbered work.old.tables.calls call.0 }
    requires resolved { ResolvesIn program.now work.old.tables call.0 }
    requires to { IsNumbered work.old.tables.holders to.0 }
    ensures { OnOk result ((site : ItemCallSite) (h : Holder) → slice_get work.old.tables.calls call.0 ≡ Some site → slice_get work.old.tables.holders to.0 ≡ Some h
        → Makes work.old.tables work.new.tables (GetsUnit program.now site unit h) work.old.steps.items work.new.steps.items) }
{
    let Some(from) = argument_of(&work.tables, call, unit) else {
        return Ok(());
    };
    let Some(constraint) = unit_constraint(program, &mut work.tables, call, unit, to)? else {
        return Ok(());
    };
    add_constraint_at(from, constraint, work)
}

/// Adds that a place gets an origin: the objects of a site, or a constraint of another place.
pub(crate) fn give(
    program: &Program,
    call: CallNo,
    origin: Origin,
    to: PlaceNo,
    work: &mut Work,
) -> Result<(), IndexFailure>
    requires call { IsNumbered work.old.tables.calls call.0 }
    requires resolved { ResolvesIn program.now work.old.tables call.0 }
    requires origin { (g : RuleOrigin) × IsOriginAt work.old.tables origin g }
    requires to { IsNumbered work.old.tables.holders to.0 }
    ensures { OnOk result ((site : ItemCallSite) (g : RuleOrigin) (h : Holder) → slice_get work.old.tables.calls call.0 ≡ Some site → IsOriginAt work.old.tables origin g
        → slice_get work.old.tables.holders to.0 ≡ Some h → Makes work.old.tables work.new.tables (Gets program.now site g h) work.old.steps.items work.new.steps.items) }
{
    match origin {
        Origin::Unit(unit) => give_unit(program, call, unit, to, work),
        Origin::Made(site) => {
            work.steps.push(Item::Holds(to, site))?;
            Ok(())
        }
        Origin::Fitting(class) => {
            work.add_constraint(Place::Kept, Constraint::FilterTo(class, to))
        }
        Origin::Returned(method) => {
            work.add_constraint(Place::Returned(method), Constraint::CopyTo(to))
        }
    }
}

/// Adds that the place of the result at one of the call's successors gets an origin.
fn give_at(
    program: &Program,
    call: CallNo,
    origin: Origin,
    number: usize,
    work: &mut Work,
) -> Result<(), IndexFailure>
    requires call { IsNumbered work.old.tables.calls call.0 }
    requires resolved { ResolvesIn program.now work.old.tables call.0 }
    requires origin { (g : RuleOrigin) × IsOriginAt work.old.tables origin g }
    ensures { OnOk result ((site : ItemCallSite) (g : RuleOrigin) → slice_get work.old.tables.calls call.0 ≡ Some site → IsOriginAt work.old.tables origin g
        → Makes work.old.tables work.new.tables (GetsAt program.now site g number) work.old.steps.items work.new.steps.items) }
{
    let Some(to) = result_of(&work.tables, call, number) else {
        return Ok(());
    };
    give(program, call, origin, to, work)
}

/// Adds that each place of the result of a call gets an origin.
pub(crate) fn give_results(
    program: &Program,
    call: CallNo,
    origin: Origin,
    work: &mut Work,
) -> Result<(), IndexFailure>
    requires call { IsNumbered work.old.tables.calls call.0 }
    requires resolved { ResolvesIn program.now work.old.tables call.0 }
    requires origin { (g : RuleOrigin) × IsOriginAt work.old.tables origin g }
    ensures { OnOk result ((site : ItemCallSite) (g : RuleOrigin) → slice_get work.old.tables.calls call.0 ≡ Some site → IsOriginAt work.old.tables origin g
        → Makes work.old.tables work.new.tables (ResultsGet program.now site g) work.old.steps.items work.new.steps.items) }
{
    for number in 0..result_count(&work.tables, call) {
        give_at(program, call, origin, number, work)?;
    }
    Ok(())
}
