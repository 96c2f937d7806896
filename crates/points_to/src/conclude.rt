//! What follows from what one turn does, together with what is done by then at the same place.

ghost use Rattle.std.specs.Prelude.{◌≡◌, ◌⊎◌, ℕ, length, [], Contains, OnOk};
ghost use Rattle.bit_rows.specs.Sets.{IsIn};
ghost use Rattle.site_rows.specs.Rows.{held_at};
ghost use Rattle.points_to_numbers.specs.declared.keys.ConstraintNo.{ConstraintNo as Constraint};
ghost use Rattle.points_to.specs.Turns.{kind_of};
ghost use Rattle.program_model.specs.Numbers.{IsMethodNumber};
ghost use Rattle.op_model.specs.Supplies.{IsSameSupply};
ghost use Rattle.points_to_calls.specs.KeptAnswers.{AreRight};
ghost use Rattle.points_to_numbers.specs.Numbered.{Grows, IsNumbered};
ghost use Rattle.points_to_numbers.specs.Steps.{Adds};
ghost use Rattle.points_to_rules.specs.Solutions.{IsSupplyOf};
ghost use Rattle.grouped_lists.specs.Groups.{values_at};
ghost use Rattle.points_to.specs.Indexed.{IsIndexed};
ghost use Rattle.points_to.specs.Passing.{IsKnownConstraint, NotesCalls, NotesMethods};
ghost use Rattle.points_to.specs.Concluding.{AddsCallsBy, AddsGivenCalls, AddsMethod, AddsMethodsBy, FollowsFrom, FollowsInTurn, IsCallItem, IsGivenItem, IsKnownIndex, IsKnownItem, IsKnownTurn, IsRefusedAs, LacksBy, LacksFresh, LacksInTurn, LacksSomeAt, PassesFresh, PassesSomeAt, RefusedBy, ResolvesIn};

use crate::found::Found;
use crate::passed::{passed_sites, sites_but};
use crate::queue::Turn;
use crate::refusals::RefusedMethod;
use crate::working::Working;
use bit_rows::NumberSet;
use entry_points::is_coded;
use failure::Failure;
use grouped_lists::Groups;
use jvm_model::MethodNo;
use op_model::Supply;
use points_to_calls::target_items;
use points_to_methods::method_items;
use points_to_numbers::{CallNo, ConstraintNo, Item};
use points_to_rules::{PlaceNo, RunningMethod};
use program_index::index_failure::IndexFailure;
use program_model::program::Program;
use site_rows::{FreshSites, SiteRow};

/// What follows from what a turn does, together with what is done by then. A constraint is added to those of its place. A method that is given as
/// nodes is added to the methods, with the variables of its slots.
pub(crate) fn conclude<S: Supply>(
    program: &Program,
    supply: &mut S,
    turn: &Turn,
    working: &mut Working,
) -> Result<(), IndexFailure>
    requires supply { IsSupplyOf program.now (S.gives supply.old) }
    requires turn { IsKnownTurn program.now working.old.found.work.tables turn.now }
    requires index { IsKnownIndex program.now working.old.found.work.tables working.old.queue.rows.rows.items (values_at working.old.constraints.groups.items) }
    requires answers { AreRight program.now working.old.found.work.tables working.old.found.answers }
    ensures indexed { OnOk result (IsIndexed working.old.constraints.groups.items working.new.constraints.groups.items (kind_of turn.now)) }
    ensures grows { OnOk result (Grows working.old.found.work.tables working.new.found.work.tables) }
    ensures answers { OnOk result (AreRight program.now working.new.found.work.tables working.new.found.answers) }
    ensures adds { OnOk result (Adds working.new.found.work.tables (FollowsInTurn program.now (S.gives supply.old) working.old.found.work.tables working.old.queue.rows.rows.items (values_at working.new.constraints.groups.items) turn.now) [] working.new.found.work.steps.items) }
    ensures calls { OnOk result (AddsCallsBy (S.gives supply.old) (kind_of turn.now) working.old.found.work.tables.calls working.new.found.work.tables.calls) }
    ensures lacks { OnOk result (NotesCalls (LacksInTurn program.now working.old.found.work.tables working.old.queue.rows.rows.items (values_at working.new.constraints.groups.items) turn.now) working.old.found.refusals.call working.new.found.refusals.call) }
    ensures refused { OnOk result (NotesMethods (RefusedBy (S.gives supply.old) (kind_of turn.now)) working.old.found.refusals.method working.new.found.refusals.method) }
    ensures methods { OnOk result (AddsMethodsBy (S.gives supply.old) (kind_of turn.now) working.old.methods.items working.new.methods.items) }
    ensures queue { working.new.queue ≡ working.old.queue }
    ensures same { IsSameSupply (S.gives supply.old) (S.gives supply.new) }
{
    working.found.work.steps.clear();
    match turn {
        Turn::Sites(fresh) => conclude_sites(
            program,
            fresh,
            &working.constraints,
            &mut working.found,
        ),
        Turn::One(item) => conclude_one(program, supply, *item, working),
    }
}

/// What follows from sites of a place that were fresh: each is passed to the constraints of the place.
fn conclude_sites(
    program: &Program,
    fresh: &FreshSites,
    constraints: &Groups<ConstraintNo>,
    found: &mut Found,
) -> Result<(), IndexFailure>
    requires sites { (site : ℕ) → IsIn fresh.now.sites site → IsNumbered found.old.work.tables.sites site }
    requires constraints { (place : ℕ) (constraint : Constraint) → Contains (values_at constraints.now.groups.items place) constraint → IsKnownConstraint program.now found.old.work.tables constraint }
    requires answers { AreRight program.now found.old.work.tables found.old.answers }
    ensures grows { OnOk result (Grows found.old.work.tables found.new.work.tables) }
    ensures calls { OnOk result (length found.new.work.tables.calls ≡ length found.old.work.tables.calls) }
    ensures answers { OnOk result (AreRight program.now found.new.work.tables found.new.answers) }
    ensures adds { OnOk result (Adds found.new.work.tables (PassesFresh program.now found.old.work.tables (values_at constraints.now.groups.items fresh.now.place) fresh.now.sites) found.old.work.steps.items found.new.work.steps.items) }
    ensures lacks { OnOk result (NotesCalls (LacksFresh program.now found.old.work.tables (values_at constraints.now.groups.items fresh.now.place) fresh.now.sites) found.old.refusals.call found.new.refusals.call) }
    ensures method { found.new.refusals.method ≡ found.old.refusals.method }
{
    let sites = sites_but(found.work.alloc, &fresh.sites, &NumberSet::Empty)?;
    found.pass_all(program, constraints.get(fresh.place), &sites)
}

/// What follows from one other item.
fn conclude_one<S: Supply>(
    program: &Program,
    supply: &mut S,
    item: Item,
    working: &mut Working,
) -> Result<(), IndexFailure>
    requires supply { IsSupplyOf program.now (S.gives supply.old) }
    requires item { IsKnownItem program.now working.old.found.work.tables item }
    requires index { IsKnownIndex program.now working.old.found.work.tables working.old.queue.rows.rows.items (values_at working.old.constraints.groups.items) }
    requires answers { AreRight program.now working.old.found.work.tables working.old.found.answers }
    requires steps { working.old.found.work.steps.items ≡ [] }
    ensures indexed { OnOk result (IsIndexed working.old.constraints.groups.items working.new.constraints.groups.items item) }
    ensures grows { OnOk result (Grows working.old.found.work.tables working.new.found.work.tables) }
    ensures answers { OnOk result (AreRight program.now working.new.found.work.tables working.new.found.answers) }
    ensures adds { OnOk result (Adds working.new.found.work.tables (FollowsFrom program.now (S.gives supply.old) working.old.found.work.tables working.old.queue.rows.rows.items (values_at working.new.constraints.groups.items) item) [] working.new.found.work.steps.items) }
    ensures calls { OnOk result (AddsCallsBy (S.gives supply.old) item working.old.found.work.tables.calls working.new.found.work.tables.calls) }
    ensures lacks { OnOk result (NotesCalls (LacksBy program.now working.old.found.work.tables working.old.queue.rows.rows.items (values_at working.new.constraints.groups.items) item) working.old.found.refusals.call working.new.found.refusals.call) }
    ensures refused { OnOk result (NotesMethods (RefusedBy (S.gives supply.old) item) working.old.found.refusals.method working.new.found.refusals.method) }
    ensures methods { OnOk result (AddsMethodsBy (S.gives supply.old) item working.old.methods.items working.new.methods.items) }
    ensures queue { working.new.queue ≡ working.old.queue }
    ensures same { IsSameSupply (S.gives supply.old) (S.gives supply.new) }
{
    match item {
        Item::Holds(place, site) => {
            let constraints = working.constraints.get(place.0);
            working.found.pass_to_each(program, constraints, site)
        }
        Item::Runs(method) => run(
            program,
            supply,
            method,
            &mut working.found,
            &mut working.methods,
        ),
        Item::Calls(call, target) => call_target(program, call, target, &mut working.found),
        Item::Constrains(place, constraint) => {
            working.constraints.add(place.0, constraint)?;
            pass_passed(
                program,
                constraint,
                &working.queue.rows.rows,
                place,
                &mut working.found,
            )
        }
    }
}

/// Passes an object of each of the sites of a place that are passed on already to a constraint.
fn pass_passed(
    program: &Program,
    constraint: ConstraintNo,
    rows: &Vec<SiteRow>,
    place: PlaceNo,
    found: &mut Found,
) -> Result<(), IndexFailure>
    requires constraint { IsKnownConstraint program.now found.old.work.tables constraint }
    requires sites { (site : ℕ) → IsIn (held_at rows.now.items place.0) site → IsNumbered found.old.work.tables.sites site }
    requires answers { AreRight program.now found.old.work.tables found.old.answers }
    ensures grows { OnOk result (Grows found.old.work.tables found.new.work.tables) }
    ensures calls { OnOk result (length found.new.work.tables.calls ≡ length found.old.work.tables.calls) }
    ensures answers { OnOk result (AreRight program.now found.new.work.tables found.new.answers) }
    ensures adds { OnOk result (Adds found.new.work.tables (PassesSomeAt program.now found.old.work.tables constraint rows.now.items place) found.old.work.steps.items found.new.work.steps.items) }
    ensures lacks { OnOk result (NotesCalls (LacksSomeAt program.now found.old.work.tables constraint rows.now.items place) found.old.refusals.call found.new.refusals.call) }
    ensures method { found.new.refusals.method ≡ found.old.refusals.method }
{
    let sites = passed_sites(found.work.alloc, rows, place.0)?;
    found.pass_each(program, constraint, &sites)
}

/// Takes a method that may run from the supplier, if it has code: what its nodes lead to, or a refusal that is noted.
fn run<S: Supply>(
    program: &Program,
    supply: &mut S,
    method: MethodNo,
    found: &mut Found,
    methods: &mut Vec<RunningMethod>,
) -> Result<(), IndexFailure>
    requires supply { IsSupplyOf program.now (S.gives supply.old) }
    requires method { IsMethodNumber program.now method.0 }
    requires answers { AreRight program.now found.old.work.tables found.old.answers }
    ensures grows { OnOk result (Grows found.old.work.tables found.new.work.tables) }
    ensures answers { OnOk result (AreRight program.now found.new.work.tables found.new.answers) }
    ensures adds { OnOk result (Adds found.new.work.tables (IsGivenItem program.now (S.gives supply.old) method.0) found.old.work.steps.items found.new.work.steps.items) }
    ensures calls { OnOk result (AddsGivenCalls (S.gives supply.old) method.0 found.old.work.tables.calls found.new.work.tables.calls ⊎ (length found.new.work.tables.calls ≡ length found.old.work.tables.calls)) }
    ensures refused { OnOk result (NotesMethods (IsRefusedAs (S.gives supply.old) method) found.old.refusals.method found.new.refusals.method) }
    ensures methods { OnOk result (AddsMethod (S.gives supply.old) method.0 methods.old.items methods.new.items) }
    ensures call { found.new.refusals.call ≡ found.old.refusals.call }
    ensures same { IsSameSupply (S.gives supply.old) (S.gives supply.new) }
{
    if !is_coded(program, method) {
        return Ok(());
    }
    match supply.lowered(found.work.alloc, method) {
        Ok(lowered) => {
            let names = method_items(program, &lowered, &mut found.work)?;
            methods.push(RunningMethod {
                method: lowered,
                names,
            })?;
            Ok(())
        }
        Err(Failure::Cause(refusal)) => {
            found
                .refusals
                .note_method(RefusedMethod { method, refusal });
            Ok(())
        }
        Err(Failure::OutOfMemory) => Err(Failure::OutOfMemory),
    }
}

/// What a call leads to that goes to a target. The call of the start leads to nothing.
fn call_target(
    program: &Program,
    call: CallNo,
    target: MethodNo,
    found: &mut Found,
) -> Result<(), IndexFailure>
    requires call { IsNumbered found.old.work.tables.calls call.0 }
    requires target { IsMethodNumber program.now target.0 }
    requires resolved { ResolvesIn program.now found.old.work.tables call.0 }
    requires answers { AreRight program.now found.old.work.tables found.old.answers }
    ensures grows { OnOk result (Grows found.old.work.tables found.new.work.tables) }
    ensures answers { OnOk result (AreRight program.now found.new.work.tables found.new.answers) }
    ensures adds { OnOk result (Adds found.new.work.tables (IsCallItem program.now found.old.work.tables call.0 target) found.old.work.steps.items found.new.work.steps.items) }
    ensures calls { OnOk result (length found.new.work.tables.calls ≡ length found.old.work.tables.calls) }
    ensures refusals { found.new.refusals ≡ found.old.refusals }
{
    if found.work.tables.call_of(call).at.method.is_none() {
        return Ok(());
    }
    target_items(program, call, target, &mut found.work)?;
    Ok(())
}
