//! What a call leads to that goes to a target.

ghost use Rattle.std.specs.Prelude.{◌≡◌, length, Some, slice_get, OnOk};
ghost use Rattle.program_model.specs.Numbers.{IsMethodNumber};
ghost use Rattle.points_to_calls.specs.Describing.{BodyItem};
ghost use Rattle.points_to_calls.specs.Giving.{ResolvesIn};
ghost use Rattle.points_to_calls.specs.Parts.{FileItem, PassesUnit, UnitPassed};
ghost use Rattle.points_to_constraints.specs.CallItems.{CallItem, is_passed};
ghost use Rattle.points_to_constraints.specs.Items.{CallSite};
ghost use Rattle.points_to_numbers.specs.Numbered.{Grows, IsNumbered};
ghost use Rattle.points_to_numbers.specs.Steps.{Adds, Makes};

use crate::described::stub_items;
use crate::giving::{add_constraint_at, give_results};
use crate::origin::Origin;
use crate::reading::{argument_count, argument_of};
use jvm_model::MethodNo;
use op_model::CallKind;
use points_to_numbers::{CallNo, Constraint, Item, Work};
use points_to_rules::Place;
use program_index::index_failure::IndexFailure;
use program_index::text_index::next_number;
use program_model::method_body::MethodBody;
use program_model::program::Program;
use slot_names::Variable;

/// Whether a unit of the arguments is passed as it is: each but the object by which a call selects.
fn is_passed(kind: CallKind, unit: usize) -> bool
    ensures { result ≡ is_passed kind unit }
{
    if unit > 0 {
        return true;
    }
    match kind {
        CallKind::Virtual => false,
        CallKind::Special => true,
        CallKind::Static => true,
        CallKind::Interface => false,
    }
}

/// Adds a copy constraint from a unit of the arguments to the parameter of a target.
fn pass_unit(
    call: CallNo,
    target: MethodNo,
    unit: usize,
    work: &mut Work,
) -> Result<(), IndexFailure>
    requires { IsNumbered work.old.tables.calls call.0 }
    ensures { OnOk result ((site : CallSite) → slice_get work.old.tables.calls call.0 ≡ Some site
        → Makes work.old.tables work.new.tables (PassesUnit site target unit) work.old.steps.items work.new.steps.items) }
{
    if !is_passed(work.tables.call_of(call).kind, unit) {
        return Ok(());
    }
    let Some(from) = argument_of(&work.tables, call, unit) else {
        return Ok(());
    };
    let variable = Variable::Parameter {
        method: target,
        slot: next_number(unit)?,
    };
    let to = work.tables.place(Place::Variable(variable))?;
    add_constraint_at(from, Constraint::CopyTo(to), work)
}

/// Adds a copy constraint from each unit of the arguments to the parameter of a target, but for the object by which a call selects.
fn pass_units(call: CallNo, target: MethodNo, work: &mut Work) -> Result<(), IndexFailure>
    requires { IsNumbered work.old.tables.calls call.0 }
    ensures { OnOk result ((site : CallSite) → slice_get work.old.tables.calls call.0 ≡ Some site
        → Makes work.old.tables work.new.tables (UnitPassed site target) work.old.steps.items work.new.steps.items) }
{
    for unit in 0..argument_count(&work.tables, call) {
        pass_unit(call, target, unit, work)?;
    }
    Ok(())
}

/// Adds the constraints of what a method of a class file returns and throws.
fn file_items(
    program: &Program,
    call: CallNo,
    target: MethodNo,
    work: &mut Work,
) -> Result<(), IndexFailure>
    requires call { IsNumbered work.old.tables.calls call.0 }
    requires resolved { ResolvesIn program.now work.old.tables call.0 }
    ensures { OnOk result ((site : CallSite) → slice_get work.old.tables.calls call.0 ≡ Some site
        → Makes work.old.tables work.new.tables (FileItem site target) work.old.steps.items work.new.steps.items) }
{
    give_results(program, call, Origin::Returned(target), work)?;
    let catch_chain = work.tables.call_of(call).catch_chain;
    work.add_constraint(Place::Thrown(target), Constraint::RethrowTo(catch_chain))
}

/// Adds what a call leads to that goes to a target: that the target runs; what its parameters, the results of the call and the handlers hold by it; and
/// what it keeps, where a stub describes it.
pub fn target_items(
    program: &Program,
    call: CallNo,
    target: MethodNo,
    work: &mut Work,
) -> Result<(), IndexFailure>
    requires call { IsNumbered work.old.tables.calls call.0 }
    requires target { IsMethodNumber program.now target.0 }
    requires resolved { (site : CallSite) → slice_get work.old.tables.calls call.0 ≡ Some site → IsMethodNumber program.now site.resolved.0 }
    ensures grows { OnOk result (Grows work.old.tables work.new.tables) }
    ensures calls { OnOk result (length work.new.tables.calls ≡ length work.old.tables.calls) }
    ensures adds { OnOk result ((site : CallSite) → slice_get work.old.tables.calls call.0 ≡ Some site
        → Adds work.new.tables (CallItem program.now site target) work.old.steps.items work.new.steps.items) }
{
    work.steps.push(Item::Runs(target))?;
    pass_units(call, target, work)?;
    body_items(program, call, target, work)?;
    Ok(())
}

/// Adds what a target gives, keeps and throws.
fn body_items(
    program: &Program,
    call: CallNo,
    target: MethodNo,
    work: &mut Work,
) -> Result<(), IndexFailure>
    requires call { IsNumbered work.old.tables.calls call.0 }
    requires target { IsMethodNumber program.now target.0 }
    requires resolved { ResolvesIn program.now work.old.tables call.0 }
    ensures { OnOk result ((site : CallSite) → slice_get work.old.tables.calls call.0 ≡ Some site
        → Makes work.old.tables work.new.tables (BodyItem program.now site target) work.old.steps.items work.new.steps.items) }
{
    match program.method_body(target) {
        MethodBody::InFile { .. } => file_items(program, call, target, work),
        MethodBody::Described(stub) => stub_items(program, call, stub, work),
    }
}
