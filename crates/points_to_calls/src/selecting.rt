//! What an object leads to that selects the target of a call.

ghost use Rattle.std.specs.Prelude.{◌≡◌, ◌↔◌, Some, slice_get, IsTrue, IfOk, OnOk};
ghost use Rattle.jvm_model.specs.declared.site.Site.{Site};
ghost use Rattle.jvm_model.specs.Programs.{IsUndescribed};
ghost use Rattle.program_model.specs.Numbers.{IsMethodNumber};
ghost use Rattle.points_to_calls.specs.Giving.{ResolvesIn};
ghost use Rattle.points_to_calls.specs.KeptAnswers.{AreRight};
ghost use Rattle.points_to_calls.specs.Lacks.{CallLacks};
ghost use Rattle.points_to_numbers.specs.Steps.{Makes};
ghost use Rattle.call_selection.specs.OnlyAnswers.{IsOnlyAnswer};
ghost use Rattle.points_to_calls.specs.Selecting.{DescribedItem, TargetItem};
ghost use Rattle.points_to_constraints.specs.CallItems.{SelectItem};
ghost use Rattle.points_to_constraints.specs.Items.{CallSite};
ghost use Rattle.points_to_rules.specs.Calls.{SelectsFor};
ghost use Rattle.points_to_numbers.specs.Numbered.{IsNumbered};

use crate::answer_keys::SelectKey;
use crate::described::receiver_items;
use crate::kept::{Answers, selected_kept};
use crate::receiver::Receiver;
use jvm_model::{AccessFlag, MethodNo, Reason};
use op_model::CallKind;
use points_to_numbers::{Item, Tables, Work};
use points_to_rules::Place;
use program_index::index_failure::IndexFailure;
use program_model::method_body::MethodBody;
use program_model::program::Program;
use slot_names::Variable;
use std::alloc::AllocError;

/// What a call selects by an object of a site, if it selects by its object and may be made on this one.
fn selected(
    program: &Program,
    tables: &Tables,
    answers: &mut Answers,
    receiver: Receiver,
) -> Result<Option<Result<MethodNo, Reason>>, AllocError>
    requires call { IsNumbered tables.now.calls receiver.call.0 }
    requires site { IsNumbered tables.now.sites receiver.site.0 }
    requires resolved { ResolvesIn program.now tables.now receiver.call.0 }
    requires answers { AreRight program.now tables.now answers.old }
    ensures selected { IfOk result (λ answer. (c : CallSite) (s : Site) → slice_get tables.now.calls receiver.call.0 ≡ Some c
        → slice_get tables.now.sites receiver.site.0 ≡ Some s
        → IsOnlyAnswer (SelectsFor c.kind program.now c.resolved s) answer) }
    ensures answers { AreRight program.now tables.now answers.new }
{
    let entry = tables.call_of(receiver.call);
    let class = tables.site_of(receiver.site).class;
    let resolved = entry.resolved;
    match entry.kind {
        CallKind::Virtual => {
            let key = SelectKey {
                resolved,
                interface: false,
                class,
            };
            selected_kept(program, tables, answers, key)
        }
        CallKind::Special => Ok(None),
        CallKind::Static => Ok(None),
        CallKind::Interface => {
            let key = SelectKey {
                resolved,
                interface: true,
                class,
            };
            selected_kept(program, tables, answers, key)
        }
    }
}

/// Whether a method is a native one that no stub describes.
fn is_undescribed(program: &Program, method: MethodNo) -> bool
    requires { IsMethodNumber program.now method.0 }
    ensures { IsTrue result ↔ IsUndescribed program.now method.0 }
{
    match program.method_body(method) {
        MethodBody::InFile { .. } => AccessFlag::Native.is_set_in(program.method(method).flags),
        MethodBody::Described(_) => false,
    }
}

/// Adds what a selected target keeps and gives of the object, where a stub describes it.
fn described_items(
    program: &Program,
    receiver: Receiver,
    target: MethodNo,
    work: &mut Work,
) -> Result<(), IndexFailure>
    requires call { IsNumbered work.old.tables.calls receiver.call.0 }
    requires site { IsNumbered work.old.tables.sites receiver.site.0 }
    requires resolved { ResolvesIn program.now work.old.tables receiver.call.0 }
    requires target { IsMethodNumber program.now target.0 }
    ensures { OnOk result ((c : CallSite) (s : Site) → slice_get work.old.tables.calls receiver.call.0 ≡ Some c → slice_get work.old.tables.sites receiver.site.0 ≡ Some s
        → Makes work.old.tables work.new.tables (DescribedItem program.now c s target) work.old.steps.items work.new.steps.items) }
{
    match program.method_body(target) {
        MethodBody::InFile { .. } => Ok(()),
        MethodBody::Described(stub) => { receiver_items(program, receiver, stub, work) }
    }
}

/// Adds what an object leads to that selects this target.
fn chosen_items(
    program: &Program,
    receiver: Receiver,
    target: MethodNo,
    work: &mut Work,
) -> Result<(), IndexFailure>
    requires call { IsNumbered work.old.tables.calls receiver.call.0 }
    requires site { IsNumbered work.old.tables.sites receiver.site.0 }
    requires resolved { ResolvesIn program.now work.old.tables receiver.call.0 }
    requires target { IsMethodNumber program.now target.0 }
    ensures { OnOk result ((c : CallSite) (s : Site) → slice_get work.old.tables.calls receiver.call.0 ≡ Some c → slice_get work.old.tables.sites receiver.site.0 ≡ Some s
        → Makes work.old.tables work.new.tables (TargetItem program.now c s target) work.old.steps.items work.new.steps.items) }
{
    work.steps.push(Item::Calls(receiver.call, target))?;
    let parameter = Variable::Parameter {
        method: target,
        slot: 0,
    };
    work.add_holding(Place::Variable(parameter), receiver.site)?;
    described_items(program, receiver, target, work)
}

/// Adds what an object of a site leads to that may select the target of a call; and gives the reason why the call has no target for it, if it has
/// none.
pub(crate) fn select_items(
    program: &Program,
    answers: &mut Answers,
    receiver: Receiver,
    work: &mut Work,
) -> Result<Option<Reason>, IndexFailure>
    requires call { IsNumbered work.old.tables.calls receiver.call.0 }
    requires site { IsNumbered work.old.tables.sites receiver.site.0 }
    requires resolved { ResolvesIn program.now work.old.tables receiver.call.0 }
    requires answers { AreRight program.now work.old.tables answers.old }
    ensures adds { OnOk result ((c : CallSite) (s : Site) → slice_get work.old.tables.calls receiver.call.0 ≡ Some c → slice_get work.old.tables.sites receiver.site.0 ≡ Some s
        → Makes work.old.tables work.new.tables (SelectItem program.now c s) work.old.steps.items work.new.steps.items) }
    ensures lacks { IfOk result (λ lacks. (c : CallSite) (s : Site) → slice_get work.old.tables.calls receiver.call.0 ≡ Some c → slice_get work.old.tables.sites receiver.site.0 ≡ Some s
        → CallLacks program.now c s lacks) }
    ensures answers { AreRight program.now work.old.tables answers.new }
{
    let answer = selected(program, &work.tables, answers, receiver)?;
    let Some(chosen) = answer else {
        return Ok(None);
    };
    match chosen {
        Ok(target) => {
            chosen_items(program, receiver, target, work)?;
            if is_undescribed(program, target) {
                return Ok(Some(Reason::NoStub));
            }
            Ok(None)
        }
        Err(reason) => Ok(Some(reason)),
    }
}
