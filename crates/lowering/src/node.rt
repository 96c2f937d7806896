//! The node of an instruction.

ghost use Rattle.std.specs.Prelude.{◌≡◌, ℕ, Contains, IfOk, IfSome};
ghost use Rattle.std.specs.List.{AllZip};
ghost use Rattle.flow_graph.specs.declared.steps.GraphStep.{GraphStep};
ghost use Rattle.program_model.specs.Numbers.{IsClassNumber};
ghost use Rattle.lowering_handlers.specs.Catches.{IsCatchOf, IsUnknownEntry};
ghost use Rattle.lowering.specs.Bodies.{HasStepOperation, HasStepOrder, IsJudgedStep, IsMemberNumber, IsMadeClass, IsMethodCode, IsOrderedAt, IsStepOf, NamesOwner, TriggersAt};

use crate::body::{JudgedStep, MethodCode};
use flow_graph::GraphStep;
use jvm_model::lookup::class_name_at;
use jvm_model::opcode::Action;
use jvm_model::{ClassNo, Sequence};
use lowering_handlers::{Catch, node_handlers, thrown_classes};
use lowering_operations::Placement;
use lowering_operations::operation::operation;
use lowering_reasons::NamedMember;
use op_model::{Node, Op};
use program_model::program::Program;
use std::alloc::{AllocError, Global};

/// The node of the instruction of a step.
pub(crate) fn node(
    alloc: Global,
    body: MethodCode<'_>,
    catches: &[Catch],
    step: &GraphStep,
    judged: JudgedStep<'_>,
) -> Result<Node, AllocError>
    requires body { IsMethodCode body }
    requires step { IsStepOf body step.now }
    requires judged { IsJudgedStep body step.now judged }
    requires catches { AllZip (IsCatchOf body.program.now body.class.now.pool) body.code.now.handlers catches.now }
    requires known { (place : ℕ) → Contains step.now.handlers place → IsUnknownEntry body.program.now body.class.now.pool body.code.now.handlers place → ⊥ }
    ensures { IfOk result (IsOrderedAt body.entry step.now) }
{
    let trigger = trigger_of(body, judged);
    let handlers = node_handlers(
        alloc,
        body.program,
        body.class.pool.as_slice(),
        body.code.handlers.as_slice(),
        catches,
        step.handlers.as_slice(),
    )?;
    let throws = thrown_classes(alloc, body.program, judged.row.raises, trigger)?;
    let successors = Vec::from_slice(alloc, step.successors.as_slice())?;
    let op = operation_of(alloc, body, step, judged)?;
    Ok(Node {
        offset: step.offset,
        op,
        successors: Sequence::from_vec(successors),
        handlers: Sequence::from_vec(handlers),
        trigger,
        throws: Sequence::from_vec(throws),
    })
}

/// The operation of the instruction of a step.
fn operation_of(
    alloc: Global,
    body: MethodCode<'_>,
    step: &GraphStep,
    judged: JudgedStep<'_>,
) -> Result<Op, AllocError>
    requires body { IsMethodCode body }
    requires step { IsStepOf body step.now }
    requires judged { IsJudgedStep body step.now judged }
    ensures operation { IfOk result (HasStepOperation body.entry step.now judged.entry) }
    ensures order { IfOk result (HasStepOrder body.entry step.now judged.entry) }
{
    operation(
        alloc,
        Placement {
            program: body.program,
            method: body.method,
            current: body.current,
            class: body.class,
            instruction: &judged.placed.instruction,
            row: judged.row,
            member: judged.member,
            offset: step.offset,
            top: u32::from(body.code.max_locals) + step.height,
        },
    )
}

/// The class whose initialisation the instruction may start (JVMS 5.5).
fn trigger_of(body: MethodCode<'_>, judged: JudgedStep<'_>) -> Option<ClassNo>
    requires body { IsMethodCode body }
    requires judged { (step : GraphStep) × IsJudgedStep body step judged }
    ensures below { IfSome result (λ class. IsClassNumber body.entry.program.now class.0) }
    ensures trigger { TriggersAt body.entry judged.entry result }
{
    match judged.row.action {
        Action::MakeObject => made_class(body, judged),
        Action::GetStatic | Action::PutStatic | Action::InvokeStatic => {
            owner_of(body.program, judged.member)
        }
        Action::Plain
        | Action::LoadConstant
        | Action::LoadElement
        | Action::StoreElement
        | Action::ProbeElement
        | Action::ProbeArray
        | Action::ProbeObject
        | Action::GetField
        | Action::PutField
        | Action::InvokeVirtual
        | Action::InvokeSpecial
        | Action::InvokeInterface
        | Action::MakeArray
        | Action::ThrowObject
        | Action::Cast
        | Action::LeaveMethod
        | Action::Refused => None,
    }
}

/// The class of which `new` makes an object.
fn made_class(body: MethodCode<'_>, judged: JudgedStep<'_>) -> Option<ClassNo>
    requires body { IsMethodCode body }
    requires judged { (step : GraphStep) × IsJudgedStep body step judged }
    ensures below { IfSome result (λ class. IsClassNumber body.entry.program.now class.0) }
    ensures made { IsMadeClass body.entry judged.entry result }
{
    let index = judged.placed.instruction.operand as u16;
    let name = class_name_at(body.class.pool.as_slice(), index)?;
    body.program.find(name)
}

/// The class that declares a member.
fn owner_of(program: &Program, member: NamedMember) -> Option<ClassNo>
    requires { IsMemberNumber program.now member }
    ensures below { IfSome result (λ class. IsClassNumber program.now class.0) }
    ensures owner { NamesOwner program.now member result }
{
    match member {
        NamedMember::NoMember => None,
        NamedMember::Field(field) => Some(program.field(field).class),
        NamedMember::Method { resolved, .. } => Some(program.method(resolved).class),
    }
}
