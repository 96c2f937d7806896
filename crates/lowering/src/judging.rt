//! The instructions that are reached, one after the other: the first reason among them, or what they name.

ghost use Rattle.std.specs.Prelude.{◌≡◌, ◌+◌, All, Contains, IfOk, IfErr, Some};
ghost use Rattle.std.specs.List.{AllZip};
ghost use Rattle.jvm_model.specs.declared.code.PlacedInstruction.{PlacedInstruction};
ghost use Rattle.lowering.specs.Bodies.{HasFirst, IsJudgedStep, IsMethodCode, IsRefusalIn, IsStepOf, IsStepsRefusal};

use crate::body::{JudgedStep, MethodCode};
use crate::refusal::refused;
use flow_graph::{GraphStep, number_of};
use jvm_model::opcode::row_of_opcode;
use jvm_model::{PlacedInstruction, Reason};
use lowering_reasons::{JudgedInstruction, judge};
use op_model::SupplyFailure;
use std::alloc::Global;

/// The instruction of each step; or the refusal of the method at the first one that has a reason.
pub(crate) fn judge_steps<'a>(
    alloc: Global,
    body: MethodCode<'a>,
    steps: &[GraphStep],
) -> Result<Vec<JudgedStep<'a>>, SupplyFailure>
    requires body { IsMethodCode body }
    requires steps { All (IsStepOf body) steps.now }
    ensures judged { IfOk result (λ judged. AllZip (IsJudgedStep body.entry) steps.now judged.items) }
    ensures refused { IfErr result (IsStepsRefusal body.entry steps.now) }
{
    let mut judged = Vec::new(alloc);
    for step in steps {
        match judge_step(body, step) {
            Ok(step) => judged.push(step)?,
            Err(reason) => return Err(refused_at(alloc, body, step, reason)),
        }
    }
    Ok(judged)
}

/// The refusal of the method at a step.
fn refused_at(
    alloc: Global,
    body: MethodCode<'_>,
    step: &GraphStep,
    reason: Reason,
) -> SupplyFailure
    requires body { IsMethodCode body }
    requires step { IsStepOf body step.now }
    ensures { IsRefusalIn body.entry (body.entry.code.now.at + step.now.offset) reason result }
{
    let offset = body.code.at + step.offset;
    refused(alloc, body, offset, reason)
}

/// The instruction of a step, or the first reason why it has no node.
fn judge_step<'a>(body: MethodCode<'a>, step: &GraphStep) -> Result<JudgedStep<'a>, Reason>
    requires body { IsMethodCode body }
    requires step { IsStepOf body step.now }
    ensures judged { IfOk result (IsJudgedStep body.entry step.now) }
    ensures refused { IfErr result (λ reason. HasFirst body.entry step.now (Some reason)) }
{
    let placed = instruction_of(body, step);
    let Some(row) = row_of_opcode(placed.instruction.opcode) else {
        unreachable!()
    };
    let member = judge(JudgedInstruction {
        program: body.program,
        current: body.current,
        pool: body.class.pool.as_slice(),
        action: row.action,
        operands: row.operands,
        operand: placed.instruction.operand as u16,
    })?;
    Ok(JudgedStep {
        placed,
        row,
        member,
    })
}

/// The instruction at the offset of a step.
fn instruction_of<'a>(body: MethodCode<'a>, step: &GraphStep) -> &'a PlacedInstruction
    requires body { IsMethodCode body }
    requires step { IsStepOf body step.now }
    ensures there { Contains body.entry.code.now.instructions result.now }
    ensures offset { result.now.offset ≡ step.now.offset }
{
    let instructions = body.code.instructions.as_slice();
    let Some(number) = number_of(instructions, step.offset) else {
        unreachable!()
    };
    &instructions[number]
}
