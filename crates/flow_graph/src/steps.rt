//! The flow graph as a value, and how it is made of what the walk knows.

ghost use Rattle.std.specs.Prelude.{◌≡◌, length, IfOk, Some, ◌∷◌, []};
ghost use Rattle.flow_graph.specs.Graphs.{first_fault, steps_of, step_at};

use crate::flow::successors;
use crate::handlers::HandlerIndex;
use crate::mark::{Mark, reason_at};
use jvm_model::{Code, PlacedInstruction, Reason, Sequence};
use std::alloc::{AllocError, Global};

/// An instruction that is reached: its offset in the code; how many units the operand stack has before it, at most
/// 65,535; the offsets at which it goes on, each once, the next instruction first and then its targets in the order of
/// its operands; and the handlers that cover it, by their places in the table of handlers, in its order.
#[derive(Debug, Drop)]
pub struct GraphStep {
    pub offset: u32,
    pub height: u32,
    pub successors: Sequence<u32>,
    pub handlers: Sequence<u32>,
}

/// The flow graph of a method: the instructions that are reached, in the order of their offsets.
#[derive(Debug, Drop)]
pub struct Graph {
    pub steps: Sequence<GraphStep>,
}

/// The first instruction with which something is wrong, and what.
pub(crate) fn first_fault(
    instructions: &[PlacedInstruction],
    marks: &[Mark],
) -> Option<(u32, Reason)>
    requires { length marks.now ≡ length instructions.now }
    ensures { result ≡ first_fault instructions.now marks.now }
{
    for number in 0..instructions.len() {
        if let Some(reason) = reason_at(&marks[number]) {
            return Some((instructions[number].offset, reason));
        }
    }
    None
}

/// The steps of the instructions that were reached.
pub(crate) fn steps_of(
    alloc: Global,
    code: &Code,
    index: &HandlerIndex<'_>,
    marks: &[Mark],
) -> Result<Vec<GraphStep>, AllocError>
    requires index { index.now ≡ code.now.handlers }
    requires marks { length marks.now ≡ length code.now.instructions }
    ensures { IfOk result (λ v. v.items ≡ steps_of code.now marks.now) }
{
    let instructions = code.instructions.as_slice();
    let mut steps = Vec::new(alloc);
    for number in 0..instructions.len() {
        if let Some(height) = marks[number].height {
            steps.push(step(alloc, code, index, number, &instructions[number], height)?)?;
        }
    }
    Ok(steps)
}

/// The step of an instruction that was reached at a height.
fn step(
    alloc: Global,
    code: &Code,
    index: &HandlerIndex<'_>,
    number: usize,
    placed: &PlacedInstruction,
    height: u16,
) -> Result<GraphStep, AllocError>
    requires { index.now ≡ code.now.handlers }
    ensures { IfOk result (λ s. step_at code.now number placed.now (Some height) ≡ s ∷ []) }
{
    let instructions = code.instructions.as_slice();
    let next = successors(alloc, instructions, number, placed)?;
    let handlers = index.covering(alloc, placed.offset)?;
    Ok(GraphStep {
        offset: placed.offset,
        height: u32::from(height),
        successors: Sequence::from_vec(next),
        handlers: Sequence::from_vec(handlers),
    })
}
