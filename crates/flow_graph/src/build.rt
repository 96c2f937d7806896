//! The flow graph of a method, as the layers above see it.

ghost use Rattle.std.specs.Prelude.{◌≡◌, ◌<◌, ◌^◌, length, IfOk};
ghost use Rattle.jvm_model.specs.Soundness.{IsSoundClass};
ghost use Rattle.jvm_model.specs.Spelling.{spell};
ghost use Rattle.flow_graph.specs.Graphs.{TellsGraph};
ghost use Rattle.flow_graph.specs.Graphing.{IsCodeOf, IsFlow};
ghost use Rattle.flow_graph.specs.Reading.{AreInOrder, IsWalkedIfSound};

use crate::effect::effects_of;
use crate::handlers::HandlerIndex;
use crate::mark::Mark;
use crate::steps::{Graph, first_fault, steps_of};
use crate::walk::walk_code;
use failure::Failure;
use jvm_model::{ClassFile, Code, Fault, ReadFailure, Sequence};
use std::alloc::{AllocError, Global};

/// The flow graph of a method of a class, from its code as `read_code` answers it; or the first fault, with its file
/// offset (JVMS 2.6.2, 4.9.2, 4.10).
///
/// The code is walked from its first instruction on, with an empty operand stack: always the first instruction that was
/// reached and not yet walked. It reaches the instructions at which it goes on, the next one first and then its targets
/// in the order of its operands, and then the handlers that cover it, each with one unit on the operand stack. The first
/// height at which an instruction is reached is its height. Only instructions that are reached have faults:
///
/// - `StackUnder` at one that takes more units than there are;
/// - `StackOver` at one after which there are more units than the limit of the method; and, where the limit is 0, at one
///   at which a handler begins;
/// - `StackMerge` at one that is reached at another height than its own;
/// - `FallsOff` at one that goes on past the end of the code.
///
/// After `StackUnder` or `StackOver` an instruction goes on nowhere, but the handlers that cover it are reached. Of
/// several faults the one with the least offset is reported, and at one offset the one that stands first in `Reason`.
///
/// The time taken is about s log s, where s is the size of the code, of its table of handlers, of the descriptors that its
/// calls name, each text counted once, and of the answer.
pub fn graph(alloc: Global, class: &ClassFile, code: &Code) -> Result<Graph, ReadFailure>
    requires sound { IsSoundClass class.now }
    requires size { length (spell class.now) < 2 ^ 32 }
    requires code { IsCodeOf class.now code.now }
    ensures tells { TellsGraph class.now code.now result }
    ensures flow { IfOk result (IsFlow class.now code.now) }
{
    graph_or_fault(alloc, class, code)
}

/// The flow graph of a method, or its first fault.
fn graph_or_fault(alloc: Global, class: &ClassFile, code: &Code) -> Result<Graph, ReadFailure>
    requires sound { IsSoundClass class.now }
    requires size { length (spell class.now) < 2 ^ 32 }
    requires code { IsCodeOf class.now code.now }
    ensures { TellsGraph class.now code.now result }
{
    let marks = marks_of(alloc, class, code)?;
    if let Some((offset, reason)) = first_fault(code.instructions.as_slice(), &marks) {
        return Err(Failure::Cause(Fault {
            offset: code.at + offset,
            reason,
        }));
    }
    let index = HandlerIndex::new(alloc, code.handlers.as_slice())?;
    Ok(Graph {
        steps: Sequence::from_vec(steps_of(alloc, code, &index, &marks)?),
    })
}

/// What the walk over the code of a method ends with.
pub(crate) fn marks_of(
    alloc: Global,
    class: &ClassFile,
    code: &Code,
) -> Result<Vec<Mark>, AllocError>
    requires { AreInOrder code.now.instructions }
    ensures walked { IfOk result (λ v. IsWalkedIfSound class.now code.now v.items) }
    ensures all { IfOk result (λ v. length v.items ≡ length code.now.instructions) }
{
    let effects = effects_of(alloc, class, code.instructions.as_slice())?;
    walk_code(alloc, code, &effects)
}
