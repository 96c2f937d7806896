//! The flow graph of a method, as text.

ghost use Rattle.std.specs.Prelude.{◌<◌, ◌^◌, length};
ghost use Rattle.jvm_model.specs.Soundness.{IsSoundClass};
ghost use Rattle.jvm_model.specs.Spelling.{spell};

use crate::classes::code_answer::has_code;
use code_reader::read_code;
use flow_graph::{Graph, GraphStep, graph};
use jvm_model::{ClassFile, ReadFailure};
use std::alloc::{AllocError, Global};

/// What the flow graph of the first method tells, if it has code.
pub fn told_graph(alloc: Global, class: &ClassFile) -> Result<String, ReadFailure>
    requires sound { IsSoundClass class.now }
    requires size { length (spell class.now) < 2 ^ 32 }
{
    if !has_code(class) {
        return Ok(format!(in alloc; "no code")?);
    }
    let code = read_code(alloc, class, 0)?;
    let graph = graph(alloc, class, &code)?;
    Ok(told(alloc, &graph)?)
}

/// The steps of a graph.
fn told(alloc: Global, graph: &Graph) -> Result<String, AllocError> {
    let mut text = format!(in alloc; "reached")?;
    for step in graph.steps.as_slice() {
        tell_step(&mut text, step)?;
    }
    Ok(text)
}

/// Adds a step: its offset and its height, the offsets at which it goes on, and the places of the handlers that cover it.
fn tell_step(text: &mut String, step: &GraphStep) -> Result<(), AllocError> {
    write!(text, " {}@{}", step.offset, step.height)?;
    for successor in step.successors.as_slice() {
        write!(text, ">{successor}")?;
    }
    for handler in step.handlers.as_slice() {
        write!(text, "^{handler}")?;
    }
    Ok(())
}
