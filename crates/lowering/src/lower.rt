//! From a method's code to its nodes.

ghost use Rattle.std.specs.Prelude.{All, IfOk, IfNone, IfSome};
ghost use Rattle.std.specs.List.{AllZip};
ghost use Rattle.lowering_handlers.specs.Catches.{IsCatchOf};
ghost use Rattle.lowering_handlers.specs.Entries.{AreKnown, IsFirstUnknown};
ghost use Rattle.lowering.specs.Bodies.{IsJudgedStep, IsMethodCode, IsOrderedAt, IsOwnBody, IsStepOf};
ghost use Rattle.lowering.specs.Orders.{AreInOrder};
ghost use Rattle.lowering.specs.Refusals.{IsLoweringAnswer, IsOwnCode};

use crate::body::{JudgedStep, MethodCode};
use crate::judging::judge_steps;
use crate::node::node;
use crate::refusal::refused;
use flow_graph::{Graph, GraphStep};
use jvm_model::{Code, MethodNo, Reason, Sequence};
use lowering_handlers::{Catch, catches_of, entry_offset, first_unknown, parameter_units};
use op_model::{LoweredMethod, Node, SupplyFailure};
use program_model::method_body::MethodBody;
use program_model::program::Program;
use std::alloc::{AllocError, Global};

/// The nodes of a method of the program, from its code as `read_code` answers it and the flow graph of that as `graph` answers it: one
/// for each instruction that is reached, in the order of their offsets; or the first refusal, with the file of the method's class and
/// the file offset.
///
/// - At the first instruction that is reached and has a reason, its first one in this order: `InvokeDynamic`, `MethodConstant`,
///   `Reflection`, `Threads`, `NoStub`, `MissingField`, `MissingMethod`, `KindMismatch`, `NoImplementation`, `Finalizer`.
/// - Else `NoStub` at the first entry of the table of handlers that covers an instruction which is reached, and takes a class that is
///   not in the program.
pub fn lower_method(
    alloc: Global,
    program: &Program,
    method: MethodNo,
    code: &Code,
    graph: &Graph,
) -> Result<LoweredMethod, SupplyFailure>
    requires { IsOwnCode program.now method.0 code.now graph.now }
    ensures answer { IsLoweringAnswer program.now method.0 code.now graph.now result }
    ensures order { IfOk result (AreInOrder program.now method.0 code.now graph.now) }
{
    program.well_formed();
    let MethodBody::InFile { file, number } = program.method_body(method) else {
        unreachable!()
    };
    let body = MethodCode {
        program,
        method,
        current: program.method(method).class,
        class: file,
        code,
    };
    lower_body(alloc, body, number, graph)
}

/// The same, of the method that has this number in the class file.
fn lower_body(
    alloc: Global,
    body: MethodCode<'_>,
    number: usize,
    graph: &Graph,
) -> Result<LoweredMethod, SupplyFailure>
    requires { IsOwnBody body number graph.now }
    ensures answer { IsLoweringAnswer body.entry.program.now body.entry.method.0 body.entry.code.now graph.now result }
    ensures order { IfOk result (AreInOrder body.entry.program.now body.entry.method.0 body.entry.code.now graph.now) }
{
    let steps = graph.steps.as_slice();
    let judged = judge_steps(alloc, body, steps)?;
    let catches = catches_of(alloc, body.program, body.class, body.code)?;
    if let Some(place) = first_missing(alloc, body, &catches, steps)? {
        let offset = entry_offset(body.class, number, body.code, place);
        return Err(refused(alloc, body, offset, Reason::NoStub));
    }
    Ok(LoweredMethod {
        method: body.method,
        slots: u32::from(body.code.max_locals),
        stack: u32::from(body.code.max_stack),
        params: parameter_units(alloc, body.program, body.method)?,
        nodes: Sequence::from_vec(nodes(alloc, body, &catches, steps, &judged)?),
    })
}

/// The place of the first entry of the table of handlers that covers one of the steps, and takes a class that is not in the program.
fn first_missing(
    alloc: Global,
    body: MethodCode<'_>,
    catches: &[Catch],
    steps: &[GraphStep],
) -> Result<Option<usize>, AllocError>
    requires steps { All (IsStepOf body) steps.now }
    requires catches { AllZip (IsCatchOf body.program.now body.class.now.pool) body.code.now.handlers catches.now }
    ensures found { IfOk result (λ place. IfSome place (IsFirstUnknown body.entry.program.now body.entry.class.now.pool body.entry.code.now.handlers steps.now)) }
    ensures none { IfOk result (λ place. IfNone place (AreKnown body.entry.program.now body.entry.class.now.pool body.entry.code.now.handlers steps.now)) }
{
    let pool = body.class.pool.as_slice();
    let handlers = body.code.handlers.as_slice();
    first_unknown(alloc, body.program, pool, handlers, catches, steps)
}

/// The nodes of the steps, one by one.
fn nodes(
    alloc: Global,
    body: MethodCode<'_>,
    catches: &[Catch],
    steps: &[GraphStep],
    judged: &[JudgedStep<'_>],
) -> Result<Vec<Node>, AllocError>
    requires body { IsMethodCode body }
    requires steps { All (IsStepOf body) steps.now }
    requires judged { AllZip (IsJudgedStep body) steps.now judged.now }
    requires catches { AllZip (IsCatchOf body.program.now body.class.now.pool) body.code.now.handlers catches.now }
    requires known { AreKnown body.program.now body.class.now.pool body.code.now.handlers steps.now }
    ensures { IfOk result (λ nodes. AllZip (IsOrderedAt body.entry) steps.now nodes.items) }
{
    let mut nodes = Vec::new(alloc);
    for number in 0..steps.len() {
        nodes.push(node(alloc, body, catches, &steps[number], judged[number])?)?;
    }
    Ok(nodes)
}
