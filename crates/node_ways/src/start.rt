//! The nodes of the start of the program.

ghost use Rattle.std.specs.Prelude.{◌≡◌, [], IfOk, None, Some};
ghost use Rattle.program_model.specs.Numbers.{IsMethodNumber};
ghost use Rattle.op_model.specs.declared.op.CallKind.TheVariants.{Static};
ghost use Rattle.machine_bytecode.specs.Objects.{Subject};
ghost use Rattle.machine_nodes.specs.Nodes.{AreStartNodes, IsStartCall, IsStartReturn};

use jvm_model::lookup::Signature;
use jvm_model::{Bytes, MethodNo, Sequence};
use lowering_handlers::thrown_classes;
use op_model::{Call, CallKind, LoweredMethod, Node, Op};
use program_model::program::Program;
use std::alloc::{AllocError, Global};

/// A copy of the bytes.
fn copy_of(alloc: Global, bytes: &[u8]) -> Result<Bytes, AllocError>
    ensures { IfOk result (λ copy. copy ≡ bytes.now) }
{
    Ok(Sequence::from_vec(Vec::from_slice(alloc, bytes)?))
}

/// The call of the entry, by its name and descriptor.
fn entry_call(alloc: Global, entry: MethodNo, signature: Signature<'_>) -> Result<Call, AllocError>
    ensures { IfOk result (λ call. call ≡ record {
      kind = Static;
      resolved = entry;
      chosen = Some entry;
      name = signature.entry.name.now;
      descriptor = signature.entry.descriptor.now;
      arguments = [];
      result = None;
    }) }
{
    Ok(Call {
        kind: CallKind::Static,
        resolved: entry,
        chosen: Some(entry),
        name: copy_of(alloc, signature.name)?,
        descriptor: copy_of(alloc, signature.descriptor)?,
        arguments: Sequence::from_vec(Vec::new(alloc)),
        result: None,
    })
}

/// The node that calls the entry, and may start the initialisation of its class.
fn call_node(alloc: Global, program: &Program, entry: MethodNo) -> Result<Node, AllocError>
    requires { IsMethodNumber program.now entry.0 }
    ensures { IfOk result (λ node. (x : Subject) → x.program ≡ program.now → x.entry ≡ entry.0 → IsStartCall x node) }
{
    let view = program.method(entry);
    let call = entry_call(alloc, entry, view.signature)?;
    let throws = thrown_classes(alloc, program, &[], Some(view.class))?;
    let successors = Vec::from_slice(alloc, &[1])?;
    Ok(Node {
        offset: 0,
        op: Op::Call(call),
        successors: Sequence::from_vec(successors),
        handlers: Sequence::from_vec(Vec::new(alloc)),
        trigger: Some(view.class),
        throws: Sequence::from_vec(throws),
    })
}

/// The node that returns.
fn return_node(alloc: Global) -> Node
    ensures { IsStartReturn result }
{
    Node {
        offset: 1,
        op: Op::Return { value: None },
        successors: Sequence::from_vec(Vec::new(alloc)),
        handlers: Sequence::from_vec(Vec::new(alloc)),
        trigger: None,
        throws: Sequence::from_vec(Vec::new(alloc)),
    }
}

/// The nodes of the start of the program.
fn start_nodes(
    alloc: Global,
    program: &Program,
    entry: MethodNo,
) -> Result<Sequence<Node>, AllocError>
    requires { IsMethodNumber program.now entry.0 }
    ensures { IfOk result (λ nodes. (x : Subject) → x.program ≡ program.now → x.entry ≡ entry.0 → AreStartNodes x nodes) }
{
    let mut nodes = Vec::new(alloc);
    nodes.push(call_node(alloc, program, entry)?)?;
    nodes.push(return_node(alloc))?;
    Ok(Sequence::from_vec(nodes))
}

/// The start of the program as a method without slots: a call of the entry, and a return. Its number is that of the entry, and says nothing.
pub fn start_method(
    alloc: Global,
    program: &Program,
    entry: MethodNo,
) -> Result<LoweredMethod, AllocError>
    requires { IsMethodNumber program.now entry.0 }
    ensures nodes { IfOk result (λ start. (x : Subject) → x.program ≡ program.now → x.entry ≡ entry.0 → AreStartNodes x start.nodes) }
    ensures slots { IfOk result (λ start. start.slots ≡ 0) }
    ensures stack { IfOk result (λ start. start.stack ≡ 0) }
    ensures params { IfOk result (λ start. start.params ≡ 0) }
{
    Ok(LoweredMethod {
        method: entry,
        slots: 0,
        stack: 0,
        params: 0,
        nodes: start_nodes(alloc, program, entry)?,
    })
}
