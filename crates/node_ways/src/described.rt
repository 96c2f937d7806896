//! The described methods to which the call of a node may go.

ghost use Rattle.std.specs.Prelude.{◌≡◌, ◌++◌, ℕ, true, false, List, Option, map, slice_get, Contains, IfNone, IfOk, IfSome, IsTrue, OnOk};
ghost use Rattle.std.specs.Option.{option_flatten, option_to_list};
ghost use Rattle.jvm_model.specs.declared.number.MethodNo.{MethodNo as RuleMethodNo};
ghost use Rattle.jvm_model.specs.declared.stub.StubMethod.{StubMethod as RuleStub};
ghost use Rattle.jvm_model.specs.Descriptors.{IsMethodDescriptor};
ghost use Rattle.jvm_model.specs.DescriptorValues.{IsDescriptorOf};
ghost use Rattle.program_model.specs.Numbers.{IsMethodNumber};
ghost use Rattle.op_model.specs.declared.node.Node.{Node as RuleNode};
ghost use Rattle.machine_bytecode.specs.Objects.{Subject};
ghost use Rattle.points_to_rules.specs.Calls.{IsDescribedBy};
ghost use Rattle.stub_arguments.specs.Units.{IsReadOf};
ghost use Rattle.stage_edges.specs.Rules.{argument_given, given_by, kept_slots, slot_of};
ghost use Rattle.node_ways.specs.Parts.{AddsFound, AreFound, AreParameters, HasDescription, IsDescribedAs, IsToldBy, IsToldOf};
ghost use Rattle.node_ways.specs.Ways.{AreDescribed, result_of};

use crate::entered::targets_at;
use crate::kinds::call_of;
use crate::landings::class_landings;
use crate::ways::{DescribedTarget, GivenResult};
use ground::Ground;
use jvm_model::{Descriptor, MethodNo, StubArgument, StubMethod, StubResult};
use op_model::{Call, Node};
use program_model::method_body::MethodBody;
use program_model::program::Program;
use std::alloc::{AllocError, Global};
use stub_arguments::{read_descriptor, unit_of};

/// The stub that describes a method, if one does. An abstract description is none.
fn stub_of(program: &Program, target: MethodNo) -> Option<&StubMethod>
    requires { IsMethodNumber program.now target.0 }
    ensures found { IfSome result (λ stub. IsDescribedBy program.now target stub.now) }
    ensures none { IfNone result ((stub : RuleStub) → IsDescribedBy program.now target stub → ⊥) }
{
    match program.method_body(target) {
        MethodBody::InFile { .. } => None,
        MethodBody::Described(stub) => concrete(stub),
    }
}

/// A description, unless it is abstract.
fn concrete(stub: &StubMethod) -> Option<&StubMethod>
    ensures found { IfSome result (λ found. (found.now ≡ stub.now) × (stub.now.is_abstract ≡ false)) }
    ensures none { IfNone result (stub.now.is_abstract ≡ true) }
{
    if stub.is_abstract { None } else { Some(stub) }
}

/// Whether a stub has the descriptor of a method.
fn is_of_method(stub: &StubMethod, descriptor: &Option<Descriptor>) -> bool
    requires { IsReadOf stub.now.descriptor descriptor.now }
    ensures yes { IsTrue result → IsMethodDescriptor stub.now.descriptor }
    ensures no { IsMethodDescriptor stub.now.descriptor → IsTrue result }
{
    match descriptor {
        Some(spelled) => is_method(spelled),
        None => false,
    }
}

/// Whether a descriptor is that of a method.
fn is_method(descriptor: &Descriptor) -> bool
    ensures { (text : List ℕ) → IsDescriptorOf text descriptor.now → (IsTrue result → IsMethodDescriptor text) × (IsMethodDescriptor text → IsTrue result) }
{
    match descriptor {
        Descriptor::Method { .. } => true,
        Descriptor::Field(_) => false,
    }
}

/// The slot of an argument that a stub names, at a call, if it is a reference.
fn argument_slot(
    call: &Call,
    stub: &StubMethod,
    descriptor: &Option<Descriptor>,
    argument: StubArgument,
) -> Option<u32>
    requires { IsReadOf stub.now.descriptor descriptor.now }
    ensures { (parameters : List (List ℕ)) → AreParameters stub.now parameters → result ≡ slot_of call.now stub.now parameters argument }
{
    match unit_of(stub, descriptor, argument) {
        Some(unit) => slot_at(call, unit),
        None => None,
    }
}

/// The slot of a unit of the arguments, if it is a reference.
fn slot_at(call: &Call, unit: usize) -> Option<u32>
    ensures { result ≡ option_flatten (slice_get call.now.arguments unit) }
{
    call.arguments.as_slice().get(unit).copied().flatten()
}

/// Adds a slot, if there is one.
fn push_slot(slots: &mut Vec<u32>, slot: Option<u32>) -> Result<(), AllocError>
    ensures { OnOk result (slots.new.items ≡ slots.old.items ++ option_to_list slot) }
{
    let Some(number) = slot else {
        return Ok(());
    };
    slots.push(number)?;
    Ok(())
}

/// The slots of the arguments that a described method keeps.
fn kept_slots(
    alloc: Global,
    call: &Call,
    stub: &StubMethod,
    descriptor: &Option<Descriptor>,
) -> Result<Vec<u32>, AllocError>
    requires { IsReadOf stub.now.descriptor descriptor.now }
    ensures { IfOk result (λ kept. (parameters : List (List ℕ)) → AreParameters stub.now parameters → kept.items ≡ kept_slots call.now stub.now parameters) }
{
    let mut kept = Vec::new(alloc);
    for argument in stub.keeps.as_slice() {
        push_slot(&mut kept, argument_slot(call, stub, descriptor, *argument))?;
    }
    Ok(kept)
}

/// What a result is that is an argument.
fn argument_given<'p>(slot: Option<u32>) -> GivenResult<'p>
    ensures { (m : Option RuleMethodNo) (n : RuleNode) → result_of m n result ≡ argument_given slot }
{
    match slot {
        Some(number) => GivenResult::Argument(number),
        None => GivenResult::Other,
    }
}

/// What a listed result gives at a call.
fn given_result<'p>(
    call: &Call,
    stub: &StubMethod,
    descriptor: &Option<Descriptor>,
    outcome: &'p StubResult,
) -> GivenResult<'p>
    requires { IsReadOf stub.now.descriptor descriptor.now }
    ensures { (m : Option RuleMethodNo) (n : RuleNode) (parameters : List (List ℕ)) → AreParameters stub.now parameters
        → result_of m n result ≡ given_by m n call.now stub.now parameters outcome.now }
{
    match outcome {
        StubResult::Primitive => GivenResult::Other,
        StubResult::Void => GivenResult::Other,
        StubResult::Null => GivenResult::Other,
        StubResult::Given(argument) => {
            argument_given(argument_slot(call, stub, descriptor, *argument))
        }
        StubResult::New(class) => GivenResult::New(class.as_slice()),
        StubResult::Kept => GivenResult::Other,
    }
}

/// What the listed results give at a call.
fn given_results<'p>(
    alloc: Global,
    call: &Call,
    stub: &'p StubMethod,
    descriptor: &Option<Descriptor>,
) -> Result<Vec<GivenResult<'p>>, AllocError>
    requires { IsReadOf stub.now.descriptor descriptor.now }
    ensures { IfOk result (λ results. (m : Option RuleMethodNo) (n : RuleNode) (parameters : List (List ℕ)) → AreParameters stub.now parameters
        → map (result_of m n) results.items ≡ map (given_by m n call.now stub.now parameters) stub.now.returns) }
{
    let mut results = Vec::new(alloc);
    for outcome in stub.returns.as_slice() {
        results.push(given_result(call, stub, descriptor, outcome))?;
    }
    Ok(results)
}

/// What a stub keeps, gives and throws at the call of a node.
fn told_of<'p>(
    alloc: Global,
    program: &Program,
    node: &Node,
    call: &Call,
    stub: &'p StubMethod,
    descriptor: &Option<Descriptor>,
) -> Result<DescribedTarget<'p>, AllocError>
    requires { IsReadOf stub.now.descriptor descriptor.now }
    ensures { IfOk result (λ told. IsToldOf program.now node.now call.now stub.now told) }
{
    Ok(DescribedTarget {
        kept: kept_slots(alloc, call, stub, descriptor)?,
        results: given_results(alloc, call, stub, descriptor)?,
        landings: class_landings(alloc, program, node, stub.throws.as_slice())?,
    })
}

/// Adds what the stub of a target says at the call of a node, if a stub describes it.
fn add_described<'p>(
    alloc: Global,
    ground: &Ground<'p>,
    node: &Node,
    call: &Call,
    target: MethodNo,
    found: &mut Vec<DescribedTarget<'p>>,
) -> Result<(), AllocError>
    requires { IsMethodNumber ground.now.program target.0 }
    ensures { OnOk result (AddsFound (IsDescribedAs ground.now.program node.now call.now target) (HasDescription ground.now.program target) found.old.items found.new.items) }
{
    let program = ground.program();
    match stub_of(program, target) {
        Some(stub) => push_told(alloc, program, node, call, stub, found),
        None => Ok(()),
    }
}

/// Adds what a stub keeps, gives and throws at the call of a node, if it has the descriptor of a method.
fn push_told<'p>(
    alloc: Global,
    program: &Program,
    node: &Node,
    call: &Call,
    stub: &'p StubMethod,
    found: &mut Vec<DescribedTarget<'p>>,
) -> Result<(), AllocError>
    ensures { OnOk result (AddsFound (IsToldBy program.now node.now call.now stub.now) (IsMethodDescriptor stub.now.descriptor) found.old.items found.new.items) }
{
    let descriptor = read_descriptor(alloc, stub)?;
    if !is_of_method(stub, &descriptor) {
        return Ok(());
    }
    let told = told_of(alloc, program, node, call, stub, &descriptor)?;
    found.push(told)?;
    Ok(())
}

/// What the stubs of targets say at the call of a node, of those that stubs describe.
fn described_of<'p>(
    alloc: Global,
    ground: &Ground<'p>,
    node: &Node,
    call: &Call,
    targets: &[MethodNo],
) -> Result<Vec<DescribedTarget<'p>>, AllocError>
    requires { (m : RuleMethodNo) → Contains targets.now m → IsMethodNumber ground.now.program m.0 }
    ensures { IfOk result (λ found. AreFound (IsDescribedAs ground.now.program node.now call.now) (HasDescription ground.now.program) targets.now found.items) }
{
    let mut found = Vec::new(alloc);
    for target in targets {
        add_described(alloc, ground, node, call, *target, &mut found)?;
    }
    Ok(found)
}

/// The described methods to which the call of a node may go.
pub(crate) fn described_targets<'p>(
    alloc: Global,
    ground: &Ground<'p>,
    method: Option<MethodNo>,
    node: &Node,
) -> Result<Vec<DescribedTarget<'p>>, AllocError>
    ensures { IfOk result (λ described. (x : Subject) → x.program ≡ ground.now.program
        → AreDescribed x (Contains ground.now.facts) method node.now described.items) }
{
    match call_of(&node.op) {
        Some(call) => described_of(alloc, ground, node, call, targets_at(ground, method, node)),
        None => Ok(Vec::new(alloc)),
    }
}
