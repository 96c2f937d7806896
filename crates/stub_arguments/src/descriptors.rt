//! The units of the arguments that stubs name.

ghost use Rattle.std.specs.Prelude.{◌≡◌, ◌-◌, ◌≤◌, sum_by, take, if◌then◌else◌, IfOk};
ghost use Rattle.jvm_model.specs.DescriptorValues.{kind_units};
ghost use Rattle.stub_arguments.specs.Units.{IsArgumentUnit, IsReadOf, unit_by_kinds};

use jvm_model::descriptor::units_of;
use jvm_model::{Descriptor, Kind, StubArgument, StubMethod, descriptor_of};
use std::alloc::{AllocError, Global};

/// The descriptor of a described method.
pub fn read_descriptor(alloc: Global, stub: &StubMethod) -> Result<Option<Descriptor>, AllocError>
    ensures { IfOk result (IsReadOf stub.now.descriptor) }
{
    descriptor_of(alloc, stub.descriptor.as_slice())
}

/// The unit of the arguments of a call at which an argument stands that a stub names; none where the stub has no descriptor of a method.
pub fn unit_of(
    stub: &StubMethod,
    descriptor: &Option<Descriptor>,
    argument: StubArgument,
) -> Option<usize>
    requires { IsReadOf stub.now.descriptor descriptor.now }
    ensures { IsArgumentUnit stub.now argument result }
{
    let Some(spelled) = descriptor else {
        return None;
    };
    match spelled {
        Descriptor::Method {
            parameters: kinds,
            ..
        } => Some(unit_by_kinds(stub.is_static, kinds.as_slice(), argument)),
        Descriptor::Field(_) => None,
    }
}

/// The unit of an argument by the kinds of the parameters: the receiver is the first unit, and a parameter, counted from 1, comes after the
/// parameters before it.
fn unit_by_kinds(is_static: bool, kinds: &[Kind], argument: StubArgument) -> usize
    requires { sum_by kind_units kinds.now ≤ 255 }
    ensures { result ≡ unit_by_kinds is_static kinds.now argument }
{
    match argument {
        StubArgument::This => 0,
        StubArgument::Argument(number) => receiver_units(is_static) + units_before(kinds, number),
    }
}

/// The units of the receiver: none of a static method.
fn receiver_units(is_static: bool) -> usize
    ensures { result ≡ (if is_static then 0 else 1) }
{
    if is_static { 0 } else { 1 }
}

/// The units of the parameters before the one of a number.
fn units_before(kinds: &[Kind], number: u8) -> usize
    requires { sum_by kind_units kinds.now ≤ 255 }
    ensures exact { result ≡ sum_by kind_units (take (number - 1) kinds.now) }
    ensures few { result ≤ 255 }
{
    let count = (number as usize).saturating_sub(1).min(kinds.len());
    units_of(&kinds[..count]) as usize
}
