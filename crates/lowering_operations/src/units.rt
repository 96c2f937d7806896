//! The units of values, by descriptors (JVMS 2.6.2, 4.3): whether each is a primitive or a reference.

ghost use Rattle.std.specs.Prelude.{◌≡◌, ◌+◌, ◌<◌, ◌≤◌, ◌^◌, ◌++◌, [], ◌∷◌, length, map, IfOk, OnOk};
ghost use Rattle.std.specs.List.{flat_map};
ghost use Rattle.jvm_model.specs.Instructions.{kinds_of};
ghost use Rattle.jvm_model.specs.RowViews.{kind_view};
ghost use Rattle.machine_bytecode.specs.States.{is_reference_type};
ghost use Rattle.lowering_spec.specs.Operations.{unit_slots, value_slot};
ghost use Rattle.lowering_operations.specs.UnitLists.{unit_kinds, parameter_units, is_reference_outcome, gives_reference, AreUnitsOf};

use jvm_model::opcode::UnitKind;
use jvm_model::{Descriptor, Kind, descriptor_of};
use std::alloc::{AllocError, Global};

/// The units of a method.
#[derive(Drop)]
pub(crate) struct MethodUnits {
    /// Those of its parameters, without the receiver.
    pub(crate) parameters: Vec<UnitKind>,
    /// Whether its result is a reference.
    pub(crate) gives_reference: bool,
}

/// The units of a method descriptor.
pub(crate) fn method_units(alloc: Global, descriptor: &[u8]) -> Result<MethodUnits, AllocError>
    ensures { IfOk result (AreUnitsOf descriptor.now) }
{
    let spelled = descriptor_of(alloc, descriptor)?;
    units_spelled(alloc, &spelled)
}

/// The units of a method that is spelled by its descriptor.
fn units_spelled(alloc: Global, spelled: &Option<Descriptor>) -> Result<MethodUnits, AllocError>
    ensures parameters { IfOk result (λ units. units.parameters.items ≡ parameter_units spelled.now) }
    ensures outcome { IfOk result (λ units. units.gives_reference ≡ gives_reference spelled.now) }
{
    Ok(MethodUnits {
        parameters: parameter_units(alloc, spelled)?,
        gives_reference: gives_reference(spelled),
    })
}

/// The units of a method's parameters; none of another descriptor.
fn parameter_units(alloc: Global, spelled: &Option<Descriptor>) -> Result<Vec<UnitKind>, AllocError>
    ensures { IfOk result (λ units. units.items ≡ parameter_units spelled.now) }
{
    match spelled {
        Some(Descriptor::Method { parameters, .. }) => units_of(alloc, parameters.as_slice()),
        _ => Ok(Vec::new(alloc)),
    }
}

/// The units of values of these kinds, one after another.
fn units_of(alloc: Global, kinds: &[Kind]) -> Result<Vec<UnitKind>, AllocError>
    ensures { IfOk result (λ units. units.items ≡ flat_map unit_kinds kinds.now) }
{
    let mut units = Vec::new(alloc);
    for kind in kinds {
        push_kind(&mut units, kind)?;
    }
    Ok(units)
}

/// Adds the units of a value of a kind.
fn push_kind(units: &mut Vec<UnitKind>, kind: &Kind) -> Result<(), AllocError>
    ensures { OnOk result (units.new.items ≡ units.old.items ++ unit_kinds kind.now) }
{
    units.extend_from_slice(kind_units(kind))
}

/// The units of a value of a kind.
fn kind_units(kind: &Kind) -> &'static [UnitKind]
    ensures { result.now ≡ unit_kinds kind.now }
{
    match kind {
        Kind::Prim { wide: true } => &[UnitKind::Primitive, UnitKind::Primitive],
        Kind::Prim { wide: false } => &[UnitKind::Primitive],
        Kind::Class(_) | Kind::Array { .. } => &[UnitKind::Reference],
    }
}

/// Whether the result of a method is a reference; not of another descriptor.
fn gives_reference(spelled: &Option<Descriptor>) -> bool
    ensures { result ≡ gives_reference spelled.now }
{
    match spelled {
        Some(Descriptor::Method { outcome, .. }) => is_reference_outcome(outcome),
        _ => false,
    }
}

/// Whether a result is a reference: none is of void.
fn is_reference_outcome(outcome: &Option<Kind>) -> bool
    ensures { result ≡ is_reference_outcome outcome.now }
{
    match outcome {
        None | Some(Kind::Prim { .. }) => false,
        Some(Kind::Class(_) | Kind::Array { .. }) => true,
    }
}

/// Whether a descriptor is that of a reference: of a class or an array (JVMS 4.3.2).
pub(crate) fn is_reference_type(descriptor: &[u8]) -> bool
    ensures { result ≡ is_reference_type descriptor.now }
{
    matches!(descriptor, [b'L' | b'[', ..])
}

/// How many units a field of a descriptor takes, by its first letter.
pub(crate) fn field_units(descriptor: &[u8]) -> u32
    ensures exact { result ≡ length (kinds_of descriptor.now) }
    ensures few { result ≤ 2 }
{
    match descriptor {
        [b'J' | b'D', ..] => 2,
        [] | [b'V', ..] => 0,
        _ => 1,
    }
}

/// The slots of units from one slot on; none of a primitive.
pub(crate) fn unit_slots(
    alloc: Global,
    start: u32,
    units: &[UnitKind],
) -> Result<Vec<Option<u32>>, AllocError>
    requires { start + length units.now < 2 ^ 32 }
    ensures { IfOk result (λ slots. slots.items ≡ unit_slots start (map kind_view units.now)) }
{
    let mut slots = Vec::new(alloc);
    let mut slot = start;
    for unit in units {
        slots.push(slot_of(*unit, slot))?;
        slot += 1;
    }
    Ok(slots)
}

/// The slot of a unit; none of a primitive.
fn slot_of(unit: UnitKind, slot: u32) -> Option<u32>
    ensures { unit_slots slot (kind_view unit ∷ []) ≡ result ∷ [] }
{
    match unit {
        UnitKind::Any | UnitKind::Primitive => None,
        UnitKind::Reference => Some(slot),
    }
}

/// The slot of a value of these units, if it is a reference.
pub(crate) fn value_slot(start: u32, units: &[UnitKind]) -> Option<u32>
    ensures { result ≡ value_slot start (map kind_view units.now) }
{
    match units {
        [] | [UnitKind::Any | UnitKind::Primitive, ..] => None,
        [UnitKind::Reference, ..] => Some(start),
    }
}
