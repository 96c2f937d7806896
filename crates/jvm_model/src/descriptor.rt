//! Descriptors as values (JVMS 4.3): the kind of a field, and the kinds of a method's parameters and result.

ghost use Rattle.std.specs.Prelude.{codes, ◌≡◌, ◌<◌, ◌≤◌, ◌^◌, sum_by, ◌⊎◌, IfNone, IfOk, IfSome, IsTrue};
ghost use Rattle.jvm_model.specs.Descriptors.{IsFieldDescriptor, IsMethodDescriptor};
ghost use Rattle.jvm_model.specs.DescriptorValues.{is_wide, kind_units, AreKinds, IsDescriptorOf, IsKind, IsOutcome};
ghost use Rattle.jvm_model.specs.Soundness.{is_array};

use crate::grammar::{
    after_parameters, dimensions_of, field_descriptor_length, is_array, is_field_descriptor,
    is_method_descriptor,
};
use crate::sequence::{Bytes, Sequence};
use std::alloc::{AllocError, Global};

/// The kind of a type (JVMS 4.3.2).
#[derive(Debug, Drop)]
pub enum Kind {
    /// A primitive type. It is wide if it is long or double, which take two units (4.3.3).
    Prim { wide: bool },
    /// A class or an interface, by its name, without `L` and `;`.
    Class(Bytes),
    /// An array: its dimensions, 1 to 255, and the descriptor of its elements, which is that of a primitive type
    /// or of a class, as `I` or `Ljava/lang/String;`.
    Array { dimensions: u8, element: Bytes },
}

impl Kind {
    /// How many units a value of the kind takes: two of a long or a double, and else one (JVMS 2.6.2, 4.3.3).
    pub fn units(&self) -> u16
        ensures exact { result ≡ kind_units self.now }
        ensures few { result ≤ 2 }
    {
        match self {
            Kind::Prim { wide: true } => 2,
            Kind::Prim { wide: false } | Kind::Class(_) | Kind::Array { .. } => 1,
        }
    }
}

/// How many units values of these kinds take (JVMS 2.6.2, 4.3.3).
pub fn units_of(kinds: &[Kind]) -> u16
    requires { sum_by kind_units kinds.now < 2 ^ 16 }
    ensures { result ≡ sum_by kind_units kinds.now }
{
    let mut units = 0;
    for kind in kinds {
        units += kind.units();
    }
    units
}

/// A descriptor (JVMS 4.3.2, 4.3.3).
#[derive(Debug, Drop)]
pub enum Descriptor {
    /// The descriptor of a field.
    Field(Kind),
    /// The descriptor of a method: its parameters, in order, and its result, `None` for void.
    Method {
        parameters: Sequence<Kind>,
        outcome: Option<Kind>,
    },
}

/// The descriptor that the bytes spell (JVMS 4.3), or `None` where they are in neither grammar. It takes time
/// linear in the bytes. An error means out of memory.
pub fn descriptor_of(alloc: Global, bytes: &[u8]) -> Result<Option<Descriptor>, AllocError>
    ensures found { IfOk result (λ r. IfSome r (IsDescriptorOf bytes.now)) }
    ensures none { IfOk result (λ r. IfNone r
        ((IsFieldDescriptor bytes.now → ⊥) × (IsMethodDescriptor bytes.now → ⊥))) }
{
    if is_field_descriptor(bytes) {
        return Ok(Some(Descriptor::Field(kind_of(alloc, bytes)?)));
    }
    if is_method_descriptor(bytes) {
        return Ok(Some(method_of(alloc, bytes)?));
    }
    Ok(None)
}

/// The value of a method descriptor (JVMS 4.3.3).
fn method_of(alloc: Global, text: &[u8]) -> Result<Descriptor, AllocError>
    requires { IsMethodDescriptor text.now }
    ensures { IfOk result (IsDescriptorOf text.now) }
{
    let parameters = &text[1..];
    let outcome = after_parameters(parameters).unwrap();
    let kinds = kinds_of(alloc, parameters)?;
    Ok(Descriptor::Method {
        parameters: kinds,
        outcome: outcome_of(alloc, outcome)?,
    })
}

/// The kind of a method's result, `None` for void (JVMS 4.3.3).
fn outcome_of(alloc: Global, outcome: &[u8]) -> Result<Option<Kind>, AllocError>
    requires { (outcome.now ≡ codes "V") ⊎ IsFieldDescriptor outcome.now }
    ensures { IfOk result (IsOutcome outcome.now) }
{
    if outcome == b"V".as_slice() {
        return Ok(None);
    }
    Ok(Some(kind_of(alloc, outcome)?))
}

/// The kinds of the field descriptors that stand at the front of a text, one after another, as many as there are.
fn kinds_of(alloc: Global, text: &[u8]) -> Result<Sequence<Kind>, AllocError>
    ensures { IfOk result (AreKinds text.now) }
{
    let mut kinds = Vec::new(alloc);
    let mut rest = text;
    while let Some(length) = field_descriptor_length(rest) {
        let (parameter, after) = rest.split_at(length);
        kinds.push(kind_of(alloc, parameter)?)?;
        rest = after;
    }
    Ok(Sequence::from_vec(kinds))
}

/// The kind that a field descriptor is of (JVMS 4.3.2).
fn kind_of(alloc: Global, text: &[u8]) -> Result<Kind, AllocError>
    requires { IsFieldDescriptor text.now }
    ensures { IfOk result (IsKind text.now) }
{
    if is_array(text) {
        return array_of(alloc, text);
    }
    // A primitive type is one letter, and a class has more: L, its name and a semicolon.
    match text {
        [_, name @ .., _] => Ok(Kind::Class(copy_of(alloc, name)?)),
        _ => Ok(Kind::Prim {
            wide: is_wide(text),
        }),
    }
}

/// The kind that the descriptor of an array is of (JVMS 4.3.2).
fn array_of(alloc: Global, text: &[u8]) -> Result<Kind, AllocError>
    requires array { IsTrue (is_array text.now) }
    requires field { IsFieldDescriptor text.now }
    ensures { IfOk result (IsKind text.now) }
{
    let dimensions = dimensions_of(text).unwrap();
    let element = copy_of(alloc, &text[dimensions..])?;
    Ok(Kind::Array {
        dimensions: dimensions as u8,
        element,
    })
}

/// Whether a descriptor is that of long or double (JVMS 4.3.2).
fn is_wide(text: &[u8]) -> bool
    ensures { result ≡ is_wide text.now }
{
    text == b"J".as_slice() || text == b"D".as_slice()
}

/// A copy of the bytes.
fn copy_of(alloc: Global, bytes: &[u8]) -> Result<Bytes, AllocError>
    ensures { IfOk result (λ copy. copy ≡ bytes.now) }
{
    Ok(Sequence::from_vec(Vec::from_slice(alloc, bytes)?))
}
