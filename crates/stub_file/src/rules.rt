//! The rules that a class of a stub file keeps.

ghost use Rattle.std.specs.Prelude.{◌≡◌, ◌↔◌, All, IfOk, IsTrue};
ghost use Rattle.jvm_model.specs.DescriptorValues.{IsKind, IsMethodOf};
ghost use Rattle.jvm_model.specs.Names.{IsClassName};
ghost use Rattle.toml_tables.specs.Tables.{Finds};
ghost use Rattle.stub_file.specs.StubReading.{AreSoundFields, AreSoundMethods, AreSoundParts, HasSoundHead};
ghost use Rattle.jvm_model.specs.StubRules.{is_class, is_object_argument, is_reference, lists_outcomes, may_lack_super, patches_methods_alone, HasSuper, IsSoundField, IsSoundMethod, IsSoundStub, MayHold, MayReturn};

use crate::signature::{fields_differ, methods_differ};
use jvm_model::grammar::{is_class_name, is_method_name, is_unqualified_name};
use jvm_model::{
    Bytes, Descriptor, Kind, Sequence, StubArgument, StubClass, StubField, StubMethod, StubResult,
    descriptor_of,
};
use std::alloc::{AllocError, Global};

/// Whether a class keeps the rules.
pub(crate) fn is_sound_class(alloc: Global, class: &StubClass) -> Result<bool, AllocError>
    ensures { IfOk result (λ sound. IsTrue sound ↔ IsSoundStub class.now) }
{
    if !has_sound_head(class) || !are_sound_methods(alloc, class.methods.as_slice())? {
        return Ok(false);
    }
    are_sound_fields(alloc, class.fields.as_slice())
}

/// Whether a class keeps the rules on its name and its supertypes, and a patch that on fields.
fn has_sound_head(class: &StubClass) -> bool
    ensures { IsTrue result ↔ HasSoundHead class.now }
{
    is_class_name(class.name.as_slice())
        && has_super(class)
        && are_class_names(class.interfaces.as_slice())
        && patches_methods_alone(class)
}

/// Whether a class has the superclass that it may have.
fn has_super(class: &StubClass) -> bool
    ensures { IsTrue result ↔ HasSuper class.now }
{
    if class.super_class.is_empty() {
        may_lack_super(class)
    } else {
        !class.is_patch && is_class_name(class.super_class.as_slice())
    }
}

/// Whether a class may be without a superclass.
fn may_lack_super(class: &StubClass) -> bool
    ensures { result ≡ may_lack_super class.now }
{
    class.is_patch || class.name.as_slice() == b"java/lang/Object".as_slice()
}

/// Whether each text is the name of a class.
fn are_class_names(names: &[Bytes]) -> bool
    ensures { IsTrue result ↔ All IsClassName names.now }
{
    names.iter().all(|name| is_class_name(name.as_slice()))
}

/// Whether a class has interfaces and fields only where it is no patch.
fn patches_methods_alone(class: &StubClass) -> bool
    ensures { result ≡ patches_methods_alone class.now }
{
    !class.is_patch || (class.interfaces.is_empty() && class.fields.is_empty())
}

/// Whether methods keep the rules, and no two agree in name and descriptor.
fn are_sound_methods(alloc: Global, methods: &[StubMethod]) -> Result<bool, AllocError>
    ensures { IfOk result (λ sound. IsTrue sound ↔ AreSoundMethods methods.now) }
{
    if !each_method_is_sound(alloc, methods)? {
        return Ok(false);
    }
    methods_differ(alloc, methods)
}

/// Whether each method keeps the rules.
fn each_method_is_sound(alloc: Global, methods: &[StubMethod]) -> Result<bool, AllocError>
    ensures { IfOk result (λ sound. IsTrue sound ↔ All IsSoundMethod methods.now) }
{
    for method in methods {
        if !is_sound_method(alloc, method)? {
            return Ok(false);
        }
    }
    Ok(true)
}

/// Whether a method keeps the rules.
fn is_sound_method(alloc: Global, method: &StubMethod) -> Result<bool, AllocError>
    ensures { IfOk result (λ sound. IsTrue sound ↔ IsSoundMethod method.now) }
{
    let Some((parameters, outcome)) = method_kinds(alloc, method.descriptor.as_slice())? else {
        return Ok(false);
    };
    Ok(are_sound_parts(method, parameters.as_slice(), &outcome))
}

/// The kinds of the parameters and of the result of a method descriptor, or `None` where the text is none.
fn method_kinds(
    alloc: Global,
    text: &[u8],
) -> Result<Option<(Sequence<Kind>, Option<Kind>)>, AllocError>
    ensures { IfOk result (Finds (λ kinds. IsMethodOf text.now kinds.0 kinds.1)) }
{
    let found = descriptor_of(alloc, text)?;
    match found {
        Some(
            Descriptor::Method {
                parameters,
                outcome,
            },
        ) => Ok(Some((parameters, outcome))),
        Some(Descriptor::Field(_)) => Ok(None),
        None => Ok(None),
    }
}

/// Whether a method keeps the rules beside that on its descriptor, which has these parameters and this result.
fn are_sound_parts(method: &StubMethod, parameters: &[Kind], outcome: &Option<Kind>) -> bool
    ensures { IsTrue result ↔ AreSoundParts method.now parameters.now outcome.now }
{
    is_method_name(method.name.as_slice())
        && may_return_each(method, parameters, outcome)
        && are_class_names(method.throws.as_slice())
        && may_keep_each(method, parameters)
        && lists_outcomes(method)
}

/// Whether a method may list each result that it lists.
fn may_return_each(method: &StubMethod, parameters: &[Kind], outcome: &Option<Kind>) -> bool
    ensures { IsTrue result ↔ All (MayReturn method.now.is_static parameters.now outcome.now) method.now.returns }
{
    let is_static = method.is_static;
    method.returns.as_slice().iter().all(|listed| may_return(
        is_static, parameters, outcome, listed,
    ))
}

/// Whether a method may list this result.
fn may_return(
    is_static: bool,
    parameters: &[Kind],
    outcome: &Option<Kind>,
    listed: &StubResult,
) -> bool
    ensures { IsTrue result ↔ MayReturn is_static parameters.now outcome.now listed.now }
{
    match outcome {
        None => matches!(listed, StubResult::Void),
        Some(kind) => may_return_value(is_static, parameters, kind, listed),
    }
}

/// Whether a method with a result of this kind may list this one.
fn may_return_value(is_static: bool, parameters: &[Kind], kind: &Kind, listed: &StubResult) -> bool
    ensures { IsTrue result ↔ MayReturn is_static parameters.now (Some kind.now) listed.now }
{
    match listed {
        StubResult::Primitive => !is_reference(kind),
        StubResult::Void => false,
        StubResult::Null => is_reference(kind),
        StubResult::Given(argument) => {
            is_reference(kind) && is_object_argument(is_static, parameters, *argument)
        }
        StubResult::New(name) => is_reference(kind) && is_class_name(name.as_slice()),
        StubResult::Kept => is_class(kind),
    }
}

/// Whether a method may keep each argument that it lists.
fn may_keep_each(method: &StubMethod, parameters: &[Kind]) -> bool
    ensures { IsTrue result
        ↔ All (λ argument. IsTrue (is_object_argument method.now.is_static parameters.now argument)) method.now.keeps }
{
    let is_static = method.is_static;
    method.keeps.as_slice().iter().all(|argument| is_object_argument(
        is_static, parameters, *argument,
    ))
}

/// Whether an argument is an object: the receiver, which a static method has none of, or a parameter of a reference
/// type.
fn is_object_argument(is_static: bool, parameters: &[Kind], argument: StubArgument) -> bool
    ensures { result ≡ is_object_argument is_static parameters.now argument }
{
    match argument {
        StubArgument::This => !is_static,
        StubArgument::Argument(0) => false,
        StubArgument::Argument(number) => match parameters.get(usize::from(number) - 1) {
            Some(kind) => is_reference(kind),
            None => false,
        },
    }
}

/// Whether a kind is no primitive type.
fn is_reference(kind: &Kind) -> bool
    ensures { result ≡ is_reference kind.now }
{
    match kind {
        Kind::Prim { wide: _ } => false,
        Kind::Class(_) => true,
        Kind::Array { .. } => true,
    }
}

/// Whether a kind is a class.
fn is_class(kind: &Kind) -> bool
    ensures { result ≡ is_class kind.now }
{
    match kind {
        Kind::Prim { wide: _ } => false,
        Kind::Class(_) => true,
        Kind::Array { .. } => false,
    }
}

/// Whether a method lists as much as it has to, and no more than it may.
fn lists_outcomes(method: &StubMethod) -> bool
    ensures { result ≡ lists_outcomes method.now }
{
    if method.is_abstract {
        method.returns.is_empty() && method.throws.is_empty() && method.keeps.is_empty()
    } else {
        !(method.returns.is_empty() && method.throws.is_empty())
    }
}

/// Whether fields keep the rules, and no two agree in name and descriptor.
fn are_sound_fields(alloc: Global, fields: &[StubField]) -> Result<bool, AllocError>
    ensures { IfOk result (λ sound. IsTrue sound ↔ AreSoundFields fields.now) }
{
    if !each_field_is_sound(alloc, fields)? {
        return Ok(false);
    }
    fields_differ(alloc, fields)
}

/// Whether each field keeps the rules.
fn each_field_is_sound(alloc: Global, fields: &[StubField]) -> Result<bool, AllocError>
    ensures { IfOk result (λ sound. IsTrue sound ↔ All IsSoundField fields.now) }
{
    for field in fields {
        if !is_sound_field(alloc, field)? {
            return Ok(false);
        }
    }
    Ok(true)
}

/// Whether a field keeps the rules.
fn is_sound_field(alloc: Global, field: &StubField) -> Result<bool, AllocError>
    ensures { IfOk result (λ sound. IsTrue sound ↔ IsSoundField field.now) }
{
    if !is_unqualified_name(field.name.as_slice()) {
        return Ok(false);
    }
    let Some(kind) = field_kind(alloc, field.descriptor.as_slice())? else {
        return Ok(false);
    };
    Ok(may_hold(field.is_static, &kind, &field.holds))
}

/// The kind of a field descriptor, or `None` where the text is none.
fn field_kind(alloc: Global, text: &[u8]) -> Result<Option<Kind>, AllocError>
    ensures { IfOk result (Finds (IsKind text.now)) }
{
    let found = descriptor_of(alloc, text)?;
    match found {
        Some(Descriptor::Field(kind)) => Ok(Some(kind)),
        Some(Descriptor::Method { .. }) => Ok(None),
        None => Ok(None),
    }
}

/// Whether a field with a descriptor of this kind may hold an object of this class from the start.
fn may_hold(is_static: bool, kind: &Kind, holds: &Option<Bytes>) -> bool
    ensures { IsTrue result ↔ MayHold is_static kind.now holds.now }
{
    match holds {
        Some(name) => is_static && is_reference(kind) && is_class_name(name.as_slice()),
        None => true,
    }
}
