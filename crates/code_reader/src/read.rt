//! The code of a method of a class file, as the layers above see it.

ghost use Rattle.std.specs.Prelude.{◌≡◌, ◌<◌, ◌≤◌, ◌^◌, length, IfOk, Contains};
ghost use Rattle.jvm_model.specs.Layout.{HasCodeAttribute};
ghost use Rattle.jvm_model.specs.Lookups.{lent_signature};
ghost use Rattle.jvm_model.specs.Soundness.{IsSoundClass};
ghost use Rattle.jvm_model.specs.Spelling.{spell};
ghost use Rattle.code_reader.specs.CodeReading.{receiver_units, TakesUnits, TakesLocals, TellsCode};
ghost use Rattle.code_reader.specs.Parameters.{HasUnits, HasFewUnits};
ghost use Rattle.code_reader.specs.Places.{method_offset};

use crate::body::read_body;
use crate::place::{found_code, method_offset};
use jvm_model::descriptor::units_of;
use jvm_model::layout::{ATTRIBUTE_BODY, MEMBER_ATTRIBUTES};
use jvm_model::sound::member_signature;
use jvm_model::{
    AccessFlag, ClassFile, Code, Descriptor, Member, ReadFailure, Signature, descriptor_of,
};
use std::alloc::{AllocError, Global};

/// The code of a method of a class file, which is named by its place in the list of the methods, from its first
/// attribute named `Code` (JVMS 4.7.3); or the first fault in it, with its file offset.
///
/// The fields of the body are read in their order, and the code is divided into instructions (6.5) at once:
///
/// - `CodeCut` at the first byte of the field that the body cuts off, at the length of the code if it is not 1 to
///   65,535, and at the first byte after the last attribute; where the body ends before its code does, nothing of
///   the code is judged;
/// - `BadOpcode` at an instruction with an opcode past 201, or one that `wide` does not stand before; a `newarray` of
///   a code that is not 4 to 11; a `multianewarray` with no dimension or more than its array has; a `tableswitch` of
///   which the lowest value is above the highest; and a `lookupswitch` with a negative count;
/// - `CodeCut` at an instruction that runs past the end of the code;
/// - `BadTarget` at a branch that leads to where no instruction starts;
/// - `BadLocal` at an instruction of which a local variable, or the second one of a long or a double, is not below the
///   limit; and at the first one, where the parameters take more;
/// - `Subroutine` at `jsr`, `jsr_w` and `ret`, wide or not;
/// - `BadIndex` at an instruction with an index of the constant pool that does not lead to an entry of the right kind;
/// - `BadHandler` at an entry of the table of handlers that covers nothing, of which a bound or the start is not at an
///   instruction (the end may be that of the code), or whose type is neither 0 nor a Class entry.
///
/// The first instruction with `BadOpcode` or `CodeCut` ends the division; what its operands say, and whether branches
/// to bytes behind its first one are right, is not judged. Of several faults the one with the least offset is reported, and
/// at one offset the one that stands first in `Reason`, `BadIndex` after all others. The time taken is linear in the
/// size of the body, but for the class file's methods before this one, which are passed over once: `read_code_at` spares
/// that.
pub fn read_code(alloc: Global, class: &ClassFile, method: usize) -> Result<Code, ReadFailure>
    requires sound { IsSoundClass class.now }
    requires size { length (spell class.now) < 2 ^ 32 }
    requires code { HasCodeAttribute class.now method }
    ensures { TellsCode class.now method result }
{
    read_code_at(alloc, class, method, method_offset(class, method))
}

/// The same, where the file offset of the first byte of the method is known: the methods before it are not passed over.
pub fn read_code_at(
    alloc: Global,
    class: &ClassFile,
    method: usize,
    offset: u32,
) -> Result<Code, ReadFailure>
    requires sound { IsSoundClass class.now }
    requires size { length (spell class.now) < 2 ^ 32 }
    requires code { HasCodeAttribute class.now method }
    requires offset { offset ≡ method_offset class.now method }
    ensures { TellsCode class.now method result }
{
    let owner = &class.methods.as_slice()[method];
    let pool = class.pool.as_slice();
    let found = found_code(pool, owner.attributes.as_slice());
    let place = offset + MEMBER_ATTRIBUTES + found.before + ATTRIBUTE_BODY;
    let parameters = locals_taken(alloc, class, owner)?;
    read_body(alloc, pool, parameters, place, found.code.body.as_slice())
}

/// How many local variables the receiver and the parameters of a method take (JVMS 2.6.1).
fn locals_taken(alloc: Global, class: &ClassFile, method: &Member) -> Result<u16, AllocError>
    requires sound { IsSoundClass class.now }
    requires there { Contains class.now.methods method.now }
    ensures { IfOk result (TakesLocals class.now.pool method.now) }
{
    let signature = member_signature(class, method);
    let parameters = units_taken(alloc, signature.descriptor)?;
    Ok(receiver_units(method, signature) + parameters)
}

/// How many units the receiver of a method takes: one, but none of a static method and of the initialiser of a class
/// (JVMS 2.9, 4.6).
fn receiver_units(method: &Member, signature: Signature<'_>) -> u16
    ensures { result ≡ receiver_units method.now (lent_signature signature.entry) }
{
    if AccessFlag::Static.is_set_in(method.flags) || signature.is_class_initialiser() {
        return 0;
    }
    1
}

/// How many units the parameters of a method descriptor take (JVMS 4.3.3); none where the text is no such descriptor.
fn units_taken(alloc: Global, descriptor: &[u8]) -> Result<u16, AllocError>
    ensures exact { IfOk result (TakesUnits descriptor.now) }
    ensures most { IfOk result (λ units. units ≤ 255) }
{
    let spelled = descriptor_of(alloc, descriptor)?;
    Ok(units_spelled(&spelled))
}

/// How many units the parameters of a descriptor take, if there is one and it is a method's.
fn units_spelled(spelled: &Option<Descriptor>) -> u16
    requires { HasFewUnits spelled.now }
    ensures exact { HasUnits spelled.now result }
    ensures most { result ≤ 255 }
{
    match spelled {
        Some(
            Descriptor::Method {
                parameters: kinds,
                ..
            },
        ) => units_of(kinds.as_slice()),
        _ => 0,
    }
}
