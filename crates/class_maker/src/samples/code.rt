//! The codes of the methods of the sample (JVMS 6.5), with the offsets of their instructions. They name entries of the constant pools by
//! their indices.

ghost use Rattle.std.specs.Prelude.{◌≡◌, ◌≤◌, ◌<◌, ◌++◌, OnOk, IfOk};
ghost use Rattle.class_maker.specs.Sample as definitions;

use crate::number::push_u2;
use crate::samples::MOST_METHODS;
use crate::samples::pool::name_of;
use jvm_model::opcode::{ALOAD_0, ASTORE_0, DUP, INVOKE_SPECIAL, INVOKE_VIRTUAL, NEW, RETURN};
use std::alloc::{AllocError, Global};

/// `iconst_0` (JVMS 6.5.iconst_i).
const ICONST_0: u8 = 3;

/// `aload_1` (JVMS 6.5.aload_n).
const ALOAD_1: u8 = 43;

/// `astore_1` (JVMS 6.5.astore_n).
const ASTORE_1: u8 = 76;

/// `ifeq` (JVMS 6.5.if_cond).
const IFEQ: u8 = 153;

/// `invokestatic` (JVMS 6.5.invokestatic).
const INVOKE_STATIC: u8 = 184;

/// The constructor of F calls that of Object.
pub(super) const CONSTRUCTOR: [u8; 5] = [ALOAD_0, INVOKE_SPECIAL, 0, 9, RETURN];

/// A method that does nothing.
pub(super) const NOTHING: [u8; 1] = [RETURN];

/// It makes an object, reads it and closes it.
const ONCE: [u8; 17] = [
    NEW, // 0
    0,
    6,
    DUP, // 3
    INVOKE_SPECIAL, // 4
    0,
    9,
    ASTORE_0, // 7
    ALOAD_0, // 8
    INVOKE_VIRTUAL, // 9
    0,
    12,
    ALOAD_0, // 12
    INVOKE_VIRTUAL, // 13
    0,
    15,
    RETURN, // 16
];

/// It does so in a loop: the last but one instruction branches back by 17 bytes, to 0.
const LOOP: [u8; 21] = [
    NEW, // 0
    0,
    6,
    DUP, // 3
    INVOKE_SPECIAL, // 4
    0,
    9,
    ASTORE_0, // 7
    ALOAD_0, // 8
    INVOKE_VIRTUAL, // 9
    0,
    12,
    ALOAD_0, // 12
    INVOKE_VIRTUAL, // 13
    0,
    15,
    ICONST_0, // 16
    IFEQ, // 17
    0xFF,
    0xEF,
    RETURN, // 20
];

/// It makes an object, closes it by its second local variable, and reads it by its first one.
const ALIAS: [u8; 19] = [
    NEW, // 0
    0,
    6,
    DUP, // 3
    INVOKE_SPECIAL, // 4
    0,
    9,
    ASTORE_0, // 7
    ALOAD_0, // 8
    ASTORE_1, // 9
    ALOAD_1, // 10
    INVOKE_VIRTUAL, // 11
    0,
    15,
    ALOAD_0, // 14
    INVOKE_VIRTUAL, // 15
    0,
    12,
    RETURN, // 18
];

/// The code of the method of a number.
pub(super) fn code_of(number: u32) -> &'static [u8]
    ensures { result.now ≡ definitions.code_of number }
{
    match number % 3 {
        0 => &ONCE,
        1 => &LOOP,
        _ => &ALIAS,
    }
}

/// Adds a call of the method of a number.
fn push_call(code: &mut Vec<u8>, number: u32) -> Result<(), AllocError>
    requires { number < MOST_METHODS }
    ensures { OnOk result (code.new.items ≡ code.old.items ++ definitions.call_of number) }
{
    code.push(INVOKE_STATIC)?;
    push_u2(code, name_of(number) + 2)
}

/// The code of `main`, which calls so many methods in order.
pub(super) fn main_code(alloc: Global, count: u32) -> Result<Vec<u8>, AllocError>
    requires { count ≤ MOST_METHODS }
    ensures { IfOk result (λ code. code.items ≡ definitions.main_code count) }
{
    let mut code = Vec::new(alloc);
    for number in 0..count {
        push_call(&mut code, number)?;
    }
    code.push(RETURN)?;
    Ok(code)
}
