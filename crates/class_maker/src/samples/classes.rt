//! The classes of the sample.

ghost use Rattle.std.specs.Prelude.{◌≡◌, ◌≤◌, ◌<◌, ◌^◌, ◌++◌, ◌∷◌, [], length, map, OnOk, IfOk};
ghost use Rattle.class_maker.specs.Sample.{class_f, class_sample, numbered_method, below};
ghost use Rattle.class_maker.specs.Sample as definitions;

use crate::number::{push_u2, push_u4};
use crate::samples::MOST_METHODS;
use crate::samples::code::{CONSTRUCTOR, NOTHING, code_of, main_code};
use crate::samples::pool::{DESCRIPTOR, SAMPLE, name_of, pool_of_f, pool_of_sample};
use jvm_model::sequence::{Bytes, Sequence};
use jvm_model::{Attribute, ClassFile, Member, PoolEntry};
use std::alloc::{AllocError, Global};

/// The flags of a public method, and of a public static one (JVMS 4.6).
const PUBLIC: u16 = 0x1;

const PUBLIC_STATIC: u16 = 0x9;

/// The flags of a public class (JVMS 4.1).
const PUBLIC_CLASS: u16 = 0x21;

/// The body of a Code attribute with this code, without handlers and attributes (JVMS 4.7.3).
fn body_with(alloc: Global, code: &[u8]) -> Result<Vec<u8>, AllocError>
    requires { length code.now < 2 ^ 32 }
    ensures { IfOk result (λ body. body.items ≡ definitions.body_with code.now) }
{
    let mut body = Vec::new(alloc);
    push_u2(&mut body, 4)?;
    push_u2(&mut body, 3)?;
    push_u4(&mut body, code.len() as u32)?;
    body.extend_from_slice(code)?;
    push_u2(&mut body, 0)?;
    push_u2(&mut body, 0)?;
    Ok(body)
}

/// A method by its flags, the index of its name, and its code.
fn method(alloc: Global, flags: u16, name: u16, code: &[u8]) -> Result<Member, AllocError>
    requires { length code.now < 2 ^ 32 }
    ensures { IfOk result (λ made. made ≡ definitions.method flags name code.now) }
{
    let body = Bytes::from_vec(body_with(alloc, code)?);
    let attributes = vec![in alloc; Attribute { name: 1, body }]?;
    Ok(Member {
        flags,
        name,
        descriptor: DESCRIPTOR,
        attributes: Sequence::from_vec(attributes),
    })
}

/// A class by its constant pool, the index of its name, and its methods.
fn class_with(
    alloc: Global,
    pool: Sequence<PoolEntry>,
    this_class: u16,
    methods: Vec<Member>,
) -> ClassFile
    ensures { result ≡ definitions.class_with pool this_class methods.items }
{
    ClassFile {
        minor: 0,
        major: 49,
        pool,
        flags: PUBLIC_CLASS,
        this_class,
        super_class: 4,
        interfaces: Sequence::from_vec(Vec::new(alloc)),
        fields: Sequence::from_vec(Vec::new(alloc)),
        methods: Sequence::from_vec(methods),
        attributes: Sequence::from_vec(Vec::new(alloc)),
    }
}

/// Adds a method.
fn push_method(
    alloc: Global,
    methods: &mut Vec<Member>,
    flags: u16,
    name: u16,
    code: &[u8],
) -> Result<(), AllocError>
    requires { length code.now < 2 ^ 32 }
    ensures { OnOk result (methods.new.items ≡ methods.old.items ++ definitions.method flags name code.now ∷ []) }
{
    methods.push(method(alloc, flags, name, code)?)?;
    Ok(())
}

/// Adds the methods of F.
fn push_methods_of_f(alloc: Global, methods: &mut Vec<Member>) -> Result<(), AllocError>
    ensures { OnOk result (methods.new.items ≡ methods.old.items ++ class_f.methods) }
{
    push_method(alloc, methods, PUBLIC, 7, &CONSTRUCTOR)?;
    push_method(alloc, methods, PUBLIC, 10, &NOTHING)?;
    push_method(alloc, methods, PUBLIC, 11, &NOTHING)?;
    push_method(alloc, methods, PUBLIC, 12, &NOTHING)?;
    Ok(())
}

/// The class F.
pub(super) fn class_f(alloc: Global) -> Result<ClassFile, AllocError>
    ensures { IfOk result (λ class. class ≡ class_f) }
{
    let pool = pool_of_f(alloc)?;
    let mut methods = Vec::new(alloc);
    push_methods_of_f(alloc, &mut methods)?;
    Ok(class_with(alloc, pool, 6, methods))
}

/// Adds `main`, which calls so many methods.
fn push_main(alloc: Global, methods: &mut Vec<Member>, count: u32) -> Result<(), AllocError>
    requires { count ≤ MOST_METHODS }
    ensures { OnOk result (methods.new.items ≡ methods.old.items ++ definitions.main_method count ∷ []) }
{
    let code = main_code(alloc, count)?;
    push_method(alloc, methods, PUBLIC_STATIC, 18, code.as_slice())
}

/// Adds the method of each number below `count`.
fn push_numbered(alloc: Global, methods: &mut Vec<Member>, count: u32) -> Result<(), AllocError>
    requires { count ≤ MOST_METHODS }
    ensures { OnOk result (methods.new.items ≡ methods.old.items ++ map numbered_method (below count)) }
{
    for number in 0..count {
        push_method(
            alloc,
            methods,
            PUBLIC_STATIC,
            name_of(number),
            code_of(number),
        )?;
    }
    Ok(())
}

/// The class Sample with so many methods besides `main`.
pub(super) fn class_sample(alloc: Global, count: u32) -> Result<ClassFile, AllocError>
    requires { count ≤ MOST_METHODS }
    ensures { IfOk result (λ class. class ≡ class_sample count) }
{
    let pool = pool_of_sample(alloc, count)?;
    let mut methods = Vec::new(alloc);
    push_main(alloc, &mut methods, count)?;
    push_numbered(alloc, &mut methods, count)?;
    Ok(class_with(alloc, pool, SAMPLE, methods))
}
