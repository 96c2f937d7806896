//! The class file as a whole (JVMS 4.1).

ghost use Rattle.std.specs.Prelude.{◌≡◌, ◌<◌, ◌^◌, ◌++◌, length, IfOk, OnOk};
ghost use Rattle.jvm_model.specs.Spelling.{u2, u4, pool, table, member, attribute, spell};
ghost use Rattle.class_maker.specs.Counts.{IsCountedClass};

use crate::number::{push_u2, push_u4};
use crate::pool::push_pool;
use crate::spelled::push_table;
use jvm_model::ClassFile;
use std::alloc::{AllocError, Global};

/// The number that each class file begins with.
const MAGIC: u32 = 0xCAFE_BABE;

/// Adds what stands before the constant pool, and the pool.
fn push_front(bytes: &mut Vec<u8>, class: &ClassFile) -> Result<(), AllocError>
    requires { IsCountedClass class.now }
    ensures { OnOk result (bytes.new.items ≡ bytes.old.items ++ (u4 0xCAFEBABE ++ u2 class.now.minor ++ u2 class.now.major ++ pool class.now.pool)) }
{
    push_u4(bytes, MAGIC)?;
    push_u2(bytes, class.minor)?;
    push_u2(bytes, class.major)?;
    push_pool(bytes, class.pool.as_slice())
}

/// Adds the flags, the class and its superclass, and the interfaces.
fn push_names(bytes: &mut Vec<u8>, class: &ClassFile) -> Result<(), AllocError>
    requires { IsCountedClass class.now }
    ensures { OnOk result (bytes.new.items ≡ bytes.old.items ++ (u2 class.now.flags ++ u2 class.now.this_class ++ u2 class.now.super_class ++ table u2 class.now.interfaces)) }
{
    push_u2(bytes, class.flags)?;
    push_u2(bytes, class.this_class)?;
    push_u2(bytes, class.super_class)?;
    push_table(bytes, class.interfaces.as_slice())
}

/// Adds the fields, the methods and the attributes.
fn push_members(bytes: &mut Vec<u8>, class: &ClassFile) -> Result<(), AllocError>
    requires { IsCountedClass class.now }
    ensures { OnOk result (bytes.new.items ≡ bytes.old.items ++ (table member class.now.fields ++ table member class.now.methods ++ table attribute class.now.attributes)) }
{
    push_table(bytes, class.fields.as_slice())?;
    push_table(bytes, class.methods.as_slice())?;
    push_table(bytes, class.attributes.as_slice())
}

/// The bytes that spell the class file. Its lists are no longer than their counts can say.
pub fn make_class(alloc: Global, class: &ClassFile) -> Result<Vec<u8>, AllocError>
    requires { IsCountedClass class.now }
    ensures { IfOk result (λ bytes. bytes.items ≡ spell class.now) }
{
    let mut bytes = Vec::new(alloc);
    push_front(&mut bytes, class)?;
    push_names(&mut bytes, class)?;
    push_members(&mut bytes, class)?;
    Ok(bytes)
}
