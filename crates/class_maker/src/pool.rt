//! The spelling of the constant pool and of its entries (JVMS 4.1, 4.4).

ghost use Rattle.std.specs.Prelude.{◌≡◌, ◌+◌, ◌<◌, ◌^◌, ◌++◌, ◌∷◌, length, All, OnOk};
ghost use Rattle.jvm_model.specs.Spelling.{u2, u4, u8, entry, pool};
ghost use Rattle.class_maker.specs.Counts.{IsCountedEntry};

use crate::number::{push_u2, push_u4, push_u8};
use crate::spelled::{Spelled, push_all};
use jvm_model::PoolEntry;
use std::alloc::AllocError;

/// The tags of the entries (JVMS 4.4).
const UTF8: u8 = 1;

const INTEGER: u8 = 3;

const FLOAT: u8 = 4;

const LONG: u8 = 5;

const DOUBLE: u8 = 6;

const CLASS: u8 = 7;

const STRING: u8 = 8;

const FIELD_REF: u8 = 9;

const METHOD_REF: u8 = 10;

const INTERFACE_METHOD_REF: u8 = 11;

const NAME_AND_TYPE: u8 = 12;

const METHOD_HANDLE: u8 = 15;

const METHOD_TYPE: u8 = 16;

const INVOKE_DYNAMIC: u8 = 18;

/// Adds a tag and an index.
fn push_index(bytes: &mut Vec<u8>, tag: u8, index: u16) -> Result<(), AllocError>
    ensures { OnOk result (bytes.new.items ≡ bytes.old.items ++ tag ∷ u2 index) }
{
    bytes.push(tag)?;
    push_u2(bytes, index)
}

/// Adds a tag and two indices.
fn push_indices(bytes: &mut Vec<u8>, tag: u8, first: u16, second: u16) -> Result<(), AllocError>
    ensures { OnOk result (bytes.new.items ≡ bytes.old.items ++ tag ∷ (u2 first ++ u2 second)) }
{
    push_index(bytes, tag, first)?;
    push_u2(bytes, second)
}

/// Adds a tag and the bits of a number of four bytes.
fn push_word(bytes: &mut Vec<u8>, tag: u8, bits: u32) -> Result<(), AllocError>
    ensures { OnOk result (bytes.new.items ≡ bytes.old.items ++ tag ∷ u4 bits) }
{
    bytes.push(tag)?;
    push_u4(bytes, bits)
}

/// Adds a tag and the bits of a number of eight bytes.
fn push_double_word(bytes: &mut Vec<u8>, tag: u8, bits: u64) -> Result<(), AllocError>
    ensures { OnOk result (bytes.new.items ≡ bytes.old.items ++ tag ∷ u8 bits) }
{
    bytes.push(tag)?;
    push_u8(bytes, bits)
}

/// Adds a text with its tag and its length.
fn push_text(bytes: &mut Vec<u8>, text: &[u8]) -> Result<(), AllocError>
    requires { length text.now < 2 ^ 16 }
    ensures { OnOk result (bytes.new.items ≡ bytes.old.items ++ 1 ∷ (u2 (length text.now) ++ text.now)) }
{
    push_index(bytes, UTF8, text.len() as u16)?;
    bytes.extend_from_slice(text)
}

/// Adds a method handle with its tag.
fn push_handle(bytes: &mut Vec<u8>, kind: u8, reference: u16) -> Result<(), AllocError>
    ensures { OnOk result (bytes.new.items ≡ bytes.old.items ++ 15 ∷ kind ∷ u2 reference) }
{
    bytes.push(METHOD_HANDLE)?;
    push_index(bytes, kind, reference)
}

impl Spelled for PoolEntry {
    ghost spelling = { entry };

    ghost counted = { IsCountedEntry };

    fn push_to(&self, bytes: &mut Vec<u8>) -> Result<(), AllocError> {
        match self {
            PoolEntry::Utf8(text) => push_text(bytes, text.as_slice()),
            PoolEntry::Integer(bits) => push_word(bytes, INTEGER, *bits),
            PoolEntry::Float(bits) => push_word(bytes, FLOAT, *bits),
            PoolEntry::Long(bits) => push_double_word(bytes, LONG, *bits),
            PoolEntry::Double(bits) => push_double_word(bytes, DOUBLE, *bits),
            PoolEntry::Class(name) => push_index(bytes, CLASS, *name),
            PoolEntry::Str(text) => push_index(bytes, STRING, *text),
            PoolEntry::Fieldref { class, member } => {
                push_indices(bytes, FIELD_REF, *class, *member)
            }
            PoolEntry::Methodref { class, member } => {
                push_indices(bytes, METHOD_REF, *class, *member)
            }
            PoolEntry::InterfaceMethodref { class, member } => {
                push_indices(bytes, INTERFACE_METHOD_REF, *class, *member)
            }
            PoolEntry::NameAndType { name, descriptor } => {
                push_indices(bytes, NAME_AND_TYPE, *name, *descriptor)
            }
            PoolEntry::MethodHandle { kind, reference } => push_handle(bytes, *kind, *reference),
            PoolEntry::MethodType(descriptor) => push_index(bytes, METHOD_TYPE, *descriptor),
            PoolEntry::InvokeDynamic { bootstrap, member } => {
                push_indices(bytes, INVOKE_DYNAMIC, *bootstrap, *member)
            }
            PoolEntry::Taken => Ok(()),
        }
    }
}

/// Adds the constant pool with its count, which is one more than its last index.
pub(crate) fn push_pool(bytes: &mut Vec<u8>, entries: &[PoolEntry]) -> Result<(), AllocError>
    requires count { length entries.now + 1 < 2 ^ 16 }
    requires entries { All IsCountedEntry entries.now }
    ensures { OnOk result (bytes.new.items ≡ bytes.old.items ++ pool entries.now) }
{
    push_u2(bytes, entries.len() as u16 + 1)?;
    push_all(bytes, entries)
}
