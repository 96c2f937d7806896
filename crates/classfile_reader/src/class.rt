//! The class file as a whole (JVMS 4.1).

ghost use Rattle.std.specs.Prelude.{IfOk, Ok};
ghost use Rattle.jvm_model.specs.declared.class_file.ClassFile.{ClassFile};
ghost use Rattle.byte_reader.specs.Reading.{Reads, Tells};
ghost use Rattle.classfile_reader.specs.ClassReading.{magic_at, major_at, class_at, class_of, SpellsReadable};
ghost use Rattle.classfile_reader.specs.ClassParts.{versions_at, names_at, tables_at, parts_at};

use crate::limit::CLASS_FILE_LIMIT;
use crate::pool::pool;
use byte_reader::{Input, Structure, table};
use jvm_model::class_file::ClassFile;
use jvm_model::reason::{ReadFailure, Reason, fault_at};
use jvm_model::sequence::Sequence;
use std::alloc::Global;

/// The number that each class file begins with.
const MAGIC: u32 = 0xCAFE_BABE;

/// The versions that are read: those up to that of SE 8.
const OLDEST_MAJOR: u16 = 45;

const NEWEST_MAJOR: u16 = 52;

/// The magic number.
#[tactic(auto, unfolding(crate::specs::ClassReading::magic_at))]
fn magic(input: &mut Input) -> Result<u32, ReadFailure>
    ensures { Reads result input.new (magic_at input.old) }
{
    let start = input.offset();
    let magic = input.u4()?;
    if magic != MAGIC {
        return Err(fault_at(start, Reason::BadMagic));
    }
    Ok(magic)
}

/// The major version.
#[tactic(auto, unfolding(crate::specs::ClassReading::major_at))]
fn major(input: &mut Input) -> Result<u16, ReadFailure>
    ensures { Reads result input.new (major_at input.old) }
{
    let start = input.offset();
    let major = input.u2()?;
    if major < OLDEST_MAJOR || major > NEWEST_MAJOR {
        return Err(fault_at(start, Reason::BadVersion));
    }
    Ok(major)
}

/// The magic number, and then the minor and the major version.
#[tactic(auto, unfolding(crate::specs::ClassParts::versions_at))]
fn versions(input: &mut Input) -> Result<(u16, u16), ReadFailure>
    ensures { Reads result input.new (versions_at input.old) }
{
    magic(input)?;
    let minor = input.u2()?;
    let major = major(input)?;
    Ok((minor, major))
}

/// The flags, the class and its superclass.
#[tactic(auto, unfolding(crate::specs::ClassParts::names_at))]
fn names(input: &mut Input) -> Result<(u16, u16, u16), ReadFailure>
    ensures { Reads result input.new (names_at input.old) }
{
    let flags = input.u2()?;
    let this_class = input.u2()?;
    let super_class = input.u2()?;
    Ok((flags, this_class, super_class))
}

/// Two tables, one after the other.
#[tactic(auto, unfolding(crate::specs::ClassParts::tables_at))]
fn tables<X: Structure, Y: Structure>(
    input: &mut Input,
    alloc: Global,
) -> Result<(Sequence<X>, Sequence<Y>), ReadFailure>
    ensures { Reads result input.new (tables_at X.reading Y.reading input.old) }
{
    let first = table(input, alloc)?;
    let second = table(input, alloc)?;
    Ok((first, second))
}

/// A class file, part after part.
#[tactic(auto, unfolding(crate::specs::ClassParts::parts_at))]
fn class_parts(input: &mut Input, alloc: Global) -> Result<ClassFile, ReadFailure>
    ensures { Reads result input.new (parts_at input.old) }
{
    let (minor, major) = versions(input)?;
    let pool = pool(input, alloc)?;
    let (flags, this_class, super_class) = names(input)?;
    let (interfaces, fields) = tables(input, alloc)?;
    let (methods, attributes) = tables(input, alloc)?;
    Ok(ClassFile {
        minor,
        major,
        pool,
        flags,
        this_class,
        super_class,
        interfaces,
        fields,
        methods,
        attributes,
    })
}

/// A class file, at the front of the input.
#[tactic(auto, using(crate::proofs::ClassParts::class_in_parts))]
fn class(input: &mut Input, alloc: Global) -> Result<ClassFile, ReadFailure>
    ensures { Reads result input.new (class_at input.old) }
{
    class_parts(input, alloc)
}

/// A class file and no byte after it.
#[tactic(auto, unfolding(crate::specs::ClassReading::class_of))]
fn whole(alloc: Global, bytes: &[u8]) -> Result<ClassFile, ReadFailure>
    ensures { Tells result (class_of bytes.now) }
{
    if bytes.len() > CLASS_FILE_LIMIT as usize {
        return Err(fault_at(CLASS_FILE_LIMIT, Reason::ClassTooLarge));
    }
    let mut input = Input::new(bytes);
    let class = class(&mut input, alloc)?;
    if !input.is_empty() {
        return Err(fault_at(input.offset(), Reason::TrailingBytes));
    }
    Ok(class)
}

/// The class file that the bytes spell, in a version and a size that are read, or the first fault of its spelling.
pub(crate) fn spelled_class(alloc: Global, bytes: &[u8]) -> Result<ClassFile, ReadFailure>
    // Which class file it is, and which fault.
    ensures exact { Tells result (class_of bytes.now) }

    // What is read is spelled so.
    ensures found { IfOk result (SpellsReadable bytes.now) }

    // What is spelled so is read, unless memory runs out.
    ensures only { (c : ClassFile) → SpellsReadable bytes.now c → Tells result (Ok c) }
{
    whole(alloc, bytes)
}
