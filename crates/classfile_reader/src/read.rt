//! The reader, as the layers above see it.

ghost use Rattle.std.specs.Prelude.{IfOk, IfErr, Ok};
ghost use Rattle.jvm_model.specs.declared.class_file.ClassFile.{ClassFile};
ghost use Rattle.jvm_model.specs.Soundness.{IsSoundClass};
ghost use Rattle.byte_reader.specs.Reading.{Tells};
ghost use Rattle.classfile_reader.specs.ClassReading.{SpellsReadable};
ghost use Rattle.classfile_reader.specs.Faults.{IsClassFileRefusal};

use crate::class::spelled_class;
use crate::soundness::first_fault;
use failure::Failure;
use jvm_model::class_file::ClassFile;
use jvm_model::reason::{Fault, ReadFailure};
use std::alloc::Global;

/// The class file that the bytes spell (JVMS 4.1 to 4.7), all of them, if it is sound; or the first fault with its file
/// offset.
///
/// A file of more than `CLASS_FILE_LIMIT` bytes is `ClassTooLarge`, at the limit. Otherwise the fields are read in
/// the order of the standard, and the first fault is reported:
///
/// - `Truncated` at the first byte of the field that the file cuts off, where an entry of the constant pool and
///   the body of an attribute are one field each;
/// - `BadMagic` at 0 (4.1), and `BadVersion` at 6 for a major version that is not 45 to 52;
/// - `BadIndex` at 8 for a constant pool count of 0, and at the tag of a Long or a Double whose second index is past
///   the pool (4.4.5);
/// - `BadTag` at a tag that no entry has (4.4);
/// - `TrailingBytes` at the first byte after the last attribute.
///
/// What is spelled so is then judged: the places where it uses an index, a text or a name are walked in the order of
/// the file, and the first one that does not hold is reported, with the lower reason where two stand at one offset:
///
/// - `BadIndex` for an index that does not lead to an entry of the right kind (4.1 to 4.7, 4.4.1 to 4.4.10);
/// - `BadUtf8` for a text with a byte 0, or one from 0xF0 on (4.4.7);
/// - `BadDescriptor` for a name or a descriptor that is not in its grammar (4.2, 4.3), an array as the class, its
///   superclass or an interface, and a member with the name and descriptor of an earlier one (4.5, 4.6);
/// - `CodeMissing` and `CodeUnexpected` for the code of a method (4.7.3).
///
/// A fault of an entry stands at its tag, one of a member's or a class's index at that index, `CodeMissing` at the flags
/// of the method, and a fault of an attribute at its first byte. The time taken is linear in the number of bytes, as long
/// as hashes tell texts apart, and a count that promises more than the file holds reserves nothing for it.
pub fn read_class(alloc: Global, bytes: &[u8]) -> Result<ClassFile, ReadFailure>
    // What is read is spelled so, in a version and a size that are read.
    ensures found { IfOk result (SpellsReadable bytes.now) }

    // What is read is sound.
    ensures sound { IfOk result IsSoundClass }

    // What is refused has this fault first.
    ensures refused { IfErr result (IsClassFileRefusal bytes.now) }

    // What is spelled so and sound is read, unless memory runs out.
    ensures only { (c : ClassFile) → SpellsReadable bytes.now c → IsSoundClass c → Tells result (Ok c) }
{
    let class = spelled_class(alloc, bytes)?;
    match first_fault(alloc, &class)? {
        Some((offset, reason)) => Err(Failure::Cause(Fault { offset, reason })),
        None => Ok(class),
    }
}
