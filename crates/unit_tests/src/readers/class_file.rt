//! A call of `read_class`, on a class file without members. The program `cases_readers` tells what it tells of others.

use classfile_reader::{CLASS_FILE_LIMIT, read_class};
use jvm_model::ClassFile;
use std::process::Abort;
use std::test::*;

/// A class A, whose superclass is java/lang/Object.
static CLASS: [u8; 53] = [
    0xca, 0xfe, 0xba, 0xbe, 0x00, 0x00, 0x00, 0x34, 0x00, 0x05, 0x01, 0x00, 0x01, 0x41, 0x07, 0x00,
    0x01, 0x01, 0x00, 0x10, 0x6a, 0x61, 0x76, 0x61, 0x2f, 0x6c, 0x61, 0x6e, 0x67, 0x2f, 0x4f, 0x62,
    0x6a, 0x65, 0x63, 0x74, 0x07, 0x00, 0x03, 0x00, 0x21, 0x00, 0x02, 0x00, 0x04, 0x00, 0x00, 0x00,
    0x00, 0x00, 0x00, 0x00, 0x00,
];

/// The class as bytes, of which the proof of a test need not know each.
fn class() -> &'static [u8] {
    &CLASS
}

/// What is told of the class.
fn look_at_class(rt: &impl Abort, class: &ClassFile) {
    assert_eq!(rt; (class.minor, class.major, class.flags), (0, 52, 0x21));
    assert_eq!(rt; (class.this_class, class.super_class), (2, 4));
    assert_eq!(rt; (class.pool.len(), class.methods.len()), (4, 0));
}

#[test]
fn a_class_is_read(rt: HostRuntime) -> Result<(), Fail> {
    assert!(rt; class().len() < CLASS_FILE_LIMIT as usize);
    look_at_class(&rt, &read_class(rt.alloc(), class())?);
    Ok(())
}
