//! The code of a method that is made by hand. The program `cases_readers` tells what reading tells of others.

use crate::one_method::class_of;
use code_reader::{method_offset, read_code, read_code_at};
use jvm_model::Code;
use std::process::Abort;
use std::test::*;

/// Code with `nop` and `return`, without handlers and attributes.
const BODY: [u8; 14] = [0, 2, 0, 1, 0, 0, 0, 2, 0, 177, 0, 0, 0, 0];

/// What is told of the code.
fn look_at_code(rt: &impl Abort, code: &Code) {
    assert_eq!(rt; (code.at, code.max_stack, code.max_locals), (68, 2, 1));
    assert_eq!(rt; (code.instructions.len(), code.handlers.len()), (2, 0));
}

#[test]
fn the_code_of_a_method_is_read(rt: HostRuntime) -> Result<(), Fail> {
    let class = class_of(rt.alloc(), &BODY)?;
    look_at_code(&rt, &read_code(rt.alloc(), &class, 0)?);
    Ok(())
}

#[test]
fn the_code_of_a_method_is_read_where_it_stands(rt: HostRuntime) -> Result<(), Fail> {
    let class = class_of(rt.alloc(), &BODY)?;
    let offset = method_offset(&class, 0);
    look_at_code(&rt, &read_code_at(rt.alloc(), &class, 0, offset)?);
    Ok(())
}
