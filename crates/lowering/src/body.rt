//! The method that is lowered, and its instructions once they are judged.

use jvm_model::opcode::Row;
use jvm_model::{ClassFile, ClassNo, Code, MethodNo, PlacedInstruction};
use lowering_reasons::NamedMember;
use program_model::program::Program;

/// A method of the program, its class, the class file that has it, and its code.
#[derive(Clone, Copy)]
pub(crate) struct MethodCode<'a> {
    pub(crate) program: &'a Program,
    pub(crate) method: MethodNo,
    pub(crate) current: ClassNo,
    pub(crate) class: &'a ClassFile,
    pub(crate) code: &'a Code,
}

/// The instruction of a step of the flow graph, of which nothing is wrong, with the row of its opcode and the member that it names.
#[derive(Clone, Copy)]
pub(crate) struct JudgedStep<'a> {
    pub(crate) placed: &'a PlacedInstruction,
    pub(crate) row: &'static Row,
    pub(crate) member: NamedMember,
}
