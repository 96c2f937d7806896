//! Where an instruction stands.

use jvm_model::opcode::Row;
use jvm_model::{ClassFile, ClassNo, Instruction, MethodNo};
use lowering_reasons::NamedMember;
use program_model::program::Program;

/// An instruction that is reached, with all that its operation depends on.
#[derive(Clone, Copy)]
pub struct Placement<'a> {
    pub program: &'a Program,
    /// The method that has the instruction, and the class of the method.
    pub method: MethodNo,
    pub current: ClassNo,
    /// The class file that has the code.
    pub class: &'a ClassFile,
    pub instruction: &'a Instruction,
    /// The row of the opcode.
    pub row: &'static Row,
    /// The member that the instruction names.
    pub member: NamedMember,
    /// An offset in the code.
    pub offset: u32,
    /// The slot above the topmost unit of the operand stack, before the instruction: as many as there are local variables and units.
    pub top: u32,
}
