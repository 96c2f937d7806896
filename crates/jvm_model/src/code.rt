//! The code of a method as a list of instructions (JVMS 4.7.3, 6.5).

use crate::sequence::Sequence;

/// An instruction. `operand` is an index of the constant pool, a local variable or the code of a primitive type, and
/// else 0; `dimensions` are those of `multianewarray`, and else 0. `targets` are offsets in the code, in the order of
/// the operands, the default of a switch first. Constants that stand in the code are dropped. What the prefix `wide`
/// stands before is given as that instruction.
#[derive(Debug, Drop)]
pub struct Instruction {
    pub opcode: u8,
    pub operand: u32,
    pub dimensions: u8,
    pub targets: Sequence<u32>,
}

/// An instruction and its offset, counted from the first byte of the code.
#[derive(Debug, Drop)]
pub struct PlacedInstruction {
    pub offset: u32,
    pub instruction: Instruction,
}

/// An entry of the table of exception handlers (JVMS 4.7.3): it covers the code from `start` to before `finish`, and
/// begins at `target`, all offsets in the code; `catch_type` is the pool index of the class that it takes, or 0 where
/// it takes each.
#[derive(Clone, Copy, Debug, PartialEq, Eq)]
pub struct Handler {
    pub start: u32,
    pub finish: u32,
    pub target: u32,
    pub catch_type: u16,
}

/// The code of a method. `at` is the file offset of its first byte, the instructions stand in the order of their
/// offsets, the handlers in that of their table, and the limits are in units (JVMS 2.6.1, 2.6.2).
#[derive(Debug, Drop)]
pub struct Code {
    pub at: u32,
    pub instructions: Sequence<PlacedInstruction>,
    pub handlers: Sequence<Handler>,
    pub max_stack: u16,
    pub max_locals: u16,
}
