//! One instruction of a code array: its opcode, and what its operands say (JVMS 6.5).

ghost use Rattle.std.specs.Prelude.{◌≡◌, ◌≤◌, ◌<◌, ◌^◌, [], ◌∷◌, length, Some, None, Ok, IfOk, IfErr};
ghost use Rattle.failure.specs.declared.Failure.TheVariants.{Cause};
ghost use Rattle.jvm_model.specs.Instructions.{DecodedInstruction, instruction, byte, short, needs, with_operands, widened_by, widened_first, first_instruction};
ghost use Rattle.jvm_model.specs.RowViews.{row_view, operands_view};
ghost use Rattle.jvm_model.specs.declared.reason.Reason.TheVariants.{BadOpcode};
ghost use Rattle.jvm_model.specs.Table.{row_of, type_code, offset_2, offset_4, pool_2_and_dimensions};
ghost use Rattle.code_reader.specs.Decoding.{GivesInstruction};

use crate::number::{after, far_target, near_target, padding, short, word};
use crate::switch::{pairs_switch, table_switch};
use failure::Failure;
use jvm_model::Reason;
use jvm_model::opcode::{Operands, Row, row_of_opcode};
use std::alloc::Global;
use std::marker::Model;

/// Why no instruction is read: for a reason, or out of memory.
pub(crate) type DecodeFailure = Failure<Reason>;

/// An instruction, with its row of the table, and how many bytes it takes. A target is `None` before the code.
#[derive(Drop)]
pub(crate) struct Decoded {
    pub(crate) opcode: u8,
    pub(crate) row: &'static Row,
    pub(crate) operand: u16,
    pub(crate) dimensions: u8,
    pub(crate) targets: Vec<Option<u32>>,
    pub(crate) size: u32,
}

impl Model for Decoded {
    ghost Value = { DecodedInstruction };

    ghost view = { λ d. instruction d.opcode (row_view d.row.now) d.operand d.dimensions d.targets.items d.size };
}

/// An opcode and its row.
#[derive(Clone, Copy)]
pub(crate) struct Operation {
    pub(crate) opcode: u8,
    pub(crate) row: &'static Row,
}

impl Operation {
    /// Its instruction without targets.
    fn plain(self, alloc: Global, operand: u16, dimensions: u8, size: u32) -> Decoded
        ensures { result ≡ instruction self.opcode (row_view self.row.now) operand dimensions [] size }
    {
        Decoded {
            opcode: self.opcode,
            row: self.row,
            operand,
            dimensions,
            targets: Vec::new(alloc),
            size,
        }
    }

    /// Its instruction with a target.
    fn branch(self, alloc: Global, target: Option<u32>, size: u32) -> Result<Decoded, DecodeFailure>
        ensures { GivesInstruction result (Ok (instruction self.opcode (row_view self.row.now) 0 0 (target ∷ []) size)) }
    {
        let mut targets = Vec::new(alloc);
        targets.push(target)?;
        Ok(Decoded {
            opcode: self.opcode,
            row: self.row,
            operand: 0,
            dimensions: 0,
            targets,
            size,
        })
    }

    /// Its instruction without a number, before so many bytes.
    fn without_number(
        self,
        alloc: Global,
        bytes: &[u8],
        count: usize,
        size: u32,
    ) -> Result<Decoded, DecodeFailure>
        ensures { GivesInstruction result (needs count bytes.now (instruction self.opcode (row_view self.row.now) 0 0 [] size)) }
    {
        if bytes.len() < count {
            return Err(CUT);
        }
        Ok(self.plain(alloc, 0, 0, size))
    }

    /// Its instruction with a number of one byte, the first of so many.
    fn with_byte(
        self,
        alloc: Global,
        bytes: &[u8],
        count: usize,
        size: u32,
    ) -> Result<Decoded, DecodeFailure>
        requires { 1 ≤ count }
        ensures { GivesInstruction result (needs count bytes.now (instruction self.opcode (row_view self.row.now) (byte bytes.now) 0 [] size)) }
    {
        if bytes.len() < count {
            return Err(CUT);
        }
        Ok(self.plain(alloc, u16::from(bytes[0]), 0, size))
    }

    /// Its instruction with a number of two bytes, the first of so many.
    fn with_short(
        self,
        alloc: Global,
        bytes: &[u8],
        count: usize,
        size: u32,
    ) -> Result<Decoded, DecodeFailure>
        requires { 2 ≤ count }
        ensures { GivesInstruction result (needs count bytes.now (instruction self.opcode (row_view self.row.now) (short bytes.now) 0 [] size)) }
    {
        if bytes.len() < count {
            return Err(CUT);
        }
        Ok(self.plain(alloc, short(bytes), 0, size))
    }

    /// `newarray`, with the code of a primitive type, 4 to 11.
    fn with_type_code(self, alloc: Global, bytes: &[u8]) -> Result<Decoded, DecodeFailure>
        ensures { GivesInstruction result (with_operands self.opcode (row_view self.row.now) 0 type_code bytes.now) }
    {
        if bytes.is_empty() {
            return Err(CUT);
        }
        let code = bytes[0];
        if code < 4 || 11 < code {
            return Err(WRONG);
        }
        Ok(self.plain(alloc, u16::from(code), 0, 2))
    }

    /// `multianewarray`, with at least one dimension.
    fn with_dimensions(self, alloc: Global, bytes: &[u8]) -> Result<Decoded, DecodeFailure>
        ensures { GivesInstruction result (with_operands self.opcode (row_view self.row.now) 0 pool_2_and_dimensions bytes.now) }
    {
        if bytes.len() < 3 {
            return Err(CUT);
        }
        let dimensions = bytes[2];
        if dimensions == 0 {
            return Err(WRONG);
        }
        Ok(self.plain(alloc, short(bytes), dimensions, 4))
    }

    /// A branch of two bytes from an offset.
    fn near_branch(self, alloc: Global, bytes: &[u8], offset: u32) -> Result<Decoded, DecodeFailure>
        requires { offset < 2 ^ 16 }
        ensures { GivesInstruction result (with_operands self.opcode (row_view self.row.now) offset offset_2 bytes.now) }
    {
        if bytes.len() < 2 {
            return Err(CUT);
        }
        self.branch(alloc, near_target(offset, short(bytes)), 3)
    }

    /// A branch of four bytes from an offset.
    fn far_branch(self, alloc: Global, bytes: &[u8], offset: u32) -> Result<Decoded, DecodeFailure>
        requires { offset < 2 ^ 16 }
        ensures { GivesInstruction result (with_operands self.opcode (row_view self.row.now) offset offset_4 bytes.now) }
    {
        if bytes.len() < 4 {
            return Err(CUT);
        }
        self.branch(alloc, far_target(offset, word(bytes)), 5)
    }

    /// What the prefix `wide` stands before.
    fn widened(self, alloc: Global, bytes: &[u8]) -> Result<Decoded, DecodeFailure>
        ensures { GivesInstruction result (widened_by self.opcode (row_view self.row.now) (operands_view self.row.now.operands) bytes.now) }
    {
        match self.row.operands {
            Operands::Local1 => self.with_short(alloc, bytes, 2, 4),
            Operands::LocalAndValue => self.with_short(alloc, bytes, 4, 6),
            _ => Err(WRONG),
        }
    }

    /// Its instruction at an offset of the code, from the bytes after the opcode.
    fn with_operands(
        self,
        alloc: Global,
        offset: u32,
        bytes: &[u8],
    ) -> Result<Decoded, DecodeFailure>
        requires offset { offset < 2 ^ 16 }
        requires bytes { length bytes.now < 2 ^ 16 }
        ensures { GivesInstruction result (with_operands self.opcode (row_view self.row.now) offset (operands_view self.row.now.operands) bytes.now) }
    {
        match self.row.operands {
            Operands::Nothing => self.without_number(alloc, bytes, 0, 1),
            Operands::Implied(local) => Ok(self.plain(alloc, u16::from(local), 0, 1)),
            Operands::Value1 => self.without_number(alloc, bytes, 1, 2),
            Operands::Value2 => self.without_number(alloc, bytes, 2, 3),
            Operands::TypeCode => self.with_type_code(alloc, bytes),
            Operands::Local1 | Operands::Pool1(_) => self.with_byte(alloc, bytes, 1, 2),
            Operands::Pool2(_) => self.with_short(alloc, bytes, 2, 3),
            Operands::Offset2 => self.near_branch(alloc, bytes, offset),
            Operands::Offset4 => self.far_branch(alloc, bytes, offset),
            Operands::LocalAndValue => self.with_byte(alloc, bytes, 2, 3),
            Operands::Pool2AndCount | Operands::Pool2AndZeros => {
                self.with_short(alloc, bytes, 4, 5)
            }
            Operands::Pool2AndDimensions => self.with_dimensions(alloc, bytes),
            Operands::TableOfOffsets => table_switch(
                alloc,
                self,
                offset,
                after(bytes, padding(offset)),
            ),
            Operands::PairsWithOffsets => pairs_switch(
                alloc,
                self,
                offset,
                after(bytes, padding(offset)),
            ),
            Operands::Widened => widened_first(alloc, bytes),
        }
    }
}

/// The refusal of an instruction that the code cuts off.
const CUT: DecodeFailure = Failure::Cause(Reason::CodeCut);

/// The refusal of an instruction that is none of JVMS 6.5.
const WRONG: DecodeFailure = Failure::Cause(Reason::BadOpcode);

/// The operation of an opcode; the table has none past 201.
fn operation_of(opcode: u8) -> Result<Operation, DecodeFailure>
    ensures found { IfOk result (λ o. (o.opcode ≡ opcode) × (row_of opcode ≡ Some (row_view o.row.now))) }
    ensures wrong { IfErr result (λ e. (e ≡ Cause BadOpcode) × (row_of opcode ≡ None)) }
{
    match row_of_opcode(opcode) {
        Some(row) => Ok(Operation { opcode, row }),
        None => Err(WRONG),
    }
}

/// The instruction that the bytes after the prefix `wide` begin with (JVMS 6.5.wide).
fn widened_first(alloc: Global, bytes: &[u8]) -> Result<Decoded, DecodeFailure>
    ensures { GivesInstruction result (widened_first bytes.now) }
{
    match bytes {
        [opcode, operands @ ..] => operation_of(*opcode)?.widened(alloc, operands),
        [] => Err(CUT),
    }
}

/// The instruction at an offset, which the bytes there begin with.
pub(crate) fn first_instruction(
    alloc: Global,
    offset: u32,
    bytes: &[u8],
) -> Result<Decoded, DecodeFailure>
    requires offset { offset < 2 ^ 16 }
    requires bytes { length bytes.now < 2 ^ 16 }
    ensures { GivesInstruction result (first_instruction offset bytes.now) }
{
    match bytes {
        [opcode, operands @ ..] => operation_of(*opcode)?.with_operands(alloc, offset, operands),
        [] => Err(CUT),
    }
}
