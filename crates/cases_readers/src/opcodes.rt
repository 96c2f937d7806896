//! The rows of the instruction table: for each opcode its mnemonic, the bytes of the instruction, the units that it pops and pushes,
//! how many of those that it pops are references, the units that it stores into local variables, the local variable that the opcode names,
//! where it goes on, and what it raises. What it must print was taken from chapter 6 of the JVM Specification, SE 8. A 0 for the bytes is
//! a length that varies; of what is refused, and of units that depend on an operand, a row says nothing, and 0 is printed.

use anyhow::Result;
use jvm_model::opcode::{Action, Operands, Row, UnitKind, row_of_opcode};
use std::alloc::Global;

/// Prints the row of each opcode that has one.
pub fn tell_opcodes<R: Print>(rt: &R, alloc: Global) -> Result<()> {
    for opcode in 0..=255 {
        if let Some(row) = row_of_opcode(opcode) {
            let line = line_of(alloc, opcode, &row)?;
            println!(rt; "{line}")?;
        }
    }
    Ok(())
}

/// The line of a row.
fn line_of(alloc: Global, opcode: u8, row: &Row) -> Result<String> {
    let mnemonic = row.mnemonic;
    let bytes = bytes_with(row.operands);
    if row.action == Action::Refused {
        return Ok(format!(in alloc; "{opcode} {mnemonic}: {bytes} bytes, refused")?);
    }
    let (popped, pushed) = (row.pops.len(), row.pushes.len());
    let references = references_of(row.pops);
    let (stored, flow, raises) = (row.stores.len(), row.flow, row.raises);
    let local = local_of(alloc, row.operands)?;
    let line = format!(in alloc;
        "{opcode} {mnemonic}: {bytes} bytes, pops {popped} ({references} references), pushes {pushed}, stores {stored}{local}, {flow:?}, {raises:?}"
    )?;
    Ok(line)
}

/// How many of the units are references.
fn references_of(units: &[UnitKind]) -> usize {
    units
        .iter()
        .filter(|kind| **kind == UnitKind::Reference)
        .count()
}

/// The local variable that the opcode itself names, if it does.
fn local_of(alloc: Global, operands: Operands) -> Result<String> {
    match operands {
        Operands::Implied(local) => Ok(format!(in alloc; " at {local}")?),
        _ => Ok(String::new(alloc)),
    }
}

/// The bytes of an instruction, its opcode among them; 0 where they depend on where it stands, or on the instruction behind it.
fn bytes_with(operands: Operands) -> usize {
    match operands {
        Operands::Nothing | Operands::Implied(_) => 1,
        Operands::Value1 | Operands::TypeCode | Operands::Local1 | Operands::Pool1(_) => 2,
        Operands::Value2 | Operands::Pool2(_) | Operands::Offset2 | Operands::LocalAndValue => 3,
        Operands::Pool2AndDimensions => 4,
        Operands::Offset4 | Operands::Pool2AndCount | Operands::Pool2AndZeros => 5,
        Operands::TableOfOffsets | Operands::PairsWithOffsets | Operands::Widened => 0,
    }
}
