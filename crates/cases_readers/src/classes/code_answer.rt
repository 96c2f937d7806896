//! The code of a method, as text.

ghost use Rattle.std.specs.Prelude.{◌≡◌, ◌<◌, ◌^◌, length, IsTrue};
ghost use Rattle.std.specs.List.{list_any};
ghost use Rattle.jvm_model.specs.Layout.{HasCodeAttribute};
ghost use Rattle.jvm_model.specs.Soundness.{is_code, IsSoundClass};
ghost use Rattle.jvm_model.specs.Spelling.{spell};

use code_reader::read_code;
use jvm_model::layout::is_code;
use jvm_model::{Attribute, ClassFile, Code, Handler, PlacedInstruction, PoolEntry, ReadFailure};
use std::alloc::{AllocError, Global};

/// What the code of the first method tells, if it has one.
pub fn told_code(alloc: Global, class: &ClassFile) -> Result<String, ReadFailure>
    requires sound { IsSoundClass class.now }
    requires size { length (spell class.now) < 2 ^ 32 }
{
    if !has_code(class) {
        return Ok(format!(in alloc; "no code")?);
    }
    let code = read_code(alloc, class, 0)?;
    Ok(told(alloc, &code)?)
}

/// Whether the first method has code.
pub fn has_code(class: &ClassFile) -> bool
    ensures { IsTrue result → HasCodeAttribute class.now 0 }
{
    match class.methods.as_slice().get(0) {
        Some(method) => any_code(class.pool.as_slice(), method.attributes.as_slice()),
        None => false,
    }
}

/// Whether one of the attributes is named Code.
fn any_code(pool: &[PoolEntry], attributes: &[Attribute]) -> bool
    ensures { result ≡ list_any (is_code pool.now) attributes.now }
{
    attributes.iter().any(|attribute| is_code(pool, attribute))
}

/// Where the code stands, its limits, its instructions, and its handlers.
fn told(alloc: Global, code: &Code) -> Result<String, AllocError> {
    let mut text = String::new(alloc);
    tell_limits(&mut text, code)?;
    tell_instructions(&mut text, code.instructions.as_slice())?;
    tell_handlers(&mut text, code.handlers.as_slice())?;
    Ok(text)
}

/// Adds where the code stands, and its limits.
fn tell_limits(text: &mut String, code: &Code) -> Result<(), AllocError> {
    write!(text, "at {} stack {}", code.at, code.max_stack)?;
    write!(text, " locals {}", code.max_locals)
}

/// Adds how many instructions there are, and each but the `nop` that follow another.
fn tell_instructions(
    text: &mut String,
    instructions: &[PlacedInstruction],
) -> Result<(), AllocError> {
    write!(text, " instructions {}:", instructions.len())?;
    let mut after_nop = false;
    for placed in instructions {
        let is_nop = placed.instruction.opcode == 0;
        if !(is_nop && after_nop) {
            tell_instruction(text, placed)?;
        }
        after_nop = is_nop;
    }
    Ok(())
}

/// Adds an instruction: its offset and its opcode; its operand and its dimensions, if they are not 0; and its targets.
fn tell_instruction(text: &mut String, placed: &PlacedInstruction) -> Result<(), AllocError> {
    let given = &placed.instruction;
    write!(text, " {}:{:02x}", placed.offset, given.opcode)?;
    tell_unless_0(text, "#", given.operand)?;
    tell_unless_0(text, "x", u32::from(given.dimensions))?;
    tell_targets(text, given.targets.as_slice())
}

/// Adds a mark and a number, if it is not 0.
fn tell_unless_0(text: &mut String, mark: &str, number: u32) -> Result<(), AllocError> {
    if number == 0 {
        return Ok(());
    }
    write!(text, "{mark}{number}")
}

/// Adds the targets of an instruction.
fn tell_targets(text: &mut String, targets: &[u32]) -> Result<(), AllocError> {
    for target in targets {
        write!(text, ">{target}")?;
    }
    Ok(())
}

/// Adds handlers.
fn tell_handlers(text: &mut String, handlers: &[Handler]) -> Result<(), AllocError> {
    for handler in handlers {
        tell_handler(text, handler)?;
    }
    Ok(())
}

/// Adds a handler: what it covers, where it begins, and the class that it takes.
fn tell_handler(text: &mut String, handler: &Handler) -> Result<(), AllocError> {
    write!(text, " handler {}-{}", handler.start, handler.finish)?;
    write!(text, ">{} takes {}", handler.target, handler.catch_type)
}
