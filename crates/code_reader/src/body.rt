//! The body of a Code attribute (JVMS 4.7.3): two limits, the code, its handlers, and attributes.

ghost use Rattle.std.specs.Prelude.{◌≡◌, ◌<◌, ◌≤◌, ◌+◌, ◌^◌, ◌++◌, ◌∷◌, [], length, map, IfOk};
ghost use Rattle.jvm_model.specs.declared.reason.Fault.{Fault};
ghost use Rattle.byte_reader.specs.Reading.{Place, Gives, Tells, Reads};
ghost use Rattle.code_reader.specs.Bodies.{head_view, IsInCode, TellsBody};
ghost use Rattle.code_reader.specs.CodeReading.{Head as CodeHead, code_length_at, head_at, tail_at, cut_of_code, known_targets, placed};
ghost use Rattle.code_reader.specs.Divided.{KnowsStarts};

use crate::division::{Division, divide};
use crate::fault::{Locals, first_fault};
use crate::handler::handlers;
use crate::spot::Spot;
use byte_reader::{Input, table};
use failure::Failure;
use jvm_model::reason::fault_at;
use jvm_model::{
    Attribute, Code, Fault, Handler, Instruction, PlacedInstruction, PoolEntry, ReadFailure,
    Reason, Sequence,
};
use std::alloc::{AllocError, Global};

/// What stands before the handlers, and the file offset of the first byte of the code.
#[derive(Clone, Copy)]
struct Head<'a> {
    max_stack: u16,
    max_locals: u16,
    at: u32,
    bytes: &'a [u8],
}

/// The length of the code: 1 to 65,535.
#[tactic(auto, unfolding(crate::specs::CodeReading::code_length_at))]
fn code_length(input: &mut Input) -> Result<u32, ReadFailure>
    ensures exact { Reads result input.new (code_length_at input.old) }
    ensures limit { IfOk result (λ long. long ≤ 65535) }
{
    let offset = input.offset();
    let long = input.u4()?;
    if long == 0 || 65_535 < long {
        return Err(fault_at(offset, Reason::CodeCut));
    }
    Ok(long)
}

/// What stands before the handlers.
#[tactic(auto, unfolding(crate::specs::CodeReading::head_at))]
fn read_head<'a>(input: &mut Input<'a>) -> Result<Head<'a>, ReadFailure>
    ensures exact { Gives head_view result input.new (head_at input.old) }
    ensures limit { IfOk result (λ head. length head.bytes.now ≤ 65535) }
    ensures inside { IfOk result (λ head. head.at + length head.bytes.now < 2 ^ 32) }
{
    let max_stack = input.u2()?;
    let max_locals = input.u2()?;
    let long = code_length(input)?;
    let at = input.offset();
    let bytes = input.take(long as usize)?;
    Ok(Head {
        max_stack,
        max_locals,
        at,
        bytes,
    })
}

/// What stands after code that has so many bytes and is divided so: its handlers, and attributes, which are not looked
/// into.
#[tactic(auto, unfolding(crate::specs::CodeReading::tail_at))]
fn tail(
    input: &mut Input,
    alloc: Global,
    pool: &[PoolEntry],
    long: u32,
    division: &Division,
) -> Result<Sequence<Handler>, ReadFailure>
    requires { KnowsStarts division.now }
    ensures { Tells result (tail_at pool.now long division.now.spots.items input.old) }
{
    let handlers = handlers(input, alloc, pool, long, division)?;
    let _attributes: Sequence<Attribute> = table(input, alloc)?;
    if !input.is_empty() {
        return Err(fault_at(input.offset(), Reason::CodeCut));
    }
    Ok(handlers)
}

/// A refusal in the body: a field that is cut off is a cut of the code.
fn in_code(refusal: ReadFailure) -> ReadFailure
    ensures { IsInCode refusal result }
{
    match refusal {
        Failure::Cause(
            Fault {
                offset,
                reason: Reason::Truncated,
            },
        ) => {
            Failure::Cause(Fault {
                offset,
                reason: Reason::CodeCut,
            })
        }
        other => other,
    }
}

/// The targets of an instruction, those in the code.
fn known_targets(alloc: Global, targets: &[Option<u32>]) -> Result<Sequence<u32>, AllocError>
    ensures { IfOk result (λ known. known ≡ known_targets targets.now) }
{
    let mut known = Vec::new(alloc);
    for target in targets {
        push_known(&mut known, *target)?;
    }
    Ok(Sequence::from_vec(known))
}

/// Adds a target, if it is in the code.
fn push_known(known: &mut Vec<u32>, target: Option<u32>) -> Result<(), AllocError>
    ensures { IfOk result (λ _. known.new.items ≡ known.old.items ++ known_targets (target ∷ [])) }
{
    match target {
        Some(offset) => known.push(offset)?,
        None => {}
    }
    Ok(())
}

/// An instruction as it is given.
fn placed(alloc: Global, spot: Spot) -> Result<PlacedInstruction, AllocError>
    ensures { IfOk result (λ given. given ≡ placed spot) }
{
    let Spot { offset, decoded } = spot;
    Ok(PlacedInstruction {
        offset,
        instruction: Instruction {
            opcode: decoded.opcode,
            operand: u32::from(decoded.operand),
            dimensions: decoded.dimensions,
            targets: known_targets(alloc, &decoded.targets)?,
        },
    })
}

/// Instructions as they are given.
fn all_placed(alloc: Global, spots: Vec<Spot>) -> Result<Sequence<PlacedInstruction>, AllocError>
    ensures { IfOk result (λ given. given ≡ map placed spots.items) }
{
    let mut given = Vec::new(alloc);
    for spot in spots {
        given.push(placed(alloc, spot)?)?;
    }
    Ok(Sequence::from_vec(given))
}

/// The code that the body of a Code attribute spells, which stands at a file offset, in a method whose parameters take
/// so many local variables; or its first fault.
pub(crate) fn read_body(
    alloc: Global,
    pool: &[PoolEntry],
    parameters: u16,
    place: u32,
    body: &[u8],
) -> Result<Code, ReadFailure>
    requires { place + length body.now < 2 ^ 32 }
    ensures { TellsBody pool.now parameters (record { offset = place; rest = body.now }) result }
{
    let mut input = Input::at(place, body);
    let head = match read_head(&mut input) {
        Ok(head) => head,
        Err(refusal) => return Err(in_code(refusal)),
    };
    let division = divide(alloc, pool, head.bytes)?;
    let locals = Locals {
        limit: head.max_locals,
        parameters,
    };
    match first_fault(pool, locals, &division) {
        Some((offset, reason)) => return Err(Failure::Cause(Fault {
            offset: head.at + offset,
            reason,
        })),
        None => {}
    }
    let handlers = match tail(&mut input, alloc, pool, head.bytes.len() as u32, &division) {
        Ok(handlers) => handlers,
        Err(refusal) => return Err(in_code(refusal)),
    };
    let Division { spots, .. } = division;
    Ok(Code {
        at: head.at,
        instructions: all_placed(alloc, spots)?,
        handlers,
        max_stack: head.max_stack,
        max_locals: head.max_locals,
    })
}
