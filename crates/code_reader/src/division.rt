//! The division of a code array into instructions (JVMS 4.7.3, 4.9.1), and where they start.

ghost use Rattle.std.specs.Prelude.{◌≡◌, ◌<◌, ◌≤◌, ◌^◌, length, IfOk};
ghost use Rattle.failure.specs.declared.Failure.TheVariants.{Cause};
ghost use Rattle.jvm_model.specs.InstructionUses.{brackets, within_dimensions};
ghost use Rattle.code_reader.specs.Decoding.{GivesInstruction};
ghost use Rattle.code_reader.specs.Division.{instruction_in, starts, is_behind, is_target};
ghost use Rattle.code_reader.specs.Divided.{IsDivision, KnowsStarts};

use crate::decode::{DecodeFailure, Decoded, first_instruction};
use crate::spot::Spot;
use failure::Failure;
use jvm_model::grammar::{dimensions_of, is_array};
use jvm_model::lookup::class_name_at;
use jvm_model::{PoolEntry, Reason};
use std::alloc::{AllocError, Global};

/// The instructions of a code array; for each of its bytes, whether an instruction starts there; and where and why the
/// division ends before the code does.
#[derive(Drop)]
pub(crate) struct Division {
    pub(crate) spots: Vec<Spot>,
    pub(crate) starts: Vec<bool>,
    pub(crate) stop: Option<(u32, Reason)>,
}

impl Division {
    /// Whether an instruction starts at an offset.
    pub(crate) fn starts_at(&self, offset: u32) -> bool
        requires { KnowsStarts self.now }
        ensures { result ≡ starts self.now.spots.items offset }
    {
        match self.starts.get(offset as usize) {
            Some(starts) => *starts,
            None => false,
        }
    }

    /// Whether an offset is not before the one at which the division ended early.
    fn is_behind(&self, offset: u32) -> bool
        ensures { result ≡ is_behind self.now.stop offset }
    {
        match self.stop {
            Some((stop, _)) => stop <= offset,
            None => false,
        }
    }

    /// Whether a branch may lead to a place, which is `None` before the code.
    pub(crate) fn is_target(&self, target: Option<u32>) -> bool
        requires { KnowsStarts self.now }
        ensures { result ≡ is_target self.now.spots.items self.now.stop target }
    {
        match target {
            Some(offset) => self.starts_at(offset) || self.is_behind(offset),
            None => false,
        }
    }
}

/// The division of a code array.
pub(crate) fn divide(alloc: Global, pool: &[PoolEntry], code: &[u8]) -> Result<Division, AllocError>
    requires { length code.now < 2 ^ 16 }
    ensures { IfOk result (IsDivision pool.now code.now) }
{
    let mut spots = Vec::new(alloc);
    let mut starts = vec![in alloc; false; code.len()]?;
    let mut offset = 0;
    while offset < code.len() {
        match instruction_in(alloc, pool, code, offset) {
            Ok(decoded) => {
                starts[offset] = true;
                let size = decoded.size as usize;
                spots.push(Spot {
                    offset: offset as u32,
                    decoded,
                })?;
                offset += size;
            }
            Err(failure) => {
                let reason = reason_of(failure)?;
                return Ok(Division {
                    spots,
                    starts,
                    stop: Some((offset as u32, reason)),
                });
            }
        }
    }
    Ok(Division {
        spots,
        starts,
        stop: None,
    })
}

/// The reason why no instruction stands there; or out of memory.
fn reason_of(failure: DecodeFailure) -> Result<Reason, AllocError>
    ensures { IfOk result (λ reason. failure ≡ Cause reason) }
{
    match failure {
        Failure::Cause(reason) => Ok(reason),
        Failure::OutOfMemory => Err(AllocError),
    }
}

/// The instruction at an offset of a code array.
fn instruction_in(
    alloc: Global,
    pool: &[PoolEntry],
    code: &[u8],
    offset: usize,
) -> Result<Decoded, DecodeFailure>
    requires offset { offset ≤ length code.now }
    requires code { length code.now < 2 ^ 16 }
    ensures { GivesInstruction result (instruction_in pool.now code.now offset) }
{
    let decoded = first_instruction(alloc, offset as u32, &code[offset..])?;
    if !within_dimensions(pool, &decoded) {
        return Err(Failure::Cause(Reason::BadOpcode));
    }
    Ok(decoded)
}

/// Whether an instruction has no more dimensions than the array that it names (JVMS 6.5.multianewarray).
fn within_dimensions(pool: &[PoolEntry], decoded: &Decoded) -> bool
    ensures { result ≡ within_dimensions pool.now decoded.now }
{
    match class_name_at(pool, decoded.operand) {
        Some(name) => !is_array(name) || usize::from(decoded.dimensions) <= brackets(name),
        None => true,
    }
}

/// How many `[` a text begins with (JVMS 4.3.2).
fn brackets(text: &[u8]) -> usize
    ensures { result ≡ brackets text.now }
{
    match dimensions_of(text) {
        Some(count) => count,
        None => text.len(),
    }
}
