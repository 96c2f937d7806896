//! The moves of an instruction that only pops and writes units: what it stores, what it pushes, and the popped units beyond that,
//! whose slots become those of primitives.

ghost use Rattle.std.specs.Prelude.{◌≡◌, ◌+◌, ◌<◌, ◌≤◌, ◌^◌, ◌++◌, length, map, IfOk, OnOk};
ghost use Rattle.jvm_model.specs.RowViews.{row_view, source_view};
ghost use Rattle.op_model.specs.declared.op.Op.TheVariants.{Assign};
ghost use Rattle.lowering_operations.specs.MoveLists.{source_of, move_to, moves_from, cleared_from, moves_of};

use jvm_model::Sequence;
use jvm_model::opcode::{Row, UnitSource};
use op_model::{Move, Op, Source};
use std::alloc::{AllocError, Global};

/// The moves of a row whose lowest popped unit is the slot `base`; the operand names a local variable (JVMS 6.5).
pub(crate) fn moves_of(
    alloc: Global,
    row: &Row,
    operand: u32,
    base: u32,
) -> Result<Vec<Move>, AllocError>
    requires operand { operand < 2 ^ 16 }
    requires base { base < 2 ^ 18 }
    requires pops { length row.now.pops.now ≤ 255 }
    requires pushes { length row.now.pushes.now ≤ 255 }
    requires stores { length row.now.stores.now ≤ 255 }
    ensures { IfOk result (λ moves. moves.items ≡ moves_of (row_view row.now) operand base) }
{
    let mut moves = Vec::new(alloc);
    push_moves(&mut moves, row.stores, operand, operand, base)?;
    push_moves(&mut moves, row.pushes, base, operand, base)?;
    let pushed = row.pushes.len() as u32;
    let popped = row.pops.len() as u32;
    push_cleared(&mut moves, base + pushed, popped.saturating_sub(pushed))?;
    Ok(moves)
}

/// The operation by which so many slots, from one on, become those of primitives.
pub(crate) fn cleared(alloc: Global, start: u32, count: u32) -> Result<Op, AllocError>
    requires { start + count < 2 ^ 32 }
    ensures { IfOk result (λ op. op ≡ Assign (cleared_from count start)) }
{
    let mut moves = Vec::new(alloc);
    push_cleared(&mut moves, start, count)?;
    Ok(Op::Assign(Sequence::from_vec(moves)))
}

/// What a unit is read from.
fn source_of(source: UnitSource, operand: u32, base: u32) -> Source
    requires { base < 2 ^ 18 }
    ensures { result ≡ source_of operand base (source_view source) }
{
    match source {
        UnitSource::Popped(unit) => Source::Slot(base + u32::from(unit)),
        UnitSource::Local => Source::Slot(operand),
        UnitSource::Null => Source::Null,
        UnitSource::Primitive | UnitSource::Made => Source::Primitive,
    }
}

/// Adds a move, unless it is one of a slot to itself.
fn push_move(moves: &mut Vec<Move>, source: Source, target: u32) -> Result<(), AllocError>
    ensures { OnOk result (moves.new.items ≡ moves.old.items ++ move_to source target) }
{
    match source {
        Source::Slot(slot) if slot == target => Ok(()),
        _ => {
            moves.push(Move { source, target })?;
            Ok(())
        }
    }
}

/// Adds the moves of units that are written from a slot on.
fn push_moves(
    moves: &mut Vec<Move>,
    units: &[UnitSource],
    start: u32,
    operand: u32,
    base: u32,
) -> Result<(), AllocError>
    requires base { base < 2 ^ 18 }
    requires finish { start + length units.now < 2 ^ 32 }
    ensures { OnOk result (moves.new.items ≡ moves.old.items ++ moves_from operand base start (map source_view units.now)) }
{
    let mut target = start;
    for unit in units {
        push_move(moves, source_of(*unit, operand, base), target)?;
        target += 1;
    }
    Ok(())
}

/// Adds the moves by which so many slots, from one on, become those of primitives.
fn push_cleared(moves: &mut Vec<Move>, start: u32, count: u32) -> Result<(), AllocError>
    requires { start + count < 2 ^ 32 }
    ensures { OnOk result (moves.new.items ≡ moves.old.items ++ cleared_from count start) }
{
    for k in 0..count {
        moves.push(Move {
            source: Source::Primitive,
            target: start + k,
        })?;
    }
    Ok(())
}
