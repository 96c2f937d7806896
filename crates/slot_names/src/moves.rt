//! What operations do to slots, as moves. A slot that is written otherwise is one that gets a primitive.

ghost use Rattle.std.specs.Prelude.{◌≡◌, [], ◌∷◌, ◌++◌, map, IfOk, OnOk};
ghost use Rattle.std.specs.Option.{option_to_list};
ghost use Rattle.op_model.specs.declared.op.Op.TheVariants as operations;
ghost use Rattle.slot_names.specs.OperationMoves.{erasing, moves_of};

use op_model::{Call, Move, Op, Source};
use std::alloc::{AllocError, Global};

/// What an operation does to slots. The first move of a slot decides.
pub(crate) fn moves_of(alloc: Global, op: &Op) -> Result<Vec<Move>, AllocError>
    ensures { IfOk result (λ v. v.items ≡ moves_of op.now) }
{
    match op {
        Op::Assign(moves) => Vec::from_slice(alloc, moves.as_slice()),
        Op::Load {
            object,
            field: _,
            target,
        } => erasing_both(alloc, *object, *target),
        Op::Store {
            object,
            field: _,
            value,
        } => erasing_both(alloc, *object, *value),
        Op::LoadElement { array, target } => erasing_both(alloc, *array, *target),
        Op::StoreElement { array, value } => erasing_both(alloc, *array, *value),
        Op::LoadStatic { field: _, target } => erasing_one(alloc, *target),
        Op::StoreStatic { field: _, value } => erasing_one(alloc, *value),
        Op::New { site: _, target } => erasing_one(alloc, *target),
        Op::NewArray { sites: _, target } => erasing_one(alloc, *target),
        Op::Constant { site: _, target } => erasing_one(alloc, *target),
        Op::Call(call) => moves_of_call(alloc, call),
        Op::Return { value } => erasing_any(alloc, *value),
        Op::Throw { value } => erasing_one(alloc, *value),
        Op::Cast { class: _, slot } => erasing_one(alloc, *slot),
        Op::Probe { slot } => erasing_one(alloc, *slot),
    }
}

/// The result's slot, if there is one, and those of the arguments.
fn moves_of_call(alloc: Global, call: &Call) -> Result<Vec<Move>, AllocError>
    ensures { IfOk result (λ v. v.items ≡ moves_of (operations.Call call.now)) }
{
    let mut moves = erasing_any(alloc, call.result)?;
    for argument in call.arguments.as_slice() {
        add_erasing(&mut moves, *argument)?;
    }
    Ok(moves)
}

/// The move of a primitive into a slot.
fn erasing(slot: u32) -> Move
    ensures { result ≡ erasing slot }
{
    Move {
        source: Source::Primitive,
        target: slot,
    }
}

fn erasing_one(alloc: Global, slot: u32) -> Result<Vec<Move>, AllocError>
    ensures { IfOk result (λ v. v.items ≡ erasing slot ∷ []) }
{
    Ok(vec![in alloc; erasing(slot)]?)
}

fn erasing_both(alloc: Global, first: u32, second: u32) -> Result<Vec<Move>, AllocError>
    ensures { IfOk result (λ v. v.items ≡ erasing first ∷ erasing second ∷ []) }
{
    Ok(vec![in alloc; erasing(first), erasing(second)]?)
}

fn erasing_any(alloc: Global, slot: Option<u32>) -> Result<Vec<Move>, AllocError>
    ensures { IfOk result (λ v. v.items ≡ map erasing (option_to_list slot)) }
{
    let mut moves = Vec::new(alloc);
    add_erasing(&mut moves, slot)?;
    Ok(moves)
}

/// Adds the move of a primitive into a slot, if there is one.
fn add_erasing(moves: &mut Vec<Move>, slot: Option<u32>) -> Result<(), AllocError>
    ensures { OnOk result (moves.new.items ≡ moves.old.items ++ map erasing (option_to_list slot)) }
{
    if let Some(slot) = slot {
        moves.push(erasing(slot))?;
    }
    Ok(())
}
