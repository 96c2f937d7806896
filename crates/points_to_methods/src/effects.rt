//! What an operation does to a slot.

ghost use Rattle.std.specs.Prelude.{◌≡◌, ℕ, ◌++◌, [], ◌∷◌, nat_eq, find, Option, if◌then◌else◌};
ghost use Rattle.std.specs.List.{list_any};
ghost use Rattle.std.specs.Option.{option_to_list};
ghost use Rattle.machine_nodes.specs.Slots.{argument_slots};
ghost use Rattle.op_model.specs.declared.op.Move.{Move};
ghost use Rattle.points_to_methods.specs.Slots.{effect_of, effect_of_writes};
ghost use Rattle.slot_names.specs.Variables.{effect_of_move, effect_of_source, effect_on, writes, keeps};

use op_model::{Call, Move, Op, Source};

/// What an operation does to a slot: it keeps the slot, moves another one into it, or writes it otherwise.
#[derive(Clone, Copy)]
pub(crate) enum Effect {
    Keeps,
    Moves(u32),
    Writes,
}

/// What an operation does to a slot.
pub(crate) fn effect_on(slot: u32, op: &Op) -> Effect
    ensures { effect_of result ≡ effect_on slot op.now }
{
    match op {
        Op::Assign(moves) => effect_of_moves(slot, moves.as_slice()),
        Op::Load {
            object,
            field: _,
            target,
        } => effect_of_two(slot, *object, *target),
        Op::Store {
            object,
            field: _,
            value,
        } => effect_of_two(slot, *object, *value),
        Op::LoadElement { array, target } => effect_of_two(slot, *array, *target),
        Op::StoreElement { array, value } => effect_of_two(slot, *array, *value),
        Op::LoadStatic { field: _, target } => effect_of_one(slot, *target),
        Op::StoreStatic { field: _, value } => effect_of_one(slot, *value),
        Op::New { site: _, target } => effect_of_one(slot, *target),
        Op::NewArray { sites: _, target } => effect_of_one(slot, *target),
        Op::Constant { site: _, target } => effect_of_one(slot, *target),
        Op::Call(call) => effect_of_call(slot, call),
        Op::Return { value } => effect_of_writes(is_in(*value, slot)),
        Op::Throw { value } => effect_of_one(slot, *value),
        Op::Cast {
            class: _,
            slot: cast,
        } => effect_of_one(slot, *cast),
        Op::Probe { slot: probed } => effect_of_one(slot, *probed),
    }
}

/// What moves do to a slot that are made in parallel: the first move of the slot decides.
fn effect_of_moves(slot: u32, moves: &[Move]) -> Effect
    ensures { effect_of result ≡ effect_of_move (find (λ (m : Move). nat_eq m.target slot) moves.now) }
{
    for next in moves {
        if next.target == slot {
            return effect_of_source(next.source);
        }
    }
    Effect::Keeps
}

/// What the move of a source does to the slot that gets it.
fn effect_of_source(source: Source) -> Effect
    ensures { effect_of result ≡ effect_of_source source }
{
    match source {
        Source::Slot(slot) => Effect::Moves(slot),
        Source::Null | Source::Primitive => Effect::Writes,
    }
}

/// What an operation that is no assignment does to a slot, which it writes or not.
fn effect_of_writes(is_written: bool) -> Effect
    ensures { effect_of result ≡ (if is_written then writes else keeps) }
{
    if is_written {
        Effect::Writes
    } else {
        Effect::Keeps
    }
}

/// What an operation does to a slot that writes one slot.
fn effect_of_one(slot: u32, written: u32) -> Effect
    ensures { effect_of result ≡ effect_of_writes slot (written ∷ []) }
{
    effect_of_writes(written == slot)
}

/// What an operation does to a slot that writes two slots.
fn effect_of_two(slot: u32, first: u32, second: u32) -> Effect
    ensures { effect_of result ≡ effect_of_writes slot (first ∷ second ∷ []) }
{
    if first == slot {
        return Effect::Writes;
    }
    effect_of_one(slot, second)
}

/// What a call does to a slot: it writes that of its result and those of its arguments.
fn effect_of_call(slot: u32, call: &Call) -> Effect
    ensures { effect_of result ≡ effect_of_writes slot (option_to_list call.now.result ++ argument_slots call.now.arguments) }
{
    if is_in(call.result, slot) {
        return Effect::Writes;
    }
    effect_of_writes(is_among(call.arguments.as_slice(), slot))
}

/// Whether one of these is the slot.
fn is_among(given: &[Option<u32>], slot: u32) -> bool
    ensures { result ≡ list_any (λ (z : Option ℕ). list_any (λ (y : ℕ). nat_eq y slot) (option_to_list z)) given.now }
{
    given.iter().any(|one| is_in(*one, slot))
}

/// Whether it is the slot, if there is one.
fn is_in(given: Option<u32>, slot: u32) -> bool
    ensures { result ≡ list_any (λ (y : ℕ). nat_eq y slot) (option_to_list given) }
{
    match given {
        Some(other) => other == slot,
        None => false,
    }
}
