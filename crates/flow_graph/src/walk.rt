//! The walk over the code of a method: at which height each instruction is reached, and what is noted of it
//! (JVMS 2.6.2, 4.9.2, 4.10).

ghost use Rattle.std.specs.Prelude.{◌≡◌, ◌||◌, ℕ, true, length, IfOk, OnOk, Some, IfSome, IfNone};
ghost use Rattle.std.specs.BTreeSet.{contains, btree_set_len};
ghost use Rattle.std.specs.List.{position};
ghost use Rattle.std.specs.Ordering.{nat_cmp};
ghost use Rattle.flow_graph.specs.Reading.{AreInOrder};
ghost use Rattle.flow_graph.specs.Walks.{reached, caught, at_number, at_offset, at_each, is_waiting, Walk, at_start};
ghost use Rattle.flow_graph.specs.Walking.{onward_each, IsWalkedOne, waits_at, AreAwaited, IsLeastAwaited, is_number_at, Awaits, AwaitsBoth};
ghost use Rattle.flow_graph.specs.Draining.{AreUncaught};

use crate::effect::Effect;
use crate::flow::{falls_off, number_of, successors};
use crate::mark::{Mark, caught, height_onward, is_waiting, reached, unreached, walked};
use crate::uncaught::UncaughtHandlers;
use jvm_model::{Code, PlacedInstruction};
use std::alloc::{AllocError, Global};
use std::collections::BTreeSet;

/// What is known of each instruction when the walk has ended.
pub(crate) fn walk_code(
    alloc: Global,
    code: &Code,
    effects: &[Effect],
) -> Result<Vec<Mark>, AllocError>
    requires order { AreInOrder code.now.instructions }
    requires effects { length effects.now ≡ length code.now.instructions }
    ensures walked { IfOk result (λ v. Walk code.now effects.now (at_start code.now) v.items) }
    ensures all { IfOk result (λ v. length v.items ≡ length code.now.instructions) }
{
    let mut marks = vec![in alloc; unreached(); code.instructions.len()]?;
    reach(&mut marks, 0, 0);
    let mut awaited = BTreeSet::new(alloc);
    awaited.insert(0)?;
    let mut uncaught = UncaughtHandlers::new(alloc, code.handlers.as_slice())?;
    walk(
        alloc,
        code,
        effects,
        &mut marks,
        &mut awaited,
        &mut uncaught,
    )?;
    Ok(marks)
}

/// Walks the first instruction that waits, as long as one does. Those that wait are among the awaited ones, and each handler is
/// caught, or among the uncaught ones.
fn walk(
    alloc: Global,
    code: &Code,
    effects: &[Effect],
    marks: &mut [Mark],
    awaited: &mut BTreeSet<usize>,
    uncaught: &mut UncaughtHandlers,
) -> Result<(), AllocError>
    requires order { AreInOrder code.now.instructions }
    requires effects { length effects.now ≡ length code.now.instructions }
    requires marks { length marks.old ≡ length code.now.instructions }
    requires awaited { AreAwaited awaited.old marks.old }
    requires uncaught { AreUncaught code.now uncaught.old.levels.items marks.old }
    ensures { OnOk result (Walk code.now effects.now marks.old marks.new) }
{
    while let Some(number) = first_waiting(marks, awaited) {
        walk_one(alloc, code, effects, number, marks, awaited, uncaught)?;
    }
    Ok(())
}

/// The number of the first instruction that waits. Those that do not wait are no longer awaited.
fn first_waiting(marks: &[Mark], awaited: &mut BTreeSet<usize>) -> Option<usize>
    requires { AreAwaited awaited.old marks.now }
    ensures first { result ≡ position is_waiting marks.now }
    ensures awaited { AreAwaited awaited.new marks.now }
{
    while let Some(number) = first_awaited(awaited) {
        if waits_at(marks, number) {
            return Some(number);
        }
        awaited.remove(&number);
    }
    None
}

/// The least of the numbers that are awaited.
fn first_awaited(awaited: &BTreeSet<usize>) -> Option<usize>
    ensures among { IfSome result (λ number. contains nat_cmp awaited.now number ≡ true) }
    ensures least { IfSome result (IsLeastAwaited awaited.now) }
    ensures none { IfNone result (btree_set_len awaited.now ≡ 0) }
{
    awaited.first().copied()
}

/// Whether the instruction of a number waits.
fn waits_at(marks: &[Mark], number: usize) -> bool
    ensures { result ≡ waits_at marks.now number }
{
    match marks.get(number) {
        Some(mark) => is_waiting(mark),
        None => false,
    }
}

/// The instructions at these offsets are awaited: where one goes on, and where the handlers that cover it begin.
fn await_both(
    awaited: &mut BTreeSet<usize>,
    instructions: &[PlacedInstruction],
    next: &[u32],
    caught: &[u32],
) -> Result<(), AllocError>
    requires { AreInOrder instructions.now }
    ensures { OnOk result (AwaitsBoth awaited.old awaited.new instructions.now next.now caught.now) }
{
    await_each(awaited, instructions, next)?;
    await_each(awaited, instructions, caught)
}

/// The instructions at these offsets are awaited.
fn await_each(
    awaited: &mut BTreeSet<usize>,
    instructions: &[PlacedInstruction],
    offsets: &[u32],
) -> Result<(), AllocError>
    requires { AreInOrder instructions.now }
    ensures { OnOk result (Awaits awaited.old awaited.new instructions.now offsets.now) }
{
    for offset in offsets {
        await_at(awaited, instructions, *offset)?;
    }
    Ok(())
}

/// The instruction at an offset is awaited.
fn await_at(
    awaited: &mut BTreeSet<usize>,
    instructions: &[PlacedInstruction],
    offset: u32,
) -> Result<(), AllocError>
    requires { AreInOrder instructions.now }
    ensures { OnOk result ((number : ℕ) → contains nat_cmp awaited.new number ≡ (contains nat_cmp awaited.old number || is_number_at instructions.now number offset)) }
{
    if let Some(number) = number_of(instructions, offset) {
        awaited.insert(number)?;
    }
    Ok(())
}

/// Walks the first instruction that waits. What it reaches is awaited. Of the handlers that cover it those are met that are listed
/// at it still: that the others begin with what was thrown is noted already.
fn walk_one(
    alloc: Global,
    code: &Code,
    effects: &[Effect],
    number: usize,
    marks: &mut [Mark],
    awaited: &mut BTreeSet<usize>,
    uncaught: &mut UncaughtHandlers,
) -> Result<(), AllocError>
    requires order { AreInOrder code.now.instructions }
    requires effects { length effects.now ≡ length code.now.instructions }
    requires marks { length marks.old ≡ length code.now.instructions }
    requires first { position is_waiting marks.old ≡ Some number }
    requires awaited { AreAwaited awaited.old marks.old }
    requires uncaught { AreUncaught code.now uncaught.old.levels.items marks.old }
    ensures walked { OnOk result (IsWalkedOne code.now effects.now marks.old marks.new) }
    ensures awaited { OnOk result (AreAwaited awaited.new marks.new) }
    ensures uncaught { OnOk result (AreUncaught code.now uncaught.new.levels.items marks.new) }
{
    let instructions = code.instructions.as_slice();
    let placed = &instructions[number];
    let effect = effects[number];
    let mark = marks[number];
    let height = mark.height.unwrap();
    let next = successors(alloc, instructions, number, placed)?;
    let caught = uncaught.take(alloc, placed.offset)?;
    let falls = falls_off(instructions, number, placed);
    marks[number] = walked(mark, code.max_stack, effect, height, falls);
    let onward = height_onward(code.max_stack, effect, height, mark);
    go_on(marks, instructions, &next, onward);
    catch_each(marks, code, &caught);
    await_both(awaited, instructions, &next, &caught)?;
    Ok(())
}

/// The instructions at these offsets are reached, if one goes on to them at a height.
fn go_on(
    marks: &mut [Mark],
    instructions: &[PlacedInstruction],
    offsets: &[u32],
    height: Option<u16>,
)
    requires { AreInOrder instructions.now }
    ensures { marks.new ≡ onward_each height instructions.now marks.old offsets.now }
{
    if let Some(height) = height {
        reach_each(marks, instructions, offsets, height);
    }
}

/// The instructions at these offsets are reached at a height.
fn reach_each(marks: &mut [Mark], instructions: &[PlacedInstruction], offsets: &[u32], height: u16)
    requires { AreInOrder instructions.now }
    ensures { marks.new ≡ at_each (reached height) instructions.now marks.old offsets.now }
{
    for offset in offsets {
        reach_at(marks, instructions, *offset, height);
    }
}

/// The instruction at an offset is reached at a height.
fn reach_at(marks: &mut [Mark], instructions: &[PlacedInstruction], offset: u32, height: u16)
    requires { AreInOrder instructions.now }
    ensures { marks.new ≡ at_offset (reached height) instructions.now marks.old offset }
{
    if let Some(number) = number_of(instructions, offset) {
        reach(marks, number, height);
    }
}

/// The instruction of a number is reached at a height.
fn reach(marks: &mut [Mark], number: usize, height: u16)
    ensures { marks.new ≡ at_number (reached height) marks.old number }
{
    if number < marks.len() {
        marks[number] = reached(marks[number], height);
    }
}

/// The instructions at these offsets, at which handlers begin, are reached.
fn catch_each(marks: &mut [Mark], code: &Code, offsets: &[u32])
    requires { AreInOrder code.now.instructions }
    ensures { marks.new ≡ at_each (caught code.now.max_stack) code.now.instructions marks.old offsets.now }
{
    for offset in offsets {
        catch_at(marks, code, *offset);
    }
}

/// The instruction at an offset, at which a handler begins, is reached.
fn catch_at(marks: &mut [Mark], code: &Code, offset: u32)
    requires { AreInOrder code.now.instructions }
    ensures { marks.new ≡ at_offset (caught code.now.max_stack) code.now.instructions marks.old offset }
{
    if let Some(number) = number_of(code.instructions.as_slice(), offset) {
        catch_number(marks, number, code.max_stack);
    }
}

/// The instruction of a number, at which a handler begins, is reached.
fn catch_number(marks: &mut [Mark], number: usize, limit: u16)
    ensures { marks.new ≡ at_number (caught limit) marks.old number }
{
    if number < marks.len() {
        marks[number] = caught(marks[number], limit);
    }
}
