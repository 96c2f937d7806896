//! Where an instruction goes on (JVMS 6.5).

ghost use Rattle.std.specs.Prelude.{◌≡◌, IfOk, OnOk};
ghost use Rattle.jvm_model.specs.RowViews.{flow_view};
ghost use Rattle.flow_graph.specs.Flows.{number_of, may_go_next, goes_next, offset_after, falls_off, each_once, successors};
ghost use Rattle.flow_graph.specs.Reading.{AreInOrder};
ghost use Rattle.flow_graph.specs.Walking.{AreAmong};

use jvm_model::PlacedInstruction;
use jvm_model::opcode::{Flow, row_of_opcode};
use std::alloc::{AllocError, Global};
use std::collections::BTreeSet;

/// The number of the instruction at an offset: its place among the instructions of the code, which stand in the order of their
/// offsets. No number where no instruction begins at the offset (JVMS 4.9.1).
pub fn number_of(instructions: &[PlacedInstruction], offset: u32) -> Option<usize>
    requires { AreInOrder instructions.now }
    ensures { result ≡ number_of instructions.now offset }
{
    instructions
        .binary_search_by_key(&offset, |placed| placed.offset)
        .ok()
}

/// Whether an instruction may go on at the next one.
fn goes_next(placed: &PlacedInstruction) -> bool
    ensures { result ≡ goes_next placed.now }
{
    match row_of_opcode(placed.instruction.opcode) {
        Some(row) => may_go_next(row.flow),
        None => false,
    }
}

/// The same, by where the instructions of its row go on.
fn may_go_next(flow: Flow) -> bool
    ensures { result ≡ may_go_next (flow_view flow) }
{
    !matches!(flow, Flow::Jump | Flow::Leave | Flow::Subroutine)
}

/// The offset of the instruction after the one of a number, if there is one.
fn offset_after(instructions: &[PlacedInstruction], number: usize) -> Option<u32>
    ensures { result ≡ offset_after instructions.now number }
{
    let next = instructions.get(number.checked_add(1)?)?;
    Some(next.offset)
}

/// Whether the instruction of a number goes on past the end of the code.
pub(crate) fn falls_off(
    instructions: &[PlacedInstruction],
    number: usize,
    placed: &PlacedInstruction,
) -> bool
    ensures { result ≡ falls_off instructions.now number placed.now }
{
    goes_next(placed) && offset_after(instructions, number).is_none()
}

/// Where the instruction of a number goes on: at the next one, and at its targets in the order of its operands.
pub(crate) fn successors(
    alloc: Global,
    instructions: &[PlacedInstruction],
    number: usize,
    placed: &PlacedInstruction,
) -> Result<Vec<u32>, AllocError>
    ensures { IfOk result (λ v. v.items ≡ successors instructions.now number placed.now) }
{
    let mut offsets = Vec::new(alloc);
    if goes_next(placed) {
        if let Some(next) = offset_after(instructions, number) {
            offsets.push(next)?;
        }
    }
    add_each_once(alloc, &mut offsets, placed.instruction.targets.as_slice())?;
    Ok(offsets)
}

/// Adds each of the offsets that is not among those that were met before it.
fn add_each_once(alloc: Global, met: &mut Vec<u32>, offsets: &[u32]) -> Result<(), AllocError>
    ensures { OnOk result (met.new.items ≡ each_once met.old.items offsets.now) }
{
    if offsets.is_empty() {
        return Ok(());
    }
    let mut among = set_of(alloc, met)?;
    for offset in offsets {
        if among.insert(*offset)? {
            met.push(*offset)?;
        }
    }
    Ok(())
}

/// The set of some offsets.
fn set_of(alloc: Global, offsets: &[u32]) -> Result<BTreeSet<u32>, AllocError>
    ensures { IfOk result (λ set. AreAmong set offsets.now) }
{
    let mut set = BTreeSet::new(alloc);
    for offset in offsets {
        set.insert(*offset)?;
    }
    Ok(set)
}
