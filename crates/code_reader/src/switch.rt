//! The two switches (JVMS 6.5.tableswitch, 6.5.lookupswitch), from the bytes after their padding.

ghost use Rattle.std.specs.Prelude.{◌≡◌, ◌≤◌, ◌<◌, ◌+◌, ◌*◌, ◌^◌, ◌∷◌, length, drop, IfOk};
ghost use Rattle.jvm_model.specs.Instructions.{switch, table_switch, pairs_switch, table_targets, far_target, word};
ghost use Rattle.jvm_model.specs.RowViews.{row_view};
ghost use Rattle.code_reader.specs.Decoding.{GivesInstruction};

use crate::decode::{DecodeFailure, Decoded, Operation};
use crate::number::{above_least, after, far_target, padding, word};
use failure::Failure;
use jvm_model::Reason;
use std::alloc::{AllocError, Global};

/// `tableswitch`: a default, the lowest and the highest value, and a target for each value between them.
pub(crate) fn table_switch(
    alloc: Global,
    operation: Operation,
    offset: u32,
    bytes: &[u8],
) -> Result<Decoded, DecodeFailure>
    requires offset { offset < 2 ^ 16 }
    requires bytes { length bytes.now < 2 ^ 16 }
    ensures { GivesInstruction result (table_switch operation.opcode (row_view operation.row.now) offset bytes.now) }
{
    if bytes.len() < 12 {
        return Err(Failure::Cause(Reason::CodeCut));
    }
    let low = above_least(word(after(bytes, 4)));
    let high = above_least(word(after(bytes, 8)));
    if high < low {
        return Err(Failure::Cause(Reason::BadOpcode));
    }
    let count = (high - low) as usize + 1;
    switch(
        alloc,
        operation,
        offset,
        Table {
            long: 12 + 4 * count,
            entry: 4,
            count,
        },
        bytes,
    )
}

/// `lookupswitch`: a default, a number of pairs that is not below 0, and the pairs, each a value and its target.
pub(crate) fn pairs_switch(
    alloc: Global,
    operation: Operation,
    offset: u32,
    bytes: &[u8],
) -> Result<Decoded, DecodeFailure>
    requires offset { offset < 2 ^ 16 }
    requires bytes { length bytes.now < 2 ^ 16 }
    ensures { GivesInstruction result (pairs_switch operation.opcode (row_view operation.row.now) offset bytes.now) }
{
    if bytes.len() < 8 {
        return Err(Failure::Cause(Reason::CodeCut));
    }
    let count = word(after(bytes, 4));
    if count < 0x8000_0000 {
        let count = count as usize;
        return switch(
            alloc,
            operation,
            offset,
            Table {
                long: 8 + 8 * count,
                entry: 8,
                count,
            },
            bytes,
        );
    }
    Err(Failure::Cause(Reason::BadOpcode))
}

/// The table of a switch: how many bytes there are from its default to its end, how many an entry has, and how many
/// entries there are.
#[derive(Clone, Copy)]
struct Table {
    long: usize,
    entry: usize,
    count: usize,
}

/// A switch whose table is so long.
fn switch(
    alloc: Global,
    operation: Operation,
    offset: u32,
    table: Table,
    bytes: &[u8],
) -> Result<Decoded, DecodeFailure>
    requires offset { offset < 2 ^ 16 }
    requires bytes { length bytes.now < 2 ^ 16 }
    requires least { 8 ≤ table.long }
    requires entry { 4 ≤ table.entry }
    requires long { table.entry * table.count + 16 ≤ table.long + table.entry }
    ensures { GivesInstruction result (switch operation.opcode (row_view operation.row.now) offset table.long table.entry table.count bytes.now) }
{
    if bytes.len() < table.long {
        return Err(Failure::Cause(Reason::CodeCut));
    }
    let default = far_target(offset, word(bytes));
    let entries = after(bytes, 12);
    Ok(Decoded {
        opcode: operation.opcode,
        row: operation.row,
        operand: 0,
        dimensions: 0,
        targets: table_targets(alloc, default, offset, table, entries)?,
        size: (1 + padding(offset) + table.long) as u32,
    })
}

/// The default target of the instruction at an offset, and that of each entry of its table, of which the bytes are the
/// first four.
fn table_targets(
    alloc: Global,
    default: Option<u32>,
    offset: u32,
    table: Table,
    entries: &[u8],
) -> Result<Vec<Option<u32>>, AllocError>
    requires offset { offset < 2 ^ 16 }
    requires entry { 4 ≤ table.entry }
    requires long { 0 < table.count → table.entry * table.count + 4 ≤ length entries.now + table.entry }
    ensures { IfOk result (λ targets. targets.items ≡ default ∷ table_targets offset table.entry table.count entries.now) }
{
    let mut targets = Vec::new(alloc);
    targets.push(default)?;
    let mut rest = entries;
    for _ in 0..table.count {
        targets.push(far_target(offset, word(rest)))?;
        rest = after(rest, table.entry);
    }
    Ok(targets)
}
