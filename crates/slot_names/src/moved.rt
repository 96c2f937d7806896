//! Rows behind moves.

ghost use Rattle.std.specs.Prelude.{◌≡◌, Some, IfOk};
ghost use Rattle.slot_names.specs.Entries.{variable_at};
ghost use Rattle.slot_names.specs.MovedRows.{IsMoved, variable_after};
ghost use Rattle.slot_names.specs.Rows.{IsRow};
ghost use Rattle.slot_names.specs.Variables.{effect_of_move};

use crate::entry::{Entry, variable_at};
use crate::rows::Rows;
use crate::variable::Variable;
use jvm_model::MethodNo;
use op_model::{Move, Source};
use std::alloc::AllocError;

/// The row behind moves that are made in parallel, at the node of an offset. The first move of a slot decides, so they are taken from the
/// last on.
pub(crate) fn moved_row(
    rows: &mut Rows,
    method: MethodNo,
    entry: Entry,
    moves: &[Move],
    offset: u32,
) -> Result<u32, AllocError>
    requires { IsRow rows.old entry.row }
    ensures { IfOk result (IsMoved rows.old rows.new method entry moves.now offset) }
{
    let mut row = entry.row;
    let mut left = moves.len();
    while left > 0 {
        left -= 1;
        let next = moves[left];
        let variable = moved_variable(rows, method, entry, next, offset);
        row = rows.set(row, next.target, variable)?;
    }
    Ok(row)
}

/// The variable that a move gives: that of its source before, or a new one.
fn moved_variable(rows: &Rows, method: MethodNo, entry: Entry, next: Move, offset: u32) -> Variable
    ensures { result ≡ variable_after (variable_at rows.now method entry) method offset next.target (effect_of_move (Some next)) }
{
    match next.source {
        Source::Slot(slot) => variable_at(rows, method, entry, slot),
        Source::Null | Source::Primitive => Variable::At {
            method,
            offset,
            slot: next.target,
        },
    }
}
