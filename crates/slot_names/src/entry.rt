//! What is kept of a node.

ghost use Rattle.std.specs.Prelude.{◌≡◌};
ghost use Rattle.slot_names.specs.Entries.{root_variable, variable_at};

use crate::rows::Rows;
use crate::variable::Variable;
use jvm_model::MethodNo;

/// Where a slot has its variable from if it was not written since: from the method's call, or from a merge point, by its offset.
#[derive(Clone, Copy)]
pub(crate) enum Root {
    Beginning,
    Meeting { offset: u32 },
}

/// What is kept of a node: where its slots have their variables from, and the row of those that were written since.
#[derive(Clone, Copy)]
pub(crate) struct Entry {
    pub(crate) root: Root,
    pub(crate) row: u32,
}

/// The variable that a slot has at a root.
fn root_variable(method: MethodNo, root: Root, slot: u32) -> Variable
    ensures { result ≡ root_variable method root slot }
{
    match root {
        Root::Beginning => Variable::Parameter { method, slot },
        Root::Meeting { offset } => Variable::At {
            method,
            offset,
            slot,
        },
    }
}

/// The variable of a slot at the node of an entry.
pub(crate) fn variable_at(rows: &Rows, method: MethodNo, entry: Entry, slot: u32) -> Variable
    ensures { result ≡ variable_at rows.now method entry slot }
{
    match rows.get(entry.row, slot) {
        Some(variable) => variable,
        None => root_variable(method, entry.root, slot),
    }
}
