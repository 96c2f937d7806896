//! The items of a method.

ghost use Rattle.std.specs.Prelude.{IfOk, OnOk};
ghost use Rattle.points_to_constraints.specs.ItemRules.{MethodItem};
ghost use Rattle.points_to_rules.specs.WholeMethods.{IsWholeMethod};
ghost use Rattle.points_to_methods.specs.NewCalls.{AddsCalls};
ghost use Rattle.points_to_numbers.specs.Numbered.{Grows};
ghost use Rattle.points_to_numbers.specs.Steps.{Adds};
ghost use Rattle.slot_names.specs.KeptNames.{name_table};
ghost use Rattle.slot_names.specs.Tables.{AreNames};

use crate::NamedMethod;
use crate::nodes::node_items;
use op_model::LoweredMethod;
use points_to_numbers::Work;
use program_index::index_failure::IndexFailure;
use program_model::program::Program;
use slot_names::{Names, names_of};

/// Adds what the nodes of a method lead to, and answers the variables of its slots.
pub fn method_items(
    program: &Program,
    method: &LoweredMethod,
    work: &mut Work,
) -> Result<Names, IndexFailure>
    requires { IsWholeMethod program.now method.now.method.0 method.now }
    ensures grows { OnOk result (Grows work.old.tables work.new.tables) }
    ensures calls { OnOk result (AddsCalls method.now work.old.tables.calls work.new.tables.calls) }
    ensures adds { OnOk result (Adds work.new.tables (MethodItem program.now method.now) work.old.steps.items work.new.steps.items) }
    ensures names { IfOk result (λ names. AreNames method.now (name_table names)) }
{
    let names = names_of(work.alloc, method)?;
    let at = NamedMethod {
        program,
        method,
        names: &names,
    };
    for node in 0..method.nodes.len() {
        node_items(&at, node, work)?;
    }
    Ok(names)
}
