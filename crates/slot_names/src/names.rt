//! The variables of a method as nodes.

ghost use Rattle.std.specs.Prelude.{◌<◌, ◌≡◌, IfOk};
ghost use Rattle.slot_names.specs.KeptNames.{is_noted_merge, name_table};
ghost use Rattle.slot_names.specs.Tables.{AreNames};
ghost use Rattle.slot_names.specs.Variables.{AreReachedNodes};

use crate::arrivals::{Arrival, arrivals};
use crate::entry::{Entry, variable_at};
use crate::naming::{Naming, enter_all};
use crate::rows::Rows;
use crate::variable::Variable;
use jvm_model::MethodNo;
use op_model::LoweredMethod;
use std::alloc::{AllocError, Global};

/// The variable of each slot at each node of a method, and which nodes are merge points. Contracts see the table of them (`name_table`).
#[derive(Drop)]
pub struct Names {
    method: MethodNo,
    arrivals: Vec<Arrival>,
    entries: Vec<Option<Entry>>,
    rows: Rows,
}

impl Names {
    /// The variable of a slot at the node of a place. It takes no memory, and time by the logarithm of the slot's number.
    pub fn variable(&self, node: u32, slot: u32) -> Variable
        requires { node < (name_table self.now).count }
        ensures { result ≡ (name_table self.now).variable node slot }
    {
        match self.entries[node as usize] {
            Some(entry) => variable_at(&self.rows, self.method, entry, slot),
            None => Variable::Parameter {
                method: self.method,
                slot,
            },
        }
    }

    /// Whether the node of a place is a merge point.
    #[tactic(auto, unfolding(crate::specs::KeptNames::name_table))]
    pub fn is_merge(&self, node: u32) -> bool
        ensures { result ≡ (name_table self.now).merges node }
    {
        let arrival = self.arrivals.get(node as usize).copied();
        is_noted_merge(arrival)
    }
}

/// Whether it is noted that a node is a merge point.
fn is_noted_merge(arrival: Option<Arrival>) -> bool
    ensures { result ≡ is_noted_merge arrival }
{
    match arrival {
        Some(Arrival::Several) => true,
        Some(Arrival::Nothing | Arrival::OneNode(_)) | None => false,
    }
}

/// The variables of a method whose nodes are all reached. It takes time and memory by the number of nodes and of slots that they write, each
/// of these by the logarithm of its number, and not by the number of slots at each node.
pub fn names_of(alloc: Global, method: &LoweredMethod) -> Result<Names, AllocError>
    requires { AreReachedNodes method.now }
    ensures { IfOk result (λ names. AreNames method.now (name_table names)) }
{
    let arrivals = arrivals(alloc, method)?;
    let Naming {
        entries,
        order: _,
        rows,
    } = enter_all(alloc, method, &arrivals)?;
    Ok(Names {
        method: method.method,
        arrivals,
        entries,
        rows,
    })
}
