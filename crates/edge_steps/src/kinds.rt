//! Nodes that return.

ghost use Rattle.std.specs.Prelude.{◌↔◌, IsTrue};
ghost use Rattle.edge_steps.specs.Parts.{IsReturn};

use op_model::Op;

/// Whether the operation is a return.
pub(crate) fn is_return(op: &Op) -> bool
    ensures { IsTrue result ↔ IsReturn op.now }
{
    match op {
        Op::Return { .. } => true,
        Op::Assign(_) => false,
        Op::Load { .. } => false,
        Op::Store { .. } => false,
        Op::LoadElement { .. } => false,
        Op::StoreElement { .. } => false,
        Op::LoadStatic { .. } => false,
        Op::StoreStatic { .. } => false,
        Op::New { .. } => false,
        Op::NewArray { .. } => false,
        Op::Constant { .. } => false,
        Op::Call(_) => false,
        Op::Throw { .. } => false,
        Op::Cast { .. } => false,
        Op::Probe { .. } => false,
    }
}
