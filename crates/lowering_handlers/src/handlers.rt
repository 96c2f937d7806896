//! The handlers of a node.

ghost use Rattle.std.specs.Prelude.{◌≡◌, ℕ, IfOk, Contains};
ghost use Rattle.std.specs.List.{AllZip};
ghost use Rattle.flow_graph.specs.Flows.{covering};
ghost use Rattle.jvm_model.specs.declared.pool.PoolEntry.{PoolEntry};
ghost use Rattle.lowering_spec.specs.LoweredMethods.{IsHandlerAt};
ghost use Rattle.lowering_handlers.specs.Catches.{class_taken, IsCatchOf, IsUnknownEntry};

use crate::catches::Catch;
use jvm_model::{ClassNo, Handler, PoolEntry};
use op_model::NodeHandler;
use program_model::program::Program;
use std::alloc::{AllocError, Global};

/// The handlers at some places of the table of handlers, none of which takes a class that is not in the program.
pub fn node_handlers(
    alloc: Global,
    program: &Program,
    pool: &[PoolEntry],
    handlers: &[Handler],
    catches: &[Catch],
    places: &[u32],
) -> Result<Vec<NodeHandler>, AllocError>
    requires catches { AllZip (IsCatchOf program.now pool.now) handlers.now catches.now }
    requires within { (offset : ℕ) × (places.now ≡ covering handlers.now offset) }
    requires known { (place : ℕ) → Contains places.now place → IsUnknownEntry program.now pool.now handlers.now place → ⊥ }
    ensures { IfOk result (λ v. AllZip (IsHandlerAt program.now pool.now handlers.now) places.now v.items) }
{
    let mut covering = Vec::new(alloc);
    for place in places {
        let place = *place as usize;
        covering.push(NodeHandler {
            target: handlers[place].target,
            catch: class_taken(catches[place]),
        })?;
    }
    Ok(covering)
}

/// The class that an entry takes, if it names one.
fn class_taken(catch: Catch) -> Option<ClassNo>
    ensures { result ≡ class_taken catch }
{
    match catch {
        Catch::OfClass(class) => Some(class),
        Catch::Each | Catch::Unknown => None,
    }
}
