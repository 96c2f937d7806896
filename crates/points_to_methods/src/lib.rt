//! The items of the points-to solver to which a method leads: what enters, what flows from slot to slot, what each operation makes, reads,
//! writes, calls and throws, and the initialisers that a node may start.
//! The solver calls `method_items` for each method that may run and has code, and `initiated_items` for the initialisers of the entry's
//! class.
//! Begin with src/methods.rt and src/nodes.rt; operations.rt and accesses.rt have the operations, calls.rt the calls, exceptions.rt and
//! handlers.rt what is thrown.
#![tactic(auto)]

mod accesses;
mod adding;
mod call_sites;
mod calls;
mod catch_chains;
mod effects;
mod enters;
mod exceptions;
mod flows;
mod handlers;
mod makes;
mod methods;
mod named;
mod nodes;
mod operations;
mod slots;
mod statics;
mod triggers;

pub use accesses::pass_after;
pub use adding::{FixedPlace, Outgoing, Passing, hold, key_of, pass};
pub use catch_chains::catch_chain_of;
pub use enters::enter_items;
pub use exceptions::raise_items;
pub use flows::flow_items;
pub use handlers::handle_items;
pub use methods::method_items;
pub use named::{NamedMethod, node_at, slot_place};
pub use operations::op_items;
pub use triggers::initiated_items;
