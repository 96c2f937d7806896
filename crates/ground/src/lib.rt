//! What is known of a program that is analysed: the methods that may run, the sites, the objects that places may hold, the targets of
//! calls, and the fields that methods may write. It is made of lists, whoever found them, and read without memory.
//! call_graph makes a `Ground` of `Lists`; the stages and the report read it, and ask `call_event` which event a call is.
//! What is read is what the facts of specs/Findings.antt say. Begin with src/ground.rt and src/lists.rt.
#![tactic(auto)]

mod calls;
mod ground;
mod lists;
mod node_place;

pub use calls::{call_event, receiver};
pub use ground::Ground;
pub use lists::{FieldWrite, Lists, call_number, is_among};
pub use node_place::NodePlace;
