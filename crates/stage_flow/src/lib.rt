//! The transfer of facts along a node, as code: what happens to a fact on the way to a successor (`after_node`), where an object is thrown
//! (`after_raise`), and with a result or an exception of a described method (`after_answer`, `after_exception`); and whether a new object is one of a
//! site (`is_site_at`).
//! An operation is a `PathChange`: which slots it writes, which other root goes, and what paths it adds. One engine makes any such change
//! of a tuple's sets, as a `Draft` that gets the normal form of its stage at the end. Begin with src/change.rt and src/engine.rt.
#![tactic(auto)]

mod alike;
mod answers;
mod change;
mod changes;
mod engine;
mod exceptions;
mod gain;
mod handed;
mod loads;
mod lost;
mod operations;
mod sites;
mod store;
mod store_lost;
mod stored;
mod stores;
mod tuples;
mod written;

pub use answers::after_answer;
pub use exceptions::{after_exception, after_raise};
pub use operations::after_node;
pub use sites::is_site_at;
