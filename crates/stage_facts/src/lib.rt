//! The facts of a site: what is known, at a place of a program, of the objects that are allocated there; and what such a fact says of an
//! object in a state, as seen from a frame. The crate has definitions, in specs/, and of code the fact as a program holds it, `PlainFact`.
//! The transfer of facts is defined on `SiteFact`, and what it must keep is `Says`. Begin with specs/Facts.antt; Values.antt has the values
//! of paths, and the cells that may hold an object.
#![tactic(auto)]

mod plain;

pub use plain::{PlainFact, PlainTuple};
