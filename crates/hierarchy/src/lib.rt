//! The searches in a linked program by the rules of the JVMS: classes by name, subtypes, resolution of fields and methods, selection, the
//! targets of special calls, and casts. They take no memory.
//! The layers above call `find_class`, `is_subtype`, `resolve_field`, `resolve_method`, `select`, `special_search` and `fits`; and
//! `first_upward` and `fold_upward`, the two walks up the superclasses.
//! The definitions stand in jvm_model: Subtypes.antt, Resolution.antt and Selection.antt. Begin with src/resolve.rt, select.rt and
//! special.rt; search.rt, superinterfaces.rt, defaults.rt and least.rt are the searches on which they stand.
#![tactic(auto)]

mod casts;
mod choice;
pub mod classes;
mod defaults;
mod elements;
mod least;
pub mod methods;
mod overriding;
mod package;
pub mod resolve;
pub mod resolve_field;
mod search;
pub mod select;
mod sought;
pub mod special;
mod superinterfaces;
pub mod upward;

pub use casts::fits;
