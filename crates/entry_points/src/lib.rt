//! Where a program begins: its entry, and the initialisers that the initialisation of a class runs (JVMS 2.9, 5.5); and which methods have
//! code (JVMS 4.7.3).
//! The run calls `find_entry` and `has_method_named`; the points-to solver `is_coded` and `coded_initialisers`.
//! Begin with specs/Entries.antt and src/entry.rt; with src/initialisers.rt for initialisers.
#![tactic(auto)]

mod coded;
mod entry;
mod initialisers;
mod named;

pub use coded::is_coded;
pub use entry::find_entry;
pub use initialisers::coded_initialisers;
pub use named::has_method_named;
