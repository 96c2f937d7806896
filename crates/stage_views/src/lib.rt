//! What the transfer of facts is given and gives, as code: the site and the stage (`StageSetting`), what is known of the slots at a node
//! (`NodeSlots`), which slots a call writes (`is_written_by`), how a method is entered (`Entering`), what a described method gives (`Answer`), and the results, of which there are two at
//! most (`Facts`). Paths are gathered into a set that is cut once, at its end (`Gathering`), and so are those of a tuple, which gets the normal form
//! of its stage then (`Draft`).
//! The crates above do to facts what nodes and calls do. Begin with src/setting.rt and src/slots.rt.
#![tactic(auto)]

mod arguments;
mod calls;
mod draft;
mod facts;
mod gathering;
mod setting;
mod slots;

pub use arguments::{is_argument, is_written_by};
pub use calls::{Answer, Entering};
pub use draft::{Draft, without_paths};
pub use facts::Facts;
pub use gathering::Gathering;
pub use setting::StageSetting;
pub use slots::NodeSlots;
