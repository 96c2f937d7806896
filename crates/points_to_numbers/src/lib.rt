//! The numbers of the points-to solver: of sites, places, constraints, catch chains and calls, in the order in which they are found; and
//! the items that it takes in, by these numbers. What is numbered stays, so that a number stands for one thing.
//! The crates of the solver number by `Tables`, and add each `Item` to a list of steps; `Work` has both. Contracts see what the numbers
//! stand for: specs/Numbered.antt.
//! Begin with src/item.rt, src/keys.rt, src/tables.rt and src/work.rt.
#![tactic(auto)]

mod boot_sites;
mod entries;
mod item;
mod keys;
mod tables;
mod work;

pub use boot_sites::boot_site;
pub use entries::{CallSite, CatchChain, CatchClause};
pub use item::Item;
pub use keys::{CallNo, CatchChainNo, ClassNameNo, Constraint, ConstraintNo, SiteKey};
pub use tables::Tables;
pub use work::Work;
