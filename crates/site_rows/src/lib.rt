//! The pairs of a place and a site that the points-to solver keeps: `SiteRows`. For each place, by its number, a row has the numbers of its sites as
//! one set, and those that are not passed on yet as another one. Places with such sites wait, each for its turn.
//! Begin with specs/Rows.antt and src/rows.rt.
#![tactic(auto)]

mod places;
mod row;
mod rows;
mod waiting;

pub use row::SiteRow;
pub use rows::{FreshSites, SiteRows};
