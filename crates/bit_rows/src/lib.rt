//! Ascending sets of numbers of 32 bits: `NumberSet`. Most sets hold one number or none, and take no memory of their own. The others are rows of
//! bits, a bit for each number between the least and the greatest one. So a set is united with another one, and counted, by words of 64 bits. The
//! points-to solver keeps the sites of each place in them, by site_rows.
//! Begin with specs/Sets.antt and src/set.rt.
#![tactic(auto)]

mod laws;
mod new_numbers;
mod row;
mod set;
mod words;

pub use laws::numbers_are_listed;
pub use row::BitRow;
pub use set::NumberSet;
