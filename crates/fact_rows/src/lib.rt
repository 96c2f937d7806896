//! Access paths and the facts of sites as rows of a pool: `pack_path` and `pack_fact` make a value a row, and `unpack_path` and
//! `unpack_fact` read it back. A row is that of one value, and a value has one row. So the analysis above keeps its facts by the numbers of
//! their rows: two of them are equal where their numbers are.
//! Begin with specs/PathRows.antt and specs/FactRows.antt, which say what the words of a row are.
#![tactic(auto)]

mod fact_row;
mod laws;
mod path_row;

pub use fact_row::{pack_fact, unpack_fact};
pub use laws::{rows_stay, rows_tell_values, values_have_one_row};
pub use path_row::{pack_path, unpack_path};
