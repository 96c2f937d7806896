//! A region of rows: `FactPool` keeps lists of words, each once, and says by which number a list goes. The facts of an analysis are made by
//! the hundred thousand, compared, looked up and thrown away together: as rows, two of them are equal where their numbers are, and what they
//! take of memory can be reserved beforehand. The layer above makes rows, reads them by number, and gives back all that were made after a
//! mark.
//! Begin with specs/Rows.antt, which says what callers see of a pool, and then read src/pool.rt.
#![tactic(auto)]

mod chains;
mod entry;
mod hash;
mod layout;
mod pool;
mod row;

pub use pool::FactPool;
pub use row::{Mark, Row};
