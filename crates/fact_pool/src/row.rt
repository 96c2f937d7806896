//! The number of a row, and a mark up to which rows are kept.

/// The number of a row: its place among the rows of its pool.
#[derive(Debug, Clone, Copy, PartialEq, Eq, PartialOrd, Ord, Hash)]
pub struct Row(pub u32);

/// How much a pool held when the mark was made.
#[derive(Debug, Clone, Copy, PartialEq, Eq)]
pub struct Mark {
    /// How many rows.
    pub rows: u32,
    /// How many words, of all rows together.
    pub words: u64,
}
