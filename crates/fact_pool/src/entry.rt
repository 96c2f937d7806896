//! What is kept of a row beside its words.

/// A row of the pool, without its words.
#[derive(Clone, Copy)]
pub struct Entry {
    /// Where its words end. They begin where those of the row before it end.
    pub end: u32,
    /// One more than the number of the last row before it in its bucket, and 0 where there is none.
    pub next: u32,
}
