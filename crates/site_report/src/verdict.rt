//! What is found of a site.

/// What is found of a site, by the number of a stage.
#[derive(Clone, Copy, Debug, PartialEq, Eq)]
pub enum Verdict {
    /// The stage proves that no object of the site is ever in the error state.
    Safe(u8),
    /// No stage proves it.
    Unproved,
    /// The stage came to its limit.
    Limit(u8),
}
