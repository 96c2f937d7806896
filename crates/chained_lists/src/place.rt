//! Where a value stands.

/// Where a value stands among all that were added, to whichever list. It stays where it is when more are added.
#[derive(Debug, Clone, Copy, PartialEq, Eq)]
pub struct Place(pub u32);
