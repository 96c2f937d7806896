//! Path edges with their lines.

use ground_views::PathEdge;

/// A path edge that is listed, and the number of its line.
#[derive(Drop)]
pub struct NumberedEdge {
    pub edge: PathEdge,
    pub line: u32,
}
