//! What the search is given.

use ground_views::{GroundViews, Question};
use std::alloc::Global;

/// What edges may take: memory, and fewer places than the limit.
#[derive(Clone, Copy)]
pub(crate) struct Room {
    pub(crate) alloc: Global,
    pub(crate) limit: usize,
}

/// What is asked for, how one looks at nodes, and the room for edges.
#[derive(Clone, Copy)]
pub(crate) struct Closing<'c, 'g, 'p> {
    pub(crate) room: Room,
    pub(crate) question: &'c Question<'g, 'p>,
    pub(crate) views: &'c GroundViews<'p>,
}
