//! What a check is given.

use crate::numbered_edge::NumberedEdge;
use ground_views::{GroundViews, Question};
use std::alloc::Global;

/// Memory, what is asked, how one looks at nodes, and the listed edges.
#[derive(Clone, Copy)]
pub(crate) struct Checking<'c, 'g, 'p> {
    pub(crate) alloc: Global,
    pub(crate) question: &'c Question<'g, 'p>,
    pub(crate) views: &'c GroundViews<'p>,
    pub(crate) listed: &'c [NumberedEdge],
}
