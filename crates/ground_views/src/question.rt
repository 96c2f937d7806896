//! What is asked for.

use ground::Ground;
use jvm_model::{MethodNo, SiteNo};
use stage_views::StageSetting;

/// The path edges of a site at a stage: by a ground, from an entry. There have to be fewer than the limit.
#[derive(Clone, Copy)]
pub struct Question<'g, 'p> {
    pub ground: &'g Ground<'p>,
    pub entry: MethodNo,
    pub site: SiteNo,
    /// It has the site of that number.
    pub setting: StageSetting<'g>,
    pub limit: usize,
}
