//! What is asked of the stages after the first.

ghost use Rattle.std.specs.Prelude.{◌<◌, length};
ghost use Rattle.stage_verdicts.specs.LaterVerdicts.{IsQuestionOf};

use ground::Ground;
use ground_views::Question;
use jvm_model::{Automaton, MethodNo, SiteNo};
use stage_views::StageSetting;

/// A ground and an entry, a property, and up to which stage objects are to keep it; how many fields a store may give a path; and how many path edges are too many.
#[derive(Clone, Copy)]
pub struct LaterStages<'g, 'p> {
    pub ground: &'g Ground<'p>,
    pub entry: MethodNo,
    pub automaton: &'g Automaton,
    /// At most 4.
    pub stages: u8,
    /// At most 3.
    pub depth: u8,
    /// At least 1.
    pub limit: usize,
}

/// What is asked of the path edges of a site at a stage.
pub(crate) fn question_of<'g, 'p>(
    asked: LaterStages<'g, 'p>,
    site: SiteNo,
    stage: u8,
) -> Question<'g, 'p>
    requires { site.0 < length asked.ground.now.sites }
    ensures { IsQuestionOf asked.entry site stage result }
{
    Question {
        ground: asked.ground,
        entry: asked.entry,
        site,
        setting: StageSetting {
            automaton: asked.automaton,
            site: asked.ground.site(site),
            stage,
            depth: asked.depth,
        },
        limit: asked.limit,
    }
}
