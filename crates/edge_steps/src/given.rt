//! What described methods give, as the transfer asks for it.

ghost use Rattle.std.specs.Prelude.{◌≡◌};
ghost use Rattle.node_ways.specs.Ways.{result_of};
ghost use Rattle.stage_views.specs.Views.{IsAnswerOf};
ghost use Rattle.edge_steps.specs.Parts.{new_answer};

use jvm_model::{MethodNo, Site, SiteKind};
use node_ways::GivenResult;
use op_model::Node;
use stage_flow::is_site_at;
use stage_views::Answer;

/// What a result is to facts about a site, at a node of a method: a new object is one of the site, or of another one.
pub(crate) fn answer_of(
    site: &Site,
    method: Option<MethodNo>,
    node: &Node,
    given: GivenResult<'_>,
) -> Answer
    ensures { IsAnswerOf site.now result (result_of method node.now given.entry) }
{
    match given {
        GivenResult::Argument(slot) => Answer::Argument(slot),
        GivenResult::New(class) => new_answer(is_site_at(
            SiteKind::Result,
            method,
            node.offset,
            class,
            site,
        )),
        GivenResult::Other => Answer::Other,
    }
}

/// A new object, of the site or of another one.
fn new_answer(own: bool) -> Answer
    ensures { result ≡ new_answer own }
{
    if own { Answer::Own } else { Answer::Other }
}
