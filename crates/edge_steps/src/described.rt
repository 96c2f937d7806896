//! What follows for the described targets of a call.

ghost use Rattle.std.specs.Prelude.{OnOk};
ghost use Rattle.op_model.specs.declared.lowered.LoweredMethod.{LoweredMethod as RuleMethod};
ghost use Rattle.ground.specs.Added.{AreAdded, OfOne};
ghost use Rattle.stage_facts.specs.Plain.{fact_of};
ghost use Rattle.stage_transfer.specs.Settings.{Setting};
ghost use Rattle.stage_transfer.specs.Stages.{transfer_of};
ghost use Rattle.stage_views.specs.Views.{facts_of, IsSettingBy};
ghost use Rattle.edge_steps.specs.Parts.{Answered, DescribedFrom, Excepted};

use crate::conclusions::Conclusion;
use crate::given::answer_of;
use crate::node_view::NodeView;
use crate::spots::{add_at_each, add_facts, landing};
use node_ways::DescribedTarget;
use op_model::Call;
use stage_facts::PlainFact;
use stage_flow::{after_answer, after_exception};
use stage_views::{Facts, NodeSlots};
use std::alloc::AllocError;

/// Adds what the described targets of a call give and throw, for each of the facts after its event.
pub(crate) fn add_described<V: NodeSlots>(
    view: &NodeView<'_, '_, V>,
    call: &Call,
    sent: &Facts,
    within: &mut Vec<Conclusion>,
) -> Result<(), AllocError>
    ensures { OnOk result ((w : Setting) (l : RuleMethod) → IsSettingBy view.now.setting.now w → V.knows view.now.slots.now w l view.now.node.now
        → AreAdded (OfOne (DescribedFrom (transfer_of w) l view.now.method view.now.node.now call.now view.now.ways.now.described.items) (facts_of sent.now))
        within.old.items within.new.items) }
{
    match sent {
        Facts::None => Ok(()),
        Facts::One(fact) => add_targets(view, call, fact, within),
        Facts::Two(first, second) => {
            add_targets(view, call, first, within)?;
            add_targets(view, call, second, within)
        }
    }
}

/// Adds what they give and throw for one of the facts.
fn add_targets<V: NodeSlots>(
    view: &NodeView<'_, '_, V>,
    call: &Call,
    sent: &PlainFact,
    within: &mut Vec<Conclusion>,
) -> Result<(), AllocError>
    ensures { OnOk result ((w : Setting) (l : RuleMethod) → IsSettingBy view.now.setting.now w → V.knows view.now.slots.now w l view.now.node.now
        → AreAdded (DescribedFrom (transfer_of w) l view.now.method view.now.node.now call.now view.now.ways.now.described.items (fact_of sent.now))
        within.old.items within.new.items) }
{
    for target in view.ways.described.as_slice() {
        add_answers(view, call, target, sent, within)?;
        add_exceptions(view, target, sent, within)?;
    }
    Ok(())
}

/// Adds what holds at each successor with each result of a target.
fn add_answers<V: NodeSlots>(
    view: &NodeView<'_, '_, V>,
    call: &Call,
    target: &DescribedTarget<'_>,
    sent: &PlainFact,
    within: &mut Vec<Conclusion>,
) -> Result<(), AllocError>
    ensures { OnOk result ((w : Setting) (l : RuleMethod) → IsSettingBy view.now.setting.now w → V.knows view.now.slots.now w l view.now.node.now
        → AreAdded (OfOne (Answered (transfer_of w) l view.now.method view.now.node.now call.now target.now.kept.items (fact_of sent.now)) target.now.results.items)
        within.old.items within.new.items) }
{
    let kept = target.kept.as_slice();
    for given in target.results.as_slice() {
        let answer = answer_of(view.setting.site, view.method, view.node, *given);
        let facts = after_answer(view.setting, view.slots, call, kept, answer, sent);
        add_at_each(view.node.successors.as_slice(), &facts, within)?;
    }
    Ok(())
}

/// Adds what holds where each object lands that a target throws.
fn add_exceptions<V: NodeSlots>(
    view: &NodeView<'_, '_, V>,
    target: &DescribedTarget<'_>,
    sent: &PlainFact,
    within: &mut Vec<Conclusion>,
) -> Result<(), AllocError>
    ensures { OnOk result ((w : Setting) (l : RuleMethod) → IsSettingBy view.now.setting.now w → V.knows view.now.slots.now w l view.now.node.now
        → AreAdded (OfOne (Excepted (transfer_of w) l view.now.node.now target.now.kept.items (fact_of sent.now)) target.now.landings.items)
        within.old.items within.new.items) }
{
    let kept = target.kept.as_slice();
    for handler in target.landings.as_slice() {
        let facts = after_exception(view.setting, view.slots, view.node, kept, *handler, sent);
        add_facts(landing(*handler), &facts, within)?;
    }
    Ok(())
}
