//! Where what a node throws goes.

ghost use Rattle.std.specs.Prelude.{OnOk};
ghost use Rattle.op_model.specs.declared.lowered.LoweredMethod.{LoweredMethod as RuleMethod};
ghost use Rattle.ground.specs.Added.{AreAdded, OfOne};
ghost use Rattle.stage_facts.specs.Plain.{fact_of};
ghost use Rattle.stage_transfer.specs.Settings.{Setting};
ghost use Rattle.stage_transfer.specs.Stages.{transfer_of};
ghost use Rattle.stage_views.specs.Views.{IsSettingBy};
ghost use Rattle.edge_steps.specs.Parts.{Raised};

use crate::conclusions::Conclusion;
use crate::node_view::NodeView;
use crate::spots::{add_facts, landing};
use crate::unchanged::{add_landings, is_of_none};
use stage_facts::PlainFact;
use stage_flow::after_raise;
use stage_views::NodeSlots;
use std::alloc::AllocError;

/// Adds what holds where each object lands that the node throws.
pub(crate) fn add_raised<V: NodeSlots>(
    view: &NodeView<'_, '_, V>,
    landings: &[Option<u32>],
    fact: &PlainFact,
    within: &mut Vec<Conclusion>,
) -> Result<(), AllocError>
    ensures { OnOk result ((w : Setting) (l : RuleMethod) → IsSettingBy view.now.setting.now w → V.knows view.now.slots.now w l view.now.node.now
        → AreAdded (OfOne (Raised (transfer_of w) l view.now.node.now (fact_of fact.now)) landings.now) within.old.items within.new.items) }
{
    if is_of_none(fact) {
        return add_landings(view, landings, fact, within);
    }
    add_changed(view, landings, fact, within)
}

/// The same, by what each throw does to the fact.
fn add_changed<V: NodeSlots>(
    view: &NodeView<'_, '_, V>,
    landings: &[Option<u32>],
    fact: &PlainFact,
    within: &mut Vec<Conclusion>,
) -> Result<(), AllocError>
    ensures { OnOk result ((w : Setting) (l : RuleMethod) → IsSettingBy view.now.setting.now w → V.knows view.now.slots.now w l view.now.node.now
        → AreAdded (OfOne (Raised (transfer_of w) l view.now.node.now (fact_of fact.now)) landings.now) within.old.items within.new.items) }
{
    for handler in landings {
        let facts = after_raise(view.setting, view.slots, view.node, *handler, fact);
        add_facts(landing(*handler), &facts, within)?;
    }
    Ok(())
}
