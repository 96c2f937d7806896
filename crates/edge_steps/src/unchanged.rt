//! Facts that are of no object, which most nodes leave as they are: what follows then is not worked out, but copied.

ghost use Rattle.std.specs.Prelude.{◌≡◌, ◌↔◌, [], ◌∷◌, IsTrue, OnOk};
ghost use Rattle.op_model.specs.declared.lowered.LoweredMethod.{LoweredMethod as RuleMethod};
ghost use Rattle.op_model.specs.declared.op.Call.{Call as RuleCall};
ghost use Rattle.op_model.specs.declared.op.Op.TheVariants.{Call as IsCall};
ghost use Rattle.ground.specs.Added.{AreAdded, OfOne};
ghost use Rattle.stage_facts.specs.Plain.{fact_of};
ghost use Rattle.stage_transfer.specs.Settings.{Setting};
ghost use Rattle.stage_transfer.specs.Stages.{transfer_of};
ghost use Rattle.edge_steps.specs.Parts.{Done, GoesOn, IsOfNone, OneAtEach, Raised, Stays};

use crate::conclusions::Conclusion;
use crate::kinds::is_return;
use crate::node_view::NodeView;
use crate::spots::{add_fact, landing};
use op_model::{Op, Spot};
use stage_facts::PlainFact;
use stage_views::NodeSlots;
use std::alloc::AllocError;

/// Whether a fact is of no object.
pub(crate) fn is_of_none(fact: &PlainFact) -> bool
    ensures { IsTrue result ↔ IsOfNone (fact_of fact.now) }
{
    match fact {
        PlainFact::NoneYet => true,
        PlainFact::SomeYet => true,
        PlainFact::OfObject(_) => false,
    }
}

/// Whether an operation makes no object of a class, and goes on.
fn goes_on(op: &Op) -> bool
    ensures { IsTrue result ↔ GoesOn op.now }
{
    match op {
        Op::Assign(_) => true,
        Op::Load { .. } => true,
        Op::Store { .. } => true,
        Op::LoadElement { .. } => true,
        Op::StoreElement { .. } => true,
        Op::LoadStatic { .. } => true,
        Op::StoreStatic { .. } => true,
        Op::New { .. } => false,
        Op::NewArray { .. } => true,
        Op::Constant { .. } => true,
        Op::Call(_) => true,
        Op::Return { .. } => true,
        Op::Throw { .. } => false,
        Op::Cast { .. } => true,
        Op::Probe { .. } => true,
    }
}

/// Whether the operation leaves the fact as it is, since the fact is of no object.
pub(crate) fn stays(op: &Op, fact: &PlainFact) -> bool
    ensures { IsTrue result → Stays op.now (fact_of fact.now) }
{
    if !goes_on(op) {
        return false;
    }
    is_of_none(fact)
}

/// Adds a fact at the nodes of these offsets.
fn add_at_nodes(
    offsets: &[u32],
    fact: &PlainFact,
    within: &mut Vec<Conclusion>,
) -> Result<(), AllocError>
    ensures { OnOk result (AreAdded (OneAtEach offsets.now (fact_of fact.now ∷ [])) within.old.items within.new.items) }
{
    for offset in offsets {
        add_fact(Spot::Node(*offset), fact, within)?;
    }
    Ok(())
}

/// Adds a fact that the node leaves as it is, at each successor, and at a return where the method returns.
pub(crate) fn add_unchanged<V: NodeSlots>(
    view: &NodeView<'_, '_, V>,
    fact: &PlainFact,
    within: &mut Vec<Conclusion>,
) -> Result<(), AllocError>
    requires no_call { (c : RuleCall) → view.now.node.now.op ≡ IsCall c → ⊥ }
    requires stays { Stays view.now.node.now.op (fact_of fact.now) }
    ensures { OnOk result ((w : Setting) (l : RuleMethod) → AreAdded (Done (transfer_of w) l view.now.method view.now.node.now view.now.ways.now (fact_of fact.now)) within.old.items within.new.items) }
{
    add_at_nodes(view.node.successors.as_slice(), fact, within)?;
    if is_return(&view.node.op) {
        return add_fact(Spot::Returned, fact, within);
    }
    Ok(())
}

/// Adds a fact of no object where each object lands that the node throws.
pub(crate) fn add_landings<V: NodeSlots>(
    view: &NodeView<'_, '_, V>,
    landings: &[Option<u32>],
    fact: &PlainFact,
    within: &mut Vec<Conclusion>,
) -> Result<(), AllocError>
    requires { IsOfNone (fact_of fact.now) }
    ensures { OnOk result ((w : Setting) (l : RuleMethod) → AreAdded (OfOne (Raised (transfer_of w) l view.now.node.now (fact_of fact.now)) landings.now) within.old.items within.new.items) }
{
    for handler in landings {
        add_fact(landing(*handler), fact, within)?;
    }
    Ok(())
}
