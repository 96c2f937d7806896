//! What happens to facts where an object is thrown.

ghost use Rattle.std.specs.Prelude.{◌≡◌};
ghost use Rattle.op_model.specs.declared.lowered.LoweredMethod.{LoweredMethod as RuleMethod};
ghost use Rattle.op_model.specs.declared.node.Node.{Node as RuleNode};
ghost use Rattle.stage_facts.specs.Plain.{fact_of};
ghost use Rattle.stage_flow.specs.Shapes.{leaving_by, Makes};
ghost use Rattle.stage_transfer.specs.Exceptions.{thrown_slot};
ghost use Rattle.stage_transfer.specs.Settings.{Setting};
ghost use Rattle.stage_transfer.specs.Stages.{transfer_of};
ghost use Rattle.stage_views.specs.Views.{facts_of, IsSettingBy};

use crate::change::PathChange;
use crate::changes::{catching, unwinding};
use crate::tuples::{changed_fact, kept_fact};
use op_model::{Node, Op};
use stage_facts::PlainFact;
use stage_views::{Facts, NodeSlots, StageSetting};

/// What happens to a fact where an object is thrown at a node, into a handler at an offset or out of the method.
pub fn after_raise<V: NodeSlots>(
    setting: &StageSetting<'_>,
    slots: &V,
    node: &Node,
    handler: Option<u32>,
    fact: &PlainFact,
) -> Facts
    ensures { (w : Setting) (l : RuleMethod) → IsSettingBy setting.now w → V.knows slots.now w l node.now
        → facts_of result ≡ (transfer_of w).raise l node.now handler (fact_of fact.now) }
{
    changed_fact(setting, slots, &leaving_by(slots, &node.op, handler), fact)
}

/// What a described method does to a fact where it throws a new object: first it keeps the objects in some slots.
pub fn after_exception<V: NodeSlots>(
    setting: &StageSetting<'_>,
    slots: &V,
    node: &Node,
    kept: &[u32],
    handler: Option<u32>,
    fact: &PlainFact,
) -> Facts
    ensures { (w : Setting) (l : RuleMethod) → IsSettingBy setting.now w → V.knows slots.now w l node.now
        → facts_of result ≡ (transfer_of w).exception l node.now kept.now handler (fact_of fact.now) }
{
    kept_fact(
        setting,
        slots,
        &leaving_by(slots, &node.op, handler),
        kept,
        fact,
    )
}

/// The change of the way into the handler, or out of the method.
fn leaving_by<'c, V: NodeSlots>(slots: &V, op: &Op, handler: Option<u32>) -> PathChange<'c>
    ensures { (w : Setting) (l : RuleMethod) (n : RuleNode) → V.knows slots.now w l n → Makes w l n result (leaving_by w l n op.now handler) }
{
    match handler {
        None => unwinding(thrown_slot(op)),
        Some(_) => catching(slots.locals(), thrown_slot(op)),
    }
}

/// The slot of what a throw throws.
fn thrown_slot(op: &Op) -> Option<u32>
    ensures { result ≡ thrown_slot op.now }
{
    match op {
        Op::Throw { value } => Some(*value),
        Op::Assign(_) => None,
        Op::Load { .. } => None,
        Op::Store { .. } => None,
        Op::LoadElement { .. } => None,
        Op::StoreElement { .. } => None,
        Op::LoadStatic { .. } => None,
        Op::StoreStatic { .. } => None,
        Op::New { .. } => None,
        Op::NewArray { .. } => None,
        Op::Constant { .. } => None,
        Op::Call(_) => None,
        Op::Return { .. } => None,
        Op::Cast { .. } => None,
        Op::Probe { .. } => None,
    }
}
