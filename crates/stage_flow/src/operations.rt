//! What operations do to facts on the way to a successor of their nodes.

ghost use Rattle.std.specs.Prelude.{◌≡◌, ◌∷◌, [], map};
ghost use Rattle.op_model.specs.declared.lowered.LoweredMethod.{LoweredMethod as RuleMethod};
ghost use Rattle.op_model.specs.declared.node.Node.{Node as RuleNode};
ghost use Rattle.stage_facts.specs.Plain.{fact_of};
ghost use Rattle.stage_flow.specs.Allocations.{allocated, put_into};
ghost use Rattle.stage_transfer.specs.Operations.{after_operation, on_tuples};
ghost use Rattle.stage_transfer.specs.Settings.{Setting};
ghost use Rattle.stage_transfer.specs.Stages.{finished, transfer_of};
ghost use Rattle.stage_views.specs.Views.{facts_of, IsSettingBy};

use crate::answers::new_fact;
use crate::changes::{
    assigning, loading_static, receiving, returning, storing_static, writing_one, writing_two,
};
use crate::loads::loaded_fact;
use crate::sites::is_same_site;
use crate::store::FieldStore;
use crate::tuples::{changed_fact, kept_fact};
use jvm_model::Site;
use op_model::{Node, Op};
use stage_facts::PlainFact;
use stage_views::{Draft, Facts, NodeSlots, StageSetting};

/// What a node does to a fact on the way to a successor; of a call, once it has returned; of a return, out of the method.
pub fn after_node<V: NodeSlots>(
    setting: &StageSetting<'_>,
    slots: &V,
    node: &Node,
    fact: &PlainFact,
) -> Facts
    ensures { (w : Setting) (l : RuleMethod) → IsSettingBy setting.now w → V.knows slots.now w l node.now
        → facts_of result ≡ (transfer_of w).next l node.now (fact_of fact.now) }
{
    after_operation(setting, slots, &node.op, fact)
}

/// What an operation does to it.
fn after_operation<V: NodeSlots>(
    setting: &StageSetting<'_>,
    slots: &V,
    op: &Op,
    fact: &PlainFact,
) -> Facts
    ensures { (w : Setting) (l : RuleMethod) (n : RuleNode) → IsSettingBy setting.now w → V.knows slots.now w l n
        → facts_of result ≡ map (finished w) (after_operation w l n op.now (fact_of fact.now)) }
{
    match op {
        Op::Assign(moves) => changed_fact(setting, slots, &assigning(moves.as_slice()), fact),
        Op::Load {
            object,
            field,
            target,
        } => loaded_fact(setting, slots, *object, *field, *target, fact),
        Op::Store {
            object,
            field,
            value,
        } => FieldStore::of(setting, *object, *field, *value).fact(setting, slots, fact),
        Op::LoadElement { array, target } => {
            changed_fact(setting, slots, &writing_two(*array, *target), fact)
        }
        Op::StoreElement { array, value } => put_fact(setting, slots, *array, *value, fact),
        Op::LoadStatic { field, target } => {
            changed_fact(setting, slots, &loading_static(*field, *target), fact)
        }
        Op::StoreStatic { field, value } => {
            changed_fact(setting, slots, &storing_static(*field, *value), fact)
        }
        Op::New { site, target } => allocated_fact(setting, slots, site, *target, fact),
        Op::NewArray { target, .. } => changed_fact(setting, slots, &writing_one(*target), fact),
        Op::Constant { target, .. } => changed_fact(setting, slots, &writing_one(*target), fact),
        Op::Call(call) => changed_fact(setting, slots, &receiving(call), fact),
        Op::Return { value } => changed_fact(setting, slots, &returning(*value), fact),
        Op::Throw { .. } => Facts::None,
        Op::Cast { .. } => same_fact(setting, fact),
        Op::Probe { slot } => changed_fact(setting, slots, &writing_one(*slot), fact),
    }
}

/// A value is put into an array.
fn put_fact<V: NodeSlots>(
    setting: &StageSetting<'_>,
    slots: &V,
    array: u32,
    value: u32,
    fact: &PlainFact,
) -> Facts
    ensures { (w : Setting) (l : RuleMethod) (n : RuleNode) → IsSettingBy setting.now w → V.knows slots.now w l n
        → facts_of result ≡ map (finished w) (on_tuples (put_into w l n array value) (fact_of fact.now)) }
{
    kept_fact(setting, slots, &writing_two(array, value), &[value], fact)
}

/// An object is allocated.
fn allocated_fact<V: NodeSlots>(
    setting: &StageSetting<'_>,
    slots: &V,
    site: &Site,
    target: u32,
    fact: &PlainFact,
) -> Facts
    ensures { (w : Setting) (l : RuleMethod) (n : RuleNode) → IsSettingBy setting.now w → V.knows slots.now w l n
        → facts_of result ≡ map (finished w) (allocated w l n site.now target (fact_of fact.now)) }
{
    let change = writing_one(target);
    if is_same_site(site, setting.site) {
        return new_fact(setting, slots, &change, &[], Some(target), fact);
    }
    changed_fact(setting, slots, &change, fact)
}

/// The fact stays.
fn same_fact(setting: &StageSetting<'_>, fact: &PlainFact) -> Facts
    ensures { (w : Setting) → IsSettingBy setting.now w → facts_of result ≡ map (finished w) (fact_of fact.now ∷ []) }
{
    match fact {
        PlainFact::NoneYet => Facts::One(PlainFact::NoneYet),
        PlainFact::SomeYet => Facts::One(PlainFact::SomeYet),
        PlainFact::OfObject(tuple) => Facts::One(Draft::of(tuple).finish(setting)),
    }
}
