//! Facts that change where they are of an object.

ghost use Rattle.std.specs.Prelude.{◌≡◌, map};
ghost use Rattle.std.specs.List.{list_any};
ghost use Rattle.access_paths.specs.Paths.{bare, has_path};
ghost use Rattle.op_model.specs.declared.lowered.LoweredMethod.{LoweredMethod as RuleMethod};
ghost use Rattle.op_model.specs.declared.node.Node.{Node as RuleNode};
ghost use Rattle.stage_facts.specs.Facts.{Tuple, of_object};
ghost use Rattle.stage_facts.specs.Plain.{fact_of};
ghost use Rattle.stage_views.specs.Drafts.{IsDraft};
ghost use Rattle.stage_flow.specs.Shapes.{Makes};
ghost use Rattle.stage_transfer.specs.Changes.{Change, changed};
ghost use Rattle.stage_transfer.specs.Operations.{on_tuples, puts_away};
ghost use Rattle.stage_transfer.specs.Settings.{Setting};
ghost use Rattle.stage_transfer.specs.Stages.{finished};
ghost use Rattle.stage_views.specs.Views.{facts_of, IsSettingBy};

use crate::change::PathChange;
use access_paths::{Path, PathSet, Root};
use stage_facts::{PlainFact, PlainTuple};
use stage_views::{Draft, Facts, NodeSlots, StageSetting, without_paths};

/// The paths of a tuple change.
pub fn changed_fact<V: NodeSlots>(
    setting: &StageSetting<'_>,
    slots: &V,
    change: &PathChange<'_>,
    fact: &PlainFact,
) -> Facts
    ensures { (w : Setting) (l : RuleMethod) (n : RuleNode) (c : Change) → IsSettingBy setting.now w → V.knows slots.now w l n → Makes w l n change.now c
        → facts_of result ≡ map (finished w) (on_tuples (changed c) (fact_of fact.now)) }
{
    match fact {
        PlainFact::NoneYet => Facts::One(PlainFact::NoneYet),
        PlainFact::SomeYet => Facts::One(PlainFact::SomeYet),
        PlainFact::OfObject(tuple) => Facts::One(changed_tuple(setting, slots, change, tuple)),
    }
}

/// The same, of a tuple. The second stage knows no paths, so there nothing is to be done.
fn changed_tuple<V: NodeSlots>(
    setting: &StageSetting<'_>,
    slots: &V,
    change: &PathChange<'_>,
    tuple: &PlainTuple,
) -> PlainFact
    ensures { (w : Setting) (l : RuleMethod) (n : RuleNode) (c : Change) → IsSettingBy setting.now w → V.knows slots.now w l n → Makes w l n change.now c
        → fact_of result ≡ finished w (of_object (changed c tuple.now)) }
{
    if setting.stage == 2 {
        return PlainFact::OfObject(without_paths(tuple.unique, tuple.state));
    }
    change.draft(slots, tuple).finish(setting)
}

/// The objects in some slots are put away, and then the paths of a tuple change.
pub fn kept_fact<V: NodeSlots>(
    setting: &StageSetting<'_>,
    slots: &V,
    change: &PathChange<'_>,
    kept: &[u32],
    fact: &PlainFact,
) -> Facts
    ensures { (w : Setting) (l : RuleMethod) (n : RuleNode) (c : Change) → IsSettingBy setting.now w → V.knows slots.now w l n → Makes w l n change.now c
        → facts_of result ≡ map (finished w) (on_tuples (λ (t : Tuple). changed c (puts_away kept.now t)) (fact_of fact.now)) }
{
    match fact {
        PlainFact::NoneYet => Facts::One(PlainFact::NoneYet),
        PlainFact::SomeYet => Facts::One(PlainFact::SomeYet),
        PlainFact::OfObject(tuple) => {
            Facts::One(kept_draft(slots, change, kept, tuple).finish(setting))
        }
    }
}

/// The same, of a tuple.
pub fn kept_draft<V: NodeSlots>(
    slots: &V,
    change: &PathChange<'_>,
    kept: &[u32],
    tuple: &PlainTuple,
) -> Draft
    ensures { (w : Setting) (l : RuleMethod) (n : RuleNode) (c : Change) → V.knows slots.now w l n → Makes w l n change.now c
        → IsDraft result (changed c (puts_away kept.now tuple.now)) }
{
    change
        .draft(slots, tuple)
        .with_may(is_put_away(&tuple.must, kept))
}

/// Whether the set has the path of one of the slots.
fn is_put_away(set: &PathSet, kept: &[u32]) -> bool
    ensures { result ≡ list_any (λ z. has_path set.now (bare (Root.Slot z))) kept.now }
{
    for slot in kept {
        if set.contains(&Path::new(Root::Slot(*slot))) {
            return true;
        }
    }
    false
}
