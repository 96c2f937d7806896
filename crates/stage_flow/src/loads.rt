//! What a load of a field does to facts.

ghost use Rattle.std.specs.Prelude.{◌≡◌, map};
ghost use Rattle.std.specs.List.{list_any};
ghost use Rattle.access_paths.specs.Followed.{listed};
ghost use Rattle.access_paths.specs.Paths.{Path as AccessPath};
ghost use Rattle.op_model.specs.declared.lowered.LoweredMethod.{LoweredMethod as RuleMethod};
ghost use Rattle.op_model.specs.declared.node.Node.{Node as RuleNode};
ghost use Rattle.stage_facts.specs.Plain.{fact_of};
ghost use Rattle.stage_views.specs.Drafts.{IsDraft};
ghost use Rattle.stage_transfer.specs.Operations.{after_load, ends_in, may_be_loaded, on_tuples};
ghost use Rattle.stage_transfer.specs.Settings.{Setting};
ghost use Rattle.stage_transfer.specs.Stages.{finished};
ghost use Rattle.stage_views.specs.Views.{facts_of, IsSettingBy};

use crate::changes::loading;
use access_paths::{Fields, Path, PathSet, Root};
use jvm_model::FieldNo;
use stage_facts::{PlainFact, PlainTuple};
use stage_views::{Draft, Facts, NodeSlots, StageSetting};

/// A field of an object is loaded into a target.
pub fn loaded_fact<V: NodeSlots>(
    setting: &StageSetting<'_>,
    slots: &V,
    object: u32,
    field: FieldNo,
    target: u32,
    fact: &PlainFact,
) -> Facts
    ensures { (w : Setting) (l : RuleMethod) (n : RuleNode) → IsSettingBy setting.now w → V.knows slots.now w l n
        → facts_of result ≡ map (finished w) (on_tuples (after_load w l n object field target) (fact_of fact.now)) }
{
    match fact {
        PlainFact::NoneYet => Facts::One(PlainFact::NoneYet),
        PlainFact::SomeYet => Facts::One(PlainFact::SomeYet),
        PlainFact::OfObject(tuple) => {
            Facts::One(loaded_draft(slots, object, field, target, tuple).finish(setting))
        }
    }
}

/// The same, of a tuple.
fn loaded_draft<V: NodeSlots>(
    slots: &V,
    object: u32,
    field: FieldNo,
    target: u32,
    tuple: &PlainTuple,
) -> Draft
    ensures { (w : Setting) (l : RuleMethod) (n : RuleNode) → V.knows slots.now w l n → IsDraft result (after_load w l n object field target tuple.now) }
{
    loading(object, field, target)
        .draft(slots, tuple)
        .with_may(may_be_loaded(&tuple.must, object, field))
}

/// Whether the object may be what is loaded: some path ends in the field, but not that of the object.
fn may_be_loaded(must: &PathSet, object: u32, field: FieldNo) -> bool
    ensures { result ≡ may_be_loaded object field must.now }
{
    if must.contains(&Path::along(Root::Slot(object), Fields::One(field))) {
        return false;
    }
    some_end_in(must, field)
}

/// Whether some path ends in the field.
fn some_end_in(set: &PathSet, field: FieldNo) -> bool
    ensures { result ≡ list_any (λ (x : AccessPath). ends_in field x.fields) set.now }
{
    for path in set.as_slice() {
        if ends_in(path.fields(), field) {
            return true;
        }
    }
    false
}

/// Whether the last field is this one.
fn ends_in(fields: Fields, field: FieldNo) -> bool
    ensures { result ≡ ends_in field (listed fields) }
{
    match fields {
        Fields::Zero => false,
        Fields::One(last) => field == last,
        Fields::Two(_, last) => field == last,
        Fields::Three(_, _, last) => field == last,
    }
}
