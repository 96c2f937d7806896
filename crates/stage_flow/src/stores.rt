//! What a store to a field does to facts.

ghost use Rattle.std.specs.Prelude.{◌≡◌, map};
ghost use Rattle.op_model.specs.declared.lowered.LoweredMethod.{LoweredMethod as RuleMethod};
ghost use Rattle.op_model.specs.declared.node.Node.{Node as RuleNode};
ghost use Rattle.stage_facts.specs.Plain.{fact_of};
ghost use Rattle.stage_views.specs.Drafts.{IsDraft};
ghost use Rattle.stage_flow.specs.Stores.{IsStoreIn, after_field_store, may_after_store};
ghost use Rattle.stage_transfer.specs.Operations.{on_tuples};
ghost use Rattle.stage_transfer.specs.Settings.{Setting};
ghost use Rattle.stage_transfer.specs.Stages.{finished};
ghost use Rattle.stage_views.specs.Views.{facts_of, IsSettingBy};

use crate::store::FieldStore;
use stage_facts::{PlainFact, PlainTuple};
use stage_views::{Draft, Facts, Gathering, NodeSlots, StageSetting};

impl FieldStore {
    /// What the store does to a fact.
    pub fn fact<V: NodeSlots>(
        &self,
        setting: &StageSetting<'_>,
        slots: &V,
        fact: &PlainFact,
    ) -> Facts
        ensures { (w : Setting) (l : RuleMethod) (n : RuleNode) → IsSettingBy setting.now w → IsStoreIn w self.now → V.knows slots.now w l n
            → facts_of result ≡ map (finished w) (on_tuples (after_field_store w l n self.now) (fact_of fact.now)) }
    {
        match fact {
            PlainFact::NoneYet => Facts::One(PlainFact::NoneYet),
            PlainFact::SomeYet => Facts::One(PlainFact::SomeYet),
            PlainFact::OfObject(tuple) => Facts::One(self.draft(slots, tuple).finish(setting)),
        }
    }

    /// What the store makes of a tuple.
    fn draft<V: NodeSlots>(&self, slots: &V, tuple: &PlainTuple) -> Draft
        ensures { (w : Setting) (l : RuleMethod) (n : RuleNode) → IsStoreIn w self.now → V.knows slots.now w l n
            → IsDraft result (after_field_store w l n self.now tuple.now) }
    {
        let Gathering {
            set: must_not,
            dropped: _,
        } = self.gathered(slots, &tuple.must_not);
        Draft {
            unique: tuple.unique,
            state: tuple.state,
            must: self.gathered(slots, &tuple.must),
            may: self.may_after(slots, tuple),
            must_not,
        }
    }

    /// Whether cells may hold the object afterwards in which no path ends.
    fn may_after<V: NodeSlots>(&self, slots: &V, tuple: &PlainTuple) -> bool
        ensures { (w : Setting) (l : RuleMethod) (n : RuleNode) → IsStoreIn w self.now → V.knows slots.now w l n
            → result ≡ may_after_store w l n self.now tuple.now }
    {
        if tuple.may {
            return true;
        }
        self.loses(slots, &tuple.must)
    }
}
