//! What described methods do to facts, and what an allocation does.

ghost use Rattle.std.specs.Prelude.{◌≡◌, [], ◌∷◌, map};
ghost use Rattle.std.specs.Option.{option_to_list};
ghost use Rattle.access_paths.specs.Paths.{bare};
ghost use Rattle.op_model.specs.declared.lowered.LoweredMethod.{LoweredMethod as RuleMethod};
ghost use Rattle.op_model.specs.declared.node.Node.{Node as RuleNode};
ghost use Rattle.stage_facts.specs.Facts.{Tuple, of_object, some_yet};
ghost use Rattle.stage_facts.specs.Plain.{fact_of};
ghost use Rattle.stage_views.specs.Drafts.{IsDraft};
ghost use Rattle.stage_flow.specs.Shapes.{Makes};
ghost use Rattle.stage_transfer.specs.Calls.{Result};
ghost use Rattle.stage_transfer.specs.Changes.{Change, changed};
ghost use Rattle.stage_transfer.specs.Operations.{after_new, new_tuple, puts_away};
ghost use Rattle.stage_transfer.specs.Settings.{Setting};
ghost use Rattle.stage_transfer.specs.Stages.{finished, transfer_of};
ghost use Rattle.stage_views.specs.Views.{facts_of, Gathers, IsAnswerOf, IsSettingBy};

use crate::change::PathChange;
use crate::changes::{giving, writing_call};
use crate::tuples::{kept_draft, kept_fact};
use access_paths::{Path, PathSet, Root};
use op_model::Call;
use stage_facts::PlainFact;
use stage_views::{Answer, Draft, Facts, Gathering, NodeSlots, StageSetting};

/// What a described method does to a fact: it keeps the objects in some slots, and gives a result.
pub fn after_answer<V: NodeSlots>(
    setting: &StageSetting<'_>,
    slots: &V,
    call: &Call,
    kept: &[u32],
    answer: Answer,
    fact: &PlainFact,
) -> Facts
    ensures { (w : Setting) (l : RuleMethod) (n : RuleNode) (r : Result) → IsSettingBy setting.now w → V.knows slots.now w l n → IsAnswerOf w.site answer r
        → facts_of result ≡ (transfer_of w).answer l n call.now kept.now r (fact_of fact.now) }
{
    match answer {
        Answer::Argument(slot) => kept_fact(setting, slots, &giving(call, slot), kept, fact),
        Answer::Own => new_fact(setting, slots, &writing_call(call), kept, call.result, fact),
        Answer::Other => kept_fact(setting, slots, &writing_call(call), kept, fact),
    }
}

/// The objects in some slots are put away, the paths of a tuple change, and an object of the site is allocated, for a slot.
pub fn new_fact<V: NodeSlots>(
    setting: &StageSetting<'_>,
    slots: &V,
    change: &PathChange<'_>,
    kept: &[u32],
    target: Option<u32>,
    fact: &PlainFact,
) -> Facts
    ensures { (w : Setting) (l : RuleMethod) (n : RuleNode) (c : Change) → IsSettingBy setting.now w → V.knows slots.now w l n → Makes w l n change.now c
        → facts_of result ≡ map (finished w) (after_new w target (λ (t : Tuple). changed c (puts_away kept.now t)) (fact_of fact.now)) }
{
    match fact {
        PlainFact::NoneYet => with_new(setting, target, true),
        PlainFact::SomeYet => with_new(setting, target, false),
        PlainFact::OfObject(tuple) => Facts::One(
            kept_draft(slots, change, kept, tuple)
                .beside_new(target)
                .finish(setting),
        ),
    }
}

/// There is an object of the site; and this is known of the new one.
fn with_new(setting: &StageSetting<'_>, target: Option<u32>, unique: bool) -> Facts
    ensures { (w : Setting) → IsSettingBy setting.now w → facts_of result ≡ map (finished w) (some_yet ∷ of_object (new_tuple w target unique) ∷ []) }
{
    let new = new_draft(setting, target, unique);
    Facts::Two(PlainFact::SomeYet, new.finish(setting))
}

/// What is known of a new object.
fn new_draft(setting: &StageSetting<'_>, target: Option<u32>, unique: bool) -> Draft
    ensures { (w : Setting) → IsSettingBy setting.now w → IsDraft result (new_tuple w target unique) }
{
    Draft {
        unique,
        state: setting.automaton.initial,
        must: slot_paths(target),
        may: false,
        must_not: PathSet::empty(),
    }
}

/// The path of the slot, if there is one.
fn slot_paths(slot: Option<u32>) -> Gathering
    ensures { Gathers result (map (λ z. bare (Root.Slot z)) (option_to_list slot)) }
{
    let mut all = Gathering::new();
    if let Some(slot) = slot {
        all.add(&Path::new(Root::Slot(slot)));
    }
    all
}
