//! What a caller knows when a method that it entered has ended.

ghost use Rattle.std.specs.Prelude.{◌≡◌, ◌||◌, true};
ghost use Rattle.std.specs.List.{list_any};
ghost use Rattle.op_model.specs.declared.lowered.LoweredMethod.{LoweredMethod as RuleMethod};
ghost use Rattle.op_model.specs.declared.node.Node.{Node as RuleNode};
ghost use Rattle.stage_facts.specs.Facts.{of_object};
ghost use Rattle.stage_facts.specs.Plain.{fact_of};
ghost use Rattle.stage_transfer.specs.Calls.{is_dropped, left, left_alone, left_by_tuple, left_set};
ghost use Rattle.stage_transfer.specs.Settings.{Setting};
ghost use Rattle.stage_transfer.specs.Stages.{finished, transfer_of};
ghost use Rattle.stage_views.specs.Views.{entering_of, IsSettingBy};
ghost use Rattle.stage_views.specs.Drafts.{IsCutOf};
ghost use Rattle.stage_calls.specs.Testing.{may_both};

use crate::joins::Joins;
use crate::left_out::LeftOut;
use crate::path_test::{any, gather};
use crate::roots::{Dropped, HandedOn};
use access_paths::PathSet;
use jvm_model::MethodNo;
use stage_facts::{PlainFact, PlainTuple};
use stage_views::{Draft, Entering, Gathering, NodeSlots, StageSetting};

/// What a caller knows when a method that it entered has ended.
pub fn left<V: NodeSlots>(
    setting: &StageSetting<'_>,
    slots: &V,
    by: Entering<'_>,
    target: MethodNo,
    caller: &PlainFact,
    exit: &PlainFact,
) -> PlainFact
    ensures { (w : Setting) (l : RuleMethod) (n : RuleNode) → IsSettingBy setting.now w → V.knows slots.now w l n
        → fact_of result ≡ (transfer_of w).leave l n (entering_of by.entry) target (fact_of caller.now) (fact_of exit.now) }
{
    match exit {
        PlainFact::NoneYet => PlainFact::NoneYet,
        PlainFact::SomeYet => PlainFact::SomeYet,
        PlainFact::OfObject(exit) => {
            left_with(setting, &Joins { slots, by, target }, caller, exit)
        }
    }
}

/// The same where an object is left with.
fn left_with<V: NodeSlots>(
    setting: &StageSetting<'_>,
    joins: &Joins<'_, V>,
    caller: &PlainFact,
    exit: &PlainTuple,
) -> PlainFact
    ensures { (w : Setting) (l : RuleMethod) (n : RuleNode) → IsSettingBy setting.now w → V.knows joins.now.slots.now w l n
        → fact_of result ≡ finished w (of_object (left_by_tuple w l n (entering_of joins.now.by) joins.now.target (fact_of caller.now) exit.now)) }
{
    match caller {
        PlainFact::NoneYet => left_alone(setting, joins, exit),
        PlainFact::SomeYet => left_alone(setting, joins, exit),
        PlainFact::OfObject(caller) => left_both(setting, joins, caller, exit),
    }
}

/// The same where the object was not there at the call: nothing of the caller joins.
fn left_alone<V: NodeSlots>(
    setting: &StageSetting<'_>,
    joins: &Joins<'_, V>,
    exit: &PlainTuple,
) -> PlainFact
    ensures { (w : Setting) (l : RuleMethod) (n : RuleNode) → IsSettingBy setting.now w → V.knows joins.now.slots.now w l n
        → fact_of result ≡ finished w (of_object (left_alone w (entering_of joins.now.by) joins.now.target exit.now)) }
{
    let none = PathSet::empty();
    let draft = Draft {
        unique: exit.unique,
        state: exit.state,
        must: left_set(setting.has_paths(), joins, &none, &exit.must),
        may: alone_may(joins.by, exit),
        must_not: left_set(setting.has_others(), joins, &none, &exit.must_not).set,
    };
    draft.finish(setting)
}

/// The same where it was.
fn left_both<V: NodeSlots>(
    setting: &StageSetting<'_>,
    joins: &Joins<'_, V>,
    caller: &PlainTuple,
    exit: &PlainTuple,
) -> PlainFact
    ensures { (w : Setting) (l : RuleMethod) (n : RuleNode) → IsSettingBy setting.now w → V.knows joins.now.slots.now w l n
        → fact_of result ≡ finished w (of_object (left w l n (entering_of joins.now.by) joins.now.target caller.now exit.now)) }
{
    let draft = Draft {
        unique: exit.unique,
        state: exit.state,
        must: left_set(setting.has_paths(), joins, &caller.must, &exit.must),
        may: both_may(joins, caller, exit),
        must_not: left_set(
            setting.has_others(),
            joins,
            &caller.must_not,
            &exit.must_not,
        )
        .set,
    };
    draft.finish(setting)
}

/// The paths that are handed on, and those of the caller that join, where they are wanted.
fn left_set<V: NodeSlots>(
    wanted: bool,
    joins: &Joins<'_, V>,
    caller: &PathSet,
    exit: &PathSet,
) -> Gathering
    ensures { (w : Setting) (l : RuleMethod) (n : RuleNode) → wanted ≡ true → V.knows joins.now.slots.now w l n
        → IsCutOf result (left_set w (entering_of joins.now.by) joins.now.target caller.now exit.now) }
{
    let mut gathering = Gathering::new();
    if !wanted {
        return gathering;
    }
    gather(&mut gathering, exit, &HandedOn { by: joins.by });
    gather(&mut gathering, caller, joins);
    gathering
}

/// Whether other cells may hold the object, by what the exit knows.
fn alone_may(by: Entering<'_>, exit: &PlainTuple) -> bool
    ensures { result ≡ (exit.now.may || list_any (is_dropped (entering_of by.entry)) exit.now.must) }
{
    if exit.may {
        return true;
    }
    any(&exit.must, &Dropped { by })
}

/// The same by what the caller knows too.
fn both_may<V: NodeSlots>(joins: &Joins<'_, V>, caller: &PlainTuple, exit: &PlainTuple) -> bool
    ensures { (w : Setting) (l : RuleMethod) (n : RuleNode) → V.knows joins.now.slots.now w l n
        → result ≡ may_both w l n (entering_of joins.now.by) joins.now.target caller.now exit.now }
{
    if exit.may {
        return true;
    }
    if caller.may {
        return true;
    }
    if any(&exit.must, &Dropped { by: joins.by }) {
        return true;
    }
    let caller = &caller.must;
    any(caller, &LeftOut { joins, caller })
}
