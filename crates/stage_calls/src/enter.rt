//! What a method is entered with.

ghost use Rattle.std.specs.Prelude.{◌≡◌, ◌≤◌, ◌<◌, ◌^◌, ◌||◌, true, ◌++◌, List, length, map, filter};
ghost use Rattle.std.specs.List.{list_any};
ghost use Rattle.access_paths.specs.Operations.{begins_at, with_root};
ghost use Rattle.access_paths.specs.Paths.{Path as AccessPath};
ghost use Rattle.stage_facts.specs.Facts.{of_object};
ghost use Rattle.stage_facts.specs.Plain.{fact_of};
ghost use Rattle.stage_transfer.specs.Calls.{begins_static, entered, entered_fact, entered_set, is_passed_on, passing, passing_from, passing_to};
ghost use Rattle.stage_transfer.specs.Changes.{copied};
ghost use Rattle.stage_transfer.specs.Settings.{Setting};
ghost use Rattle.stage_transfer.specs.Stages.{finished, transfer_of};
ghost use Rattle.stage_views.specs.Views.{entering_of, Gathers, IsSettingBy};
ghost use Rattle.stage_views.specs.Drafts.{IsCutOf};
ghost use Rattle.stage_calls.specs.Testing.{is_unpassed};
ghost use Rattle.stage_calls.specs.Units.{HasSlots};

use crate::path_test::{PathTest, any, gather, has_fields};
use crate::units::is_passed;
use access_paths::{Path, PathSet, Root};
use stage_facts::{PlainFact, PlainTuple};
use stage_views::{Draft, Entering, Gathering, StageSetting};

/// What a method is entered with, where each unit of the arguments has the number of a slot (`has_slots`).
pub fn entered(setting: &StageSetting<'_>, by: Entering<'_>, fact: &PlainFact) -> PlainFact
    ensures { (w : Setting) → IsSettingBy setting.now w → HasSlots (entering_of by.entry)
        → fact_of result ≡ (transfer_of w).enter (entering_of by.entry) (fact_of fact.now) }
{
    match fact {
        PlainFact::NoneYet => PlainFact::NoneYet,
        PlainFact::SomeYet => PlainFact::SomeYet,
        PlainFact::OfObject(tuple) => entered_tuple(setting, by, tuple),
    }
}

/// The same of an object.
fn entered_tuple(setting: &StageSetting<'_>, by: Entering<'_>, tuple: &PlainTuple) -> PlainFact
    ensures { (w : Setting) → IsSettingBy setting.now w → HasSlots (entering_of by.entry)
        → fact_of result ≡ finished w (of_object (entered (entering_of by.entry) tuple.now)) }
{
    let draft = Draft {
        unique: tuple.unique,
        state: tuple.state,
        must: entered_set(setting.has_paths(), by, &tuple.must),
        may: entered_may(by, tuple),
        must_not: entered_set(setting.has_others(), by, &tuple.must_not).set,
    };
    draft.finish(setting)
}

/// Whether cells may hold the object in which no path of the callee ends.
fn entered_may(by: Entering<'_>, tuple: &PlainTuple) -> bool
    ensures { result ≡ (tuple.now.may || list_any (is_unpassed (entering_of by.entry)) tuple.now.must) }
{
    if tuple.may {
        return true;
    }
    any(&tuple.must, &Unpassed { by })
}

/// The paths of a set that are passed on, as paths of the callee, where they are wanted.
fn entered_set(wanted: bool, by: Entering<'_>, set: &PathSet) -> Gathering
    ensures { wanted ≡ true → HasSlots (entering_of by.entry) → IsCutOf result (entered_set (entering_of by.entry) set.now) }
{
    let mut gathering = Gathering::new();
    if !wanted {
        return gathering;
    }
    gather(&mut gathering, set, &BeginsStatic);
    pass(&mut gathering, by, set);
    gathering
}

/// Each argument is copied to the slot of its unit.
fn pass(gathering: &mut Gathering, by: Entering<'_>, set: &PathSet)
    ensures { (before : List AccessPath) → HasSlots (entering_of by.entry) → Gathers gathering.old before
        → Gathers gathering.new (before ++ copied (passing (entering_of by.entry)) set.now) }
{
    match by {
        Entering::Call(call) => pass_units(gathering, call.arguments.as_slice(), set),
        Entering::Trigger => {}
    }
}

/// The same of the units of a call.
fn pass_units(gathering: &mut Gathering, arguments: &[Option<u32>], set: &PathSet)
    ensures { (before : List AccessPath) → length arguments.now ≤ 2 ^ 32 → Gathers gathering.old before
        → Gathers gathering.new (before ++ copied (passing_from 0 arguments.now) set.now) }
{
    for (unit, argument) in arguments.iter().enumerate() {
        pass_unit(gathering, unit, *argument, set);
    }
}

/// The same of one unit. One whose number is that of no slot passes nothing.
fn pass_unit(gathering: &mut Gathering, unit: usize, argument: Option<u32>, set: &PathSet)
    ensures { (before : List AccessPath) → unit < 2 ^ 32 → Gathers gathering.old before → Gathers gathering.new (before ++ copied (passing_to unit argument) set.now) }
{
    let Some(slot) = argument else {
        return;
    };
    if unit > u32::MAX as usize {
        return;
    }
    copy(
        gathering,
        set.as_slice(),
        Root::Slot(slot),
        Root::Slot(unit as u32),
    );
}

/// For each path of the one root, gathers that of the other root with the same fields.
fn copy(gathering: &mut Gathering, paths: &[Path], from: Root, to: Root)
    ensures { (before : List AccessPath) → Gathers gathering.old before → Gathers gathering.new (before ++ map (with_root to) (filter (begins_at from) paths.now)) }
{
    for path in paths {
        if path.begins_at(from) {
            gathering.add(&path.with_root(to));
        }
    }
}

/// Whether the callee knows of what begins at a root.
fn is_passed_on(by: Entering<'_>, root: Root) -> bool
    ensures { result ≡ is_passed_on (entering_of by.entry) root }
{
    match root {
        Root::Slot(slot) => is_passed(by, slot),
        Root::Static(_) => true,
        Root::Returned => false,
        Root::Thrown => false,
    }
}

/// Whether a path begins at a static field.
struct BeginsStatic;

impl PathTest for BeginsStatic {
    ghost use Rattle.stage_transfer.specs.Calls.{begins_static};
    ghost use Rattle.stage_calls.specs.Testing.{AreAlike};

    ghost computes = { λ x p. AreAlike p begins_static };

    fn holds(&self, path: &Path) -> bool {
        match path.root() {
            Root::Slot(_) => false,
            Root::Static(_) => true,
            Root::Returned => false,
            Root::Thrown => false,
        }
    }
}

/// Whether a path has fields, and the callee knows nothing of its root.
#[derive(Clone, Copy)]
struct Unpassed<'c> {
    by: Entering<'c>,
}

impl PathTest for Unpassed<'_> {
    ghost use Rattle.stage_views.specs.Views.{entering_of};
    ghost use Rattle.stage_calls.specs.Testing.{is_unpassed, AreAlike};

    ghost computes = { λ x p. AreAlike p (is_unpassed (entering_of x.by)) };

    fn holds(&self, path: &Path) -> bool {
        has_fields(path) && !is_passed_on(self.by, path.root())
    }
}
