//! Sets of paths that slots of one variable join.

ghost use Rattle.std.specs.Prelude.{◌≡◌, ℕ, ◌+◌, ◌++◌, List, map, filter, true};
ghost use Rattle.std.specs.List.{range_with_len};
ghost use Rattle.access_paths.specs.Paths.{Path as AccessPath};
ghost use Rattle.op_model.specs.declared.lowered.LoweredMethod.{LoweredMethod as RuleMethod};
ghost use Rattle.op_model.specs.declared.node.Node.{Node as RuleNode};
ghost use Rattle.stage_transfer.specs.Calls.{joined};
ghost use Rattle.stage_transfer.specs.Settings.{alike, Setting};
ghost use Rattle.stage_views.specs.Views.{Gathers};
ghost use Rattle.stage_views.specs.Drafts.{IsCutOf};
ghost use Rattle.stage_calls.specs.Testing.{bare_slot, is_like};

use access_paths::{Path, PathSet, Root};
use stage_views::{Gathering, NodeSlots};

/// A set that the slots join that have a slot's variable at the node, where they are wanted.
pub(crate) fn joined<V: NodeSlots>(wanted: bool, slots: &V, slot: u32, set: &PathSet) -> Gathering
    ensures { (w : Setting) (l : RuleMethod) (n : RuleNode) → wanted ≡ true → V.knows slots.now w l n → IsCutOf result (joined (alike w l n slot) set.now) }
{
    let mut gathering = Gathering::whole(set);
    if !wanted {
        return gathering;
    }
    join(&mut gathering, slots, slot);
    gathering
}

/// Gathers the paths of these slots.
fn join<V: NodeSlots>(gathering: &mut Gathering, slots: &V, slot: u32)
    ensures { (w : Setting) (l : RuleMethod) (n : RuleNode) (before : List AccessPath) → V.knows slots.now w l n → Gathers gathering.old before
        → Gathers gathering.new (before ++ map bare_slot (alike w l n slot)) }
{
    let count = slots.slots();
    if slot < count {
        join_shared(gathering, slots, slot, count);
    } else {
        gathering.add(&Path::new(Root::Slot(slot)));
    }
}

/// The same of the slots below a number.
fn join_shared<V: NodeSlots>(gathering: &mut Gathering, slots: &V, slot: u32, count: u32)
    ensures { (w : Setting) (l : RuleMethod) (n : RuleNode) (before : List AccessPath) → V.knows slots.now w l n → Gathers gathering.old before
        → Gathers gathering.new (before ++ map bare_slot (filter (is_like w l n slot) (range_with_len 0 count))) }
{
    for other in 0..count {
        if slots.share(other, slot) {
            gathering.add(&Path::new(Root::Slot(other)));
        }
    }
}
