//! Slots of one variable.

ghost use Rattle.std.specs.Prelude.{◌≡◌};
ghost use Rattle.op_model.specs.declared.lowered.LoweredMethod.{LoweredMethod as RuleMethod};
ghost use Rattle.op_model.specs.declared.node.Node.{Node as RuleNode};
ghost use Rattle.stage_flow.specs.Shapes.{is_like, may_double, reaches, written_of};
ghost use Rattle.stage_transfer.specs.Settings.{Setting};

use crate::written::Written;
use access_paths::Root;
use stage_views::NodeSlots;

/// Whether the second slot has the variable of the first one, or is it.
pub fn is_like<V: NodeSlots>(slots: &V, first: u32, second: u32) -> bool
    ensures { (w : Setting) (l : RuleMethod) (n : RuleNode) → V.knows slots.now w l n → result ≡ is_like w l n first second }
{
    let all = slots.slots();
    if first < all {
        return second < all && slots.share(second, first);
    }
    second == first
}

/// Whether the second root is a slot of the first one's variable that is not written.
pub fn may_double<V: NodeSlots>(slots: &V, written: &Written<'_>, first: Root, second: Root) -> bool
    ensures { (w : Setting) (l : RuleMethod) (n : RuleNode) → V.knows slots.now w l n
        → result ≡ may_double w l n (written_of written.now) first second }
{
    match first {
        Root::Slot(slot) => may_double_slot(slots, written, slot, second),
        Root::Static(_) => false,
        Root::Returned => false,
        Root::Thrown => false,
    }
}

/// The same, of a slot.
fn may_double_slot<V: NodeSlots>(slots: &V, written: &Written<'_>, first: u32, second: Root) -> bool
    ensures { (w : Setting) (l : RuleMethod) (n : RuleNode) → V.knows slots.now w l n
        → result ≡ may_double w l n (written_of written.now) (Root.Slot first) second }
{
    match second {
        Root::Slot(slot) => !written.has(slot) && is_like(slots, first, slot),
        Root::Static(_) => false,
        Root::Returned => false,
        Root::Thrown => false,
    }
}

/// Whether the root is this one, or a slot of its variable.
pub fn reaches<V: NodeSlots>(slots: &V, from: Root, root: Root) -> bool
    ensures { (w : Setting) (l : RuleMethod) (n : RuleNode) → V.knows slots.now w l n → result ≡ reaches w l n from root }
{
    match from {
        Root::Slot(slot) => reaches_slot(slots, slot, root),
        Root::Static(_) => from == root,
        Root::Returned => from == root,
        Root::Thrown => from == root,
    }
}

/// The same, from a slot.
fn reaches_slot<V: NodeSlots>(slots: &V, from: u32, root: Root) -> bool
    ensures { (w : Setting) (l : RuleMethod) (n : RuleNode) → V.knows slots.now w l n → result ≡ reaches w l n (Root.Slot from) root }
{
    match root {
        Root::Slot(slot) => is_like(slots, slot, from),
        Root::Static(_) => false,
        Root::Returned => false,
        Root::Thrown => false,
    }
}
