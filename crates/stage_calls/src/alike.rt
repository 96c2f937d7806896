//! Slots of one variable.

ghost use Rattle.std.specs.Prelude.{◌≡◌};
ghost use Rattle.op_model.specs.declared.lowered.LoweredMethod.{LoweredMethod as RuleMethod};
ghost use Rattle.op_model.specs.declared.node.Node.{Node as RuleNode};
ghost use Rattle.stage_transfer.specs.Settings.{alike, among, Setting};

use stage_views::NodeSlots;

/// Whether a slot is one of those that have another one's variable at the node.
pub(crate) fn is_alike<V: NodeSlots>(slots: &V, first: u32, second: u32) -> bool
    ensures { (w : Setting) (l : RuleMethod) (n : RuleNode) → V.knows slots.now w l n → result ≡ among (alike w l n second) first }
{
    let count = slots.slots();
    if second >= count {
        return first == second;
    }
    if first >= count {
        return false;
    }
    slots.share(first, second)
}
