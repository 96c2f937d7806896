//! Which paths a store loses.

ghost use Rattle.std.specs.Prelude.{◌≡◌};
ghost use Rattle.std.specs.List.{list_any};
ghost use Rattle.op_model.specs.declared.lowered.LoweredMethod.{LoweredMethod as RuleMethod};
ghost use Rattle.op_model.specs.declared.node.Node.{Node as RuleNode};
ghost use Rattle.stage_flow.specs.Stores.{is_owner, is_own_field, loses_by, loses_root, loses_value, IsStoreIn};
ghost use Rattle.stage_transfer.specs.Settings.{Setting};

use crate::alike::is_like;
use crate::lost::{has_fields, stands};
use crate::store::FieldStore;
use access_paths::{Fields, Path, PathSet, Root};
use stage_views::NodeSlots;

impl FieldStore {
    /// Whether a path of the set is lost.
    pub fn loses<V: NodeSlots>(&self, slots: &V, set: &PathSet) -> bool
        ensures { (w : Setting) (l : RuleMethod) (n : RuleNode) → IsStoreIn w self.now → V.knows slots.now w l n
            → result ≡ list_any (loses_by w l n self.now set.now) set.now }
    {
        for path in set.as_slice() {
            if self.loses_path(slots, set, path) {
                return true;
            }
        }
        false
    }

    /// Whether a path is lost: if it follows the field, and is not the field itself; or else with its root, or behind the field.
    fn loses_path<V: NodeSlots>(&self, slots: &V, set: &PathSet, path: &Path) -> bool
        ensures { (w : Setting) (l : RuleMethod) (n : RuleNode) → IsStoreIn w self.now → V.knows slots.now w l n
            → result ≡ loses_by w l n self.now set.now path.now }
    {
        if path.passes(self.field) {
            return !self.is_own_field(slots, path);
        }
        self.loses_root(slots, set, path) || self.loses_value(slots, path)
    }

    /// Whether the path is the field itself, by a slot of the object's variable.
    fn is_own_field<V: NodeSlots>(&self, slots: &V, path: &Path) -> bool
        ensures { (w : Setting) (l : RuleMethod) (n : RuleNode) → V.knows slots.now w l n → result ≡ is_own_field w l n self.now path.now }
    {
        is_owner(slots, self.object, path.root())
            && path.is_same(&Path::along(path.root(), Fields::One(self.field)))
    }

    /// Whether the path's root is written, and no other slot has it.
    fn loses_root<V: NodeSlots>(&self, slots: &V, set: &PathSet, path: &Path) -> bool
        ensures { (w : Setting) (l : RuleMethod) (n : RuleNode) → V.knows slots.now w l n → result ≡ loses_root w l n self.now set.now path.now }
    {
        let written = self.written();
        has_fields(path) && written.has_root(path.root()) && !stands(slots, &written, set, path)
    }

    /// Whether the path is one of the value, and too long behind the field, or there for no slot.
    fn loses_value<V: NodeSlots>(&self, slots: &V, path: &Path) -> bool
        ensures { (w : Setting) (l : RuleMethod) (n : RuleNode) → IsStoreIn w self.now → V.knows slots.now w l n
            → result ≡ loses_value w l n self.now path.now }
    {
        if !path.begins_at(Root::Slot(self.value)) {
            return false;
        }
        path.field_count() >= self.depth as usize || !self.has_free(slots)
    }
}

/// Whether the root is a slot of the object's variable.
fn is_owner<V: NodeSlots>(slots: &V, object: u32, root: Root) -> bool
    ensures { (w : Setting) (l : RuleMethod) (n : RuleNode) → V.knows slots.now w l n → result ≡ is_owner w l n object root }
{
    match root {
        Root::Slot(slot) => is_like(slots, object, slot),
        Root::Static(_) => false,
        Root::Returned => false,
        Root::Thrown => false,
    }
}
