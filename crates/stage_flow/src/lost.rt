//! Which paths are lost: their roots go, and no other path of the set ends where they end.

ghost use Rattle.std.specs.Prelude.{◌≡◌};
ghost use Rattle.std.specs.List.{list_any};
ghost use Rattle.op_model.specs.declared.lowered.LoweredMethod.{LoweredMethod as RuleMethod};
ghost use Rattle.op_model.specs.declared.node.Node.{Node as RuleNode};
ghost use Rattle.stage_flow.specs.Shapes.{change_of, is_double, is_handed, written_of, IsProper};
ghost use Rattle.stage_transfer.specs.Changes.{changed_set, has_fields, is_doubled, is_lost};
ghost use Rattle.stage_transfer.specs.Settings.{Setting};

use crate::alike::may_double;
use crate::change::PathChange;
use crate::handed::is_handed;
use crate::written::Written;
use access_paths::{Fields, Path, PathSet};
use stage_views::NodeSlots;

impl PathChange<'_> {
    /// Whether a path of the set is lost.
    pub fn loses<V: NodeSlots>(&self, slots: &V, set: &PathSet) -> bool
        ensures { (w : Setting) (l : RuleMethod) (n : RuleNode) → V.knows slots.now w l n → IsProper self.now
            → result ≡ list_any (is_lost (change_of w l n self.now) (changed_set (change_of w l n self.now) set.now)) set.now }
    {
        for path in set.as_slice() {
            if self.loses_path(slots, set, path) {
                return true;
            }
        }
        false
    }

    /// Whether a path is lost: it has fields, its root goes, and it is not doubled.
    fn loses_path<V: NodeSlots>(&self, slots: &V, set: &PathSet, path: &Path) -> bool
        ensures { (w : Setting) (l : RuleMethod) (n : RuleNode) → V.knows slots.now w l n → IsProper self.now
            → result ≡ is_lost (change_of w l n self.now) (changed_set (change_of w l n self.now) set.now) path.now }
    {
        has_fields(path) && self.takes(path) && !self.doubles(slots, set, path)
    }

    /// Whether a path is doubled: by a slot that is not written, or by one that gets what its root held.
    fn doubles<V: NodeSlots>(&self, slots: &V, set: &PathSet, path: &Path) -> bool
        ensures { (w : Setting) (l : RuleMethod) (n : RuleNode) → V.knows slots.now w l n → IsProper self.now
            → result ≡ is_doubled (change_of w l n self.now).doubles (changed_set (change_of w l n self.now) set.now) path.now }
    {
        stands(slots, &self.written, set, path) || is_handed(slots, &self.gain, set, path)
    }
}

/// Whether the path follows a field.
pub fn has_fields(path: &Path) -> bool
    ensures { result ≡ has_fields path.now.fields }
{
    match path.fields() {
        Fields::Zero => false,
        Fields::One(_) => true,
        Fields::Two(_, _) => true,
        Fields::Three(_, _, _) => true,
    }
}

/// Whether the set has the path by a slot of its root's variable that is not written.
pub fn stands<V: NodeSlots>(slots: &V, written: &Written<'_>, set: &PathSet, path: &Path) -> bool
    ensures { (w : Setting) (l : RuleMethod) (n : RuleNode) → V.knows slots.now w l n
        → result ≡ list_any (is_double w l n (written_of written.now) path.now) set.now }
{
    for other in set.as_slice() {
        if is_double(slots, written, path, other) {
            return true;
        }
    }
    false
}

/// Whether the other path is the path, by such a slot.
fn is_double<V: NodeSlots>(slots: &V, written: &Written<'_>, path: &Path, other: &Path) -> bool
    ensures { (w : Setting) (l : RuleMethod) (n : RuleNode) → V.knows slots.now w l n
        → result ≡ is_double w l n (written_of written.now) path.now other.now }
{
    may_double(slots, written, path.root(), other.root())
        && other.is_same(&path.with_root(other.root()))
}
