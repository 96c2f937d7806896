//! Paths of the caller that are lost where a method is left.

ghost use Rattle.std.specs.Prelude.{◌≡◌, List};
ghost use Rattle.std.specs.List.{list_any};
ghost use Rattle.access_paths.specs.Paths.{Path as AccessPath};
ghost use Rattle.op_model.specs.declared.lowered.LoweredMethod.{LoweredMethod as RuleMethod};
ghost use Rattle.op_model.specs.declared.node.Node.{Node as RuleNode};
ghost use Rattle.stage_transfer.specs.Settings.{Setting};
ghost use Rattle.stage_views.specs.Views.{entering_of};
ghost use Rattle.stage_calls.specs.Testing.{doubles, holds_afterwards, is_left_out_of};

use crate::alike::is_alike;
use crate::joins::Joins;
use crate::path_test::{PathTest, has_fields};
use crate::roots::is_written;
use access_paths::{Path, PathSet, Root};
use stage_views::NodeSlots;

/// Whether a path of the caller, of at least one field and with a slot as its root, does not join and is not doubled.
#[derive(Drop)]
pub(crate) struct LeftOut<'j, V> {
    pub(crate) joins: &'j Joins<'j, V>,
    /// The paths of the caller.
    pub(crate) caller: &'j PathSet,
}

impl<V: NodeSlots> PathTest for LeftOut<'_, V> {
    ghost use Rattle.stage_views.specs.Views.{entering_of};
    ghost use Rattle.stage_calls.specs.Testing.{IsLeftOutTest};

    ghost computes = { λ x p. IsLeftOutTest (V.knows x.joins.now.slots.now) (entering_of x.joins.now.by) x.joins.now.target x.caller.now p };

    fn holds(&self, path: &Path) -> bool {
        is_left_out(self.joins, self.caller, path)
    }
}

/// Whether a path of the caller is left out, whatever the exit has.
fn is_left_out<V: NodeSlots>(joins: &Joins<'_, V>, caller: &PathSet, path: &Path) -> bool
    ensures { (w : Setting) (l : RuleMethod) (n : RuleNode) (exit : List AccessPath) → V.knows joins.now.slots.now w l n
        → result ≡ is_left_out_of w l n (entering_of joins.now.by) joins.now.target caller.now exit path.now }
{
    match path.root() {
        Root::Slot(slot) => is_slot_left_out(joins, caller, path, slot),
        Root::Static(_) => false,
        Root::Returned => false,
        Root::Thrown => false,
    }
}

/// Whether a path is left out that begins at this slot.
fn is_slot_left_out<V: NodeSlots>(
    joins: &Joins<'_, V>,
    caller: &PathSet,
    path: &Path,
    slot: u32,
) -> bool
    ensures { (w : Setting) (l : RuleMethod) (n : RuleNode) (exit : List AccessPath) → V.knows joins.now.slots.now w l n → path.now.root ≡ Root.Slot slot
        → result ≡ is_left_out_of w l n (entering_of joins.now.by) joins.now.target caller.now exit path.now }
{
    if !has_fields(path) {
        return false;
    }
    if joins.holds(path) {
        return false;
    }
    !is_doubled(joins, caller.as_slice(), path, slot)
}

/// Whether a path that joins has the same fields, and as its root a slot that has this one's variable and is not written.
fn is_doubled<V: NodeSlots>(joins: &Joins<'_, V>, caller: &[Path], path: &Path, slot: u32) -> bool
    ensures { (w : Setting) (l : RuleMethod) (n : RuleNode) → V.knows joins.now.slots.now w l n
        → result ≡ list_any (doubles w l n (entering_of joins.now.by) joins.now.target path.now slot) caller.now }
{
    for other in caller {
        if doubles(joins, other, path, slot) {
            return true;
        }
    }
    false
}

/// Whether this path does.
fn doubles<V: NodeSlots>(joins: &Joins<'_, V>, other: &Path, path: &Path, slot: u32) -> bool
    ensures { (w : Setting) (l : RuleMethod) (n : RuleNode) → V.knows joins.now.slots.now w l n
        → result ≡ doubles w l n (entering_of joins.now.by) joins.now.target path.now slot other.now }
{
    let root = other.root();
    if !holds_afterwards(joins, root, slot) {
        return false;
    }
    if !path.with_root(root).is_same(other) {
        return false;
    }
    joins.holds(other)
}

/// Whether a root is a slot that has another one's variable and is not written.
fn holds_afterwards<V: NodeSlots>(joins: &Joins<'_, V>, root: Root, slot: u32) -> bool
    ensures { (w : Setting) (l : RuleMethod) (n : RuleNode) → V.knows joins.now.slots.now w l n
        → result ≡ holds_afterwards w l n (entering_of joins.now.by) slot root }
{
    match root {
        Root::Slot(other) => is_alike(joins.slots, other, slot) && !is_written(joins.by, other),
        Root::Static(_) => false,
        Root::Returned => false,
        Root::Thrown => false,
    }
}
