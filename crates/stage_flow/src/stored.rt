//! The paths that a store leaves and adds.

ghost use Rattle.std.specs.Prelude.{◌≡◌, List, ◌++◌};
ghost use Rattle.std.specs.List.{flat_map, list_any};
ghost use Rattle.access_paths.specs.Followed.{listed};
ghost use Rattle.access_paths.specs.Paths.{Path as AccessPath};
ghost use Rattle.op_model.specs.declared.lowered.LoweredMethod.{LoweredMethod as RuleMethod};
ghost use Rattle.op_model.specs.declared.node.Node.{Node as RuleNode};
ghost use Rattle.stage_flow.specs.Shapes.{written_of};
ghost use Rattle.stage_flow.specs.Stores.{given_path, has_free, is_free, operands, own_path, stored_at, stored_fields, stored_path, IsStoreIn};
ghost use Rattle.stage_transfer.specs.Settings.{Setting};
ghost use Rattle.stage_views.specs.Views.{Gathers};

use crate::alike::is_like;
use crate::store::FieldStore;
use crate::written::Written;
use access_paths::{Fields, Path, PathSet, Root};
use stage_views::{Gathering, NodeSlots};

impl FieldStore {
    /// The slots that the store writes.
    pub fn written<'c>(&self) -> Written<'c>
        ensures { written_of result ≡ operands self.now }
    {
        Written::Two(self.object, self.value)
    }

    /// What the store makes of a set.
    pub fn gathered<V: NodeSlots>(&self, slots: &V, set: &PathSet) -> Gathering
        ensures { (w : Setting) (l : RuleMethod) (n : RuleNode) → IsStoreIn w self.now → V.knows slots.now w l n
            → Gathers result (flat_map (given_path w l n self.now) set.now) }
    {
        let mut all = Gathering::new();
        for path in set.as_slice() {
            self.give(slots, path, &mut all);
        }
        all
    }

    /// What a path gives is gathered: nothing, if it follows the field.
    fn give<V: NodeSlots>(&self, slots: &V, path: &Path, all: &mut Gathering)
        ensures { (w : Setting) (l : RuleMethod) (n : RuleNode) → IsStoreIn w self.now → V.knows slots.now w l n → (paths : List AccessPath)
            → Gathers all.old paths → Gathers all.new (paths ++ given_path w l n self.now path.now) }
    {
        if path.passes(self.field) {
            return;
        }
        self.keep(path, all);
        self.store(slots, path, all);
    }

    /// The path itself is gathered, if its root is not written.
    fn keep(&self, path: &Path, all: &mut Gathering)
        ensures { (paths : List AccessPath) → Gathers all.old paths → Gathers all.new (paths ++ own_path self.now path.now) }
    {
        if !self.written().has_root(path.root()) {
            all.add(path);
        }
    }

    /// If the path is one of the value and short enough, it is gathered as one of the field.
    fn store<V: NodeSlots>(&self, slots: &V, path: &Path, all: &mut Gathering)
        ensures { (w : Setting) (l : RuleMethod) (n : RuleNode) → IsStoreIn w self.now → V.knows slots.now w l n → (paths : List AccessPath)
            → Gathers all.old paths → Gathers all.new (paths ++ stored_path w l n self.now path.now) }
    {
        if !path.begins_at(Root::Slot(self.value)) {
            return;
        }
        if path.field_count() >= self.depth as usize {
            return;
        }
        if let Some(fields) = path.fields().with_first(self.field) {
            self.store_fields(slots, fields, all);
        }
    }

    /// The path of these fields is gathered by each slot of the object's variable that is not written.
    fn store_fields<V: NodeSlots>(&self, slots: &V, fields: Fields, all: &mut Gathering)
        ensures { (w : Setting) (l : RuleMethod) (n : RuleNode) → V.knows slots.now w l n → (paths : List AccessPath)
            → Gathers all.old paths → Gathers all.new (paths ++ stored_fields w l n self.now (listed fields)) }
    {
        for slot in 0..slots.slots() {
            self.store_at(slots, fields, slot, all);
        }
    }

    /// The same, by one slot.
    fn store_at<V: NodeSlots>(&self, slots: &V, fields: Fields, slot: u32, all: &mut Gathering)
        ensures { (w : Setting) (l : RuleMethod) (n : RuleNode) → V.knows slots.now w l n → (paths : List AccessPath)
            → Gathers all.old paths → Gathers all.new (paths ++ stored_at w l n self.now (listed fields) slot) }
    {
        if self.is_free(slots, slot) {
            all.add(&Path::along(Root::Slot(slot), fields));
        }
    }

    /// Whether the slot has the object's variable, and is not written.
    fn is_free<V: NodeSlots>(&self, slots: &V, slot: u32) -> bool
        ensures { (w : Setting) (l : RuleMethod) (n : RuleNode) → V.knows slots.now w l n → result ≡ is_free w l n self.now slot }
    {
        !self.written().has(slot) && is_like(slots, self.object, slot)
    }

    /// Whether there is such a slot.
    pub fn has_free<V: NodeSlots>(&self, slots: &V) -> bool
        ensures { (w : Setting) (l : RuleMethod) (n : RuleNode) → V.knows slots.now w l n → result ≡ has_free w l n self.now }
    {
        for slot in 0..slots.slots() {
            if self.is_free(slots, slot) {
                return true;
            }
        }
        false
    }
}
