//! The engine: what a change makes of a tuple.

ghost use Rattle.std.specs.Prelude.{◌≡◌, List, ◌++◌};
ghost use Rattle.std.specs.List.{flat_map, list_any};
ghost use Rattle.access_paths.specs.Paths.{Path as AccessPath};
ghost use Rattle.op_model.specs.declared.lowered.LoweredMethod.{LoweredMethod as RuleMethod};
ghost use Rattle.op_model.specs.declared.node.Node.{Node as RuleNode};
ghost use Rattle.stage_views.specs.Drafts.{IsDraft};
ghost use Rattle.stage_flow.specs.Shapes.{adds_of, change_of, goes_of, kept_path, IsProper, Makes};
ghost use Rattle.stage_transfer.specs.Changes.{Change, changed};
ghost use Rattle.stage_transfer.specs.Settings.{Setting};
ghost use Rattle.stage_views.specs.Views.{Gathers};

use crate::change::PathChange;
use access_paths::{Path, PathSet};
use stage_facts::PlainTuple;
use stage_views::{Draft, Gathering, NodeSlots};

impl PathChange<'_> {
    /// What the change makes of a tuple.
    pub fn draft<V: NodeSlots>(&self, slots: &V, tuple: &PlainTuple) -> Draft
        ensures { (w : Setting) (l : RuleMethod) (n : RuleNode) (c : Change) → V.knows slots.now w l n → Makes w l n self.now c
            → IsDraft result (changed c tuple.now) }
    {
        let Gathering {
            set: must_not,
            dropped: _,
        } = self.gathered(&tuple.must_not);
        Draft {
            unique: tuple.unique,
            state: tuple.state,
            must: self.gathered(&tuple.must),
            may: self.may_after(slots, tuple),
            must_not,
        }
    }

    /// Whether cells may hold the object afterwards in which no path ends.
    fn may_after<V: NodeSlots>(&self, slots: &V, tuple: &PlainTuple) -> bool
        ensures { (w : Setting) (l : RuleMethod) (n : RuleNode) → V.knows slots.now w l n → IsProper self.now
            → result ≡ (changed (change_of w l n self.now) tuple.now).may }
    {
        if tuple.may {
            return true;
        }
        self.loses(slots, &tuple.must)
    }

    /// What the change makes of a set.
    fn gathered(&self, set: &PathSet) -> Gathering
        ensures { Gathers result (flat_map (kept_path self.now) set.now ++ adds_of self.now.gain set.now) }
    {
        let mut all = self.kept(set);
        self.gain.gather(set, &mut all);
        all
    }

    /// The paths whose roots do not go. Mostly these are all, and the set is copied as it is.
    fn kept(&self, set: &PathSet) -> Gathering
        ensures { Gathers result (flat_map (kept_path self.now) set.now) }
    {
        if !self.takes_some(set) {
            return Gathering::whole(set);
        }
        let mut all = Gathering::new();
        for path in set.as_slice() {
            self.keep(path, &mut all);
        }
        all
    }

    /// The path is gathered, if its root does not go.
    fn keep(&self, path: &Path, all: &mut Gathering)
        ensures { (paths : List AccessPath) → Gathers all.old paths → Gathers all.new (paths ++ kept_path self.now path.now) }
    {
        if !self.takes(path) {
            all.add(path);
        }
    }

    /// Whether the root of some path goes.
    fn takes_some(&self, set: &PathSet) -> bool
        ensures { result ≡ list_any (λ (x : AccessPath). goes_of self.now.written self.now.leaving x.root) set.now }
    {
        for path in set.as_slice() {
            if self.takes(path) {
                return true;
            }
        }
        false
    }

    /// Whether the path's root goes.
    pub fn takes(&self, path: &Path) -> bool
        ensures { result ≡ goes_of self.now.written self.now.leaving path.now.root }
    {
        match self.leaving {
            None => self.written.has_root(path.root()),
            Some(other) => self.written.has_root(path.root()) || path.begins_at(other),
        }
    }
}
