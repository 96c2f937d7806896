//! Sets of paths.

ghost use Rattle.std.specs.Prelude.{◌≡◌, ◌≤◌, ◌==◌, ◌++◌, [], length, slice_get, MatchOption};
ghost use Rattle.std.specs.List.{filter_map, list_any};
ghost use Rattle.access_paths.specs.Gains.{gained, is_long_store, IsPlace};
ghost use Rattle.access_paths.specs.Operations.{copies, cut_of, extended, gaining, loads, without_field, without_root};
ghost use Rattle.access_paths.specs.Paths.{has_path, most_paths, path_set, with_path};
ghost use Rattle.access_paths.specs.Sets.{AreInOrder};

use crate::cut::Cut;
use crate::gain::{Gain, is_long_store};
use crate::path::Path;
use crate::root::Root;
use arrayvec::ArrayVec;
use jvm_model::number::FieldNo;
use std::cmp::Ordering;
use std::marker::Model;

/// A set has at most so many paths.
const MOST_PATHS: usize = 6;

/// A set of at most six paths, in their order.
#[derive(Drop)]
pub struct PathSet {
    paths: ArrayVec<Path, MOST_PATHS>,
}

impl Model for PathSet {
    ghost use Rattle.std.specs.Prelude.{List};
    ghost use Rattle.access_paths.specs.Paths.{Path as AccessPath};
    ghost use Rattle.access_paths.specs.Sets.{IsPathSet};

    ghost Value = { List AccessPath };

    ghost view = { λ s. s.paths.items };

    ghost invariant = { λ s. IsPathSet s.paths.items };
}

impl PathSet {
    /// The set without paths.
    pub fn empty() -> PathSet
        ensures { result ≡ [] }
    {
        PathSet {
            paths: ArrayVec::new(),
        }
    }

    /// What holds of each set: its paths are in order, each once, and there are six at most. It does nothing.
    pub fn well_formed(&self)
        ensures ordered { AreInOrder self.now }
        ensures few { length self.now ≤ most_paths }
    {
        let _paths = &self.paths;
    }

    /// How many paths there are.
    pub fn len(&self) -> usize
        ensures count { result ≡ length self.now }
        ensures few { result ≤ most_paths }
    {
        self.paths.len()
    }

    /// Whether there is no path.
    pub fn is_empty(&self) -> bool
        ensures { result ≡ (length self.now == 0) }
    {
        self.paths.is_empty()
    }

    /// The path at a place, counted from 0; `None` from the number of the paths on.
    pub fn get(&self, index: u8) -> Option<Path>
        ensures { result ≡ slice_get self.now index }
    {
        self.as_slice().get(index as usize).copied()
    }

    /// The paths, in their order.
    pub fn as_slice(&self) -> &[Path]
        ensures paths { result.now ≡ self.now }
        ensures few { length result.now ≤ most_paths }
    {
        self.paths.as_slice()
    }

    /// Whether the set has the path.
    pub fn contains(&self, path: &Path) -> bool
        ensures { result ≡ has_path self.now path.now }
    {
        for other in self.as_slice() {
            if path.is_same(other) {
                return true;
            }
        }
        false
    }

    /// An equal set.
    pub fn copied(&self) -> PathSet
        ensures { result ≡ self.now }
    {
        self.well_formed();
        let mut paths = ArrayVec::new();
        for path in self.as_slice() {
            paths.push(*path);
        }
        PathSet { paths }
    }

    /// The set gains a path, and is cut to its least six.
    pub fn add(&self, path: &Path) -> Cut
        ensures { result ≡ cut_of (with_path path.now self.now) }
    {
        match self.place(path) {
            None => self.whole(),
            Some(at) => self.insert(at, path),
        }
    }

    /// For each path of the source the set gains that of the target with the same fields. It is cut to its least six.
    pub fn copy_root(&self, source: Root, target: Root) -> Cut
        ensures { result ≡ cut_of (gaining (copies source target) self.now) }
    {
        self.gaining(Gain::Copied { source, target })
    }

    /// For each path of the object that begins with the field, the set gains what is left behind it, as a path of the target. It is cut to
    /// its least six.
    pub fn load(&self, object: Root, field: FieldNo, target: Root) -> Cut
        ensures { result ≡ cut_of (gaining (loads object field target) self.now) }
    {
        self.gaining(Gain::Loaded {
            object,
            field,
            target,
        })
    }

    /// For each path of the source the set gains that behind the field of the object. It is cut to its least six. What would follow more
    /// fields than `depth`, or more than three, is left out too.
    pub fn extend(&self, source: Root, object: Root, field: FieldNo, depth: u8) -> Cut
        ensures { result ≡ extended source object field depth self.now }
    {
        let cut = self.gaining(Gain::Stored {
            source,
            object,
            field,
            depth,
        });
        Cut {
            dropped: self.has_long_store(source, depth) || cut.dropped,
            set: cut.set,
        }
    }

    /// The paths of other roots.
    pub fn drop_root(&self, root: Root) -> PathSet
        ensures { result ≡ without_root root self.now }
    {
        let PathSet { mut paths } = self.copied();
        paths.retain(|path| !path.begins_at(root));
        PathSet { paths }
    }

    /// The paths that do not follow the field.
    pub fn drop_field(&self, field: FieldNo) -> PathSet
        ensures { result ≡ without_field field self.now }
    {
        let PathSet { mut paths } = self.copied();
        paths.retain(|path| !path.passes(field));
        PathSet { paths }
    }

    /// The place where the path is to be put, counted from 0; `None` where the set has it already.
    fn place(&self, path: &Path) -> Option<usize>
        ensures { MatchOption result (with_path path.now self.now ≡ self.now) (λ at. IsPlace path.now self.now at) }
    {
        for (at, other) in self.as_slice().iter().enumerate() {
            match path.compare(other) {
                Ordering::Less => return Some(at),
                Ordering::Equal => return None,
                Ordering::Greater => {}
            }
        }
        Some(self.len())
    }

    /// The set as it is.
    fn whole(&self) -> Cut
        ensures { result ≡ cut_of self.now }
    {
        self.well_formed();
        Cut {
            set: self.copied(),
            dropped: false,
        }
    }

    /// The set with a path that it does not have, at its place.
    fn insert(&self, at: usize, path: &Path) -> Cut
        requires { IsPlace path.now self.now at }
        ensures { result ≡ cut_of (with_path path.now self.now) }
    {
        self.well_formed();
        if at >= MOST_PATHS {
            return Cut {
                set: self.copied(),
                dropped: true,
            };
        }
        let dropped = self.len() == MOST_PATHS;
        let PathSet { mut paths } = self.copied();
        paths.truncate(MOST_PATHS - 1);
        paths.insert(at, *path);
        Cut {
            set: PathSet { paths },
            dropped,
        }
    }

    /// The set gains what each of its paths adds to it, and is cut to its least six.
    fn gaining(&self, gain: Gain) -> Cut
        ensures { result ≡ cut_of (path_set (self.now ++ filter_map (gained gain) self.now)) }
    {
        self.well_formed();
        let mut cut = self.whole();
        for path in self.as_slice() {
            cut.gain(gain.of(path));
        }
        cut
    }

    /// Whether a path of the source would be too long behind a field more.
    fn has_long_store(&self, source: Root, depth: u8) -> bool
        ensures { result ≡ list_any (is_long_store source depth) self.now }
    {
        for path in self.as_slice() {
            if is_long_store(path, source, depth) {
                return true;
            }
        }
        false
    }
}
