//! Paths that are gathered into a set, which is cut once, at its end.

ghost use Rattle.std.specs.Prelude.{List, [], ◌∷◌, ◌++◌};
ghost use Rattle.access_paths.specs.Paths.{Path as AccessPath};
ghost use Rattle.stage_views.specs.Drafts.{IsCutOf};
ghost use Rattle.stage_views.specs.Views.{Gathers};

use access_paths::{Path, PathSet};

/// The least paths of those that were gathered, as many as a set may have, and whether others were left out.
#[derive(Drop)]
pub struct Gathering {
    pub set: PathSet,
    pub dropped: bool,
}

impl Gathering {
    /// Nothing is gathered yet.
    pub fn new() -> Gathering
        ensures { Gathers result [] }
    {
        Gathering {
            set: PathSet::empty(),
            dropped: false,
        }
    }

    /// All paths of a set.
    pub fn whole(set: &PathSet) -> Gathering
        ensures cut { IsCutOf result set.now }
        ensures gathered { Gathers result set.now }
    {
        set.well_formed();
        let mut all = Gathering::new();
        all.set = set.copied();
        all
    }

    /// One path more.
    pub fn add(&mut self, path: &Path)
        ensures { (paths : List AccessPath) → Gathers self.old paths → Gathers self.new (paths ++ path.now ∷ []) }
    {
        let cut = self.set.add(path);
        self.dropped = self.dropped || cut.dropped;
        self.set = cut.set;
    }
}
