//! A set that was cut.

ghost use Rattle.std.specs.Prelude.{◌≡◌};
ghost use Rattle.access_paths.specs.Gains.{with_gain};

use crate::path::Path;
use crate::path_set::PathSet;

/// A set of paths, and whether paths were left out of it: because they follow too many fields, or because there were too many of them.
#[derive(Drop)]
pub struct Cut {
    /// The least paths of those that were to be kept.
    pub set: PathSet,
    /// Whether others were left out.
    pub dropped: bool,
}

impl Cut {
    /// Takes a path in, if there is one.
    pub(crate) fn gain(&mut self, path: Option<Path>)
        ensures { self.new ≡ with_gain self.old path }
    {
        if let Some(path) = path {
            let next = self.set.add(&path);
            self.dropped = self.dropped || next.dropped;
            self.set = next.set;
        }
    }
}
