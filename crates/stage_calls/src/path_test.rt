//! Tests of paths, and what is gathered by them.

ghost use Rattle.std.specs.Prelude.{◌≡◌, Bool, List, ◌++◌, filter};
ghost use Rattle.std.specs.List.{list_any};
ghost use Rattle.access_paths.specs.Paths.{Path as AccessPath};
ghost use Rattle.stage_transfer.specs.Changes.{has_fields};
ghost use Rattle.stage_views.specs.Views.{Gathers};

use access_paths::{Fields, Path, PathSet};
use stage_views::Gathering;

/// A test of paths.
pub(crate) trait PathTest {
    /// What it computes.
    ghost computes: { Self → (AccessPath → Bool) → Type 0 };

    /// Whether the path passes.
    fn holds(&self, path: &Path) -> bool
        ensures { (p : AccessPath → Bool) → computes self.now p → result ≡ p path.now };
}

/// Gathers the paths of a set that pass.
pub(crate) fn gather<T: PathTest>(gathering: &mut Gathering, set: &PathSet, test: &T)
    ensures { (p : AccessPath → Bool) (before : List AccessPath) → T.computes test.now p → Gathers gathering.old before → Gathers gathering.new (before ++ filter p set.now) }
{
    gather_paths(gathering, set.as_slice(), test);
}

/// The same of paths.
fn gather_paths<T: PathTest>(gathering: &mut Gathering, paths: &[Path], test: &T)
    ensures { (p : AccessPath → Bool) (before : List AccessPath) → T.computes test.now p → Gathers gathering.old before → Gathers gathering.new (before ++ filter p paths.now) }
{
    for path in paths {
        if test.holds(path) {
            gathering.add(path);
        }
    }
}

/// Whether a path of a set passes.
pub(crate) fn any<T: PathTest>(set: &PathSet, test: &T) -> bool
    ensures { (p : AccessPath → Bool) → T.computes test.now p → result ≡ list_any p set.now }
{
    any_path(set.as_slice(), test)
}

/// Whether a path passes.
fn any_path<T: PathTest>(paths: &[Path], test: &T) -> bool
    ensures { (p : AccessPath → Bool) → T.computes test.now p → result ≡ list_any p paths.now }
{
    for path in paths {
        if test.holds(path) {
            return true;
        }
    }
    false
}

/// Whether a path has fields.
pub(crate) fn has_fields(path: &Path) -> bool
    ensures { result ≡ has_fields path.now.fields }
{
    match path.fields() {
        Fields::Zero => false,
        Fields::One(_) => true,
        Fields::Two(_, _) => true,
        Fields::Three(_, _, _) => true,
    }
}
