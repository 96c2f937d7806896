//! The site and the stage that facts are about.

ghost use Rattle.std.specs.Prelude.{◌≡◌};
ghost use Rattle.stage_views.specs.Drafts.{has_paths, has_others};

use jvm_model::{Automaton, Site};

/// The site whose objects facts are about, and their property; the number of the stage; and how many fields a store may give a path.
#[derive(Clone, Copy)]
pub struct StageSetting<'s> {
    pub automaton: &'s Automaton,
    pub site: &'s Site,
    /// From 2 on.
    pub stage: u8,
    /// At most 3.
    pub depth: u8,
}

impl StageSetting<'_> {
    /// Whether the stage knows paths.
    pub fn has_paths(&self) -> bool
        ensures { result ≡ has_paths self.now.stage }
    {
        self.stage != 2
    }

    /// Whether the stage knows paths that do not refer to the object.
    pub fn has_others(&self) -> bool
        ensures { result ≡ has_others self.now.stage }
    {
        self.stage != 2 && self.stage != 3
    }
}
