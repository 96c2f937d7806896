//! A tree that holds its files in memory, and of which no call fails.
ghost use Rattle.std.specs.Prelude.{◌≡◌, ◌≢◌, ◌↔◌, map, string_bytes, take, option_map, IsErrOf, IfOk, IsTrue};
ghost use Rattle.failure.specs.declared.Failure.TheVariants.{Cause};
ghost use Rattle.ts_outside.specs.Files.{file_at, names_differ, IsListing};
ghost use Rattle.ts_outside.specs.Held.{files_of, names_of};

use crate::{Tree, TreeFailure, TreeFault, held};
use std::alloc::Global;
use std::marker::Model;

/// A tree that holds its files in memory, and of which no call fails. Its count of faults is 0 always.
#[derive(Drop)]
pub struct SteadyTree {
    files: Vec<(String, Vec<u8>)>,
}

impl Model for SteadyTree {
    ghost use Rattle.std.specs.Prelude.{List, IsTrue};
    ghost use Rattle.ts_outside.specs.Files.{File, names_differ};
    ghost use Rattle.ts_outside.specs.Held.{files_of, names_of};

    ghost Value = { List File };

    ghost view = { λ t. files_of t.files.items };

    ghost invariant = { λ t. IsTrue (names_differ (names_of (files_of t.files.items))) };
}

impl SteadyTree {
    /// A tree of these files.
    pub fn new(files: Vec<(String, Vec<u8>)>) -> SteadyTree
        requires { IsTrue (names_differ (names_of (files_of files.items))) }
        ensures { result ≡ files_of files.items }
    {
        SteadyTree { files }
    }
}

impl Tree for SteadyTree {
    ghost use Rattle.std.specs.Prelude.{None, Some};

    ghost files = { λ tree. Some tree };

    ghost called = { λ _. None };

    ghost faults = { λ _. 0 };

    fn list(&mut self, alloc: Global) -> Result<Vec<String>, TreeFailure>
        ensures listing { IfOk result (λ names. IsListing self.old (map string_bytes names.items)) }
        ensures not_missing { result ≢ Err (Cause TreeFault.Missing) }
        ensures same_files { self.new ≡ self.old }
        ensures not_failed { result ≢ Err (Cause TreeFault.Failed) }
    {
        Ok(held::list(alloc, self.files.as_slice())?)
    }

    fn read(&mut self, alloc: Global, name: &str, limit: u32) -> Result<Vec<u8>, TreeFailure>
        ensures bytes { IfOk result (λ read. option_map (take limit) (file_at self.old name.now) ≡ Some read.items) }
        ensures missing { IsErrOf result (Cause TreeFault.Missing) → file_at self.old name.now ≡ None }
        ensures same_files { self.new ≡ self.old }

        // It misses the file exactly where no file of the name is held.
        ensures misses { IsErrOf result (Cause TreeFault.Missing) ↔ (file_at self.old name.now ≡ None) }
        ensures not_failed { result ≢ Err (Cause TreeFault.Failed) }
    {
        held::read(alloc, self.files.as_slice(), name, limit)
    }
}
