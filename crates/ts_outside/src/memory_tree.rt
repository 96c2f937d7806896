//! A tree that holds its files in memory, and of which given calls fail.
ghost use Rattle.std.specs.Prelude.{◌≡◌, ◌≢◌, ◌↔◌, ◌≤◌, map, string_bytes, take, option_map, IsErrOf, IfOk, IsTrue, IsFalse};
ghost use Rattle.failure.specs.declared.Failure.TheVariants.{Cause};
ghost use Rattle.ts_outside.specs.Counts.{Rose};
ghost use Rattle.ts_outside.specs.Files.{file_at, names_differ, IsListing};
ghost use Rattle.ts_outside.specs.Held.{files_of, names_of};
ghost use Rattle.ts_outside.specs.Memory.{tree_fails, tree_after};

use crate::counts::{is_failing, raised};
use crate::{Tree, TreeFailure, TreeFault, held};
use failure::Failure;
use std::alloc::Global;
use std::marker::Model;

/// A tree that holds its files in memory.
///
/// Its calls of `list` and of `read` are numbered together from 0, and those fail whose number it was given.
/// The counters of calls and of faults stay at their last value.
#[derive(Drop)]
pub struct MemoryTree {
    files: Vec<(String, Vec<u8>)>,
    failing: Vec<u32>,
    calls: u64,
    faults: u64,
}

impl Model for MemoryTree {
    ghost use Rattle.std.specs.Prelude.{IsTrue};
    ghost use Rattle.ts_outside.specs.Files.{names_differ};
    ghost use Rattle.ts_outside.specs.Held.{files_of, names_of};
    ghost use Rattle.ts_outside.specs.Memory.{HeldTree};

    ghost Value = { HeldTree };

    ghost view = { λ t. record { files = files_of t.files.items; failing = t.failing.items; calls = t.calls; faults = t.faults } };

    ghost invariant = { λ t. IsTrue (names_differ (names_of (files_of t.files.items))) };
}

impl MemoryTree {
    /// A tree of these files, whose calls of these numbers fail.
    pub fn new(files: Vec<(String, Vec<u8>)>, fail: Vec<u32>) -> MemoryTree
        requires { IsTrue (names_differ (names_of (files_of files.items))) }
        ensures { result ≡ record { files = files_of files.items; failing = fail.items; calls = 0; faults = 0 } }
    {
        MemoryTree {
            files,
            failing: fail,
            calls: 0,
            faults: 0,
        }
    }

    /// Counts a call, and a fault if it is one of those that are to fail, and says whether it is.
    fn count_call(&mut self) -> bool
        ensures fails { result ≡ tree_fails self.old }
        ensures after { self.new ≡ tree_after self.old }
        ensures never_falls { self.old.faults ≤ self.new.faults }
    {
        let fails = is_failing(self.failing.as_slice(), self.calls);
        self.calls = raised(self.calls, 1);
        if fails {
            self.faults = raised(self.faults, 1);
        }
        fails
    }
}

impl Tree for MemoryTree {
    ghost use Rattle.std.specs.Prelude.{None, Some};

    ghost files = { λ tree. Some tree.files };

    ghost called = { λ _. None };

    ghost faults = { λ tree. tree.faults };

    fn list(&mut self, alloc: Global) -> Result<Vec<String>, TreeFailure>
        ensures listing { IfOk result (λ names. IsListing self.old.files (map string_bytes names.items)) }
        ensures failed { IsErrOf result (Cause TreeFault.Failed) → Rose self.old.faults self.new.faults }
        ensures no_fault { result ≢ Err (Cause TreeFault.Failed) → self.new.faults ≡ self.old.faults }
        ensures not_missing { result ≢ Err (Cause TreeFault.Missing) }
        ensures same_files { self.new.files ≡ self.old.files }
        ensures never_falls { self.old.faults ≤ self.new.faults }

        // A call fails exactly where its number is one of those that are to fail.
        ensures fails { IsErrOf result (Cause TreeFault.Failed) ↔ IsTrue (tree_fails self.old) }
        ensures after { self.new ≡ tree_after self.old }
    {
        if self.count_call() {
            return Err(Failure::Cause(TreeFault::Failed));
        }
        Ok(held::list(alloc, self.files.as_slice())?)
    }

    fn read(&mut self, alloc: Global, name: &str, limit: u32) -> Result<Vec<u8>, TreeFailure>
        ensures bytes { IfOk result (λ read.
            option_map (take limit) (file_at self.old.files name.now) ≡ Some read.items) }
        ensures missing { IsErrOf result (Cause TreeFault.Missing) → file_at self.old.files name.now ≡ None }
        ensures failed { IsErrOf result (Cause TreeFault.Failed) → Rose self.old.faults self.new.faults }
        ensures no_fault { result ≢ Err (Cause TreeFault.Failed) → self.new.faults ≡ self.old.faults }
        ensures same_files { self.new.files ≡ self.old.files }
        ensures never_falls { self.old.faults ≤ self.new.faults }

        // A call fails exactly where its number is one of those that are to fail, and one that does not
        // fail misses the file exactly where no file of the name is held.
        ensures fails { IsErrOf result (Cause TreeFault.Failed) ↔ IsTrue (tree_fails self.old) }
        ensures misses { IsErrOf result (Cause TreeFault.Missing) ↔ (IsFalse (tree_fails self.old) × (file_at self.old.files name.now ≡ None)) }
        ensures after { self.new ≡ tree_after self.old }
    {
        if self.count_call() {
            return Err(Failure::Cause(TreeFault::Failed));
        }
        held::read(alloc, self.files.as_slice(), name, limit)
    }
}
