//! A tree of files, as a trait.

ghost use Rattle.std.specs.Prelude.{◌≡◌, ◌≢◌, ℕ, ◌≤◌, true, false, List, take, map, string_bytes, Option, option_map, IsErrOf, IfOk, IfSome, OnOk, OnErr};
ghost use Rattle.failure.specs.declared.Failure.TheVariants.{Cause};
ghost use Rattle.ts_outside.specs.Calls.{Called, CallsOne, listing, reading};
ghost use Rattle.ts_outside.specs.Counts.{Rose};
ghost use Rattle.ts_outside.specs.Files.{File, file_at, IsListing};

use failure::Failure;
use std::alloc::Global;
use thiserror::Error;

/// Why a tree does not answer.
#[derive(Clone, Copy, Debug, PartialEq, Eq, Error)]
pub enum TreeFault {
    /// Listing or reading failed, and the tree counted a fault.
    #[error("the folder or the file cannot be read")]
    Failed,
    /// The tree holds no file of the name.
    #[error("there is no file of the name")]
    Missing,
}

/// Why a call of a tree gives nothing.
pub type TreeFailure = Failure<TreeFault>;

/// A tree of files.
///
/// It has three meanings. `files` is what it holds, a finite map from names to bytes, or `None` where it
/// does not tell; no call changes it. `called` is the list of its calls, each with what it asked for and whether that
/// was given, or `None` where it does not tell. `faults` is a count of faults, which never falls, and rises in no call
/// that answers anything else than `Failed`.
pub trait Tree {
    ghost files: { Self → Option (List File) };

    ghost called: { Self → Option (List Called) };

    ghost faults: { Self → ℕ };

    /// The names of the files that end in `.class`, in byte order.
    fn list(&mut self, alloc: Global) -> Result<Vec<String>, TreeFailure>
        ensures listing { IfOk result (λ names. IfSome (files self.old) (λ held. IsListing held (map string_bytes names.items))) }
        ensures failed { IsErrOf result (Cause TreeFault.Failed) → Rose (faults self.old) (faults self.new) }
        ensures no_fault { result ≢ Err (Cause TreeFault.Failed) → faults self.new ≡ faults self.old }
        ensures not_missing { result ≢ Err (Cause TreeFault.Missing) }
        ensures same_files { files self.new ≡ files self.old }
        ensures calls { OnOk result (CallsOne (called self.old) (called self.new) listing true) }
        ensures calls_in_vain { OnErr result (CallsOne (called self.old) (called self.new) listing false) }
        ensures never_falls { faults self.old ≤ faults self.new };

    /// The first `limit` bytes of the file of this name, or all of them if it is shorter.
    fn read(&mut self, alloc: Global, name: &str, limit: u32) -> Result<Vec<u8>, TreeFailure>
        ensures bytes { IfOk result (λ read. IfSome (files self.old) (λ held.
            option_map (take limit) (file_at held name.now) ≡ Some read.items)) }
        ensures missing { IsErrOf result (Cause TreeFault.Missing) → IfSome (files self.old) (λ held. file_at held name.now ≡ None) }
        ensures failed { IsErrOf result (Cause TreeFault.Failed) → Rose (faults self.old) (faults self.new) }
        ensures no_fault { result ≢ Err (Cause TreeFault.Failed) → faults self.new ≡ faults self.old }
        ensures same_files { files self.new ≡ files self.old }
        ensures calls { OnOk result (CallsOne (called self.old) (called self.new) (reading name.now limit) true) }
        ensures calls_in_vain { OnErr result (CallsOne (called self.old) (called self.new) (reading name.now limit) false) }
        ensures never_falls { faults self.old ≤ faults self.new };
}
