//! A real folder as a tree.
ghost use Rattle.std.specs.Prelude.{◌≡◌, ◌≢◌, ◌≤◌, map, string_bytes, IfOk, IsErrOf, IsFalse};
ghost use Rattle.failure.specs.declared.Failure.TheVariants.{Cause};
ghost use Rattle.ts_outside.specs.Counts.{Rose};
ghost use Rattle.ts_outside.specs.Counts as counts;
ghost use Rattle.ts_outside.specs.Names.{IsClassList};
ghost use Rattle.ts_outside.specs.Names as definitions;

use crate::counts::raised;
use crate::trouble::{Trouble, TroubleFailure, end_of};
use crate::walk::{class_names, joined};
use crate::{Tree, TreeFailure, TreeFault};
use failure::Failure;
use std::alloc::{AllocError, Global};
use std::io::{ErrorKind, Read};
use std::marker::Model;
use std::rt::Files;
use std::{fs, io};

/// A real folder as a tree, walked recursively. Names are relative, with `/`. It tells nothing of content.
///
/// `list` gives the regular files whose names end in `.class`, and follows symbolic links. A name that is
/// not UTF-8 fails, and so do an entry or a folder that cannot be looked at, what is neither a regular file nor a
/// folder and has the name of a class file, more than 1,048,576 entries in all folders together, and more than 64
/// levels of folders, of which the folder itself is the first.
///
/// `read` misses a file where its name is none that a walk could give, and where looking at it or opening it
/// says that it is not there. What is no regular file fails, and so does each other error. Each call that
/// fails raises the count of faults, which stays at its last value, and its trouble is kept. Want of memory raises
/// nothing.
#[derive(Drop)]
pub struct RealTree<R: Files + Clone + Drop> {
    rt: R,
    dir: String,
    faults: u64,
    trouble: Option<Trouble>,
}

impl<R: Files + Clone + Drop> Model for RealTree<R> {
    ghost use Rattle.std.specs.Prelude.{ℕ};

    ghost Value = { ℕ };

    ghost view = { λ t. t.faults };
}

impl<R: Files + Clone + Drop> RealTree<R> {
    /// The folder of this path. An empty path is that of the current folder, as `.` is.
    pub fn new(rt: R, dir: String) -> RealTree<R>
        ensures { result ≡ 0 }
    {
        RealTree {
            rt,
            dir,
            faults: 0,
            trouble: None,
        }
    }

    /// Why the last call that failed did.
    pub fn trouble(&self) -> Option<Trouble> {
        self.trouble
    }

    /// What a call answers that came to this outcome. Trouble is counted as a fault.
    fn counted<T>(&mut self, outcome: Result<T, Failure<Ending>>) -> Result<T, TreeFailure>
        ensures given { IfOk result (λ value. outcome ≡ Ok value) }
        ensures missing { IsErrOf outcome (Cause Ending.Missing) → IsErrOf result (Cause TreeFault.Missing) }
        ensures fault { IsErrOf result (Cause TreeFault.Failed) → self.new ≡ counts.raised self.old 1 }
        ensures no_fault { result ≢ Err (Cause TreeFault.Failed) → self.new ≡ self.old }
        ensures failed { IsErrOf result (Cause TreeFault.Failed) → Rose self.old self.new }
        ensures not_missing { outcome ≢ Err (Cause Ending.Missing) → result ≢ Err (Cause TreeFault.Missing) }
        ensures never_falls { self.old ≤ self.new }
    {
        match outcome {
            Ok(value) => Ok(value),
            Err(Failure::Cause(Ending::Missing)) => Err(Failure::Cause(TreeFault::Missing)),
            Err(Failure::Cause(Ending::Trouble(trouble))) => {
                self.faults = raised(self.faults, 1);
                self.trouble = Some(trouble);
                Err(Failure::Cause(TreeFault::Failed))
            }
            Err(Failure::OutOfMemory) => Err(Failure::OutOfMemory),
        }
    }
}

/// Why a call has nothing to give: there is no such file, or there was trouble.
#[derive(Clone, Copy, Drop)]
enum Ending {
    Missing,
    Trouble(Trouble),
}

/// Trouble as an end.
fn ended_by(failure: TroubleFailure) -> Failure<Ending>
    ensures { result ≢ Cause Ending.Missing }
{
    match failure {
        Failure::Cause(trouble) => Failure::Cause(Ending::Trouble(trouble)),
        Failure::OutOfMemory => Failure::OutOfMemory,
    }
}

impl<R: Files + Clone + Drop> Tree for RealTree<R> {
    ghost use Rattle.std.specs.Prelude.{None};

    ghost files = { λ _. None };

    ghost called = { λ _. None };

    ghost faults = { λ faults. faults };

    fn list(&mut self, alloc: Global) -> Result<Vec<String>, TreeFailure>
        ensures failed { IsErrOf result (Cause TreeFault.Failed) → Rose self.old self.new }
        ensures not_missing { result ≢ Err (Cause TreeFault.Missing) }
        ensures never_falls { self.old ≤ self.new }
        ensures fault { IsErrOf result (Cause TreeFault.Failed) → self.new ≡ counts.raised self.old 1 }
        ensures no_fault { result ≢ Err (Cause TreeFault.Failed) → self.new ≡ self.old }
        ensures class_names { IfOk result (λ names. IsClassList (map string_bytes names.items)) }
    {
        let listing = list(&self.rt, alloc, self.dir.as_str());
        self.counted(listing)
    }

    fn read(&mut self, alloc: Global, name: &str, limit: u32) -> Result<Vec<u8>, TreeFailure>
        ensures failed { IsErrOf result (Cause TreeFault.Failed) → Rose self.old self.new }
        ensures never_falls { self.old ≤ self.new }
        ensures fault { IsErrOf result (Cause TreeFault.Failed) → self.new ≡ counts.raised self.old 1 }
        ensures no_fault { result ≢ Err (Cause TreeFault.Failed) → self.new ≡ self.old }
        ensures no_walk { IsFalse (definitions.is_walked_name name.now) → IsErrOf result (Cause TreeFault.Missing) }
    {
        let bytes = read(&self.rt, alloc, self.dir.as_str(), name, limit);
        self.counted(bytes)
    }
}

/// The path of the folder, with a `/` at its end.
fn folder_path(alloc: Global, dir: &str) -> Result<String, AllocError> {
    if dir.is_empty() {
        joined(alloc, ".", "/")
    } else {
        joined(alloc, dir, "/")
    }
}

/// The names of the class files of the folder, in byte order.
fn list<R: Files>(rt: &R, alloc: Global, dir: &str) -> Result<Vec<String>, Failure<Ending>>
    ensures not_missing { result ≢ Err (Cause Ending.Missing) }
    ensures class_names { IfOk result (λ names. IsClassList (map string_bytes names.items)) }
{
    let path = folder_path(alloc, dir)?;
    class_names(rt, alloc, path.as_str()).map_err(ended_by)
}

/// Whether a part of a name can be that of an entry of a folder: it is not empty, `.` or `..`, and has no
/// NUL byte.
fn is_entry_name(part: &str) -> bool
    ensures { result ≡ definitions.is_entry_name part.now }
{
    !part.is_empty() && part != "." && part != ".." && !part.as_bytes().contains(&0)
}

/// Whether a walk could give this name.
fn is_walked_name(name: &str) -> bool
    ensures { result ≡ definitions.is_walked_name name.now }
{
    name.split('/').all(|part| is_entry_name(part))
}

/// The end of a call that an error ended where it looked for a file.
fn end_of_search(error: io::Error) -> Failure<Ending> {
    match error.kind() {
        ErrorKind::NotFound | ErrorKind::NotADirectory => Failure::Cause(Ending::Missing),
        _ => ended_by(end_of(error)),
    }
}

/// The first `limit` bytes of the file of this name in the folder.
fn read<R: Files>(
    rt: &R,
    alloc: Global,
    dir: &str,
    name: &str,
    limit: u32,
) -> Result<Vec<u8>, Failure<Ending>>
    ensures { IsFalse (definitions.is_walked_name name.now) → IsErrOf result (Cause Ending.Missing) }
{
    if !is_walked_name(name) {
        return Err(Failure::Cause(Ending::Missing));
    }
    let mut path = folder_path(alloc, dir)?;
    path.push_str(name)?;
    let metadata = fs::metadata(rt, path.as_str()).map_err(end_of_search)?;
    if !metadata.is_file() {
        return Err(Failure::Cause(Ending::Trouble(Trouble::NoFile)));
    }
    let file = fs::open(rt, path.as_str()).map_err(end_of_search)?;
    let mut bytes = Vec::new(alloc);
    file.take(u64::from(limit))
        .read_to_end(&mut bytes)
        .map_err(|error| ended_by(end_of(error)))?;
    Ok(bytes)
}
