//! A walk through a real folder and the folders in it, for the names of the class files.
ghost use Rattle.std.specs.Prelude.{map, string_bytes, IfOk, IsTrue};
ghost use Rattle.std.specs.List.{list_all};
ghost use Rattle.ts_outside.specs.Files as files;
ghost use Rattle.ts_outside.specs.Names.{IsClassList};

use crate::held::is_class_name;
use crate::trouble::{Trouble, TroubleFailure, end_of};
use failure::Failure;
use std::alloc::{AllocError, Global};
use std::fs::Metadata;
use std::rt::Files;
use std::{fs, io};

/// How many entries a walk takes at most, those of all folders together.
const MOST_ENTRIES: u32 = 1_048_576;

/// How many turns a walk takes at most: one for each folder, each of which but the first is an entry, and one
/// that finds none left.
const MOST_TURNS: u32 = MOST_ENTRIES + 2;

/// How many levels of folders a walk goes into at most. The folder where it begins is the first.
const MOST_LEVELS: u32 = 64;

/// A folder that is still to be walked.
#[derive(Drop)]
struct Folder {
    /// Its name as it begins the names of what is in it: empty, or with a `/` at its end.
    name: String,
    level: u32,
}

/// What a walk has found, and what it has still to do.
#[derive(Drop)]
struct Walk {
    names: Vec<String>,
    pending: Vec<Folder>,
    entries: u32,
    ghost named: { IsTrue (list_all files.is_class_name (map string_bytes names.items)) },
}

/// One text after the other.
pub(crate) fn joined(alloc: Global, front: &str, back: &str) -> Result<String, AllocError> {
    let mut text = String::from_str(alloc, front)?;
    text.push_str(back)?;
    Ok(text)
}

/// The names of the class files below the folder of this path, which ends in `/`, in byte order.
pub(crate) fn class_names<R: Files>(
    rt: &R,
    alloc: Global,
    path: &str,
) -> Result<Vec<String>, TroubleFailure>
    ensures class_names { IfOk result (λ names. IsClassList (map string_bytes names.items)) }
{
    let mut walk = Walk::new(alloc)?;
    for _ in 0..MOST_TURNS {
        let Some(folder) = walk.pending.pop() else {
            return walk.sorted_names();
        };
        walk.take_folder(rt, alloc, path, &folder)?;
    }
    Err(Failure::Cause(Trouble::TooMany))
}

impl Walk {
    /// A walk that has its first folder to do.
    fn new(alloc: Global) -> Result<Walk, AllocError> {
        let mut pending = Vec::new(alloc);
        pending.push(Folder {
            name: String::new(alloc),
            level: 1,
        })?;
        Ok(Walk {
            names: Vec::new(alloc),
            pending,
            entries: 0,
        })
    }

    /// The names that were found, in byte order.
    fn sorted_names(self) -> Result<Vec<String>, TroubleFailure>
        ensures class_names { IfOk result (λ names. IsClassList (map string_bytes names.items)) }
    {
        let Walk {
            mut names,
            pending: _,
            entries: _,
        } = self;
        names.sort()?;
        Ok(names)
    }

    /// Takes each entry of the folder.
    fn take_folder<R: Files>(
        &mut self,
        rt: &R,
        alloc: Global,
        path: &str,
        folder: &Folder,
    ) -> Result<(), TroubleFailure> {
        let path = joined(alloc, path, folder.name.as_str())?;
        for entry in fs::read_dir(&(rt, alloc), path.as_str()).map_err(end_of)? {
            let entry = entry.map_err(end_of)?;
            let metadata = fs::metadata(rt, entry.path()).map_err(end_of)?;
            self.take_entry(alloc, folder, entry.file_name(), &metadata)?;
        }
        Ok(())
    }

    /// Takes an entry of the folder: a folder is to be walked, and a regular file is listed if its name is
    /// that of a class file. What has such a name and is no regular file fails, and so does an entry too many or a
    /// level too many.
    fn take_entry(
        &mut self,
        alloc: Global,
        folder: &Folder,
        file_name: &str,
        metadata: &Metadata,
    ) -> Result<(), TroubleFailure> {
        if self.entries >= MOST_ENTRIES {
            return Err(Failure::Cause(Trouble::TooMany));
        }
        self.entries += 1;
        let mut name = joined(alloc, folder.name.as_str(), file_name)?;
        if metadata.is_dir() {
            if folder.level >= MOST_LEVELS {
                return Err(Failure::Cause(Trouble::TooDeep));
            }
            name.push('/')?;
            self.pending.push(Folder {
                name,
                level: folder.level + 1,
            })?;
        } else if is_class_name(name.as_str()) {
            if !metadata.is_file() {
                return Err(Failure::Cause(Trouble::NoFile));
            }
            self.names.push(name)?;
        }
        Ok(())
    }
}
