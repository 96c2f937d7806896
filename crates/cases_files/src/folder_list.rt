//! The folders of a folder of cases.

use std::alloc::Global;
use std::path::Path;
use std::rt::Files;
use std::{fs, io};

/// The names of the folders in a folder, in byte order.
pub fn folders<R: Files>(rt: &R, alloc: Global, path: &str) -> io::Result<Vec<String>> {
    let mut names = Vec::new(alloc);
    add_folders(rt, alloc, path, &mut names)?;
    names.sort()?;
    Ok(names)
}

/// Adds the names of the folders in a folder.
fn add_folders<R: Files>(
    rt: &R,
    alloc: Global,
    path: &str,
    names: &mut Vec<String>,
) -> io::Result<()> {
    for entry in fs::read_dir(&(rt, alloc), path)? {
        let entry = entry?;
        add_folder(rt, alloc, entry.path(), entry.file_name(), names)?;
    }
    Ok(())
}

/// Adds the name of a folder. What stands at the path may be something else.
fn add_folder<R: Files>(
    rt: &R,
    alloc: Global,
    path: Path<'_>,
    name: &str,
    names: &mut Vec<String>,
) -> io::Result<()> {
    if fs::metadata(rt, path)?.is_dir() {
        names.push(String::from_str(alloc, name)?)?;
    }
    Ok(())
}
