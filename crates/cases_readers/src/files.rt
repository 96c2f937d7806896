//! The files of a folder.

use std::alloc::Global;
use std::rt::Files;
use std::{fs, io};

/// The names of the files in a folder, in byte order.
pub fn files(rt: &impl Files, alloc: Global, path: &str) -> io::Result<Vec<String>> {
    let mut names = Vec::new(alloc);
    for entry in fs::read_dir(&(rt, alloc), path)? {
        names.push(String::from_str(alloc, entry?.file_name())?)?;
    }
    names.sort()?;
    Ok(names)
}
