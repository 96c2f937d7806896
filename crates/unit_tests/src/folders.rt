//! A folder without class files, and one whose class file is cut.

use crate::seen::see;
use class_folder::{FolderFailure, FolderFault, read_classes};
use failure::Failure;
use jvm_model::{NamedClass, Reason};
use std::alloc::{AllocError, Global};
use std::process::Abort;
use ts_outside::{SteadyTree, names_differ};

/// The class files among these files, whose names differ.
fn classes_in(
    rt: &impl Abort,
    alloc: Global,
    files: Vec<(String, Vec<u8>)>,
) -> Result<Vec<NamedClass>, FolderFailure> {
    assert!(rt; names_differ(&files));
    read_classes(alloc, &mut SteadyTree::new(files))
}

/// How many class files were read.
fn count_of(read: &Result<Vec<NamedClass>, FolderFailure>) -> Option<usize> {
    match read {
        Ok(classes) => Some(classes.len()),
        Err(_) => None,
    }
}

#[test]
fn a_folder_without_class_files_is_read(rt: HostRuntime) {
    let read = classes_in(&rt, rt.alloc(), Vec::new(rt.alloc()));
    see(&rt, count_of(&read), Some(0));
}

/// A class file of one byte.
fn cut_file(alloc: Global) -> Result<Vec<(String, Vec<u8>)>, AllocError> {
    let bytes = Vec::from_slice(alloc, &[0xca])?;
    let name = String::from_str(alloc, "a.class")?;
    Ok(vec![in alloc; (name, bytes)]?)
}

/// Which file was refused, where and why.
fn refusal_in(read: &Result<Vec<NamedClass>, FolderFailure>) -> Option<(&str, u32, Reason)> {
    match read {
        Err(Failure::Cause(FolderFault::Refused(refusal))) => {
            Some((refusal.file.as_str(), refusal.offset, refusal.reason))
        }
        _ => None,
    }
}

#[test]
fn a_cut_file_is_refused(rt: HostRuntime) -> Result<(), AllocError> {
    let read = classes_in(&rt, rt.alloc(), cut_file(rt.alloc())?);
    see(
        &rt,
        refusal_in(&read),
        Some(("a.class", 0, Reason::Truncated)),
    );
    Ok(())
}
