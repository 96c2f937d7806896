//! Files that a program holds in memory, as pairs of a name and the bytes: whether their names differ, the
//! listing of their class files, and the first bytes of one of them. The trees in memory share these.
ghost use Rattle.std.specs.Prelude.{◌≡◌, ◌≢◌, ◌↔◌, map, string_bytes, take, option_map, IfOk};
ghost use Rattle.failure.specs.declared.Failure.TheVariants.{Cause};
ghost use Rattle.std.specs.List.{list_any};
ghost use Rattle.std.specs.Option.{option_copied};
ghost use Rattle.std.specs.Str.{bytes_eq};
ghost use Rattle.ts_outside.specs.Files.{file_at, class_names, IsListing};
ghost use Rattle.ts_outside.specs.Files as definitions;
ghost use Rattle.ts_outside.specs.Held.{files_of, names_of};

use crate::{TreeFailure, TreeFault};
use failure::Failure;
use std::alloc::{AllocError, Global};

/// Whether no two of the files have the same name. The trees in memory require it of the files that they
/// are given. It compares each name with each later one, so it takes quadratic time.
pub fn names_differ(files: &[(String, Vec<u8>)]) -> bool
    ensures { result ≡ definitions.names_differ (names_of (files_of files.now)) }
{
    for (index, file) in files.iter().enumerate() {
        if is_held(&files[index + 1..], file.0.as_str()) {
            return false;
        }
    }
    true
}

/// Whether one of the files has this name.
fn is_held(files: &[(String, Vec<u8>)], name: &str) -> bool
    ensures { result ≡ list_any (bytes_eq name.now) (names_of (files_of files.now)) }
{
    for file in files {
        if name == file.0.as_str() {
            return true;
        }
    }
    false
}

/// Whether this is the name of a class file: it ends in `.class`.
pub(crate) fn is_class_name(name: &str) -> bool
    ensures { result ≡ definitions.is_class_name name.now }
{
    name.as_bytes().ends_with(b".class")
}

/// The names of the class files, in the order in which the files stand.
fn class_file_names(alloc: Global, files: &[(String, Vec<u8>)]) -> Result<Vec<String>, AllocError>
    ensures { IfOk result (λ names. map string_bytes names.items ≡ class_names (files_of files.now)) }
{
    let mut names = Vec::new(alloc);
    for file in files {
        if is_class_name(file.0.as_str()) {
            names.push(file.0.clone()?)?;
        }
    }
    Ok(names)
}

/// The names of the class files, in byte order.
pub(crate) fn list(alloc: Global, files: &[(String, Vec<u8>)]) -> Result<Vec<String>, AllocError>
    ensures { IfOk result (λ names. IsListing (files_of files.now) (map string_bytes names.items)) }
{
    let mut names = class_file_names(alloc, files)?;
    names.sort()?;
    Ok(names)
}

/// The bytes of the file of this name.
fn find<'a>(files: &'a [(String, Vec<u8>)], name: &str) -> Option<&'a [u8]>
    ensures { option_copied result ≡ file_at (files_of files.now) name.now }
{
    for file in files {
        if file.0.as_str() == name {
            return Some(file.1.as_slice());
        }
    }
    None
}

/// The first `limit` bytes, or all of them if there are fewer.
fn first_bytes(alloc: Global, bytes: &[u8], limit: u32) -> Result<Vec<u8>, AllocError>
    ensures { IfOk result (λ first. first.items ≡ take limit bytes.now) }
{
    let count = bytes.len().min(limit as usize);
    Vec::from_slice(alloc, &bytes[..count])
}

/// The first `limit` bytes of the file of this name, or all of them if it is shorter.
pub(crate) fn read(
    alloc: Global,
    files: &[(String, Vec<u8>)],
    name: &str,
    limit: u32,
) -> Result<Vec<u8>, TreeFailure>
    ensures bytes { IfOk result (λ read. option_map (take limit) (file_at (files_of files.now) name.now) ≡ Some read.items) }
    ensures missing { (result ≡ Err (Cause TreeFault.Missing)) ↔ (file_at (files_of files.now) name.now ≡ None) }
    ensures not_failed { result ≢ Err (Cause TreeFault.Failed) }
{
    let Some(bytes) = find(files, name) else {
        return Err(Failure::Cause(TreeFault::Missing));
    };
    Ok(first_bytes(alloc, bytes, limit)?)
}
