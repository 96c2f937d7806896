//! The cases of a folder, one after the other.

use crate::folder_list::folders;
use anyhow::Result;
use std::alloc::Global;
use std::rt::Files;

/// What is printed of a case.
pub trait Tell<R> {
    /// The word that asks for it.
    fn word(&self) -> &str;

    /// Prints it, of the case in a folder.
    fn tell(&self, rt: &R, alloc: Global, folder: String) -> Result<()>;
}

/// Prints what some words ask for: `all` and a folder for the cases of each kind, or the word of a kind and a folder for those of one. Whether
/// the words ask for this.
pub fn tell_asked<R: Files + Print, T: Tell<R>>(
    rt: &R,
    alloc: Global,
    kinds: &[T],
    words: &[String],
) -> Result<bool> {
    let [word, folder] = words else {
        return Ok(false);
    };
    if word.as_str() == "all" {
        tell_all(rt, alloc, kinds, folder.as_str())?;
        return Ok(true);
    }
    match kinds.iter().find(|kind| kind.word() == word.as_str()) {
        Some(kind) => {
            tell_cases(rt, alloc, kind, folder.as_str())?;
            Ok(true)
        }
        None => Ok(false),
    }
}

/// Prints the cases of each kind, below a line with its word. They stand in the folder of its word.
fn tell_all<R: Files + Print, T: Tell<R>>(
    rt: &R,
    alloc: Global,
    kinds: &[T],
    folder: &str,
) -> Result<()> {
    for kind in kinds {
        let word = kind.word();
        println!(rt; "# {word}")?;
        let cases = format!(in alloc; "{folder}/{word}")?;
        tell_cases(rt, alloc, kind, cases.as_str())?;
    }
    Ok(())
}

/// Prints the cases in a folder, in byte order of their names: of each its name, what is told of it, and an empty line.
fn tell_cases<R: Files + Print, T: Tell<R>>(
    rt: &R,
    alloc: Global,
    kind: &T,
    cases: &str,
) -> Result<()> {
    for name in &folders(rt, alloc, cases)? {
        println!(rt; "{name}")?;
        kind.tell(rt, alloc, format!(in alloc; "{cases}/{name}")?)?;
        println!(rt; "")?;
    }
    Ok(())
}
