//! The class files that the rows of each case spell, with their code and their flow graphs, and what the readers answer. A case
//! begins with the lines of the file that is named beside its folder, which gives names to bytes. `case` says what the lines are,
//! and `notation` how bytes are written there.

mod case;
mod class_answer;
mod code_answer;
mod graph_answer;
mod notation;
mod question;
mod sweep;

use crate::classes::case::tell_case;
use crate::files::files;
use anyhow::Result;
use std::alloc::Global;
use std::fs;

/// Prints the answers to the cases of a folder, each behind the lines of a file that give names to bytes.
pub fn tell_classes(rt: &HostRuntime, alloc: Global, names: &str, folder: &str) -> Result<()> {
    let names = fs::read_to_string(rt, names)?;
    for case in &files(rt, alloc, folder)? {
        println!(rt; "{case}")?;
        let lines = lines_of(rt, alloc, names.as_str(), folder, case.as_str())?;
        tell_case(rt, alloc, lines.as_str())?;
        println!(rt; "")?;
    }
    Ok(())
}

/// The lines of a case in a folder, behind those that give names to bytes.
fn lines_of(
    rt: &HostRuntime,
    alloc: Global,
    names: &str,
    folder: &str,
    case: &str,
) -> Result<String> {
    let path = format!(in alloc; "{folder}/{case}")?;
    let lines = fs::read_to_string(rt, path.as_str())?;
    Ok(format!(in alloc; "{names}{lines}")?)
}
