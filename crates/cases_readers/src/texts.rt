//! The property files and the stub files that the rows of each case spell, and what the readers answer. `case` says what the lines
//! of a case are.

mod case;
mod property_answer;
mod question;
mod row;
mod stub_answer;
mod words;

use crate::files::files;
use crate::texts::case::tell_case;
use anyhow::Result;
use std::alloc::Global;
use std::fs;

/// Prints the answers to the cases of a folder.
pub fn tell_texts(rt: &HostRuntime, alloc: Global, folder: &str) -> Result<()> {
    for case in &files(rt, alloc, folder)? {
        println!(rt; "{case}")?;
        let path = format!(in alloc; "{folder}/{case}")?;
        let lines = fs::read_to_string(rt, path.as_str())?;
        tell_case(rt, alloc, lines.as_str())?;
        println!(rt; "")?;
    }
    Ok(())
}
