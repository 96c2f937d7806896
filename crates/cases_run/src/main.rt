//! For tests: prints what runs of the verifier answer. A case is a folder with a file `words`, which has the words of the run, one a line,
//! and a folder `folder`, which is the tree of files. The one word is the folder of the cases:
//!
//! ```text
//! cases_run FOLDER
//! ```
//!
//! Of each case, in byte order of their names, its name is printed, then what the run writes, and its exit status. Tests of runs over trees
//! and sinks in memory stand beside it.
#![tactic(auto)]

#[cfg(test)]
mod run;
#[cfg(test)]
mod stream;

use anyhow::{Result, bail};
use cases_files::folders;
use std::alloc::Global;
use std::env;
use std::fs::Files;
use ts_outside::{RealSink, RealTree, Tree};
use typestate_core::run;

/// The most bytes of a file of words.
const MOST_BYTES: u32 = 4_096;

/// The words of a case.
fn words_of<T: Tree>(alloc: Global, case: &mut T) -> Result<Vec<String>> {
    let bytes = case.read(alloc, "words", MOST_BYTES)?;
    let text = String::from_utf8(bytes)?;
    let mut words = Vec::new(alloc);
    for line in text.as_str().lines() {
        words.push(String::from_str(alloc, line)?)?;
    }
    Ok(words)
}

/// Prints what the run of a case answers.
fn tell_case(
    rt: &(impl Files + Print + AllocGlobal + Clone + Drop),
    alloc: Global,
    path: &str,
) -> Result<()> {
    let mut case = RealTree::new(rt.clone()?, String::from_str(alloc, path)?);
    let words = words_of(alloc, &mut case)?;
    let mut tree = RealTree::new(rt.clone()?, format!(in alloc; "{path}/folder")?);
    let mut out = RealSink::new(rt.clone()?);
    let status = run(alloc, &words, &mut tree, &mut out).code();
    println!(rt; "status {status}")?;
    Ok(())
}

fn main(rt: HostRuntime) -> Result<()> {
    let alloc = rt.alloc();
    let Some(folder) = env::args(&rt)?.nth(1) else {
        bail!("usage: cases_run FOLDER");
    };
    for name in &folders(&rt, alloc, folder.as_str())? {
        println!(rt; "{name}")?;
        let path = format!(in alloc; "{folder}/{name}")?;
        tell_case(&rt, alloc, path.as_str())?;
        println!(rt; "")?;
    }
    Ok(())
}
