//! For tests: prints what linking makes of class files, with the answers of searches in the program, and what lowering does. A case is a folder
//! in the one that is named. Beside its files stands `source.txt`: what the class files were made of. It is not read. These are the forms of words:
//!
//! ```text
//! cases_links all FOLDER           the cases in FOLDER/links and FOLDER/nodes
//! cases_links links FOLDER         what linking says of each case in the folder, and the answers to its queries
//! cases_links nodes FOLDER         the nodes of each method of each case
//! ```
//!
//! Cases stand in the order of their names. Of each its name is printed, what `links` or `nodes` says, and an empty line.
#![tactic(auto)]

mod links;
mod nodes;

use anyhow::{Result, bail};
use cases_files::{Tell, tell_asked};
use std::alloc::Global;
use std::env;
use std::rt::Files;
use ts_outside::RealTree;

/// What is printed of a case.
#[derive(Clone, Copy)]
enum Kind {
    /// What linking says, and the answers to queries.
    Links,
    /// The nodes of the methods.
    Nodes,
}

impl<R: Files + Print + Clone + Drop> Tell<R> for Kind {
    fn word(&self) -> &str {
        match self {
            Kind::Links => "links",
            Kind::Nodes => "nodes",
        }
    }

    fn tell(&self, rt: &R, alloc: Global, folder: String) -> Result<()> {
        let mut tree = RealTree::new(rt.clone()?, folder);
        match self {
            Kind::Links => links::case::tell_case(rt, alloc, &mut tree),
            Kind::Nodes => nodes::case::tell_case(rt, alloc, &mut tree),
        }
    }
}

fn main(rt: HostRuntime) -> Result<()> {
    let alloc = rt.alloc();
    let mut words = Vec::new(alloc);
    for word in env::args(&rt)?.skip(1) {
        words.push(word)?;
    }
    if !tell_asked(&rt, alloc, &[Kind::Links, Kind::Nodes], &words)? {
        bail!("usage: cases_links all|links|nodes FOLDER");
    }
    Ok(())
}
