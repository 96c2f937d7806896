//! For tests: prints what the points-to analysis finds in class files, and the path edges of stages. A case is a folder in the one that is named.
//! Beside its files stands `source.txt`: what the class files were made of. It is not read. These are the forms of words:
//!
//! ```text
//! cases_stages all FOLDER                        the cases in FOLDER/sets and FOLDER/edges
//! cases_stages sets FOLDER                       the points-to sets of each case in the folder
//! cases_stages edges FOLDER                      the path edges of each case
//! cases_stages sets FOLDER ENTRY [LIMIT]         the points-to sets of one folder of class files
//! cases_stages counts FOLDER ENTRY [LIMIT]       how many lines of each kind these have
//! ```
//!
//! Cases stand in the order of their names. Of each its name is printed, what `sets` or `edges` says, and an empty line.
#![tactic(auto)]

mod edges;
mod ends;
mod entries;
mod lines;
mod request;
mod sets;

use crate::request::{Request, request_of};
use anyhow::{Result, bail};
use cases_files::{Tell, tell_asked};
use std::alloc::Global;
use std::env;
use std::rt::Files;
use ts_outside::RealTree;

/// What is printed of a case.
#[derive(Clone, Copy)]
enum Kind {
    /// The points-to sets.
    Sets,
    /// The path edges.
    Edges,
}

impl<R: Files + Print + Clone + Drop> Tell<R> for Kind {
    fn word(&self) -> &str {
        match self {
            Kind::Sets => "sets",
            Kind::Edges => "edges",
        }
    }

    fn tell(&self, rt: &R, alloc: Global, folder: String) -> Result<()> {
        let mut tree = RealTree::new(rt.clone()?, folder);
        match self {
            Kind::Sets => sets::case::tell_case(rt, alloc, &mut tree),
            Kind::Edges => edges::case::tell_case(rt, alloc, &mut tree),
        }
    }
}

fn main(rt: HostRuntime) -> Result<()> {
    let alloc = rt.alloc();
    let mut words = Vec::new(alloc);
    for word in env::args(&rt)?.skip(1) {
        words.push(word)?;
    }
    if tell_asked(&rt, alloc, &[Kind::Sets, Kind::Edges], &words)? {
        return Ok(());
    }
    match request_of(&words)? {
        Some(request) => tell_request(&rt, alloc, request),
        None => bail!("usage: cases_stages all|sets|counts|edges FOLDER [ENTRY [LIMIT]]"),
    }
}

/// Prints the sets of one folder.
fn tell_request<R: Files + Print + Clone + Drop>(
    rt: &R,
    alloc: Global,
    request: Request<'_>,
) -> Result<()> {
    let folder = String::from_str(alloc, request.folder)?;
    let mut tree = RealTree::new(rt.clone()?, folder);
    sets::case::tell_one(rt, alloc, &mut tree, request.question)
}
