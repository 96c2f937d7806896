//! A case: a folder of class files, with or without a stub file, and with queries.

use crate::links::answer::answer;
use crate::links::flow::{graph_text, text};
use crate::links::query::{Query, Search, query_of};
use anyhow::Result;
use cases_files::{CaseFailure, CaseFault, read_case, tell_failure};
use failure::Failure;
use program_model::program::Program;
use std::alloc::Global;
use ts_outside::{Tree, TreeFault};

/// The file of the queries of a case, one a line.
const QUERIES: &str = "queries";

/// Prints what linking says of the files of a case, and the answer to each of its queries.
pub fn tell_case<R: Print, T: Tree>(rt: &R, alloc: Global, tree: &mut T) -> Result<()> {
    match read_case(alloc, tree) {
        Ok(linked) => tell_linked(rt, alloc, tree, &linked.program),
        Err(failure) => {
            tell_failure(rt, failure)?;
            tell_answers(rt, alloc, tree, None)
        }
    }
}

/// Prints how many classes a program has, and the answer to each query.
fn tell_linked<R: Print, T: Tree>(
    rt: &R,
    alloc: Global,
    tree: &mut T,
    program: &Program,
) -> Result<()> {
    let count = program.class_count();
    println!(rt; "linked {count} classes")?;
    tell_answers(rt, alloc, tree, Some(program))
}

/// Prints each query of a case, and its answer.
fn tell_answers<R: Print, T: Tree>(
    rt: &R,
    alloc: Global,
    tree: &mut T,
    program: Option<&Program>,
) -> Result<()> {
    let queries = queries_of(alloc, tree)?;
    tell_each(rt, alloc, tree, program, queries.as_str())
}

/// Prints the query of each line, and its answer.
fn tell_each<R: Print, T: Tree>(
    rt: &R,
    alloc: Global,
    tree: &mut T,
    program: Option<&Program>,
    lines: &str,
) -> Result<()> {
    for line in lines.lines() {
        let text = answer_to(alloc, tree, program, line)?;
        println!(rt; "{line}: {text}")?;
    }
    Ok(())
}

/// The queries of a case; none if there is no such file.
fn queries_of<T: Tree>(alloc: Global, tree: &mut T) -> Result<String, CaseFailure> {
    match tree.read(alloc, QUERIES, u32::MAX) {
        Ok(bytes) => match String::from_utf8(bytes) {
            Ok(text) => Ok(text),
            Err(_) => Err(Failure::Cause(CaseFault::Unread)),
        },
        Err(Failure::Cause(TreeFault::Missing)) => Ok(String::new(alloc)),
        Err(Failure::Cause(TreeFault::Failed)) => Err(Failure::Cause(CaseFault::Unread)),
        Err(Failure::OutOfMemory) => Err(Failure::OutOfMemory),
    }
}

/// The answer to the query of a line.
fn answer_to<T: Tree>(
    alloc: Global,
    tree: &mut T,
    program: Option<&Program>,
    line: &str,
) -> Result<String, CaseFailure> {
    match query_of(alloc, line)? {
        Some(Query::Graph(method)) => graph_text(alloc, tree, &method),
        Some(Query::OfProgram(search)) => answer_in(alloc, program, &search),
        None => text(alloc, "no such query"),
    }
}

/// The answer of a program, if one was linked.
fn answer_in(
    alloc: Global,
    program: Option<&Program>,
    search: &Search<'_>,
) -> Result<String, CaseFailure> {
    match program {
        Some(program) => Ok(answer(alloc, program, search)?),
        None => text(alloc, "no program"),
    }
}
