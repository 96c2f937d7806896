//! A case: a folder of class files with an entry.

use crate::ends::tell_end;
use crate::entries::{Entry, entry_of, read_entry};
use crate::request::{Amount, LIMIT, Question};
use crate::sets::listing::{tell_counts, tell_sets};
use crate::sets::readings::tell_disagreements;
use anyhow::Result;
use cases_files::{Linked, Names, read_case, tell_failure};
use ground::Ground;
use report_analysis::analyse;
use std::alloc::Global;
use ts_outside::Tree;

/// Prints the sets of a case from the entry that its file names.
pub fn tell_case<R: Print, T: Tree>(rt: &R, alloc: Global, tree: &mut T) -> Result<()> {
    let Entry { method, limit } = read_entry(alloc, tree)?;
    let question = Question {
        entry: method.as_str(),
        limit: limit.unwrap_or(LIMIT),
        amount: Amount::Everything,
    };
    tell_one(rt, alloc, tree, question)
}

/// Prints the sets of the class files of a folder; or why the files have no program.
pub fn tell_one<R: Print, T: Tree>(
    rt: &R,
    alloc: Global,
    tree: &mut T,
    question: Question<'_>,
) -> Result<()> {
    match read_case(alloc, tree) {
        Ok(linked) => tell_linked(rt, alloc, &linked, question),
        Err(failure) => tell_failure(rt, failure),
    }
}

/// Prints the sets of a program.
fn tell_linked<R: Print>(
    rt: &R,
    alloc: Global,
    linked: &Linked,
    question: Question<'_>,
) -> Result<()> {
    let methods = linked.members.methods.as_slice();
    let Some(entry) = entry_of(alloc, &linked.program, methods, question.entry)? else {
        println!(rt; "no entry")?;
        return Ok(());
    };
    match analyse(alloc, &linked.program, entry, question.limit) {
        Ok(ground) => tell_solved(rt, alloc, linked, &ground, question.amount),
        Err(failure) => tell_end(rt, failure),
    }
}

/// Prints that there is a solution, and its sets, or how many there are of each kind.
fn tell_solved<R: Print>(
    rt: &R,
    alloc: Global,
    linked: &Linked,
    ground: &Ground<'_>,
    amount: Amount,
) -> Result<()> {
    println!(rt; "end solved")?;
    match amount {
        Amount::Everything => tell_ground(rt, alloc, linked, ground),
        Amount::Counts => tell_counts(rt, ground),
    }
}

/// Prints the sets.
fn tell_ground<R: Print>(
    rt: &R,
    alloc: Global,
    linked: &Linked,
    ground: &Ground<'_>,
) -> Result<()> {
    let names = Names::of(alloc, &linked.program, &linked.members)?;
    tell_sets(rt, alloc, ground, &names)?;
    tell_disagreements(rt, alloc, ground)
}
