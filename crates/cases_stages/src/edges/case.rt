//! A case: a folder of class files with an entry and a property.

ghost use Rattle.std.specs.Prelude.{◌<◌, IfOk};
ghost use Rattle.program_model.specs.Numbers.{IsMethodNumber};

use crate::edges::facts::Words;
use crate::edges::stages::{Asked, tell_site};
use crate::ends::tell_end;
use crate::entries::{Entry, entry_of, read_entry};
use crate::request::LIMIT;
use anyhow::{Result, bail};
use cases_files::{Linked, Names, read_case, tell_failure};
use ground::Ground;
use jvm_model::{Automaton, MethodNo};
use property_file::read_property;
use report_analysis::analyse;
use report_sites::tracked;
use std::alloc::Global;
use ts_outside::Tree;

/// The file of the property of a case.
const PROPERTY_FILE: &str = "property.toml";

/// How many path edges are too many where no number is named.
const EDGE_LIMIT: usize = 10_000;

/// Prints the path edges of a case; or why the files have no program.
pub fn tell_case<R: Print, T: Tree>(rt: &R, alloc: Global, tree: &mut T) -> Result<()> {
    let Entry { method, limit } = read_entry(alloc, tree)?;
    let limit = edge_limit(limit)?;
    let automaton = read_automaton(alloc, tree)?;
    match read_case(alloc, tree) {
        Ok(linked) => tell_linked(rt, alloc, &linked, &automaton, method.as_str(), limit),
        Err(failure) => tell_failure(rt, failure),
    }
}

/// How many path edges are too many: the number that the case names, if it does.
fn edge_limit(named: Option<u64>) -> Result<usize>
    ensures { IfOk result (λ limit. 0 < limit) }
{
    let Some(named) = named else {
        return Ok(EDGE_LIMIT);
    };
    let limit = usize::try_from(named)?;
    if limit == 0 {
        bail!("the limit of path edges is 0");
    }
    Ok(limit)
}

/// The automaton of the property of a case.
fn read_automaton<T: Tree>(alloc: Global, tree: &mut T) -> Result<Automaton> {
    let bytes = tree.read(alloc, PROPERTY_FILE, u32::MAX)?;
    Ok(read_property(alloc, &bytes)?)
}

/// Prints the path edges of a program from an entry.
fn tell_linked<R: Print>(
    rt: &R,
    alloc: Global,
    linked: &Linked,
    automaton: &Automaton,
    entry: &str,
    limit: usize,
) -> Result<()>
    requires { 0 < limit }
{
    let Some(entry) = entry_of(alloc, &linked.program, &linked.members.methods, entry)? else {
        println!(rt; "no entry")?;
        return Ok(());
    };
    match analyse(alloc, &linked.program, entry, LIMIT) {
        Ok(ground) => {
            let names = Names::of(alloc, &linked.program, &linked.members)?;
            let words = Words {
                names: &names,
                automaton,
            };
            tell_sites(rt, alloc, &ground, entry, words, limit)
        }
        Err(failure) => tell_end(rt, failure),
    }
}

/// Prints the path edges of each tracked site.
fn tell_sites<R: Print>(
    rt: &R,
    alloc: Global,
    ground: &Ground<'_>,
    entry: MethodNo,
    words: Words<'_>,
    limit: usize,
) -> Result<()>
    requires entry { IsMethodNumber ground.now.program entry.0 }
    requires limit { 0 < limit }
{
    let Some(upper) = ground.program().find(words.automaton.class_name.as_slice()) else {
        println!(rt; "no class of the property")?;
        return Ok(());
    };
    let asked = Asked {
        ground,
        entry,
        words,
        limit,
    };
    for site in &tracked(alloc, ground, upper)? {
        tell_site(rt, alloc, asked, site)?;
    }
    Ok(())
}
