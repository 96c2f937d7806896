//! For tests: prints what the readers answer to the rows of cases, that is to class files, with their code and their flow graphs, and to
//! property files and stub files. Then it prints the rows of the instruction table.
//!
//! ```text
//! cases_readers NAMES CLASSES TEXTS
//! ```
//!
//! CLASSES is a folder of cases of class files, NAMES a file of lines that stand before each of them, TEXTS a folder of cases of property
//! files and of stub files. A case is a file; of each, in byte order of their names, its name is printed, and then the answers.
#![tactic(auto)]

mod classes;
mod files;
mod opcodes;
mod texts;

use crate::classes::tell_classes;
use crate::opcodes::tell_opcodes;
use crate::texts::tell_texts;
use anyhow::{Result, bail};
use std::env;

fn main(rt: HostRuntime) -> Result<()> {
    let alloc = rt.alloc();
    let mut words = env::args(&rt)?.skip(1);
    let (Some(names), Some(classes), Some(texts)) = (words.next(), words.next(), words.next())
    else {
        bail!("usage: cases_readers NAMES CLASSES TEXTS");
    };
    println!(rt; "# class files, their code and their flow graphs")?;
    tell_classes(&rt, alloc, names.as_str(), classes.as_str())?;
    println!(rt; "# property files and stub files")?;
    tell_texts(&rt, alloc, texts.as_str())?;
    println!(rt; "# the instruction table")?;
    tell_opcodes(&rt, alloc)
}
