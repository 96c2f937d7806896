//! The program: it hands its words, the folder that they name and standard output to `run`, says on standard error what to do about an
//! answer that is no report, and ends with the status.
//! Begin with src/main.rt and src/ended.rt. sentences.rt has a sentence for each reason, advice.rt names the key or the class that breaks a
//! rule, kept_line.rt keeps the last line that was written.
#![tactic(auto)]

mod advice;
mod ended;
mod escaped;
mod folder;
mod kept_line;
mod sentences;

use crate::advice::advise;
use crate::ended::Ended;
use crate::folder::folder_of;
use crate::kept_line::KeptLine;
use std::alloc::{AllocError, Global};
use std::env;
use std::io::ErrorKind;
use std::process::ExitCode;
use std::rt::Env;
use ts_outside::{RealSink, RealTree};

fn main(rt: HostRuntime) -> ExitCode {
    match verify(rt) {
        Ok(ended) => ExitCode::from(ended.exit_code()),
        Err(AllocError) => ExitCode::from(Ended::without_memory().exit_code()),
    }
}

/// Runs the verifier on the words of the program, and says what to do about its end.
fn verify(rt: HostRuntime) -> Result<Ended, AllocError> {
    let alloc = rt.alloc();
    let words = words_of(&rt)?;
    let folder = String::from_str(alloc, folder_of(&words))?;
    let mut tree = RealTree::new(rt.clone()?, folder);
    let mut out = KeptLine::new(alloc, RealSink::new(rt.clone()?));
    let ended = Ended::of_run(alloc, &words, &mut tree, &mut out);
    let trouble = tree.trouble();
    advise(
        &rt,
        alloc,
        &words,
        &mut tree,
        ended.status(),
        trouble,
        out.last_word(),
    );
    Ok(ended)
}

/// The words after the program's name. Words that are no text are as good as none: they ask for nothing.
fn words_of(rt: &(impl Env + AllocGlobal)) -> Result<Vec<String>, AllocError> {
    let mut words = Vec::new(rt.alloc());
    match env::args(rt) {
        Ok(given) => {
            for word in given.skip(1) {
                words.push(word)?;
            }
            Ok(words)
        }
        Err(error) if error.kind() == ErrorKind::OutOfMemory => Err(AllocError),
        Err(_) => Ok(words),
    }
}
