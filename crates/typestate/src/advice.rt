//! What is said on standard error beside the answer of a run that is no report: what to do about it.

use crate::escaped::escaped;
use crate::sentences::{reason_named, sentence_on};
use command_words::{Mode, Request, UsageFault, read_words};
use failure::Failure;
use jvm_model::Reason;
use property_file::read_property;
use run_spec::Status;
use std::alloc::Global;
use std::fmt::Display;
use stub_file::read_stubs;
use toml_tables::DOCUMENT_LIMIT;
use ts_outside::{Tree, Trouble};

/// One more than the most bytes of a property file or a stub file, so that a longer one is seen.
const DOCUMENT_BYTES: u32 = DOCUMENT_LIMIT as u32 + 1;

const WRONG_WORDS: &str = "The words are not those of a run: ./typestate --help shows them.";

const TWO_MODES: &str = "At most one of --trace, --print-cert and --sample may stand.";

const WRONG_NUMBER: &str =
    "The number of this option is not in its range: ./typestate --help shows it.";

const MISSING: &str =
    "There is no file of this name in the folder of --classes: names are relative to it, with / between folders.";

const MISSING_IN_SAMPLE: &str =
    "The sample has no such file: its property is sample.toml, and it has no stub file.";

const READ_FAULT: &str = "A file or a folder cannot be read: look at their permissions and names.";

const WRITE_FAULT: &str = "Standard output took no more.";

const NO_MEMORY: &str = "There is not enough memory.";

/// Says what to do where a run ended so, with this trouble of its folder and with this word at the end of its line. Nothing is said beside a
/// report.
pub(crate) fn advise<R: Eprint, T: Tree>(
    rt: &R,
    alloc: Global,
    words: &[String],
    tree: &mut T,
    status: Status,
    trouble: Option<Trouble>,
    last_word: &[u8],
) {
    match status {
        Status::AllSafe | Status::SomeUnproved | Status::RejectedCertificate => {}
        Status::Refused => advise_on_refusal(rt, alloc, words, tree, last_word),
        Status::ReadFault => say_trouble(rt, trouble),
        Status::WriteFault => say(rt, WRITE_FAULT),
        Status::Usage => match read_words(alloc, words) {
            Ok(request) => say(rt, sentence_on_missing(request.mode)),
            Err(Failure::Cause(UsageFault::Words)) => say(rt, WRONG_WORDS),
            Err(Failure::Cause(UsageFault::Modes)) => say(rt, TWO_MODES),
            Err(Failure::Cause(UsageFault::Range(_))) => say(rt, WRONG_NUMBER),
            Err(Failure::OutOfMemory) => say(rt, NO_MEMORY),
        },
        Status::Memory => say(rt, NO_MEMORY),
    }
}

/// What to do where a file that the words name is not there.
fn sentence_on_missing(mode: Mode) -> &'static str {
    match mode {
        Mode::Report | Mode::Trace | Mode::Certificate => MISSING,
        Mode::Sample(_) => MISSING_IN_SAMPLE,
    }
}

/// Says why a file or a folder cannot be read.
fn say_trouble<R: Eprint>(rt: &R, trouble: Option<Trouble>) {
    match trouble {
        Some(trouble) => {
            let _ = eprintln!(rt; "typestate: Reading failed: {trouble}.");
        }
        None => say(rt, READ_FAULT),
    }
}

/// Says what to do about a refusal. Where a property file or a stub file of the folder is refused, what is wrong with it is said first.
fn advise_on_refusal<R: Eprint, T: Tree>(
    rt: &R,
    alloc: Global,
    words: &[String],
    tree: &mut T,
    word: &[u8],
) {
    let Some(reason) = reason_named(word) else {
        return;
    };
    if matches!(
        reason,
        Reason::BadToml | Reason::BadProperty | Reason::BadStub
    ) {
        if let Ok(request) = read_words(alloc, words) {
            say_fault(rt, alloc, &request, tree);
        }
    }
    say(rt, sentence_on(reason));
}

/// Says what is wrong with the property file or the stub file. The sample has its own, and nothing is wrong with these.
fn say_fault<R: Eprint, T: Tree>(rt: &R, alloc: Global, request: &Request<'_>, tree: &mut T) {
    if matches!(request.mode, Mode::Sample(_)) {
        return;
    }
    if !say_property_fault(rt, alloc, request, tree) {
        say_stub_fault(rt, alloc, request, tree);
    }
}

/// Says what is wrong with the property file. Whether anything is.
fn say_property_fault<R: Eprint, T: Tree>(
    rt: &R,
    alloc: Global,
    request: &Request<'_>,
    tree: &mut T,
) -> bool {
    let Ok(bytes) = tree.read(alloc, request.property, DOCUMENT_BYTES) else {
        return false;
    };
    match read_property(alloc, &bytes) {
        Err(Failure::Cause(fault)) => {
            say_of_file(rt, alloc, request.property, &fault);
            true
        }
        _ => false,
    }
}

/// Says what is wrong with the stub file, if anything is.
fn say_stub_fault<R: Eprint, T: Tree>(rt: &R, alloc: Global, request: &Request<'_>, tree: &mut T) {
    let Some(name) = request.stubs else {
        return;
    };
    let Ok(bytes) = tree.read(alloc, name, DOCUMENT_BYTES) else {
        return;
    };
    if let Err(Failure::Cause(fault)) = read_stubs(alloc, name, &bytes) {
        say_of_file(rt, alloc, name, &fault);
    }
}

/// Says something of a file on standard error, where no name in it can end a line. Where there is no memory for it, nothing is said.
fn say_of_file<R: Eprint>(rt: &R, alloc: Global, file: &str, fault: &impl Display) {
    let Ok(fault) = fault.to_string(alloc) else {
        return;
    };
    let (Ok(file), Ok(fault)) = (
        escaped(alloc, file.as_bytes()),
        escaped(alloc, fault.as_bytes()),
    ) else {
        return;
    };
    if let (Ok(file), Ok(fault)) = (str::from_utf8(&file), str::from_utf8(&fault)) {
        let _ = eprintln!(rt; "typestate: {file}: {fault}");
    }
}

/// Says a sentence on standard error. Where that takes nothing, nothing is said.
fn say<R: Eprint>(rt: &R, sentence: &str) {
    let _ = eprintln!(rt; "typestate: {sentence}");
}
