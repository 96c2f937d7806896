//! What the rows of a case ask, and the answer: what was read, or why it is refused.

use crate::texts::property_answer::told_property;
use crate::texts::stub_answer::told_stubs;
use failure::Failure;
use property_file::read_property;
use std::alloc::{AllocError, Global};
use stub_file::{base_stubs, read_stubs};

/// What is asked.
#[derive(Clone, Copy, Debug)]
pub enum Question {
    /// A text as a property file.
    Property,
    /// A text as a stub file.
    Stubs,
    /// The stubs that are there from the start, whatever the text is.
    BaseStubs,
}

/// The question of a word.
pub fn question_of(word: &str) -> Option<Question> {
    match word {
        "property" => Some(Question::Property),
        "stubs" => Some(Question::Stubs),
        "base-stubs" => Some(Question::BaseStubs),
        _ => None,
    }
}

/// The answer to a question on these bytes.
pub fn answer(alloc: Global, question: Question, bytes: &[u8]) -> Result<String, AllocError> {
    match question {
        Question::Property => property_answer(alloc, bytes),
        Question::Stubs => stub_answer(alloc, bytes),
        Question::BaseStubs => told_stubs(alloc, &base_stubs(alloc)?),
    }
}

/// What is read of a property file, or why it is refused.
fn property_answer(alloc: Global, bytes: &[u8]) -> Result<String, AllocError> {
    match read_property(alloc, bytes) {
        Ok(automaton) => told_property(alloc, &automaton),
        Err(Failure::OutOfMemory) => Err(AllocError),
        Err(failure) => format!(in alloc; "{failure}"),
    }
}

/// What is read of a stub file, or why it is refused.
fn stub_answer(alloc: Global, bytes: &[u8]) -> Result<String, AllocError> {
    match read_stubs(alloc, "s.toml", bytes) {
        Ok(classes) => told_stubs(alloc, &classes),
        Err(Failure::OutOfMemory) => Err(AllocError),
        Err(failure) => format!(in alloc; "{failure}"),
    }
}
