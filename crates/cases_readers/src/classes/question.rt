//! What the rows of a case ask of a class file, and the answer: what was read, or where and why it is refused. What was read is also made
//! again.

ghost use Rattle.std.specs.Prelude.{◌<◌, ◌^◌, length};
ghost use Rattle.jvm_model.specs.Soundness.{IsSoundClass};
ghost use Rattle.jvm_model.specs.Spelling.{spell};
ghost use Rattle.class_maker.specs.Counts.{IsCountedClass};

use crate::classes::class_answer::told_class;
use crate::classes::code_answer::told_code;
use crate::classes::graph_answer::told_graph;
use class_maker::make_class;
use classfile_reader::read_class;
use jvm_model::{ClassFile, Fault, ReadFailure, reason_word};
use std::alloc::{AllocError, Global};

/// What is asked of a class file.
#[derive(Clone, Copy, Debug)]
pub enum Question {
    /// The class file itself.
    Class,
    /// The code of its first method.
    Code,
    /// The flow graph of its first method.
    Graph,
}

/// The question of a word.
pub fn question_of(word: &str) -> Option<Question> {
    match word {
        "class" => Some(Question::Class),
        "code" => Some(Question::Code),
        "graph" => Some(Question::Graph),
        _ => None,
    }
}

/// The answer to a question on a class file of these bytes.
pub fn answer(alloc: Global, question: Question, bytes: &[u8]) -> Result<String, AllocError> {
    match told(alloc, question, bytes) {
        Ok(text) => Ok(text),
        Err(ReadFailure::Cause(Fault { offset, reason })) => {
            let word = reason_word(reason);
            format!(in alloc; "refused {offset} {word}")
        }
        Err(ReadFailure::OutOfMemory) => Err(AllocError),
    }
}

/// What was read. Each class file is made again from that, and where this does not give its bytes, the answer says so.
fn told(alloc: Global, question: Question, bytes: &[u8]) -> Result<String, ReadFailure> {
    let class = read_class(alloc, bytes)?;
    if !is_made_again(alloc, &class, bytes)? {
        return Ok(String::from_str(alloc, "made otherwise")?);
    }
    told_of(alloc, question, &class)
}

/// Whether the class file is made as these bytes.
fn is_made_again(alloc: Global, class: &ClassFile, bytes: &[u8]) -> Result<bool, AllocError>
    requires { IsCountedClass class.now }
{
    let made = make_class(alloc, class)?;
    Ok(made.as_slice() == bytes)
}

/// What a question asks of a class file.
fn told_of(alloc: Global, question: Question, class: &ClassFile) -> Result<String, ReadFailure>
    requires sound { IsSoundClass class.now }
    requires size { length (spell class.now) < 2 ^ 32 }
{
    match question {
        Question::Class => Ok(told_class(alloc, class)?),
        Question::Code => told_code(alloc, class),
        Question::Graph => told_graph(alloc, class),
    }
}
