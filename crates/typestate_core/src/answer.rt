//! What a run says where a check fails: a status and one line.

ghost use Rattle.std.specs.Prelude.{◌≡◌, ◌++◌, [], ◌∷◌, IfOk, IfErr, OnOk};
ghost use Rattle.std.specs.Fmt.{decimal};
ghost use Rattle.failure.specs.declared.Failure.TheVariants.{OutOfMemory};
ghost use Rattle.typestate_core.specs.Answers.{Says, lines_of};
ghost use Rattle.run_spec.specs.Lines.{missing_line, option_word, refused_line, usage_line};

use command_words::{NumberOption, UsageFault};
use failure::Failure;
use jvm_model::{Reason, reason_word};
use run_spec::Status;
use site_report::push_name;
use std::alloc::{AllocError, Global};
use thiserror::Error;

/// What a run says: its status, and the text that is written, in which each line ends with a newline.
#[derive(Drop)]
pub(crate) struct Answer {
    pub(crate) status: Status,
    pub(crate) text: Vec<u8>,
}

/// A fault of reading, which the tree counted.
#[derive(Clone, Copy, Debug, PartialEq, Eq, Error)]
#[error("a file cannot be read")]
pub(crate) struct ReadFault;

/// Why a run has nothing to say.
pub(crate) type RunFailure = Failure<ReadFault>;

/// The word of an option with a number.
fn option_word(option: NumberOption) -> &'static str
    ensures { result.now ≡ option_word option }
{
    match option {
        NumberOption::Stages => "--stages",
        NumberOption::Depth => "--depth",
        NumberOption::FactLimit => "--fact-limit",
        NumberOption::PairLimit => "--pair-limit",
        NumberOption::Sample => "--sample",
    }
}

/// The line `refused FILE OFFSET REASON`.
fn refused_line(
    alloc: Global,
    file: &[u8],
    offset: u32,
    reason: Reason,
) -> Result<Vec<u8>, AllocError>
    ensures { IfOk result (λ line. line.items ≡ refused_line file.now offset reason) }
{
    let mut line = Vec::new(alloc);
    line.extend_from_slice(b"refused ")?;
    push_name(&mut line, file)?;
    line.push(b' ')?;
    let digits = offset.to_string(alloc)?;
    line.extend_from_slice(digits.as_bytes())?;
    line.push(b' ')?;
    line.extend_from_slice(reason_word(reason).as_bytes())?;
    line.push(b'\n')?;
    Ok(line)
}

/// The line `missing NAME`.
fn missing_line(alloc: Global, name: &[u8]) -> Result<Vec<u8>, AllocError>
    ensures { IfOk result (λ line. line.items ≡ missing_line name.now) }
{
    let mut line = Vec::new(alloc);
    line.extend_from_slice(b"missing ")?;
    push_name(&mut line, name)?;
    line.push(b'\n')?;
    Ok(line)
}

/// The line `usage words`, `usage modes` or `usage range OPTION`.
fn usage_line(alloc: Global, fault: UsageFault) -> Result<Vec<u8>, AllocError>
    ensures { IfOk result (λ line. line.items ≡ usage_line fault) }
{
    let mut line = Vec::new(alloc);
    match fault {
        UsageFault::Words => line.extend_from_slice(b"usage words")?,
        UsageFault::Modes => line.extend_from_slice(b"usage modes")?,
        UsageFault::Range(option) => {
            line.extend_from_slice(b"usage range ")?;
            line.extend_from_slice(option_word(option).as_bytes())?;
        }
    }
    line.push(b'\n')?;
    Ok(line)
}

/// A file is refused at an offset, or with `-` no file in particular.
pub(crate) fn refuse(
    alloc: Global,
    file: &[u8],
    offset: u32,
    reason: Reason,
) -> Result<Answer, RunFailure>
    ensures ok { IfOk result (λ a. Says a Status.Refused (refused_line file.now offset reason ∷ [])) }
    ensures memory { IfErr result (λ e. e ≡ OutOfMemory) }
{
    let text = refused_line(alloc, file, offset, reason)?;
    Ok(Answer {
        status: Status::Refused,
        text,
    })
}

/// A file of this name is not there.
pub(crate) fn miss(alloc: Global, name: &[u8]) -> Result<Answer, RunFailure>
    ensures ok { IfOk result (λ a. Says a Status.Usage (missing_line name.now ∷ [])) }
    ensures memory { IfErr result (λ e. e ≡ OutOfMemory) }
{
    let text = missing_line(alloc, name)?;
    Ok(Answer {
        status: Status::Usage,
        text,
    })
}

/// The words ask for nothing.
pub(crate) fn misuse(alloc: Global, fault: UsageFault) -> Result<Answer, RunFailure>
    ensures ok { IfOk result (λ a. Says a Status.Usage (usage_line fault ∷ [])) }
    ensures memory { IfErr result (λ e. e ≡ OutOfMemory) }
{
    let text = usage_line(alloc, fault)?;
    Ok(Answer {
        status: Status::Usage,
        text,
    })
}
