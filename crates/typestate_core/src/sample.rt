//! The run on the sample: its files are made in memory, and of the lines that a run has to say of them the last one is kept.

ghost use Rattle.std.specs.Prelude.{◌≡◌, ◌≤◌, IfOk, IfErr};
ghost use Rattle.failure.specs.declared.Failure.TheVariants.{OutOfMemory};
ghost use Rattle.command_words.specs.Requests.{wanted_of};
ghost use Rattle.report_analysis.specs.Stages.{AreInRange};
ghost use Rattle.run_spec.specs.Lines.{last_of};
ghost use Rattle.typestate_core.specs.Answers.{IsOnSample, IsReported, lines_of};
ghost use Rattle.typestate_core.specs.Numbers.{asked_by};
ghost use Rattle.typestate_core.specs.Output.{lines_in};

use crate::answer::{Answer, RunFailure};
use crate::files::judge_request;
use crate::output::line_end;
use class_maker::{MOST_METHODS, sample};
use command_words::Request;
use std::alloc::Global;

/// Judges the sample with so many methods besides `main`, as a folder that holds its files would be. The last line alone is kept: it is the summary, or
/// says why there is none.
pub(crate) fn judge_sample(
    alloc: Global,
    request: &Request<'_>,
    count: u32,
) -> Result<Answer, RunFailure>
    requires numbers { AreInRange (asked_by (wanted_of request.now)) }
    requires count { count ≤ MOST_METHODS }
    ensures told { IfOk result (λ a. IsOnSample (wanted_of request.now) count a.status (lines_of a)) }
    ensures reported { IfOk result (λ a. IsReported a.status) }
    ensures memory { IfErr result (λ e. e ≡ OutOfMemory) }
{
    let mut files = sample(alloc, count)?;
    let answer = judge_request(alloc, request, &mut files)?;
    let text = Vec::from_slice(alloc, last_line(&answer.text))?;
    Ok(Answer {
        status: answer.status,
        text,
    })
}

/// The last line of a text, or nothing of an empty one.
fn last_line(text: &[u8]) -> &[u8]
    ensures { lines_in result.now ≡ last_of (lines_in text.now) }
{
    let mut rest = text;
    while !rest.is_empty() {
        let (_line, others) = rest.split_at(line_end(rest));
        if others.is_empty() {
            return rest;
        }
        rest = others;
    }
    rest
}
