//! Answers one after the other, of which those that are equal are printed as one line.

use anyhow::Result;
use std::alloc::AllocError;

/// Equal answers: what the first and the last of them stand for, and the answer.
#[derive(Drop)]
struct Run {
    first: String,
    last: String,
    answer: String,
}

impl Run {
    /// The answer of what a label stands for, and of nothing else.
    fn new(label: String, answer: String) -> Result<Run, AllocError> {
        Ok(Run {
            first: label.clone()?,
            last: label,
            answer,
        })
    }

    /// Prints the answer, behind what it stands for.
    fn print<R: Print>(&self, rt: &R) -> Result<()> {
        let first = self.first.as_str();
        let last = self.last.as_str();
        let answer = self.answer.as_str();
        if first == last {
            println!(rt; "  {first}: {answer}")?;
        } else {
            println!(rt; "  {first} to {last}: {answer}")?;
        }
        Ok(())
    }
}

/// The last equal answers, which are not printed yet.
#[derive(Drop)]
pub struct Sweep {
    run: Option<Run>,
}

impl Sweep {
    /// No answers.
    pub fn new() -> Sweep {
        Sweep { run: None }
    }

    /// Adds the answer of what a label stands for; where it differs from the last ones, those are printed.
    pub fn add<R: Print>(&mut self, rt: &R, label: String, answer: String) -> Result<()> {
        if let Some(run) = &mut self.run {
            if run.answer.as_str() == answer.as_str() {
                run.last = label;
                return Ok(());
            }
        }
        self.print(rt)?;
        self.run = Some(Run::new(label, answer)?);
        Ok(())
    }

    /// Prints the last equal answers.
    pub fn print<R: Print>(&self, rt: &R) -> Result<()> {
        if let Some(run) = &self.run {
            run.print(rt)?;
        }
        Ok(())
    }
}
