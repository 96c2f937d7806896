//! What is told of an analysis: its report, or its certificate.

ghost use Rattle.std.specs.Prelude.{◌≡◌, ℕ, Bool, true, Contains, IfOk, IfErr};
ghost use Rattle.failure.specs.declared.Failure.TheVariants.{OutOfMemory};
ghost use Rattle.jvm_model.specs.Automata.{IsAutomaton};
ghost use Rattle.program_model.specs.Numbers.{IsClassNumber, IsMethodNumber, name_at};
ghost use Rattle.command_words.specs.declared.request.Mode.{Mode as RuleMode};
ghost use Rattle.command_words.specs.Requests.{is_certificate, is_trace};
ghost use Rattle.lowering_supply.specs.Supplied.{IsSupplied};
ghost use Rattle.report_analysis.specs.Analyses.{IsAnalysis};
ghost use Rattle.report_analysis.specs.Stages.{AreInRange, asked_of, subject_of};
ghost use Rattle.report_spec.specs.Traces.{IsTracedReport};
ghost use Rattle.run_spec.specs.Outcomes.{ToldOutcome, report_status};
ghost use Rattle.typestate_core.specs.Answers.{IsReported, lines_of};

use crate::answer::{Answer, RunFailure, refuse};
use certificate_printing::{Certified, certificate_of};
use certificates::{CertificateFault, write_certificate};
use command_words::Mode;
use failure::Failure;
use ground::Ground;
use jvm_model::{Automaton, ClassNo, Reason};
use report_analysis::{Report, ReportStages, report_of};
use run_spec::Status;
use std::alloc::Global;

/// Tells of a program that is analysed what the mode asks for: the report by the stages that are asked for, or the certificate.
pub(crate) fn tell(
    alloc: Global,
    mode: Mode,
    automaton: &Automaton,
    ground: &Ground<'_>,
    class: ClassNo,
    asked: ReportStages,
) -> Result<Answer, RunFailure>
    requires automaton { IsAutomaton automaton.now }
    requires class { IsClassNumber ground.now.program class.0 }
    requires named { name_at ground.now.program class.0 ≡ automaton.now.class_name }
    requires asked { AreInRange (asked_of asked) }
    requires trace { asked.trace ≡ is_trace mode }
    requires entry { IsMethodNumber ground.now.program asked.entry.0 }
    requires analysis { (limit : ℕ) × IsAnalysis ground.now.program (IsSupplied ground.now.program) asked.entry limit ground.now }
    ensures told { IfOk result (λ a. ToldOutcome (subject_of ground.now.program automaton.now asked) ground.now.facts (asked_of asked) mode a.status (lines_of a)) }
    ensures reported { IfOk result (λ a. IsReported a.status) }
    ensures memory { IfErr result (λ e. e ≡ OutOfMemory) }
{
    if is_certificate(mode) {
        certify(alloc, automaton, ground, class, asked)
    } else {
        report_on(alloc, automaton, ground, class, asked)
    }
}

/// Whether a certificate is to be told.
fn is_certificate(mode: Mode) -> bool
    ensures { result ≡ is_certificate mode }
{
    match mode {
        Mode::Certificate => true,
        Mode::Report | Mode::Trace | Mode::Sample(_) => false,
    }
}

/// Reports on the tracked sites of a program that is analysed.
fn report_on(
    alloc: Global,
    automaton: &Automaton,
    ground: &Ground<'_>,
    class: ClassNo,
    asked: ReportStages,
) -> Result<Answer, RunFailure>
    requires automaton { IsAutomaton automaton.now }
    requires class { IsClassNumber ground.now.program class.0 }
    requires named { name_at ground.now.program class.0 ≡ automaton.now.class_name }
    requires asked { AreInRange (asked_of asked) }
    requires entry { IsMethodNumber ground.now.program asked.entry.0 }
    requires analysis { (limit : ℕ) × IsAnalysis ground.now.program (IsSupplied ground.now.program) asked.entry limit ground.now }
    ensures told { IfOk result (λ a. (all_safe : Bool) × IsTracedReport (subject_of ground.now.program automaton.now asked) (IsSupplied ground.now.program)
        (Contains ground.now.facts) (asked_of asked) asked.trace (lines_of a) all_safe × (a.status ≡ report_status all_safe)) }
    ensures reported { IfOk result (λ a. IsReported a.status) }
    ensures memory { IfErr result (λ e. e ≡ OutOfMemory) }
{
    let Report { text, all_safe } = report_of(alloc, ground, automaton, class, asked)?;
    Ok(Answer {
        status: report_status(all_safe),
        text,
    })
}

/// Writes the certificate of a program that is analysed. It is refused where its text is over the limit.
fn certify(
    alloc: Global,
    automaton: &Automaton,
    ground: &Ground<'_>,
    class: ClassNo,
    asked: ReportStages,
) -> Result<Answer, RunFailure>
    requires automaton { IsAutomaton automaton.now }
    requires class { IsClassNumber ground.now.program class.0 }
    requires named { name_at ground.now.program class.0 ≡ automaton.now.class_name }
    requires asked { AreInRange (asked_of asked) }
    requires entry { IsMethodNumber ground.now.program asked.entry.0 }
    requires analysis { (limit : ℕ) × IsAnalysis ground.now.program (IsSupplied ground.now.program) asked.entry limit ground.now }
    ensures told { IfOk result (λ a. (mode : RuleMode) → is_certificate mode ≡ true
        → ToldOutcome (subject_of ground.now.program automaton.now asked) ground.now.facts (asked_of asked) mode a.status (lines_of a)) }
    ensures reported { IfOk result (λ a. IsReported a.status) }
    ensures memory { IfErr result (λ e. e ≡ OutOfMemory) }
{
    let Certified { lines, all_safe } = certificate_of(alloc, ground, automaton, class, asked)?;
    match write_certificate(alloc, lines.as_slice()) {
        Ok(text) => Ok(Answer {
            status: report_status(all_safe),
            text,
        }),
        Err(Failure::Cause(CertificateFault::TooLarge)) => refuse(
            alloc,
            b"-",
            0,
            Reason::CertificateTooLarge,
        ),
        Err(Failure::OutOfMemory) => Err(Failure::OutOfMemory),
    }
}

/// The status where each tracked site is safe, and where not.
fn report_status(all_safe: bool) -> Status
    ensures value { result ≡ report_status all_safe }
    ensures reported { IsReported result }
{
    if all_safe {
        Status::AllSafe
    } else {
        Status::SomeUnproved
    }
}
