//! From class files and stubs to what is told: linking, the entry, the property's class, and the analysis.

ghost use Rattle.std.specs.Prelude.{◌≡◌, ◌↔◌, All, IfOk, IfErr, IsTrue};
ghost use Rattle.failure.specs.declared.Failure.TheVariants.{OutOfMemory};
ghost use Rattle.jvm_model.specs.Automata.{IsAutomaton};
ghost use Rattle.jvm_model.specs.declared.program.NamedClass.{NamedClass as RuleNamedClass};
ghost use Rattle.jvm_model.specs.Soundness.{IsChecked};
ghost use Rattle.program_model.specs.Numbers.{IsMethodNumber, IsClassNumber, name_at};
ghost use Rattle.jvm_model.specs.StubRules.{IsSoundStub};
ghost use Rattle.command_words.specs.Requests.{is_trace, wanted_of};
ghost use Rattle.report_analysis.specs.Stages.{AreInRange};
ghost use Rattle.entry_points.specs.Entries.{NamesMethod};
ghost use Rattle.typestate_core.specs.Answers.{IsReported, OfInputs, lines_of};
ghost use Rattle.typestate_core.specs.Ends.{SaysEnd};
ghost use Rattle.typestate_core.specs.Numbers.{asked_by};
ghost use Rattle.run_spec.specs.Outcomes.{AnalysisOutcome, ClassOutcome, EntryOutcome, LinkOutcome};

use crate::answer::{Answer, RunFailure, refuse};
use crate::telling::tell;
use command_words::{Mode, Request};
use entry_points::{find_entry, has_method_named};
use failure::Failure;
use jvm_model::{Automaton, ClassNo, MethodNo, NamedClass, Reason, StubClass};
use points_to_rules::{SolveFailure, SolveFault};
use program_linking::link::link;
use program_model::link_failure::LinkFault;
use program_model::program::Program;
use report_analysis::{ReportStages, analyse};
use std::alloc::Global;
use stub_file::{base_stubs, base_stubs_are_closed};

/// Links the class files with the stubs that are built in and the user's.
pub(crate) fn judge_classes(
    alloc: Global,
    request: &Request<'_>,
    automaton: &Automaton,
    stubs: Vec<StubClass>,
    classes: Vec<NamedClass>,
) -> Result<Answer, RunFailure>
    requires numbers { AreInRange (asked_by (wanted_of request.now)) }
    requires automaton { IsAutomaton automaton.now }
    requires stubs { All IsSoundStub stubs.items }
    requires classes { All (λ (c : RuleNamedClass). IsChecked c.class) classes.items }
    ensures told { IfOk result (λ a. LinkOutcome
        (record { wanted = wanted_of request.now; property = automaton.now; stubs = stubs.items; classes = classes.items }) a.status (lines_of a)) }
    ensures reported { IfOk result (λ a. IsReported a.status) }
    ensures memory { IfErr result (λ e. e ≡ OutOfMemory) }
{
    let named = has_method_named(&classes, request.class, request.method);
    base_stubs_are_closed();
    let mut all = base_stubs(alloc)?;
    let mut stubs = stubs;
    all.append(&mut stubs)?;
    match link(alloc, classes, all) {
        Ok(program) => {
            program.well_formed();
            judge_program(alloc, request, automaton, named, &program)
        }
        Err(Failure::Cause(LinkFault::Refused(r))) => refuse(
            alloc,
            r.file.as_str().as_bytes(),
            r.offset,
            r.reason,
        ),
        Err(Failure::Cause(LinkFault::TooMany)) => Err(Failure::OutOfMemory),
        Err(Failure::OutOfMemory) => Err(Failure::OutOfMemory),
    }
}

/// Finds the entry. `named` says whether the entry's class is there and has a method of the entry's name.
fn judge_program(
    alloc: Global,
    request: &Request<'_>,
    automaton: &Automaton,
    named: bool,
    program: &Program,
) -> Result<Answer, RunFailure>
    requires numbers { AreInRange (asked_by (wanted_of request.now)) }
    requires automaton { IsAutomaton automaton.now }
    ensures told { IfOk result (λ a. OfInputs (wanted_of request.now) automaton.now (λ i.
        IsTrue named ↔ NamesMethod i.classes request.now.class.now request.now.method.now → EntryOutcome i program.now a.status (lines_of a))) }
    ensures reported { IfOk result (λ a. IsReported a.status) }
    ensures memory { IfErr result (λ e. e ≡ OutOfMemory) }
{
    match find_entry(program, request.class, request.method) {
        Some(entry) => judge_entry(alloc, request, automaton, program, entry),
        None if named => refuse(alloc, b"-", 0, Reason::EntryShape),
        None => refuse(alloc, b"-", 0, Reason::NoEntry),
    }
}

/// Finds the property's class.
fn judge_entry(
    alloc: Global,
    request: &Request<'_>,
    automaton: &Automaton,
    program: &Program,
    entry: MethodNo,
) -> Result<Answer, RunFailure>
    requires numbers { AreInRange (asked_by (wanted_of request.now)) }
    requires automaton { IsAutomaton automaton.now }
    requires entry { IsMethodNumber program.now entry.0 }
    ensures told { IfOk result (λ a. OfInputs (wanted_of request.now) automaton.now (λ i. ClassOutcome i program.now entry a.status (lines_of a))) }
    ensures reported { IfOk result (λ a. IsReported a.status) }
    ensures memory { IfErr result (λ e. e ≡ OutOfMemory) }
{
    program.well_formed();
    match program.find(automaton.class_name.as_slice()) {
        Some(class) => judge_analysis(alloc, request, automaton, program, entry, class),
        None => refuse(alloc, request.property.as_bytes(), 0, Reason::MissingClass),
    }
}

/// Analyses the program, and reports on its tracked sites.
fn judge_analysis(
    alloc: Global,
    request: &Request<'_>,
    automaton: &Automaton,
    program: &Program,
    entry: MethodNo,
    class: ClassNo,
) -> Result<Answer, RunFailure>
    requires numbers { AreInRange (asked_by (wanted_of request.now)) }
    requires automaton { IsAutomaton automaton.now }
    requires entry { IsMethodNumber program.now entry.0 }
    requires class { IsClassNumber program.now class.0 }
    requires named { name_at program.now class.0 ≡ automaton.now.class_name }
    ensures told { IfOk result (λ a. OfInputs (wanted_of request.now) automaton.now (λ i. AnalysisOutcome i program.now entry a.status (lines_of a))) }
    ensures reported { IfOk result (λ a. IsReported a.status) }
    ensures memory { IfErr result (λ e. e ≡ OutOfMemory) }
{
    match analyse(alloc, program, entry, u64::from(request.pair_limit)) {
        Ok(ground) => tell(
            alloc,
            request.mode,
            automaton,
            &ground,
            class,
            ReportStages {
                entry,
                stages: request.stages,
                depth: request.depth,
                fact_limit: request.fact_limit,
                trace: is_trace(request.mode),
            },
        ),
        Err(failure) => refuse_end(alloc, &failure),
    }
}

/// Whether derivations are to be told.
fn is_trace(mode: Mode) -> bool
    ensures { result ≡ is_trace mode }
{
    match mode {
        Mode::Trace => true,
        Mode::Report | Mode::Certificate | Mode::Sample(_) => false,
    }
}

/// Why the analysis has no sets.
fn refuse_end(alloc: Global, failure: &SolveFailure) -> Result<Answer, RunFailure>
    ensures ok { IfOk result (λ a. SaysEnd a failure.now) }
    ensures reported { IfOk result (λ a. IsReported a.status) }
    ensures memory { IfErr result (λ e. e ≡ OutOfMemory) }
{
    match failure {
        Failure::Cause(SolveFault::PairLimit(_)) => refuse(alloc, b"-", 0, Reason::PairLimit),
        Failure::Cause(SolveFault::Refused(r)) => refuse(
            alloc,
            r.file.as_str().as_bytes(),
            r.offset,
            r.reason,
        ),
        Failure::Cause(SolveFault::TooMany) => Err(Failure::OutOfMemory),
        Failure::OutOfMemory => Err(Failure::OutOfMemory),
    }
}
