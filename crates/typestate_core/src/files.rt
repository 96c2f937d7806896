//! From words and a tree of files to what they give: the request, the property, the stubs and the class files.

ghost use Rattle.std.specs.Prelude.{◌≡◌, ◌≢◌, ◌≤◌, [], All, map, string_bytes, IfOk, IfSome, IsErrOf};
ghost use Rattle.failure.specs.declared.Failure.TheVariants.{Cause};
ghost use Rattle.jvm_model.specs.Automata.{IsAutomaton};
ghost use Rattle.jvm_model.specs.StubRules.{IsSoundStub};
ghost use Rattle.ts_outside.specs.Counts.{Rose};
ghost use Rattle.command_words.specs.Requests.{wanted_of};
ghost use Rattle.typestate_core.specs.Answers.{IsReported, SaysUsage, lines_of, read_fault, reports};
ghost use Rattle.typestate_core.specs.Numbers.{asked_by};
ghost use Rattle.typestate_core.specs.ReadingOrder.{AsksInOrder, FolderCalls, IsMisused, LeavesTree, PropertyCalls, RunCalls, StubCalls};
ghost use Rattle.report_analysis.specs.Stages.{AreInRange};
ghost use Rattle.run_spec.specs.Inputs.{AsksForSample};
ghost use Rattle.run_spec.specs.Outcomes.{FolderOutcome, Outcome, PropertyOutcome, StubOutcome};

use crate::answer::{Answer, ReadFault, RunFailure, miss, misuse, refuse};
use crate::program::judge_classes;
use crate::sample::judge_sample;
use class_folder::{FolderFault, read_classes};
use command_words::{Mode, Request, read_words};
use failure::Failure;
use jvm_model::{Automaton, Reason, StubClass};
use property_file::{PropertyFault, read_property};
use std::alloc::Global;
use stub_file::{StubFault, read_stubs};
use ts_outside::{Tree, TreeFault};

/// One more than the most bytes of a property file or a stub file.
const DOCUMENT_BYTES: u32 = 1_048_577;

/// Reads the words. Where they ask for a sample, the tree is left as it is.
pub(crate) fn judge<T: Tree>(
    alloc: Global,
    words: &[String],
    tree: &mut T,
) -> Result<Answer, RunFailure>
    ensures told { IfOk result (λ a. IfSome (T.files tree.old) (λ files. Outcome (map string_bytes words.now) files a.status (lines_of a))) }
    ensures sampled { AsksForSample (map string_bytes words.now) → IfOk result (λ a. Outcome (map string_bytes words.now) [] a.status (lines_of a)) }
    ensures reported { IfOk result (λ a. IsReported a.status) }
    ensures read_fault { IsErrOf result (Cause read_fault) → Rose (T.faults tree.old) (T.faults tree.new) }
    ensures no_fault { result ≢ Err (Cause read_fault) → T.faults tree.new ≡ T.faults tree.old }
    ensures same_files { T.files tree.new ≡ T.files tree.old }
    ensures never_falls { T.faults tree.old ≤ T.faults tree.new }
    ensures calls { AsksInOrder (T.called tree.old) (T.called tree.new) (RunCalls (map string_bytes words.now) (T.files tree.old) (reports result)) }
    ensures unread { LeavesTree (map string_bytes words.now) → tree.new ≡ tree.old }
    ensures misused { IsMisused (map string_bytes words.now) → SaysUsage result }
{
    match read_words(alloc, words) {
        Ok(request) => match request.mode {
            Mode::Report | Mode::Trace | Mode::Certificate => judge_request(alloc, &request, tree),
            Mode::Sample(count) => judge_sample(alloc, &request, count),
        },
        Err(Failure::Cause(fault)) => misuse(alloc, fault),
        Err(Failure::OutOfMemory) => Err(Failure::OutOfMemory),
    }
}

/// Reads the property file.
pub(crate) fn judge_request<T: Tree>(
    alloc: Global,
    request: &Request<'_>,
    tree: &mut T,
) -> Result<Answer, RunFailure>
    requires numbers { AreInRange (asked_by (wanted_of request.now)) }
    ensures told { IfOk result (λ a. IfSome (T.files tree.old) (λ files. PropertyOutcome files (wanted_of request.now) a.status (lines_of a))) }
    ensures reported { IfOk result (λ a. IsReported a.status) }
    ensures read_fault { IsErrOf result (Cause read_fault) → Rose (T.faults tree.old) (T.faults tree.new) }
    ensures no_fault { result ≢ Err (Cause read_fault) → T.faults tree.new ≡ T.faults tree.old }
    ensures same_files { T.files tree.new ≡ T.files tree.old }
    ensures never_falls { T.faults tree.old ≤ T.faults tree.new }
    ensures calls { AsksInOrder (T.called tree.old) (T.called tree.new) (PropertyCalls (T.files tree.old) (wanted_of request.now) (reports result)) }
{
    let bytes = match tree.read(alloc, request.property, DOCUMENT_BYTES) {
        Ok(bytes) => bytes,
        Err(Failure::Cause(TreeFault::Missing)) => return miss(alloc, request.property.as_bytes()),
        Err(Failure::Cause(TreeFault::Failed)) => return Err(Failure::Cause(ReadFault)),
        Err(Failure::OutOfMemory) => return Err(Failure::OutOfMemory),
    };
    let file = request.property.as_bytes();
    match read_property(alloc, &bytes) {
        Ok(automaton) => judge_property(alloc, request, &automaton, tree),
        Err(Failure::Cause(PropertyFault::BadToml)) => refuse(alloc, file, 0, Reason::BadToml),
        Err(Failure::Cause(PropertyFault::BadProperty(_))) => refuse(
            alloc,
            file,
            0,
            Reason::BadProperty,
        ),
        Err(Failure::OutOfMemory) => Err(Failure::OutOfMemory),
    }
}

/// Reads the stub file, if the words name one.
fn judge_property<T: Tree>(
    alloc: Global,
    request: &Request<'_>,
    automaton: &Automaton,
    tree: &mut T,
) -> Result<Answer, RunFailure>
    requires numbers { AreInRange (asked_by (wanted_of request.now)) }
    requires automaton { IsAutomaton automaton.now }
    ensures told { IfOk result (λ a. IfSome (T.files tree.old) (λ files. StubOutcome files (wanted_of request.now) automaton.now a.status (lines_of a))) }
    ensures reported { IfOk result (λ a. IsReported a.status) }
    ensures read_fault { IsErrOf result (Cause read_fault) → Rose (T.faults tree.old) (T.faults tree.new) }
    ensures no_fault { result ≢ Err (Cause read_fault) → T.faults tree.new ≡ T.faults tree.old }
    ensures same_files { T.files tree.new ≡ T.files tree.old }
    ensures never_falls { T.faults tree.old ≤ T.faults tree.new }
    ensures calls { AsksInOrder (T.called tree.old) (T.called tree.new) (StubCalls (T.files tree.old) (wanted_of request.now) (reports result)) }
{
    let Some(name) = request.stubs else {
        return judge_stubs(alloc, request, automaton, Vec::new(alloc), tree);
    };
    let bytes = match tree.read(alloc, name, DOCUMENT_BYTES) {
        Ok(bytes) => bytes,
        Err(Failure::Cause(TreeFault::Missing)) => return miss(alloc, name.as_bytes()),
        Err(Failure::Cause(TreeFault::Failed)) => return Err(Failure::Cause(ReadFault)),
        Err(Failure::OutOfMemory) => return Err(Failure::OutOfMemory),
    };
    match read_stubs(alloc, name, &bytes) {
        Ok(stubs) => judge_stubs(alloc, request, automaton, stubs, tree),
        Err(Failure::Cause(StubFault::BadToml)) => refuse(
            alloc,
            name.as_bytes(),
            0,
            Reason::BadToml,
        ),
        Err(Failure::Cause(StubFault::BadStub(_))) => refuse(
            alloc,
            name.as_bytes(),
            0,
            Reason::BadStub,
        ),
        Err(Failure::OutOfMemory) => Err(Failure::OutOfMemory),
    }
}

/// Reads the class files.
fn judge_stubs<T: Tree>(
    alloc: Global,
    request: &Request<'_>,
    automaton: &Automaton,
    stubs: Vec<StubClass>,
    tree: &mut T,
) -> Result<Answer, RunFailure>
    requires numbers { AreInRange (asked_by (wanted_of request.now)) }
    requires automaton { IsAutomaton automaton.now }
    requires stubs { All IsSoundStub stubs.items }
    ensures told { IfOk result (λ a. IfSome (T.files tree.old) (λ files. FolderOutcome files (wanted_of request.now) automaton.now stubs.items a.status (lines_of a))) }
    ensures reported { IfOk result (λ a. IsReported a.status) }
    ensures read_fault { IsErrOf result (Cause read_fault) → Rose (T.faults tree.old) (T.faults tree.new) }
    ensures no_fault { result ≢ Err (Cause read_fault) → T.faults tree.new ≡ T.faults tree.old }
    ensures same_files { T.files tree.new ≡ T.files tree.old }
    ensures never_falls { T.faults tree.old ≤ T.faults tree.new }
    ensures calls { AsksInOrder (T.called tree.old) (T.called tree.new) (FolderCalls (T.files tree.old) (reports result)) }
{
    match read_classes(alloc, tree) {
        Ok(classes) => judge_classes(alloc, request, automaton, stubs, classes),
        Err(Failure::Cause(FolderFault::Refused(r))) => refuse(
            alloc,
            r.file.as_str().as_bytes(),
            r.offset,
            r.reason,
        ),
        Err(Failure::Cause(FolderFault::Missing(name))) => miss(alloc, name.as_str().as_bytes()),
        Err(Failure::Cause(FolderFault::Unreadable)) => Err(Failure::Cause(ReadFault)),
        Err(Failure::OutOfMemory) => Err(Failure::OutOfMemory),
    }
}
