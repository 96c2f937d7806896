//! The run: the checks in their order, and then the writing of the lines.

ghost use Rattle.std.specs.Prelude.{◌≡◌, ◌≢◌, ℕ, ◌≤◌, List, [], map, string_bytes, IfSome};
ghost use Rattle.ts_outside.specs.Counts.{Rose};
ghost use Rattle.run_soundness.specs.Truth.{SaysSafe};
ghost use Rattle.run_spec.specs.Inputs.{AsksForSample, HaveDifferentNames};
ghost use Rattle.run_spec.specs.WholeInputs.{HasLargeCertificate, IsWholeInput};
ghost use Rattle.run_soundness.specs.Claims.{IsTrueOfRun, KeepsProtocol, WroteLine};
ghost use Rattle.run_soundness.specs.Reports.{IsReportedOfRun};
ghost use Rattle.typestate_core.specs.Answers.{AnswersRun, HandsRun, IsReportOrFault};
ghost use Rattle.typestate_core.specs.ReadingOrder.{AsksInOrder, IsMisused, IsUsageEnd, LeavesTree, RunCalls, is_report};

use crate::answer::{Answer, ReadFault};
use crate::files::judge;
use crate::output::write_lines;
use failure::Failure;
use run_soundness::run_laws::{
    safe_runs_keep_the_protocol, written_safe_lines_are_reported, written_safe_lines_are_true,
};
use run_spec::{Status, whole_input_is_reported};
use std::alloc::Global;
use ts_outside::{Sink, Tree};

/// Runs the verifier on these words, over a tree of files, and writes what it says to the sink. All
/// reading and all analysis come before the first write. Each line is handed to the sink as a piece of its own;
/// where the sink takes a part of a piece, what is left of the line is the next one. No call comes after one that failed.
/// `ReadFault` and `WriteFault` come only where the tree or the sink counted a fault in this run, and each fault that it counted is answered so.
///
/// What is answered of each input, and which lines are written, is `Outcome`: its last case is the report, with a line for each tracked site. A site is
/// `safe 1` there exactly where no word over the events that may occur at its objects leads to the error state, by the least sets of the points-to
/// analysis. Where the words ask for a certificate, its lines stand in place of the report, with the status that the report has: it claims just the sites
/// that are safe, each at its stage, and lists the least sets with the path edges of the claims. Of an input in which nothing is missing and nothing is refused
/// there is a report, or the certificate if this is not too large, but for faults of reading or writing and for want of memory.
///
/// Where the words ask for nothing, or for a sample, the tree is as it was, whatever it holds: the run on a sample reads the files of the sample in place of it,
/// and writes the summary alone. Else it is asked for the property file, then for the stub file if the words name
/// one, then for the listing, and then for each class file in the order of the names; and for nothing more once something is not given or is refused.
///
/// Where the tree tells its files, a line `safe ..` that the sink took in this run is true of the executions of the bytecode of the program that words and
/// files give: in no state of any of them, of any length, is an object of that site in the error state. The site is one that the report is about. Where the
/// status is `AllSafe`, and no sample is asked for, the same holds of each site at which the program, or a stub, makes objects of the property's class or of one below it.
pub fn run<T: Tree, S: Sink>(alloc: Global, words: &[String], tree: &mut T, out: &mut S) -> Status
    ensures told { IfSome (T.files tree.old) (λ files. AnswersRun (map string_bytes words.now) files result (S.taken out.old) (S.taken out.new)) }
    ensures sampled { AsksForSample (map string_bytes words.now) → AnswersRun (map string_bytes words.now) [] result (S.taken out.old) (S.taken out.new) }
    ensures pieces { IfSome (T.files tree.old) (λ files. HandsRun (map string_bytes words.now) files result (S.handed out.old) (S.handed out.new)) }
    ensures complete { IfSome (T.files tree.old) (λ files. HaveDifferentNames files → IsWholeInput (map string_bytes words.now) files → (HasLargeCertificate (map string_bytes words.now) files → ⊥) → IsReportOrFault result) }
    ensures sound { IfSome (T.files tree.old) (λ files. (line : List ℕ) → WroteLine (S.taken out.old) (S.taken out.new) line → SaysSafe line → IsTrueOfRun (map string_bytes words.now) files line) }
    ensures about { IfSome (T.files tree.old) (λ files. (line : List ℕ) → WroteLine (S.taken out.old) (S.taken out.new) line → SaysSafe line → IsReportedOfRun (map string_bytes words.now) files line) }
    ensures all_safe { IfSome (T.files tree.old) (λ files. result ≡ Status.AllSafe → (AsksForSample (map string_bytes words.now) → ⊥) → KeepsProtocol (map string_bytes words.now) files) }
    ensures read_fault { result ≡ Status.ReadFault → Rose (T.faults tree.old) (T.faults tree.new) }
    ensures write_fault { result ≡ Status.WriteFault → Rose (S.faults out.old) (S.faults out.new) }
    ensures no_read_fault { result ≢ Status.ReadFault → T.faults tree.new ≡ T.faults tree.old }
    ensures no_write_fault { result ≢ Status.WriteFault → S.faults out.new ≡ S.faults out.old }
    ensures silent { result ≡ Status.ReadFault → out.new ≡ out.old }
    ensures silent_without_memory { result ≡ Status.Memory → out.new ≡ out.old }
    ensures calls { AsksInOrder (T.called tree.old) (T.called tree.new) (RunCalls (map string_bytes words.now) (T.files tree.old) (is_report result)) }
    ensures unread { LeavesTree (map string_bytes words.now) → tree.new ≡ tree.old }
    ensures misused { IsMisused (map string_bytes words.now) → IsUsageEnd result }
    ensures no_certificate { result ≢ Status.RejectedCertificate }
    ensures same_files { T.files tree.new ≡ T.files tree.old }
    ensures tree_never_falls { T.faults tree.old ≤ T.faults tree.new }
    ensures sink_never_falls { S.faults out.old ≤ S.faults out.new }
{
    whole_input_is_reported();
    written_safe_lines_are_true();
    written_safe_lines_are_reported();
    safe_runs_keep_the_protocol();
    judge_and_write(alloc, words, tree, out)
}

/// Judges the words, and then writes the lines of the answer.
fn judge_and_write<T: Tree, S: Sink>(
    alloc: Global,
    words: &[String],
    tree: &mut T,
    out: &mut S,
) -> Status
    ensures told { IfSome (T.files tree.old) (λ files. AnswersRun (map string_bytes words.now) files result (S.taken out.old) (S.taken out.new)) }
    ensures sampled { AsksForSample (map string_bytes words.now) → AnswersRun (map string_bytes words.now) [] result (S.taken out.old) (S.taken out.new) }
    ensures pieces { IfSome (T.files tree.old) (λ files. HandsRun (map string_bytes words.now) files result (S.handed out.old) (S.handed out.new)) }
    ensures read_fault { result ≡ Status.ReadFault → Rose (T.faults tree.old) (T.faults tree.new) }
    ensures write_fault { result ≡ Status.WriteFault → Rose (S.faults out.old) (S.faults out.new) }
    ensures no_read_fault { result ≢ Status.ReadFault → T.faults tree.new ≡ T.faults tree.old }
    ensures no_write_fault { result ≢ Status.WriteFault → S.faults out.new ≡ S.faults out.old }
    ensures silent { result ≡ Status.ReadFault → out.new ≡ out.old }
    ensures silent_without_memory { result ≡ Status.Memory → out.new ≡ out.old }
    ensures calls { AsksInOrder (T.called tree.old) (T.called tree.new) (RunCalls (map string_bytes words.now) (T.files tree.old) (is_report result)) }
    ensures unread { LeavesTree (map string_bytes words.now) → tree.new ≡ tree.old }
    ensures misused { IsMisused (map string_bytes words.now) → IsUsageEnd result }
    ensures no_certificate { result ≢ Status.RejectedCertificate }
    ensures same_files { T.files tree.new ≡ T.files tree.old }
    ensures tree_never_falls { T.faults tree.old ≤ T.faults tree.new }
    ensures sink_never_falls { S.faults out.old ≤ S.faults out.new }
{
    match judge(alloc, words, tree) {
        Ok(Answer { status, text }) => match write_lines(out, &text) {
            Ok(()) => status,
            Err(_) => Status::WriteFault,
        },
        Err(Failure::Cause(ReadFault)) => Status::ReadFault,
        Err(Failure::OutOfMemory) => Status::Memory,
    }
}
