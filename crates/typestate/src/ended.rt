//! How the program ends: only a run of the verifier gives an end with a report, and each end has its exit code.

ghost use Rattle.std.specs.Prelude.{◌≡◌, ◌≢◌, ℕ, ◌≤◌, List, [], map, string_bytes, IfSome};
ghost use Rattle.ts_outside.specs.Counts.{Rose};
ghost use Rattle.run_soundness.specs.Truth.{SaysSafe};
ghost use Rattle.run_spec.specs.Inputs.{AsksForSample, HaveDifferentNames};
ghost use Rattle.run_spec.specs.WholeInputs.{HasLargeCertificate, IsWholeInput};
ghost use Rattle.run_soundness.specs.Claims.{IsTrueOfRun, KeepsProtocol, WroteLine};
ghost use Rattle.run_soundness.specs.Reports.{IsReportedOfRun};
ghost use Rattle.typestate_core.specs.Answers.{AnswersRun, HandsRun, IsReportOrFault};
ghost use Rattle.typestate_core.specs.ReadingOrder.{AsksInOrder, IsMisused, IsUsageEnd, LeavesTree, RunCalls, is_report};
ghost use Rattle.run_spec.specs.Statuses.{code_of};

use std::alloc::Global;
use ts_outside::{Sink, Tree};
use typestate_core::{Status, run};

/// How the program ends. There are two ways to make one: a run, and want of memory before it.
#[derive(Drop)]
pub(crate) struct Ended {
    status: Status,
}

impl Ended {
    /// The end that a run of the verifier comes to, with all that the run promises.
    pub(crate) fn of_run<T: Tree, S: Sink>(
        alloc: Global,
        words: &[String],
        tree: &mut T,
        out: &mut S,
    ) -> Ended
        ensures told { IfSome (T.files tree.old) (λ files. AnswersRun (map string_bytes words.now) files result.status (S.taken out.old) (S.taken out.new)) }
        ensures sampled { AsksForSample (map string_bytes words.now) → AnswersRun (map string_bytes words.now) [] result.status (S.taken out.old) (S.taken out.new) }
        ensures pieces { IfSome (T.files tree.old) (λ files. HandsRun (map string_bytes words.now) files result.status (S.handed out.old) (S.handed out.new)) }
        ensures complete { IfSome (T.files tree.old) (λ files. HaveDifferentNames files → IsWholeInput (map string_bytes words.now) files → (HasLargeCertificate (map string_bytes words.now) files → ⊥) → IsReportOrFault result.status) }
        ensures sound { IfSome (T.files tree.old) (λ files. (line : List ℕ) → WroteLine (S.taken out.old) (S.taken out.new) line → SaysSafe line → IsTrueOfRun (map string_bytes words.now) files line) }
        ensures about { IfSome (T.files tree.old) (λ files. (line : List ℕ) → WroteLine (S.taken out.old) (S.taken out.new) line → SaysSafe line → IsReportedOfRun (map string_bytes words.now) files line) }
        ensures all_safe { IfSome (T.files tree.old) (λ files. result.status ≡ Status.AllSafe → (AsksForSample (map string_bytes words.now) → ⊥) → KeepsProtocol (map string_bytes words.now) files) }
        ensures read_fault { result.status ≡ Status.ReadFault → Rose (T.faults tree.old) (T.faults tree.new) }
        ensures write_fault { result.status ≡ Status.WriteFault → Rose (S.faults out.old) (S.faults out.new) }
        ensures no_read_fault { result.status ≢ Status.ReadFault → T.faults tree.new ≡ T.faults tree.old }
        ensures no_write_fault { result.status ≢ Status.WriteFault → S.faults out.new ≡ S.faults out.old }
        ensures silent { result.status ≡ Status.ReadFault → out.new ≡ out.old }
        ensures silent_without_memory { result.status ≡ Status.Memory → out.new ≡ out.old }
        ensures calls { AsksInOrder (T.called tree.old) (T.called tree.new) (RunCalls (map string_bytes words.now) (T.files tree.old) (is_report result.status)) }
        ensures unread { LeavesTree (map string_bytes words.now) → tree.new ≡ tree.old }
        ensures misused { IsMisused (map string_bytes words.now) → IsUsageEnd result.status }
        ensures no_certificate { result.status ≢ Status.RejectedCertificate }
        ensures same_files { T.files tree.new ≡ T.files tree.old }
        ensures tree_never_falls { T.faults tree.old ≤ T.faults tree.new }
        ensures sink_never_falls { S.faults out.old ≤ S.faults out.new }
    {
        let status = run(alloc, words, tree, out);
        Ended { status }
    }

    /// The end where memory ran out before the run.
    pub(crate) fn without_memory() -> Ended
        ensures { result.status ≡ Status.Memory }
    {
        Ended {
            status: Status::Memory,
        }
    }

    /// The status of the end.
    pub(crate) fn status(&self) -> Status
        ensures { result ≡ self.now.status }
    {
        self.status
    }

    /// The number that the program ends with: that of the status.
    pub(crate) fn exit_code(&self) -> u8
        ensures { result ≡ code_of self.now.status }
    {
        self.status.code()
    }
}
