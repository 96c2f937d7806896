//! The laws of the runs that report: they call nothing, and stand on the definitions alone.

ghost use Rattle.std.specs.Prelude.{◌≡◌, ◌⊎◌, ◌≤◌, ℕ, Bool, List, All, Contains};
ghost use Rattle.ts_outside.specs.Files.{File};
ghost use Rattle.jvm_model.specs.LinkedPrograms.{IsProgram};
ghost use Rattle.machine_bytecode.specs.Objects.{Subject};
ghost use Rattle.command_words.specs.Requests.{Wanted, AsksFor, is_trace};
ghost use Rattle.points_to_rules.specs.Facts.{Fact};
ghost use Rattle.run_spec.specs.declared.status.Status.{Status};
ghost use Rattle.run_spec.specs.declared.status.Status.TheVariants.{AllSafe, SomeUnproved};
ghost use Rattle.run_spec.specs.Inputs.{AsksForCertificate, AsksForSample, HaveDifferentNames};
ghost use Rattle.run_spec.specs.Outcomes.{asked_of, report_status, Outcome};
ghost use Rattle.run_spec.specs.RunSubjects.{IsRunOf};
ghost use Rattle.run_spec.specs.WholeInputs.{IsWholeInput};
ghost use Rattle.run_soundness.specs.Reports.{IsReportOf};
ghost use Rattle.run_soundness.specs.Truth.{SaysSafe};
ghost use Rattle.simulation.specs.Simulation.{HasEntry, HasExceptions};

/// A run that ends with the status of a report, not on a sample, and not for a certificate, is of a linked program with the classes of exceptions and the entry, which its words
/// and files give; and what it writes is the report on this program by the stages that its words ask for and by the least facts of its analysis, with the
/// status that the report has.
pub fn reports_are_of_runs()
    ensures { (words : List (List ℕ)) (files : List File) (status : Status) (lines : List (List ℕ)) → Outcome words files status lines
        → (status ≡ AllSafe) ⊎ (status ≡ SomeUnproved) → (AsksForSample words → ⊥) → (AsksForCertificate words → ⊥)
        → (x : Subject) × (run : IsRunOf words files x) × IsProgram x.program × HasExceptions x.program × HasEntry x
        × ((facts : List Fact) × (all_safe : Bool) × IsReportOf x (asked_of run.input) (is_trace run.input.wanted.mode) facts lines all_safe × (status ≡ report_status all_safe)) }
{}

/// So it is of an input in which nothing is missing and nothing is refused, as that of which `complete` says that there is a report.
pub fn reported_inputs_are_whole()
    ensures { (words : List (List ℕ)) (files : List File) (status : Status) (lines : List (List ℕ)) → Outcome words files status lines
        → (status ≡ AllSafe) ⊎ (status ≡ SomeUnproved) → (AsksForSample words → ⊥) → IsWholeInput words files }
{}

/// More stages take nothing back: of two runs over the same files whose words ask for the same but for their last stages, the second for as many stages or
/// more, each line of the first that says that a site is safe is a line of the second, which names the same stage.
pub fn more_stages_keep_safe_lines_of_runs()
    ensures { (words others : List (List ℕ)) (files : List File) (w : Wanted) (more : ℕ) (s t : Status) (l m : List (List ℕ)) → HaveDifferentNames files
        → AsksFor words w → AsksFor others (record w { stages = more }) → w.stages ≤ more → Outcome words files s l → Outcome others files t m
        → All (λ (line : List ℕ). SaysSafe line → Contains m line) l }
{}
