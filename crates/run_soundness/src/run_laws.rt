//! The laws of runs: they call but other laws, and stand on the definitions alone.

ghost use Rattle.std.specs.Prelude.{◌≡◌, ◌⊎◌, ℕ, All, List};
ghost use Rattle.std.specs.List.{flat_map};
ghost use Rattle.ts_outside.specs.Files.{File};
ghost use Rattle.machine_bytecode.specs.Objects.{Subject};
ghost use Rattle.run_soundness.specs.Truth.{IsTrueLine, SaysSafe};
ghost use Rattle.run_spec.specs.RunSubjects.{IsRunOf};
ghost use Rattle.run_spec.specs.declared.status.Status.{Status as RunStatus};
ghost use Rattle.run_spec.specs.declared.status.Status.TheVariants.{AllSafe, SomeUnproved};
ghost use Rattle.run_spec.specs.Inputs.{AsksForSample};
ghost use Rattle.run_spec.specs.Outcomes.{Outcome};
ghost use Rattle.run_soundness.specs.Claims.{IsTrueOfRun, KeepsProtocol, StandsIn};
ghost use Rattle.run_soundness.specs.Reports.{IsReportedOfRun};

use stage_soundness::laws::safe_stages_never_err;

/// Of a run that reports, and not on a sample, each line that says that a site is safe is true: no execution of the bytecode of the program that its words and files give,
/// of any length, has a state in which an object of the site is in the error state.
pub fn safe_lines_of_runs_are_true()
    ensures { (words : List (List ℕ)) (files : List File) (status : RunStatus) (lines : List (List ℕ)) → Outcome words files status lines
        → (status ≡ AllSafe) ⊎ (status ≡ SomeUnproved) → (AsksForSample words → ⊥)
        → (x : Subject) × IsRunOf words files x × All (λ (line : List ℕ). SaysSafe line → IsTrueLine x line) lines }
{
    safe_stages_never_err();
}

/// So is each line of the text of a run's lines that says it, whatever the run's status: a line is what stands at the start of the text or after a newline,
/// and ends with the next newline.
pub fn written_safe_lines_are_true()
    ensures { (words : List (List ℕ)) (files : List File) (status : RunStatus) (lines : List (List ℕ)) → Outcome words files status lines
        → (line : List ℕ) → StandsIn (flat_map (λ (l : List ℕ). l) lines) line → SaysSafe line → IsTrueOfRun words files line }
{
    safe_stages_never_err();
}

/// And each such line is of a site that the report is about.
pub fn written_safe_lines_are_reported()
    ensures { (words : List (List ℕ)) (files : List File) (status : RunStatus) (lines : List (List ℕ)) → Outcome words files status lines
        → (line : List ℕ) → StandsIn (flat_map (λ (l : List ℕ). l) lines) line → SaysSafe line → IsReportedOfRun words files line }
{
    safe_stages_never_err();
}

/// Where the status says that all sites are safe, and the run is not on a sample, no site ever errs at which the program, or a stub, makes objects of the property's class or of one below it.
pub fn safe_runs_keep_the_protocol()
    ensures { (words : List (List ℕ)) (files : List File) (lines : List (List ℕ)) → Outcome words files AllSafe lines → (AsksForSample words → ⊥)
        → KeepsProtocol words files }
{
    safe_stages_never_err();
}
