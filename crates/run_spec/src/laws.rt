//! The laws of the outcome that the contracts of a run name. Each law calls nothing, and stands on the definitions alone.

ghost use Rattle.std.specs.Prelude.{codes, ◌≡◌, ◌⊎◌, ℕ, List};
ghost use Rattle.command_words.specs.Command.{HasFlag};
ghost use Rattle.ts_outside.specs.Files.{File};
ghost use Rattle.run_spec.specs.declared.status.Status.{Status as RunStatus};
ghost use Rattle.run_spec.specs.declared.status.Status.TheVariants.{AllSafe, SomeUnproved};
ghost use Rattle.run_spec.specs.Inputs.{HaveDifferentNames};
ghost use Rattle.run_spec.specs.Outcomes.{Outcome};
ghost use Rattle.run_spec.specs.RunSubjects.{IsRunOf};
ghost use Rattle.run_spec.specs.WholeInputs.{HasLargeCertificate, IsWholeInput};
ghost use Rattle.jvm_model.specs.LinkedPrograms.{IsProgram};
ghost use Rattle.machine_bytecode.specs.Objects.{Subject};

/// A run of the same words over the same files, whose names differ, has one status.
pub fn one_status()
    ensures { (words : List (List ℕ)) (files : List File) (s t : RunStatus) (l m : List (List ℕ)) → HaveDifferentNames files
        → Outcome words files s l → Outcome words files t m → s ≡ t }
{}

/// And where it is not asked to tell why sites are unproved, it writes the same lines.
pub fn one_report()
    ensures { (words : List (List ℕ)) (files : List File) (s t : RunStatus) (l m : List (List ℕ)) → HaveDifferentNames files → (HasFlag words (codes "trace") → ⊥)
        → Outcome words files s l → Outcome words files t m → l ≡ m }
{}

/// Of an input in which nothing is missing and nothing is refused, and whose sets stay below the limit, the outcome is a report, or the certificate
/// where that is asked for and is not too large.
pub fn whole_input_is_reported()
    ensures { (words : List (List ℕ)) (files : List File) (s : RunStatus) (l : List (List ℕ)) → HaveDifferentNames files → IsWholeInput words files
        → (HasLargeCertificate words files → ⊥)
        → Outcome words files s l
        → (s ≡ AllSafe) ⊎ (s ≡ SomeUnproved) }
{}

/// What a run is of is one program, one property and one entry: words and files with different names give no two.
pub fn one_run()
    ensures { (words : List (List ℕ)) (files : List File) (x y : Subject) → HaveDifferentNames files → IsProgram x.program
        → IsRunOf words files x → IsRunOf words files y → x ≡ y }
{}
