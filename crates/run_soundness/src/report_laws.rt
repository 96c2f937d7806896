//! Laws of reports: they call but other laws, and stand on the definitions alone.

ghost use Rattle.std.specs.Prelude.{◌≡◌, ◌≤◌, ℕ, Bool, true, All, Contains, List};
ghost use Rattle.jvm_model.specs.declared.site.Site.{Site};
ghost use Rattle.jvm_model.specs.LinkedPrograms.{IsProgram};
ghost use Rattle.machine_bytecode.specs.Executions.{Errs};
ghost use Rattle.machine_bytecode.specs.Objects.{Subject};
ghost use Rattle.lowering_supply.specs.Supplied.{IsSupplied};
ghost use Rattle.points_to_rules.specs.Facts.{Fact};
ghost use Rattle.simulation.specs.Simulation.{HasEntry, HasExceptions};
ghost use Rattle.prune_stage.specs.Pruning.{IsPruned};
ghost use Rattle.site_report.specs.declared.tracked_site.TrackedSite.{TrackedSite};
ghost use Rattle.site_report.specs.Sites.{site_in};
ghost use Rattle.report_spec.specs.AllFacts.{AreAllFacts};
ghost use Rattle.report_spec.specs.Traces.{IsTracedReport};
ghost use Rattle.report_spec.specs.Tracked.{IsTracked};
ghost use Rattle.report_spec.specs.Verdicts.{Asked, SafeBy, with_stages};
ghost use Rattle.run_soundness.specs.Claims.{IsOwnSite};
ghost use Rattle.run_soundness.specs.ClosedFacts.{AreClosedFacts};
ghost use Rattle.run_soundness.specs.Reports.{IsReportOf, IsReportedLine};
ghost use Rattle.run_soundness.specs.Truth.{IsTrueLine, SaysSafe};
ghost use Rattle.stage_soundness.specs.Describing.{IsOwnSite as IsObserved};

use stage_soundness::laws::safe_stages_never_err;

/// The least facts of the points-to analysis of a folder are closed.
pub fn least_facts_are_closed()
    ensures { (x : Subject) (facts : List Fact) → AreAllFacts x.program (IsSupplied x.program) (record { 0 = x.entry }) facts → AreClosedFacts x facts }
{}

/// Where the first stage proves a site safe, by any closed facts of a folder, whoever found them, no execution of the bytecode, of any length, has a state
/// in which an object of the site is in the error state.
pub fn pruned_sites_never_err()
    ensures { (x : Subject) (facts : List Fact) → IsProgram x.program → HasExceptions x.program → HasEntry x → AreClosedFacts x facts
        → (s : Site) → IsPruned (IsSupplied x.program) (Contains facts) x.property s → Errs x s → ⊥ }
{}

/// So it is where any stage proves a site safe that is one of the program's own, and of the property's class or of one below it.
pub fn safe_sites_never_err()
    ensures { (x : Subject) (facts : List Fact) → IsProgram x.program → HasExceptions x.program → HasEntry x → AreClosedFacts x facts
        → (depth limit : ℕ) (s : Site) (stage : ℕ) → IsObserved x s → SafeBy x (IsSupplied x.program) (Contains facts) depth limit s stage → Errs x s → ⊥ }
{
    safe_stages_never_err();
}

/// So each line of a report that says that a site is safe, by whichever stage, is true.
pub fn safe_lines_are_true()
    ensures { (x : Subject) (w : Asked) (trace : Bool) (facts : List Fact) (lines : List (List ℕ)) (all_safe : Bool) → IsProgram x.program → HasExceptions x.program → HasEntry x
        → AreClosedFacts x facts → IsTracedReport x (IsSupplied x.program) (Contains facts) w trace lines all_safe
        → All (λ (line : List ℕ). SaysSafe line → IsTrueLine x line) lines }
{
    safe_stages_never_err();
}

/// By the least facts it is of a site that the report is about.
pub fn safe_lines_are_reported()
    ensures { (x : Subject) (w : Asked) (trace : Bool) (facts : List Fact) (lines : List (List ℕ)) (all_safe : Bool) → IsProgram x.program → HasExceptions x.program → HasEntry x
        → IsReportOf x w trace facts lines all_safe → All (λ (line : List ℕ). SaysSafe line → IsReportedLine x line) lines }
{
    safe_stages_never_err();
}

/// And where a report by closed facts says that all is safe, no site that it is about ever errs,
pub fn safe_reports_are_true()
    ensures { (x : Subject) (w : Asked) (trace : Bool) (facts : List Fact) (lines : List (List ℕ)) (all_safe : Bool) → IsProgram x.program → HasExceptions x.program → HasEntry x
        → AreClosedFacts x facts → IsTracedReport x (IsSupplied x.program) (Contains facts) w trace lines all_safe
        → all_safe ≡ true → (t : TrackedSite) → IsTracked x.program (IsSupplied x.program) (Contains facts) x.property.class_name t → Errs x (site_in x.program t) → ⊥ }
{
    safe_stages_never_err();
}

/// nor any site at which the program or a stub makes objects of the property's class or of one below it.
pub fn safe_reports_keep_the_protocol()
    ensures { (x : Subject) (w : Asked) (trace : Bool) (facts : List Fact) (lines : List (List ℕ)) (all_safe : Bool) → IsProgram x.program → HasExceptions x.program → HasEntry x
        → AreClosedFacts x facts → IsTracedReport x (IsSupplied x.program) (Contains facts) w trace lines all_safe
        → all_safe ≡ true → (t : TrackedSite) → IsOwnSite x t → Errs x (site_in x.program t) → ⊥ }
{
    safe_stages_never_err();
}

/// More stages take nothing back: of two reports on a program by the same facts, the second by more stages, each line of the first that says that a site is
/// safe is a line of the second, which names the same stage; whether derivations are told in either or not.
pub fn more_stages_keep_safe_lines()
    ensures { (x : Subject) (facts : List Fact) (w : Asked) (trace other : Bool) (more : ℕ) (lines others : List (List ℕ)) (all_safe all_of_others : Bool) → w.stages ≤ more
        → IsTracedReport x (IsSupplied x.program) (Contains facts) w trace lines all_safe
        → IsTracedReport x (IsSupplied x.program) (Contains facts) (with_stages w more) other others all_of_others
        → All (λ (line : List ℕ). SaysSafe line → Contains others line) lines }
{}
