//! Laws of verdicts: they call nothing, and stand on the definitions alone.

ghost use Rattle.std.specs.Prelude.{◌≡◌, ◌≤◌, ℕ, Bool, IsTrue};
ghost use Rattle.site_report.specs.declared.verdict.Verdict.{Verdict};
ghost use Rattle.site_report.specs.declared.verdict.Verdict.TheVariants.{Safe};
ghost use Rattle.report_spec.specs.Verdicts.{IsVerdictBy};

/// Where it is known of each stage whether it proves a site safe and whether it comes to its limit there, the site has a verdict, and one alone.
pub fn one_verdict()
    ensures some { (safe at_limit : ℕ → Bool) (stages : ℕ)
        → (v : Verdict) × IsVerdictBy (λ stage. IsTrue (safe stage)) (λ stage. IsTrue (at_limit stage)) stages v }
    ensures one { (safe at_limit : ℕ → Bool) (stages : ℕ) (v u : Verdict) → IsVerdictBy (λ stage. IsTrue (safe stage)) (λ stage. IsTrue (at_limit stage)) stages v
        → IsVerdictBy (λ stage. IsTrue (safe stage)) (λ stage. IsTrue (at_limit stage)) stages u → v ≡ u }
{}

/// More stages take no verdict back that says that a site is safe.
pub fn safe_stays()
    ensures { (safe at_limit : ℕ → Bool) (stages more stage : ℕ) (v : Verdict) → stages ≤ more
        → IsVerdictBy (λ stage. IsTrue (safe stage)) (λ stage. IsTrue (at_limit stage)) stages (Safe stage)
        → IsVerdictBy (λ stage. IsTrue (safe stage)) (λ stage. IsTrue (at_limit stage)) more v → v ≡ Safe stage }
{}
