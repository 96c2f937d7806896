//! Laws of the first stage: they call nothing, and hold of each program.

ghost use Rattle.std.specs.Prelude.{Bool, Contains, IsTrue, List};
ghost use Rattle.jvm_model.specs.declared.site.Site.{Site};
ghost use Rattle.jvm_model.specs.LinkedPrograms.{IsProgram};
ghost use Rattle.least_sets.specs.Rules.{IsClosedSet};
ghost use Rattle.op_model.specs.Supplies.{Given};
ghost use Rattle.machine_bytecode.specs.Objects.{Subject};
ghost use Rattle.points_to_rules.specs.Facts.{Fact};
ghost use Rattle.points_to_rules.specs.Refusals.{IsUnrefused};
ghost use Rattle.points_to_rules.specs.Rules.{Instance};
ghost use Rattle.points_to_rules.specs.WholeMethods.{AreWholeMethods, as_given};
ghost use Rattle.prune_stage.specs.Pruning.{IsPruned};
ghost use Rattle.run_soundness.specs.Words.{FollowWords, ErrsOnNodes};

/// Whatever an execution on nodes does to an object is a word over the events that may occur at the object's site, by any set that is closed under the
/// rules and has no refusal.
pub fn objects_follow_words()
    ensures by_test { (x : Subject) (given : Given) (S : Fact → Bool) → IsProgram x.program → AreWholeMethods x.program (as_given given)
        → IsClosedSet (Instance x.program (as_given given) (record { 0 = x.entry })) (λ f. IsTrue (S f))
        → IsUnrefused x.program (as_given given) (λ f. IsTrue (S f)) → FollowWords x given (as_given given) (λ f. IsTrue (S f)) }
    ensures by_list { (x : Subject) (given : Given) (facts : List Fact) → IsProgram x.program → AreWholeMethods x.program (as_given given)
        → IsClosedSet (Instance x.program (as_given given) (record { 0 = x.entry })) (Contains facts)
        → IsUnrefused x.program (as_given given) (Contains facts) → FollowWords x given (as_given given) (Contains facts) }
{}

/// Where no word over those events leads to the error state, no object of the site is ever in it.
pub fn pruned_sites_never_err()
    ensures by_test { (x : Subject) (given : Given) (S : Fact → Bool) → IsProgram x.program → AreWholeMethods x.program (as_given given)
        → IsClosedSet (Instance x.program (as_given given) (record { 0 = x.entry })) (λ f. IsTrue (S f))
        → IsUnrefused x.program (as_given given) (λ f. IsTrue (S f)) → (s : Site) → IsPruned (as_given given) (λ f. IsTrue (S f)) x.property s → ErrsOnNodes x given s → ⊥ }
    ensures by_list { (x : Subject) (given : Given) (facts : List Fact) → IsProgram x.program → AreWholeMethods x.program (as_given given)
        → IsClosedSet (Instance x.program (as_given given) (record { 0 = x.entry })) (Contains facts)
        → IsUnrefused x.program (as_given given) (Contains facts) → (s : Site) → IsPruned (as_given given) (Contains facts) x.property s → ErrsOnNodes x given s → ⊥ }
{}
