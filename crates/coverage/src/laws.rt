//! Laws of coverage: they call nothing, and hold of each program.

ghost use Rattle.std.specs.Prelude.{Bool, Contains, IsTrue, List};
ghost use Rattle.jvm_model.specs.LinkedPrograms.{IsProgram};
ghost use Rattle.least_sets.specs.Rules.{IsClosedSet};
ghost use Rattle.op_model.specs.Supplies.{Given};
ghost use Rattle.machine_bytecode.specs.Objects.{Subject};
ghost use Rattle.points_to_rules.specs.Facts.{Fact};
ghost use Rattle.points_to_rules.specs.Refusals.{IsUnrefused};
ghost use Rattle.points_to_rules.specs.Rules.{Instance};
ghost use Rattle.points_to_rules.specs.Writes.{AnyInstance};
ghost use Rattle.coverage.specs.Changes.{ChangesAreWritten};
ghost use Rattle.coverage.specs.Covering.{CoversAll};
ghost use Rattle.points_to_rules.specs.WholeMethods.{AreWholeMethods, as_given};
ghost use Rattle.coverage.specs.Uses.{InformsAll};

/// A set that is given as a test, is closed under the rules and has no refusal covers each state of each execution on nodes.
pub fn closed_sets_cover()
    ensures { (x : Subject) (given : Given) (S : Fact → Bool) → IsProgram x.program → AreWholeMethods x.program (as_given given)
        → IsClosedSet (Instance x.program (as_given given) (record { 0 = x.entry })) (λ f. IsTrue (S f))
        → IsUnrefused x.program (as_given given) (λ f. IsTrue (S f)) → CoversAll x given (as_given given) (λ f. IsTrue (S f)) }
{}

/// So does a set that is listed.
pub fn closed_lists_cover()
    ensures { (x : Subject) (given : Given) (facts : List Fact) → IsProgram x.program → AreWholeMethods x.program (as_given given)
        → IsClosedSet (Instance x.program (as_given given) (record { 0 = x.entry })) (Contains facts)
        → IsUnrefused x.program (as_given given) (Contains facts) → CoversAll x given (as_given given) (Contains facts) }
{}

/// While a frame is there, only instance fields change that the set has among the writes of its method. So a call and an initialiser change only
/// those of its target.
pub fn closed_sets_have_the_changes()
    ensures { (x : Subject) (given : Given) (S : Fact → Bool) → IsProgram x.program → AreWholeMethods x.program (as_given given)
        → IsClosedSet (AnyInstance x.program (as_given given) (record { 0 = x.entry })) (λ f. IsTrue (S f))
        → IsUnrefused x.program (as_given given) (λ f. IsTrue (S f)) → ChangesAreWritten x given (λ f. IsTrue (S f)) }
{}

/// So it is for a set that is listed.
pub fn closed_lists_have_the_changes()
    ensures { (x : Subject) (given : Given) (facts : List Fact) → IsProgram x.program → AreWholeMethods x.program (as_given given)
        → IsClosedSet (AnyInstance x.program (as_given given) (record { 0 = x.entry })) (Contains facts)
        → IsUnrefused x.program (as_given given) (Contains facts) → ChangesAreWritten x given (Contains facts) }
{}

/// A closed set has what is loaded of static fields, the targets of calls, and what is returned.
pub fn closed_sets_inform()
    ensures { (x : Subject) (given : Given) (S : Fact → Bool) → IsProgram x.program → AreWholeMethods x.program (as_given given)
        → IsClosedSet (Instance x.program (as_given given) (record { 0 = x.entry })) (λ f. IsTrue (S f))
        → IsUnrefused x.program (as_given given) (λ f. IsTrue (S f)) → InformsAll x given (as_given given) (λ f. IsTrue (S f)) }
{}

/// So has a closed list.
pub fn closed_lists_inform()
    ensures { (x : Subject) (given : Given) (facts : List Fact) → IsProgram x.program → AreWholeMethods x.program (as_given given)
        → IsClosedSet (Instance x.program (as_given given) (record { 0 = x.entry })) (Contains facts)
        → IsUnrefused x.program (as_given given) (Contains facts) → InformsAll x given (as_given given) (Contains facts) }
{}
