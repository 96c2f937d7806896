//! Laws of path edges and executions.

ghost use Rattle.std.specs.Prelude.{◌≡◌, ℕ, Bool, List, Contains, IsTrue};
ghost use Rattle.jvm_model.specs.declared.site.Site.{Site};
ghost use Rattle.jvm_model.specs.LinkedPrograms.{IsProgram};
ghost use Rattle.least_sets.specs.Rules.{IsClosedSet};
ghost use Rattle.op_model.specs.Supplies.{Given};
ghost use Rattle.machine_bytecode.specs.Executions.{Errs};
ghost use Rattle.machine_bytecode.specs.Objects.{Subject};
ghost use Rattle.lowering_supply.specs.Supplied.{IsSupplied};
ghost use Rattle.points_to_rules.specs.Facts.{Fact};
ghost use Rattle.points_to_rules.specs.Refusals.{IsUnrefused};
ghost use Rattle.points_to_rules.specs.WholeMethods.{AreWholeMethods, as_given};
ghost use Rattle.points_to_rules.specs.Writes.{AnyInstance};
ghost use Rattle.simulation.specs.Simulation.{HasEntry, HasExceptions};
ghost use Rattle.stage_transfer.specs.Settings.{AreAnswersOf, Setting};
ghost use Rattle.stage_transfer.specs.Stages.{Transfer};
ghost use Rattle.stage_edges.specs.Edges.{IsSafeBelow, StageInstance};
ghost use Rattle.stage_edges.specs.Rules.{Edge, Instance};
ghost use Rattle.stage_relations.specs.Laws.{IsStage};
ghost use Rattle.stage_soundness.specs.Describing.{AreErrorFree, AreThrownPlainly, DescribesAll, DescribesEnds, ErrsOnNodes, IsOwnSite, IsTrackable};

use machine_laws::node_survival::objects_survive;
use slot_names::slots_of_one_variable;

/// Path edges that are closed under the rules, of a stage with its laws, over closed facts without a refusal, describe every execution on nodes: each
/// object of the site, and each that is not allocated yet, in each state.
pub fn closed_edges_describe()
    ensures { (x : Subject) (given : Given) (S : Fact → Bool) (s : Site) (t : Transfer) (E : Edge → Bool) → IsProgram x.program
        → AreWholeMethods x.program (as_given given) → AreThrownPlainly x.program (as_given given)
        → IsClosedSet (AnyInstance x.program (as_given given) (record { 0 = x.entry })) (λ f. IsTrue (S f))
        → IsUnrefused x.program (as_given given) (λ f. IsTrue (S f)) → IsTrackable x (as_given given) s → IsStage x (λ f. IsTrue (S f)) s t
        → IsClosedSet (Instance x (as_given given) (λ f. IsTrue (S f)) t) (λ e. IsTrue (E e))
        → DescribesAll x given (as_given given) (λ f. IsTrue (S f)) s t (λ e. IsTrue (E e)) }
{
    slots_of_one_variable();
    objects_survive();
}

/// Where none of them is in the error state, no execution on nodes has a state in which an object of the site is.
pub fn closed_edges_never_err()
    ensures { (x : Subject) (given : Given) (S : Fact → Bool) (s : Site) (t : Transfer) (E : Edge → Bool) → IsProgram x.program
        → AreWholeMethods x.program (as_given given) → AreThrownPlainly x.program (as_given given)
        → IsClosedSet (AnyInstance x.program (as_given given) (record { 0 = x.entry })) (λ f. IsTrue (S f))
        → IsUnrefused x.program (as_given given) (λ f. IsTrue (S f)) → IsTrackable x (as_given given) s → IsStage x (λ f. IsTrue (S f)) s t
        → IsClosedSet (Instance x (as_given given) (λ f. IsTrue (S f)) t) (λ e. IsTrue (E e))
        → AreErrorFree x (λ e. IsTrue (E e)) → ErrsOnNodes x given s → ⊥ }
{
    slots_of_one_variable();
    objects_survive();
}

/// Where the program's start has returned from its call of the entry, an edge of its return says of each object of the site what holds.
pub fn closed_edges_describe_ends()
    ensures { (x : Subject) (given : Given) (S : Fact → Bool) (s : Site) (t : Transfer) (E : Edge → Bool) → IsProgram x.program
        → AreWholeMethods x.program (as_given given) → AreThrownPlainly x.program (as_given given)
        → IsClosedSet (AnyInstance x.program (as_given given) (record { 0 = x.entry })) (λ f. IsTrue (S f))
        → IsUnrefused x.program (as_given given) (λ f. IsTrue (S f)) → IsTrackable x (as_given given) s → IsStage x (λ f. IsTrue (S f)) s t
        → IsClosedSet (Instance x (as_given given) (λ f. IsTrue (S f)) t) (λ e. IsTrue (E e))
        → DescribesEnds x given s (λ e. IsTrue (E e)) }
{
    slots_of_one_variable();
    objects_survive();
}

/// In a program of a folder: where the listed edges of a stage are closed, over listed facts that are closed and without a refusal, and none of them is in
/// the error state, no execution of the bytecode has a state in which an object of the site is.
pub fn closed_stages_never_err()
    ensures { (x : Subject) (facts : List Fact) (w : Setting) (edges : List Edge) → IsProgram x.program → HasExceptions x.program → HasEntry x
        → IsClosedSet (AnyInstance x.program (IsSupplied x.program) (record { 0 = x.entry })) (Contains facts)
        → IsUnrefused x.program (IsSupplied x.program) (Contains facts) → IsOwnSite x w.site → w.property ≡ x.property
        → AreAnswersOf (Contains facts) w.answers → IsClosedSet (StageInstance x (IsSupplied x.program) (Contains facts) w) (Contains edges)
        → AreErrorFree x (Contains edges) → Errs x w.site → ⊥ }
{
    slots_of_one_variable();
    objects_survive();
}

/// So it is where a stage proves the site safe: by fewer path edges than its limit, none of which is in the error state.
pub fn safe_stages_never_err()
    ensures { (x : Subject) (facts : List Fact) (w : Setting) (limit : ℕ) → IsProgram x.program → HasExceptions x.program → HasEntry x
        → IsClosedSet (AnyInstance x.program (IsSupplied x.program) (record { 0 = x.entry })) (Contains facts)
        → IsUnrefused x.program (IsSupplied x.program) (Contains facts) → IsOwnSite x w.site
        → IsSafeBelow x (IsSupplied x.program) (Contains facts) w limit → Errs x w.site → ⊥ }
{
    slots_of_one_variable();
    objects_survive();
}
