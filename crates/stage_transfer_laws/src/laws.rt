//! The laws of a stage hold of the transfer.

ghost use Rattle.std.specs.Prelude.{◌≡◌, Bool, List, Contains, IsTrue};
ghost use Rattle.machine_bytecode.specs.Objects.{Subject};
ghost use Rattle.points_to_rules.specs.Facts.{Fact};
ghost use Rattle.stage_transfer.specs.Settings.{AreAnswersOf, Setting};
ghost use Rattle.stage_transfer.specs.Stages.{transfer_of};
ghost use Rattle.stage_relations.specs.Laws.{IsStage};

/// The transfer of a stage meets its laws, by a set of facts that is given as a test.
pub fn transfers_keep_their_laws()
    ensures { (x : Subject) (S : Fact → Bool) (w : Setting) → w.property ≡ x.property → AreAnswersOf (λ f. IsTrue (S f)) w.answers
        → IsStage x (λ f. IsTrue (S f)) w.site (transfer_of w) }
{}

/// So it does by facts that are listed.
pub fn transfers_keep_their_laws_by_lists()
    ensures { (x : Subject) (facts : List Fact) (w : Setting) → w.property ≡ x.property → AreAnswersOf (Contains facts) w.answers
        → IsStage x (Contains facts) w.site (transfer_of w) }
{}
