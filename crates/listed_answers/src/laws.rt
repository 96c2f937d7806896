//! Laws of listed answers: they call nothing, and stand on the definitions alone.

ghost use Rattle.std.specs.Prelude.{◌≤◌, List, Contains};
ghost use Rattle.machine_bytecode.specs.Objects.{Subject};
ghost use Rattle.points_to_rules.specs.Facts.{Fact};
ghost use Rattle.stage_transfer.specs.Settings.{AreAnswersOf, Setting};
ghost use Rattle.ground_views.specs.declared.question.Question.{Question};
ghost use Rattle.ground_views.specs.Questions.{IsAskedOf};
ghost use Rattle.listed_answers.specs.ListedAnswers.{answers_by};

/// The answers that a list of facts gives are those of its facts.
pub fn answers_by_are_of()
    ensures { (facts : List Fact) → AreAnswersOf (Contains facts) (answers_by facts) }
{}

/// Each question is asked of a subject and in a setting. So `path_edges` always says something.
pub fn questions_are_asked()
    ensures { (q : Question) → q.setting.depth ≤ 3 → (x : Subject) × (w : Setting) × IsAskedOf q x w }
{}
