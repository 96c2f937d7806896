//! What constraints make of objects.

ghost use Rattle.std.specs.Prelude.{◌≡◌, length, Some, slice_get, IfOk, OnOk};
ghost use Rattle.jvm_model.specs.declared.site.Site.{Site};
ghost use Rattle.program_model.specs.Numbers.{IsMethodNumber};
ghost use Rattle.points_to_calls.specs.KeptAnswers.{AreRight};
ghost use Rattle.points_to_calls.specs.Lacks.{ConstraintLacks};
ghost use Rattle.points_to_constraints.specs.ItemRules.{Passed};
ghost use Rattle.points_to_constraints.specs.Items.{CallSite, Constraint as ItemConstraint, dispatch};
ghost use Rattle.points_to_numbers.specs.Numbered.{Grows, IsNumbered};
ghost use Rattle.points_to_numbers.specs.Steps.{Adds};

use crate::kept::Answers;
use crate::plain::pass_plain;
use crate::receiver::Receiver;
use crate::selecting::select_items;
use jvm_model::{Reason, SiteNo};
use points_to_numbers::{Constraint, ConstraintNo, Work};
use program_index::index_failure::IndexFailure;
use program_model::program::Program;

/// Adds what a constraint makes of an object of its place; and why it lacks the target of its call, if it does.
pub fn pass(
    program: &Program,
    answers: &mut Answers,
    constraint: ConstraintNo,
    site: SiteNo,
    work: &mut Work,
) -> Result<Option<Reason>, IndexFailure>
    requires constraint { IsNumbered work.old.tables.constraints constraint.0 }
    requires site { IsNumbered work.old.tables.sites site.0 }
    requires resolved { (c : CallSite) → slice_get work.old.tables.constraints constraint.0 ≡ Some (dispatch c) → IsMethodNumber program.now c.resolved.0 }
    requires answers { AreRight program.now work.old.tables answers.old }
    ensures grows { OnOk result (Grows work.old.tables work.new.tables) }
    ensures calls { OnOk result (length work.new.tables.calls ≡ length work.old.tables.calls) }
    ensures adds { OnOk result ((u : ItemConstraint) (s : Site) → slice_get work.old.tables.constraints constraint.0 ≡ Some u → slice_get work.old.tables.sites site.0 ≡ Some s
        → Adds work.new.tables (Passed program.now u s) work.old.steps.items work.new.steps.items) }
    ensures lacks { IfOk result (λ lacks. (u : ItemConstraint) (s : Site) → slice_get work.old.tables.constraints constraint.0 ≡ Some u → slice_get work.old.tables.sites site.0 ≡ Some s
        → ConstraintLacks program.now u s lacks) }
    ensures answers { OnOk result (AreRight program.now work.new.tables answers.new) }
{
    let entry = work.tables.constraint_of(constraint);
    let Constraint::Dispatch(call) = entry else {
        pass_plain(program, answers, entry, site, work)?;
        return Ok(None);
    };
    let receiver = Receiver { call, site };
    select_items(program, answers, receiver, work)
}
