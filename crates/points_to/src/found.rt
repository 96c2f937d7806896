//! What was found besides the items: the numbers, and the first refusals; and how objects are passed to constraints.

ghost use Rattle.std.specs.Prelude.{◌≡◌, [], length, Some, None, All, OnOk};
ghost use Rattle.jvm_model.specs.Programs.{Program as LinkedProgram};
ghost use Rattle.points_to_calls.specs.KeptAnswers.{AreRight};
ghost use Rattle.points_to_numbers.specs.Numbered.{Numbered, Grows, IsNumbered, none_numbered};
ghost use Rattle.points_to_numbers.specs.Steps.{Adds};
ghost use Rattle.points_to.specs.Passing.{IsKnownConstraint, IsPassed, IsLackOf, NotesCalls, NotesReason, PassesAny, PassesToSome, PassesSome, LacksAny, LacksForSome, LacksSome};

use crate::refusals::{Refusals, RefusedCall};
use jvm_model::{Reason, SiteNo};
use points_to_calls::{Answers, pass};
use points_to_numbers::{Constraint, ConstraintNo, Tables, Work};
use program_index::index_failure::IndexFailure;
use program_model::program::Program;
use std::alloc::Global;

/// The numbers that were given with the items that follow, the answers that are kept of classes, and the first refusals.
#[derive(Drop)]
pub(crate) struct Found {
    pub(crate) work: Work,
    pub(crate) answers: Answers,
    pub(crate) refusals: Refusals,
}

impl Found {
    /// Nothing. It takes no memory.
    pub(crate) fn new(alloc: Global) -> Self
        ensures tables { result.work.tables ≡ none_numbered }
        ensures steps { result.work.steps.items ≡ [] }
        ensures answers { (p : LinkedProgram) (n : Numbered) → AreRight p n result.answers }
        ensures call { result.refusals.call ≡ None }
        ensures method { result.refusals.method ≡ None }
    {
        Found {
            work: Work::new(alloc),
            answers: Answers::new(alloc),
            refusals: Refusals::new(),
        }
    }

    /// Passes an object of a site to each of some constraints.
    pub(crate) fn pass_to_each(
        &mut self,
        program: &Program,
        constraints: &[ConstraintNo],
        site: SiteNo,
    ) -> Result<(), IndexFailure>
        requires constraints { All (λ (constraint : ConstraintNo). IsKnownConstraint program.now self.old.work.tables constraint) constraints.now }
        requires site { IsNumbered self.old.work.tables.sites site.0 }
        requires answers { AreRight program.now self.old.work.tables self.old.answers }
        ensures grows { OnOk result (Grows self.old.work.tables self.new.work.tables) }
        ensures calls { OnOk result (length self.new.work.tables.calls ≡ length self.old.work.tables.calls) }
        ensures answers { OnOk result (AreRight program.now self.new.work.tables self.new.answers) }
        ensures adds { OnOk result (Adds self.new.work.tables (PassesToSome program.now self.old.work.tables constraints.now site) self.old.work.steps.items self.new.work.steps.items) }
        ensures lacks { OnOk result (NotesCalls (LacksForSome program.now self.old.work.tables constraints.now site) self.old.refusals.call self.new.refusals.call) }
        ensures method { self.new.refusals.method ≡ self.old.refusals.method }
    {
        for constraint in constraints {
            self.pass(program, *constraint, site)?;
        }
        Ok(())
    }

    /// Passes an object of each of some sites to a constraint.
    pub(crate) fn pass_each(
        &mut self,
        program: &Program,
        constraint: ConstraintNo,
        sites: &[SiteNo],
    ) -> Result<(), IndexFailure>
        requires constraint { IsKnownConstraint program.now self.old.work.tables constraint }
        requires sites { All (λ (site : SiteNo). IsNumbered self.old.work.tables.sites site.0) sites.now }
        requires answers { AreRight program.now self.old.work.tables self.old.answers }
        ensures grows { OnOk result (Grows self.old.work.tables self.new.work.tables) }
        ensures calls { OnOk result (length self.new.work.tables.calls ≡ length self.old.work.tables.calls) }
        ensures answers { OnOk result (AreRight program.now self.new.work.tables self.new.answers) }
        ensures adds { OnOk result (Adds self.new.work.tables (PassesSome program.now self.old.work.tables constraint sites.now) self.old.work.steps.items self.new.work.steps.items) }
        ensures lacks { OnOk result (NotesCalls (LacksSome program.now self.old.work.tables constraint sites.now) self.old.refusals.call self.new.refusals.call) }
        ensures method { self.new.refusals.method ≡ self.old.refusals.method }
    {
        for site in sites {
            self.pass(program, constraint, *site)?;
        }
        Ok(())
    }

    /// Passes an object of each of some sites to each of some constraints.
    pub(crate) fn pass_all(
        &mut self,
        program: &Program,
        constraints: &[ConstraintNo],
        sites: &[SiteNo],
    ) -> Result<(), IndexFailure>
        requires constraints { All (λ (constraint : ConstraintNo). IsKnownConstraint program.now self.old.work.tables constraint) constraints.now }
        requires sites { All (λ (site : SiteNo). IsNumbered self.old.work.tables.sites site.0) sites.now }
        requires answers { AreRight program.now self.old.work.tables self.old.answers }
        ensures grows { OnOk result (Grows self.old.work.tables self.new.work.tables) }
        ensures calls { OnOk result (length self.new.work.tables.calls ≡ length self.old.work.tables.calls) }
        ensures answers { OnOk result (AreRight program.now self.new.work.tables self.new.answers) }
        ensures adds { OnOk result (Adds self.new.work.tables (PassesAny program.now self.old.work.tables constraints.now sites.now) self.old.work.steps.items self.new.work.steps.items) }
        ensures lacks { OnOk result (NotesCalls (LacksAny program.now self.old.work.tables constraints.now sites.now) self.old.refusals.call self.new.refusals.call) }
        ensures method { self.new.refusals.method ≡ self.old.refusals.method }
    {
        for constraint in constraints {
            self.pass_each(program, *constraint, sites)?;
        }
        Ok(())
    }

    /// Passes an object of a site to a constraint: adds what the constraint makes of it, and notes the call that lacks a target for it.
    fn pass(
        &mut self,
        program: &Program,
        constraint: ConstraintNo,
        site: SiteNo,
    ) -> Result<(), IndexFailure>
        requires constraint { IsKnownConstraint program.now self.old.work.tables constraint }
        requires site { IsNumbered self.old.work.tables.sites site.0 }
        requires answers { AreRight program.now self.old.work.tables self.old.answers }
        ensures grows { OnOk result (Grows self.old.work.tables self.new.work.tables) }
        ensures calls { OnOk result (length self.new.work.tables.calls ≡ length self.old.work.tables.calls) }
        ensures answers { OnOk result (AreRight program.now self.new.work.tables self.new.answers) }
        ensures adds { OnOk result (Adds self.new.work.tables (IsPassed program.now self.old.work.tables constraint site) self.old.work.steps.items self.new.work.steps.items) }
        ensures lacks { OnOk result (NotesCalls (IsLackOf program.now self.old.work.tables constraint site) self.old.refusals.call self.new.refusals.call) }
        ensures method { self.new.refusals.method ≡ self.old.refusals.method }
    {
        program.well_formed();
        let lacks = pass(program, &mut self.answers, constraint, site, &mut self.work)?;
        note_lack(&self.work.tables, &mut self.refusals, constraint, lacks);
        Ok(())
    }
}

/// Notes the call whose target a constraint selects, where it lacks one for a reason. The call of the start lacks none.
fn note_lack(
    tables: &Tables,
    refusals: &mut Refusals,
    constraint: ConstraintNo,
    lacks: Option<Reason>,
)
    requires { IsNumbered tables.now.constraints constraint.0 }
    ensures call { NotesCalls (NotesReason tables.now constraint lacks) refusals.old.call refusals.new.call }
    ensures method { refusals.new.method ≡ refusals.old.method }
{
    let Some(reason) = lacks else {
        return;
    };
    let Constraint::Dispatch(call) = tables.constraint_of(constraint) else {
        return;
    };
    let at = tables.call_of(call).at;
    let Some(method) = at.method else {
        return;
    };
    refusals.note_call(RefusedCall {
        method,
        offset: at.offset,
        reason,
    });
}
