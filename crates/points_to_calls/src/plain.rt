//! What constraints that select no target make of an object.

ghost use Rattle.std.specs.Prelude.{◌≡◌, ℕ, List, Some, slice_get, codes, OnOk};
ghost use Rattle.jvm_model.specs.declared.site.Site.{Site};
ghost use Rattle.points_to_numbers.specs.Steps.{Makes};
ghost use Rattle.points_to_calls.specs.KeptAnswers.{AreRight};
ghost use Rattle.points_to_calls.specs.Constraints.{FittingPassed, PlainPassed};
ghost use Rattle.points_to_constraints.specs.ItemRules.{LandsAs};
ghost use Rattle.points_to_constraints.specs.Items.{CatchChain as ItemCatchChain, Constraint as ItemConstraint};
ghost use Rattle.points_to_rules.specs.Facts.{Holder};
ghost use Rattle.points_to_numbers.specs.Numbered.{IsNumbered, IsConstraintAt};

use crate::catch_chains::lands;
use crate::giving::add_constraint_at;
use crate::kept::{Answers, fits_kept};
use hierarchy::fits;
use jvm_model::SiteNo;
use points_to_numbers::{CatchChainNo, ClassNameNo, Constraint, Item, Tables, Work};
use points_to_rules::{Place, PlaceNo};
use program_index::index_failure::IndexFailure;
use program_model::program::Program;

/// The class of the objects of a site.
pub(crate) fn class_of(tables: &Tables, site: SiteNo) -> &[u8]
    requires { IsNumbered tables.now.sites site.0 }
    ensures { (s : Site) → slice_get tables.now.sites site.0 ≡ Some s → result.now ≡ s.class }
{
    tables.name_of(tables.site_of(site).class)
}

/// Adds the objects of an allocation site to the points-to set of the place where an exception of their class lands.
fn land(
    program: &Program,
    tables: &Tables,
    catch_chain: CatchChainNo,
    site: SiteNo,
    steps: &mut Vec<Item>,
) -> Result<(), IndexFailure>
    requires catch_chain { IsNumbered tables.now.catch_chains catch_chain.0 }
    requires site { IsNumbered tables.now.sites site.0 }
    ensures { OnOk result ((l : ItemCatchChain) (s : Site) → slice_get tables.now.catch_chains catch_chain.0 ≡ Some l → slice_get tables.now.sites site.0 ≡ Some s
        → Makes tables.now tables.now (LandsAs program.now l s) steps.old.items steps.new.items) }
{
    let to = lands(program, tables, catch_chain, class_of(tables, site));
    steps.push(Item::Holds(to, site))?;
    Ok(())
}

/// A filter constraint: the objects that fit a class go to a place.
#[derive(Clone, Copy)]
struct Filter {
    class: ClassNameNo,
    to: PlaceNo,
}

/// Adds the objects of an allocation site to the points-to set of the place to which a filter leads, if they fit its class.
fn pass_if_fits(
    program: &Program,
    answers: &mut Answers,
    filter: Filter,
    site: SiteNo,
    work: &mut Work,
) -> Result<(), IndexFailure>
    requires class { IsNumbered work.old.tables.classes filter.class.0 }
    requires site { IsNumbered work.old.tables.sites site.0 }
    requires answers { AreRight program.now work.old.tables answers.old }
    ensures made { OnOk result ((name : List ℕ) (h : Holder) (s : Site) → slice_get work.old.tables.classes filter.class.0 ≡ Some name
        → slice_get work.old.tables.holders filter.to.0 ≡ Some h
        → slice_get work.old.tables.sites site.0 ≡ Some s → Makes work.old.tables work.new.tables (FittingPassed program.now name h s) work.old.steps.items work.new.steps.items) }
    ensures answers { AreRight program.now work.old.tables answers.new }
{
    let lower = work.tables.site_of(site).class;
    let does_fit = fits_kept(program, &work.tables, answers, filter.class, lower)?;
    if does_fit {
        work.steps.push(Item::Holds(filter.to, site))?;
    }
    Ok(())
}

/// Adds what a constraint that selects no target makes of an object of its place.
pub(crate) fn pass_plain(
    program: &Program,
    answers: &mut Answers,
    constraint: Constraint,
    site: SiteNo,
    work: &mut Work,
) -> Result<(), IndexFailure>
    requires constraint { (u : ItemConstraint) × IsConstraintAt work.old.tables constraint u }
    requires site { IsNumbered work.old.tables.sites site.0 }
    requires answers { AreRight program.now work.old.tables answers.old }
    ensures made { OnOk result ((u : ItemConstraint) (s : Site) → IsConstraintAt work.old.tables constraint u → slice_get work.old.tables.sites site.0 ≡ Some s
        → Makes work.old.tables work.new.tables (PlainPassed program.now u s) work.old.steps.items work.new.steps.items) }
    ensures answers { AreRight program.now work.old.tables answers.new }
{
    match constraint {
        Constraint::CopyTo(to) => {
            work.steps.push(Item::Holds(to, site))?;
            Ok(())
        }
        Constraint::FilterTo(class, to) => {
            pass_if_fits(program, answers, Filter { class, to }, site, work)
        }
        Constraint::LoadField(field, to) => {
            work.add_constraint(Place::Field(site, field), Constraint::CopyTo(to))
        }
        Constraint::StoreField(field, from) => {
            let to = work.tables.place(Place::Field(site, field))?;
            add_constraint_at(from, Constraint::CopyTo(to), work)
        }
        Constraint::LoadElements(to) => {
            work.add_constraint(Place::Elements(site), Constraint::CopyTo(to))
        }
        Constraint::StoreElements(from) => {
            let to = work.tables.place(Place::Elements(site))?;
            add_constraint_at(from, Constraint::CopyTo(to), work)
        }
        Constraint::ThrowTo(catch_chain) => {
            if fits(
                program,
                b"java/lang/Throwable",
                class_of(&work.tables, site),
            ) {
                return land(program, &work.tables, catch_chain, site, &mut work.steps);
            }
            Ok(())
        }
        Constraint::RethrowTo(catch_chain) => land(
            program,
            &work.tables,
            catch_chain,
            site,
            &mut work.steps,
        ),
        Constraint::Dispatch(_) => Ok(()),
    }
}
