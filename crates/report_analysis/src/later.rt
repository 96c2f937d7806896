//! The verdicts of sites, not all of which the first stage proves safe: the later stages are tried at those others.

ghost use Rattle.std.specs.Prelude.{◌≡◌, ◌↔◌, ◌<◌, length, Contains, IfOk, IfSome, IsTrue};
ghost use Rattle.std.specs.List.{AllZip};
ghost use Rattle.jvm_model.specs.Automata.{IsAutomaton};
ghost use Rattle.jvm_model.specs.declared.site.Site.{Site as RuleSite};
ghost use Rattle.machine_bytecode.specs.Objects.{Subject};
ghost use Rattle.program_model.specs.Numbers.{IsClassNumber, IsMethodNumber};
ghost use Rattle.ground.specs.Findings.{gives_listed};
ghost use Rattle.ground_views.specs.Views.{AreViewsOf};
ghost use Rattle.prune_stage.specs.Pruning.{IsPruned, IsPruningOf};
ghost use Rattle.site_report.specs.Sites.{AreInOrder};
ghost use Rattle.stage_verdicts.specs.LaterVerdicts.{IsAsked};
ghost use Rattle.report_analysis.specs.Judging.{AreJudgedBy};
ghost use Rattle.report_analysis.specs.Later.{IsVerdictOf, IsVerdictAt};
ghost use Rattle.report_analysis.specs.Numbers.{AreNumbers, IsNumberOf};

use crate::numbers::numbers_of;
use crate::traces::{are_told, each_trace};
use crate::verdicts::Judged;
use ground::Ground;
use ground_views::GroundViews;
use jvm_model::{MethodNo, SiteNo};
use program_index::order::empty_lists;
use site_report::{TrackedSite, Verdict};
use stage_verdicts::{LaterStages, later_verdict};
use std::alloc::{AllocError, Global};

/// What is found of each site, in their order. `answers` says of each whether the first stage proves it safe, and `trace` whether it is told why a site is
/// unproved.
pub(crate) fn judge_later(
    alloc: Global,
    asked: LaterStages<'_, '_>,
    trace: bool,
    sites: &[TrackedSite],
    answers: &[bool],
) -> Result<Judged, AllocError>
    requires asked { IsAsked asked }
    requires automaton { IsAutomaton asked.automaton.now }
    requires entry { IsMethodNumber asked.ground.now.program asked.entry.0 }
    requires order { AreInOrder sites.now }
    requires known { (t : TrackedSite) → Contains sites.now t → IsClassNumber asked.ground.now.program t.class.0 }
    requires pruned { AllZip (IsPruningOf asked.ground.now.program (gives_listed asked.ground.now.methods) (Contains asked.ground.now.facts) asked.automaton.now)
        sites.now answers.now }
    ensures { IfOk result (AreJudgedBy asked.entry trace sites.now) }
{
    let numbers = numbers_of(alloc, asked.ground, sites)?;
    let views = views_of(alloc, asked.ground, asked.entry)?;
    let verdicts = each_verdict(alloc, &views, asked, sites, answers, numbers.as_slice())?;
    let traces = if are_told(trace, asked.stages) {
        each_trace(
            alloc,
            &views,
            asked,
            sites,
            verdicts.as_slice(),
            numbers.as_slice(),
        )?
    } else {
        empty_lists(alloc, sites.len())?
    };
    Ok(Judged { verdicts, traces })
}

/// What is needed to look at the nodes of the ground. It is as if memory ran out where 32 bits do not count something.
pub fn views_of<'p>(
    alloc: Global,
    ground: &Ground<'p>,
    entry: MethodNo,
) -> Result<GroundViews<'p>, AllocError>
    requires { IsMethodNumber ground.now.program entry.0 }
    ensures { IfOk result (AreViewsOf ground.now entry) }
{
    GroundViews::of(alloc, ground, entry).map_err(|_| AllocError)
}

/// The verdict of each site, by whether the first stage proves it safe, and by its number in the ground.
fn each_verdict(
    alloc: Global,
    views: &GroundViews<'_>,
    asked: LaterStages<'_, '_>,
    sites: &[TrackedSite],
    answers: &[bool],
    numbers: &[Option<SiteNo>],
) -> Result<Vec<Verdict>, AllocError>
    requires asked { IsAsked asked }
    requires automaton { IsAutomaton asked.automaton.now }
    requires views { AreViewsOf asked.ground.now asked.entry views.now }
    requires pruned { AllZip (IsPruningOf asked.ground.now.program (gives_listed asked.ground.now.methods) (Contains asked.ground.now.facts) asked.automaton.now)
        sites.now answers.now }
    requires numbers { AreNumbers asked.ground.now sites.now numbers.now }
    ensures { IfOk result (λ verdicts. AllZip (IsVerdictOf asked.entry) sites.now verdicts.items) }
{
    let mut verdicts = Vec::new(alloc);
    for place in 0..sites.len() {
        verdicts.push(verdict_at(alloc, views, asked, answers[place], numbers[place])?)?;
    }
    Ok(verdicts)
}

/// The verdict of a site, by whether the first stage proves it safe, and by its number in the ground. A site without a number is safe: no place holds
/// objects of it, so no event may occur at them.
fn verdict_at(
    alloc: Global,
    views: &GroundViews<'_>,
    asked: LaterStages<'_, '_>,
    is_pruned: bool,
    number: Option<SiteNo>,
) -> Result<Verdict, AllocError>
    requires asked { IsAsked asked }
    requires automaton { IsAutomaton asked.automaton.now }
    requires views { AreViewsOf asked.ground.now asked.entry views.now }
    requires number { IfSome number (λ site. site.0 < length asked.ground.now.sites) }
    ensures { IfOk result (λ verdict. (s : RuleSite)
        → IsTrue is_pruned ↔ IsPruned (gives_listed asked.entry.ground.now.methods) (Contains asked.entry.ground.now.facts) asked.entry.automaton.now s
        → IsNumberOf asked.entry.ground.now s number → IsVerdictAt asked.entry s verdict) }
{
    if is_pruned {
        return Ok(Verdict::Safe(1));
    }
    match number {
        Some(site) => later_verdict(alloc, views, asked, site),
        None => {
            asked.ground.well_formed();
            Ok(Verdict::Safe(1))
        }
    }
}
