//! The tracked sites with what is found of each, for a certificate; and the path edges by which a later stage proves a site safe.

ghost use Rattle.std.specs.Prelude.{◌≡◌, ◌≤◌, ℕ, Contains, IfOk};
ghost use Rattle.jvm_model.specs.Automata.{IsAutomaton};
ghost use Rattle.lowering_supply.specs.Supplied.{IsSupplied};
ghost use Rattle.program_model.specs.Numbers.{name_at, IsClassNumber, IsMethodNumber};
ghost use Rattle.ground_views.specs.Views.{AreViewsOf};
ghost use Rattle.site_report.specs.Sites.{site_in};
ghost use Rattle.site_report.specs.declared.verdict.Verdict.TheVariants.{Safe};
ghost use Rattle.report_spec.specs.Verdicts.{IsVerdict};
ghost use Rattle.report_analysis.specs.Analyses.{IsAnalysis};
ghost use Rattle.report_analysis.specs.Claims.{AreEdgesAt, AreJudgedSites};
ghost use Rattle.report_analysis.specs.Numbers.{IsNumberOf};
ghost use Rattle.report_analysis.specs.Stages.{AreInRange, asked_of, subject_of};

use crate::asked::ReportStages;
use crate::numbers::numbers_of;
use crate::verdicts::judge_sites;
use ground::Ground;
use ground_views::GroundViews;
use jvm_model::{Automaton, ClassNo, SiteNo};
use report_sites::tracked;
use simulation::supplied_methods_are_whole;
use site_report::{TrackedSite, Verdict};
use stage_verdicts::{LaterStages, safe_edges};
use std::alloc::{AllocError, Global};
use tabulation::Tabulation;

/// The tracked sites, in the order of a report; and beside each its verdict, and its number in the ground, if it has one.
#[derive(Drop)]
pub struct JudgedSites {
    pub sites: Vec<TrackedSite>,
    pub verdicts: Vec<Verdict>,
    pub numbers: Vec<Option<SiteNo>>,
}

/// A tracked site with its number in the ground, if it has one, and the stage that proves it safe.
#[derive(Clone, Copy)]
pub struct SafeSite {
    pub site: TrackedSite,
    pub number: Option<SiteNo>,
    pub stage: u8,
}

/// The tracked sites of an analysis of the program from an entry, each with its verdict by the stages that are asked for, and with its number. `upper` is the
/// property's class; whether it is told why a site is unproved plays no part.
pub fn judged_sites(
    alloc: Global,
    ground: &Ground<'_>,
    automaton: &Automaton,
    upper: ClassNo,
    asked: ReportStages,
) -> Result<JudgedSites, AllocError>
    requires automaton { IsAutomaton automaton.now }
    requires upper { IsClassNumber ground.now.program upper.0 }
    requires class { name_at ground.now.program upper.0 ≡ automaton.now.class_name }
    requires asked { AreInRange (asked_of asked) }
    requires entry { IsMethodNumber ground.now.program asked.entry.0 }
    requires analysis { (limit : ℕ) × IsAnalysis ground.now.program (IsSupplied ground.now.program) asked.entry limit ground.now }
    ensures { IfOk result (AreJudgedSites (subject_of ground.now.program automaton.now asked) (IsSupplied ground.now.program) ground.now (asked_of asked)) }
{
    supplied_methods_are_whole();
    let sites = tracked(alloc, ground, upper)?;
    let untold = ReportStages {
        entry: asked.entry,
        stages: asked.stages,
        depth: asked.depth,
        fact_limit: asked.fact_limit,
        trace: false,
    };
    let judged = judge_sites(alloc, ground, automaton, sites.as_slice(), untold)?;
    let numbers = numbers_of(alloc, ground, sites.as_slice())?;
    Ok(JudgedSites {
        sites,
        verdicts: judged.verdicts,
        numbers,
    })
}

/// The path edges of a site at the stage that proves it safe, which is not the first one. It is as if memory ran out where 32 bits do not count what they are
/// made of.
pub fn claimed_edges(
    alloc: Global,
    views: &GroundViews<'_>,
    ground: &Ground<'_>,
    automaton: &Automaton,
    asked: ReportStages,
    safe: SafeSite,
) -> Result<Tabulation, AllocError>
    requires automaton { IsAutomaton automaton.now }
    requires asked { AreInRange (asked_of asked) }
    requires analysis { (limit : ℕ) × IsAnalysis ground.now.program (IsSupplied ground.now.program) asked.entry limit ground.now }
    requires views { AreViewsOf ground.now asked.entry views.now }
    requires verdict { IsVerdict (subject_of ground.now.program automaton.now asked) (IsSupplied ground.now.program) (Contains ground.now.facts) (asked_of asked)
        safe.site (Safe safe.stage) }
    requires number { IsNumberOf ground.now (site_in ground.now.program safe.site) safe.number }
    requires later { 2 ≤ safe.stage }
    ensures { IfOk result (λ found. AreEdgesAt (subject_of ground.now.program automaton.now asked) (IsSupplied ground.now.program) (Contains ground.now.facts)
        asked.depth (site_in ground.now.program safe.site) safe.stage found.edges) }
{
    supplied_methods_are_whole();
    match safe.number {
        Some(number) => safe_edges(
            alloc,
            views,
            LaterStages {
                ground,
                entry: asked.entry,
                automaton,
                stages: asked.stages,
                depth: asked.depth,
                limit: asked.fact_limit as usize,
            },
            number,
            safe.stage,
        ),
        None => {
            ground.well_formed();
            unreachable!()
        }
    }
}
