//! The report on an analysis.

ghost use Rattle.std.specs.Prelude.{◌≡◌, ℕ, Contains, IfOk};
ghost use Rattle.jvm_model.specs.Automata.{IsAutomaton};
ghost use Rattle.report_analysis.specs.Analyses.{IsAnalysis};
ghost use Rattle.report_analysis.specs.Stages.{AreInRange, asked_of, subject_of};
ghost use Rattle.report_analysis.specs.Texts.{IsReportText};
ghost use Rattle.lowering_supply.specs.Supplied.{IsSupplied};
ghost use Rattle.program_model.specs.Numbers.{name_at, IsClassNumber, IsMethodNumber};

use crate::asked::ReportStages;
use crate::verdicts::judge_sites;
use crate::writing::written;
use ground::Ground;
use jvm_model::{Automaton, ClassNo};
use report_sites::tracked;
use simulation::supplied_methods_are_whole;
use std::alloc::{AllocError, Global};

/// The text of a report, in which each line ends with a newline, and whether each site is safe.
#[derive(Drop)]
pub struct Report {
    pub text: Vec<u8>,
    pub all_safe: bool,
}

/// The report on an analysis of the program from an entry, by the stages that are asked for: a line for each tracked site with its verdict, and the summary.
/// Below the line of an unproved site stands a derivation, if that is asked for. `upper` is the property's class.
pub fn report_of(
    alloc: Global,
    ground: &Ground<'_>,
    automaton: &Automaton,
    upper: ClassNo,
    asked: ReportStages,
) -> Result<Report, AllocError>
    requires automaton { IsAutomaton automaton.now }
    requires upper { IsClassNumber ground.now.program upper.0 }
    requires class { name_at ground.now.program upper.0 ≡ automaton.now.class_name }
    requires asked { AreInRange (asked_of asked) }
    requires entry { IsMethodNumber ground.now.program asked.entry.0 }
    requires analysis { (limit : ℕ) × IsAnalysis ground.now.program (IsSupplied ground.now.program) asked.entry limit ground.now }
    ensures { IfOk result (λ r. IsReportText (subject_of ground.now.program automaton.now asked) (IsSupplied ground.now.program)
        (Contains ground.now.facts) (asked_of asked) asked.trace r.text.items r.all_safe) }
{
    supplied_methods_are_whole();
    let sites = tracked(alloc, ground, upper)?;
    let judged = judge_sites(alloc, ground, automaton, sites.as_slice(), asked)?;
    written(alloc, ground.program(), sites.as_slice(), &judged)
}
