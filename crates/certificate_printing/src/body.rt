//! The lines between the head and the end: all that is told of the analysis.

ghost use Rattle.std.specs.Prelude.{◌≡◌, ℕ, Contains, IfOk};
ghost use Rattle.jvm_model.specs.Automata.{IsAutomaton};
ghost use Rattle.lowering_supply.specs.Supplied.{IsSupplied};
ghost use Rattle.program_model.specs.Numbers.{IsMethodNumber};
ghost use Rattle.report_analysis.specs.Analyses.{IsAnalysis};
ghost use Rattle.report_analysis.specs.Claims.{AreJudgedSites};
ghost use Rattle.report_analysis.specs.Stages.{AreInRange, asked_of, subject_of};
ghost use Rattle.certificate_printing.specs.Analysed.{IsBody};

use crate::claims::{Analysed, add_claims};
use crate::held::add_held;
use crate::listed::{add_reached, add_writes};
use crate::order::in_order;
use certificate_lines::Line;
use ground::Ground;
use jvm_model::Automaton;
use report_analysis::{JudgedSites, ReportStages, views_of};
use std::alloc::{AllocError, Global};

/// The lines of what is known of the program, of the sites that are safe, and of their path edges, in the order of lines.
pub(crate) fn body_of(
    alloc: Global,
    ground: &Ground<'_>,
    automaton: &Automaton,
    asked: ReportStages,
    judged: &JudgedSites,
) -> Result<Vec<Line>, AllocError>
    requires automaton { IsAutomaton automaton.now }
    requires asked { AreInRange (asked_of asked) }
    requires entry { IsMethodNumber ground.now.program asked.entry.0 }
    requires analysis { (limit : ℕ) × IsAnalysis ground.now.program (IsSupplied ground.now.program) asked.entry limit ground.now }
    requires judged { AreJudgedSites (subject_of ground.now.program automaton.now asked) (IsSupplied ground.now.program) ground.now (asked_of asked) judged.now }
    ensures { IfOk result (λ body. IsBody (subject_of ground.now.program automaton.now asked) (IsSupplied ground.now.program) (Contains ground.now.facts) (asked_of asked)
        body.items) }
{
    let views = views_of(alloc, ground, asked.entry)?;
    let of = Analysed {
        views: &views,
        ground,
        automaton,
        asked,
    };
    let mut lines = Vec::new(alloc);
    add_reached(ground.running(), &mut lines)?;
    add_held(alloc, ground, &mut lines)?;
    add_writes(ground.writes(), &mut lines)?;
    add_claims(alloc, of, judged, &mut lines)?;
    Ok(in_order(lines))
}
