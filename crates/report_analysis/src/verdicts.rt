//! What is found of each site: by the first stage where that proves it safe, and else by the later ones that are asked for.

ghost use Rattle.std.specs.Prelude.{◌≡◌, Bool, false, map, Contains, IfOk, IsTrue};
ghost use Rattle.jvm_model.specs.Automata.{IsAutomaton};
ghost use Rattle.program_model.specs.Numbers.{IsClassNumber, IsMethodNumber};
ghost use Rattle.ground.specs.Findings.{gives_listed};
ghost use Rattle.site_report.specs.Sites.{AreInOrder};
ghost use Rattle.report_analysis.specs.Stages.{AreInRange, asked_of, subject_of};
ghost use Rattle.report_analysis.specs.Judging.{AreJudged};
ghost use Rattle.report_analysis.specs.Written.{FirstSuffices, verdict_of};

use crate::asked::ReportStages;
use crate::later::judge_later;
use ground::Ground;
use jvm_model::Automaton;
use program_index::order::empty_lists;
use prune_stage::prune;
use site_report::{TrackedSite, Verdict};
use stage_verdicts::LaterStages;
use std::alloc::{AllocError, Global};

/// What is found of sites, in their order.
#[derive(Drop)]
pub(crate) struct Judged {
    pub(crate) verdicts: Vec<Verdict>,
    /// Beside each verdict the lines that tell why the site is unproved; none where that is not told.
    pub(crate) traces: Vec<Vec<u8>>,
}

/// What is found of each site.
pub(crate) fn judge_sites(
    alloc: Global,
    ground: &Ground<'_>,
    automaton: &Automaton,
    sites: &[TrackedSite],
    asked: ReportStages,
) -> Result<Judged, AllocError>
    requires automaton { IsAutomaton automaton.now }
    requires order { AreInOrder sites.now }
    requires known { (t : TrackedSite) → Contains sites.now t → IsClassNumber ground.now.program t.class.0 }
    requires asked { AreInRange (asked_of asked) }
    requires entry { IsMethodNumber ground.now.program asked.entry.0 }
    ensures { IfOk result (AreJudged (subject_of ground.now.program automaton.now asked) (gives_listed ground.now.methods) (Contains ground.now.facts) (asked_of asked) asked.trace sites.now) }
{
    let answers = prune(alloc, ground, automaton, sites)?;
    if first_suffices(asked.stages, answers.as_slice()) {
        return Ok(Judged {
            verdicts: first_verdicts(alloc, answers.as_slice())?,
            traces: empty_lists(alloc, sites.len())?,
        });
    }
    let later = LaterStages {
        ground,
        entry: asked.entry,
        automaton,
        stages: asked.stages,
        depth: asked.depth,
        limit: asked.fact_limit as usize,
    };
    judge_later(alloc, later, asked.trace, sites, answers.as_slice())
}

/// Whether no later stage is asked for, or the first one proves each site safe.
fn first_suffices(stages: u8, answers: &[bool]) -> bool
    ensures { IsTrue result → FirstSuffices stages answers.now }
{
    if stages == 1 {
        return true;
    }
    answers.iter().all(|answer| *answer)
}

/// What the first stage finds of each site, by whether it proves it safe.
fn first_verdicts(alloc: Global, answers: &[bool]) -> Result<Vec<Verdict>, AllocError>
    ensures { IfOk result (λ verdicts. verdicts.items ≡ map verdict_of answers.now) }
{
    let mut verdicts = Vec::new(alloc);
    for answer in answers {
        verdicts.push(first_verdict(*answer))?;
    }
    Ok(verdicts)
}

/// What the first stage finds of a site, by whether it proves it safe.
fn first_verdict(is_pruned: bool) -> Verdict
    ensures { result ≡ verdict_of is_pruned }
{
    if is_pruned {
        Verdict::Safe(1)
    } else {
        Verdict::Unproved
    }
}
