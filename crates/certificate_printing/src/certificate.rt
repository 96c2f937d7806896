//! The certificate of an analysis.

ghost use Rattle.std.specs.Prelude.{◌≡◌, ℕ, Contains, IfOk};
ghost use Rattle.jvm_model.specs.Automata.{IsAutomaton};
ghost use Rattle.lowering_supply.specs.Supplied.{IsSupplied};
ghost use Rattle.program_model.specs.Numbers.{name_at, IsClassNumber, IsMethodNumber};
ghost use Rattle.report_analysis.specs.Analyses.{IsAnalysis};
ghost use Rattle.report_analysis.specs.Stages.{AreInRange, asked_of, subject_of};
ghost use Rattle.certificate_spec.specs.Certificates.{IsCertificateOf};

use crate::body::body_of;
use crate::head::head_of;
use certificate_lines::Line;
use ground::Ground;
use jvm_model::{Automaton, ClassNo};
use report_analysis::{ReportStages, are_all_safe, judged_sites};
use std::alloc::{AllocError, Global};

/// The lines of a certificate, and whether each site is safe.
#[derive(Drop)]
pub struct Certified {
    pub lines: Vec<Line>,
    pub all_safe: bool,
}

/// The certificate of an analysis of the program from an entry, by the stages that are asked for, and whether each site is safe. `upper` is the property's
/// class; whether it is told why a site is unproved plays no part. It is as if memory ran out where 32 bits do not count something.
pub fn certificate_of(
    alloc: Global,
    ground: &Ground<'_>,
    automaton: &Automaton,
    upper: ClassNo,
    asked: ReportStages,
) -> Result<Certified, AllocError>
    requires automaton { IsAutomaton automaton.now }
    requires upper { IsClassNumber ground.now.program upper.0 }
    requires class { name_at ground.now.program upper.0 ≡ automaton.now.class_name }
    requires asked { AreInRange (asked_of asked) }
    requires entry { IsMethodNumber ground.now.program asked.entry.0 }
    requires analysis { (limit : ℕ) × IsAnalysis ground.now.program (IsSupplied ground.now.program) asked.entry limit ground.now }
    ensures { IfOk result (λ c. IsCertificateOf (subject_of ground.now.program automaton.now asked) (IsSupplied ground.now.program) (Contains ground.now.facts)
        (asked_of asked) c.lines.items c.all_safe) }
{
    let judged = judged_sites(alloc, ground, automaton, upper, asked)?;
    let mut body = body_of(alloc, ground, automaton, asked, &judged)?;
    let mut lines = head_of(alloc, automaton, asked.entry, asked.depth)?;
    lines.append(&mut body)?;
    lines.push(Line::End)?;
    Ok(Certified {
        lines,
        all_safe: are_all_safe(judged.verdicts.as_slice()),
    })
}
