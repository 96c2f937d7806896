//! The path edges of one allocation site, stage by stage.

ghost use Rattle.std.specs.Prelude.{◌<◌, length, IfSome};
ghost use Rattle.program_model.specs.Numbers.{IsMethodNumber};

use crate::edges::facts::Words;
use crate::edges::listing::tell_edges;
use crate::edges::tabulated::{compare_edges, compare_limit, views_of};
use crate::edges::verdict::{Found, found_in, with_stage};
use anyhow::{Result, bail};
use cases_files::{Names, shown, write_site};
use edge_closure::path_edges;
use failure::Failure;
use ground::Ground;
use ground_views::{EdgesFault, Question};
use jvm_model::{MethodNo, Site, SiteNo};
use site_report::{TrackedSite, Verdict};
use stage_verdicts::{LaterStages, later_verdict};
use stage_views::StageSetting;
use std::alloc::{AllocError, Global};

/// The stages that have path edges.
const STAGES: [u8; 3] = [2, 3, 4];

/// How many fields a store gives a path at most.
const DEPTH: u8 = 3;

/// What is the same for all sites of a case.
#[derive(Clone, Copy)]
pub struct Asked<'g, 'p> {
    pub ground: &'g Ground<'p>,
    pub entry: MethodNo,
    pub words: Words<'g>,
    pub limit: usize,
}

/// Prints the path edges of a site at each stage.
pub fn tell_site<R: Print>(
    rt: &R,
    alloc: Global,
    asked: Asked<'_, '_>,
    site: &TrackedSite,
) -> Result<()>
    requires entry { IsMethodNumber asked.ground.now.program asked.entry.0 }
    requires limit { 0 < asked.limit }
{
    let text = site_text(alloc, asked.words.names, site)?;
    let Some(number) = number_of(asked.ground, asked.words.names, site) else {
        println!(rt; "site {text} is held by nothing")?;
        return Ok(());
    };
    let mut verdict = Verdict::Unproved;
    for stage in STAGES {
        println!(rt; "site {text} stage {stage}")?;
        let found = tell_stage(rt, alloc, asked, number, stage)?;
        verdict = with_stage(verdict, stage, found);
    }
    compare_verdict(alloc, asked, number, verdict)
}

/// Stops where the verdict of the stages is another one.
fn compare_verdict(
    alloc: Global,
    asked: Asked<'_, '_>,
    site: SiteNo,
    verdict: Verdict,
) -> Result<()>
    requires entry { IsMethodNumber asked.ground.now.program asked.entry.0 }
    requires limit { 0 < asked.limit }
    requires site { site.0 < length asked.ground.now.sites }
{
    let views = views_of(alloc, asked.ground, asked.entry)?;
    let stages = LaterStages {
        ground: asked.ground,
        entry: asked.entry,
        automaton: asked.words.automaton,
        stages: 4,
        depth: DEPTH,
        limit: asked.limit,
    };
    if later_verdict(alloc, &views, stages, site)? != verdict {
        bail!("the verdict is another one");
    }
    Ok(())
}

/// A site as a text.
fn site_text(alloc: Global, names: &Names, site: &TrackedSite) -> Result<String, AllocError> {
    let mut text = String::new(alloc);
    let class = names.class(site.class);
    write_site(&mut text, names, site.kind, site.method, site.offset, class)?;
    Ok(text)
}

/// The number of a site in the ground.
fn number_of(ground: &Ground<'_>, names: &Names, site: &TrackedSite) -> Option<SiteNo>
    ensures { IfSome result (λ number. number.0 < length ground.now.sites) }
{
    for number in 0..ground.site_count() {
        if let Ok(number) = u32::try_from(number)
            && is_of(names, ground.site(SiteNo(number)), site)
        {
            return Some(SiteNo(number));
        }
    }
    None
}

/// Whether it is the same site.
fn is_of(names: &Names, numbered: &Site, site: &TrackedSite) -> bool {
    numbered.kind == site.kind
        && numbered.method == site.method
        && numbered.offset == site.offset
        && shown(numbered.class.as_slice()) == names.class(site.class)
}

/// Prints the path edges at a stage, or that there are too many, and gives what they say. It stops where tabulation finds anything else.
fn tell_stage<R: Print>(
    rt: &R,
    alloc: Global,
    asked: Asked<'_, '_>,
    site: SiteNo,
    stage: u8,
) -> Result<Found>
    requires entry { IsMethodNumber asked.ground.now.program asked.entry.0 }
    requires limit { 0 < asked.limit }
    requires site { site.0 < length asked.ground.now.sites }
{
    let question = Question {
        ground: asked.ground,
        entry: asked.entry,
        site,
        setting: StageSetting {
            automaton: asked.words.automaton,
            site: asked.ground.site(site),
            stage,
            depth: DEPTH,
        },
        limit: asked.limit,
    };
    let views = views_of(alloc, asked.ground, asked.entry)?;
    match path_edges(alloc, &question) {
        Ok(edges) => {
            compare_edges(alloc, &views, &question, &edges)?;
            tell_edges(rt, alloc, asked.words, &edges)?;
            Ok(found_in(asked.words.automaton, &edges))
        }
        Err(Failure::Cause(EdgesFault::Limit)) => {
            let limit = asked.limit;
            compare_limit(alloc, &views, &question, limit)?;
            println!(rt; "limit {limit}")?;
            Ok(Found::AtLimit)
        }
        Err(Failure::Cause(EdgesFault::TooMany)) => bail!("there is too much to number"),
        Err(Failure::OutOfMemory) => Err(AllocError.into()),
    }
}
