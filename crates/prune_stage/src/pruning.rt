//! Which sites the first stage proves safe: all that are tracked in one walk over the calls, or one alone.

ghost use Rattle.std.specs.Prelude.{◌≡◌, ◌↔◌, ◌<◌, length, Some, slice_get, Contains, IfOk, IsTrue};
ghost use Rattle.std.specs.List.{AllZip};
ghost use Rattle.jvm_model.specs.Automata.{IsAutomaton};
ghost use Rattle.jvm_model.specs.declared.site.Site.{Site as RuleSite};
ghost use Rattle.program_model.specs.Numbers.{IsClassNumber};
ghost use Rattle.ground.specs.Findings.{gives_listed};
ghost use Rattle.site_report.specs.Sites.{AreInOrder};
ghost use Rattle.prune_stage.specs.Pruning.{IsPruned, IsPruningOf};

use crate::answers::{answers_of, no_events};
use crate::event_set::EventSet;
use crate::marked_sites::{Only, Table};
use crate::marks::mark_methods;
use crate::places::site_places;
use crate::stage_one::is_safe;
use ground::Ground;
use jvm_model::{Automaton, SiteNo};
use site_report::TrackedSite;
use std::alloc::{AllocError, Global};

/// Of each site, in their order, whether the first stage proves it safe. The calls are walked once for all sites: it takes time by the number of
/// nodes, by the sites of the receivers of calls that are events, and by the number of sites.
pub fn prune(
    alloc: Global,
    ground: &Ground<'_>,
    automaton: &Automaton,
    sites: &[TrackedSite],
) -> Result<Vec<bool>, AllocError>
    requires automaton { IsAutomaton automaton.now }
    requires order { AreInOrder sites.now }
    requires known { (t : TrackedSite) → Contains sites.now t → IsClassNumber ground.now.program t.class.0 }
    ensures { IfOk result (λ answers. AllZip (IsPruningOf ground.now.program (gives_listed ground.now.methods) (Contains ground.now.facts) automaton.now)
        sites.now answers.items) }
{
    ground.well_formed();
    let places = site_places(alloc, ground.program(), ground, sites)?;
    let mut sets = no_events(alloc, sites.len())?;
    mark_methods(ground, automaton, &Table { places }, &mut sets);
    answers_of(alloc, automaton, &sets)
}

/// Whether the first stage proves the site of a number safe. It walks over the calls for this site alone, and takes no memory; for many sites use
/// `prune`.
pub fn prune_site(ground: &Ground<'_>, automaton: &Automaton, site: SiteNo) -> bool
    requires automaton { IsAutomaton automaton.now }
    requires site { site.0 < length ground.now.sites }
    ensures { (s : RuleSite) → slice_get ground.now.sites site.0 ≡ Some s
        → IsTrue result ↔ IsPruned (gives_listed ground.now.methods) (Contains ground.now.facts) automaton.now s }
{
    ground.well_formed();
    let mut sets = [EventSet::none()];
    mark_methods(ground, automaton, &Only { site }, &mut sets);
    is_safe(automaton, sets[0].first(automaton.events.len()))
}
