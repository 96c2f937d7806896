//! The first stage: which states the automaton of a property can reach by the events that may occur at the objects of a site, in whatever
//! order and however often each (Fink et al., section 4.1). A site is safe where the error state is not among them.
//! The report calls `prune`, which tells it of all tracked sites by one walk over the calls; `prune_site` tells it of one. `site_places` tells at which
//! place each site of the ground stands among the tracked ones.
//! Begin with specs/Pruning.antt and src/pruning.rt: marks.rt walks the calls, stage_one.rt searches the automaton.
#![tactic(auto)]

mod answers;
mod event_set;
mod marked_sites;
mod marks;
mod places;
mod pruning;
mod stage_one;

pub use places::site_places;
pub use pruning::{prune, prune_site};
pub use stage_one::is_safe;
