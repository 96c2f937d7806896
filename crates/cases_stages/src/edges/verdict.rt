//! The verdict of a site by the stages after the first, beside what their path edges say.

use ground_views::PathEdge;
use jvm_model::Automaton;
use site_report::Verdict;
use stage_facts::PlainFact;

/// What the path edges of a stage say of a site.
#[derive(Clone, Copy, PartialEq, Eq, Debug)]
pub enum Found {
    /// There are fewer than the limit, and none has an object in the error state.
    Safe,
    /// There are as many as the limit.
    AtLimit,
    /// One has an object in the error state.
    Unproved,
}

/// What these path edges say, of which there are fewer than the limit.
pub fn found_in(automaton: &Automaton, edges: &[PathEdge]) -> Found {
    for edge in edges {
        if let PlainFact::OfObject(tuple) = &edge.fact
            && tuple.state == automaton.error
        {
            return Found::Unproved;
        }
    }
    Found::Safe
}

/// The verdict by some stages, and what the next one finds.
pub fn with_stage(verdict: Verdict, stage: u8, found: Found) -> Verdict {
    match (verdict, found) {
        (Verdict::Safe(earlier), _) => Verdict::Safe(earlier),
        (_, Found::Safe) => Verdict::Safe(stage),
        (Verdict::Unproved, Found::AtLimit) => Verdict::Limit(stage),
        (other, _) => other,
    }
}
