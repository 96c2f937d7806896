//! Facts that are added at spots, and methods that begin.

ghost use Rattle.std.specs.Prelude.{◌≡◌, OnOk};
ghost use Rattle.ground.specs.Added.{AreAdded, OfOne};
ghost use Rattle.stage_facts.specs.Plain.{fact_of};
ghost use Rattle.stage_views.specs.Views.{facts_of};
ghost use Rattle.edge_steps.specs.Parts.{landing, IsAt, IsBegun, OneAt, OneAtEach};

use crate::conclusions::{Conclusion, EnteredWith};
use crate::same::copied_fact;
use node_ways::EnteredMethod;
use op_model::Spot;
use stage_facts::PlainFact;
use stage_views::Facts;
use std::alloc::AllocError;

/// Adds a fact at a spot.
pub(crate) fn add_fact(
    spot: Spot,
    fact: &PlainFact,
    within: &mut Vec<Conclusion>,
) -> Result<(), AllocError>
    ensures { OnOk result (AreAdded (IsAt spot (fact_of fact.now)) within.old.items within.new.items) }
{
    within.push(Conclusion {
        spot,
        fact: copied_fact(fact),
    })?;
    Ok(())
}

/// Adds each of the facts at a spot.
pub(crate) fn add_facts(
    spot: Spot,
    facts: &Facts,
    within: &mut Vec<Conclusion>,
) -> Result<(), AllocError>
    ensures { OnOk result (AreAdded (OneAt spot (facts_of facts.now)) within.old.items within.new.items) }
{
    match facts {
        Facts::None => Ok(()),
        Facts::One(fact) => add_fact(spot, fact, within),
        Facts::Two(first, second) => {
            add_fact(spot, first, within)?;
            add_fact(spot, second, within)
        }
    }
}

/// Adds each of the facts at the nodes of these offsets.
pub(crate) fn add_at_each(
    offsets: &[u32],
    facts: &Facts,
    within: &mut Vec<Conclusion>,
) -> Result<(), AllocError>
    ensures { OnOk result (AreAdded (OneAtEach offsets.now (facts_of facts.now)) within.old.items within.new.items) }
{
    for offset in offsets {
        add_facts(Spot::Node(*offset), facts, within)?;
    }
    Ok(())
}

/// Where what is thrown goes: to a handler, or out of the method.
pub(crate) fn landing(handler: Option<u32>) -> Spot
    ensures { result ≡ landing handler }
{
    match handler {
        None => Spot::Thrown,
        Some(offset) => Spot::Node(offset),
    }
}

/// Adds that each of the methods begins with a fact.
pub(crate) fn add_begun(
    methods: &[EnteredMethod],
    fact: &PlainFact,
    entered: &mut Vec<EnteredWith>,
) -> Result<(), AllocError>
    ensures { OnOk result (AreAdded (OfOne (IsBegun (fact_of fact.now)) methods.now) entered.old.items entered.new.items) }
{
    for method in methods {
        entered.push(EnteredWith {
            method: method.method,
            fact: copied_fact(fact),
        })?;
    }
    Ok(())
}
