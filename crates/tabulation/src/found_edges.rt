//! The path edges that were found.

ghost use Rattle.std.specs.Prelude.{◌≡◌, ◌<◌, Some, length, slice_get};
ghost use Rattle.edge_numbers.specs.Premises.{premises};
ghost use Rattle.stage_facts.specs.Plain.{fact_of};
ghost use Rattle.stage_edges.specs.Rules.{Edge as RuleEdge};
ghost use Rattle.ground_views.specs.Questions.{edge_of};

use edge_numbers::Because;
use ground_views::PathEdge;
use stage_facts::PlainFact;
use std::marker::Model;
use tabulation_tables::Tables;

/// Path edges, each once, in the order in which they were found, and from which other ones each follows. Contracts see both as lists.
#[derive(Drop)]
pub struct Tabulation {
    pub(crate) tables: Tables,
}

impl Model for Tabulation {
    ghost use Rattle.tabulation.specs.Found.{Found};

    ghost Value = { Found };

    ghost use Rattle.tabulation_tables.specs.Lists.{IsShaped, edges_of, lists_of, reasons_of};

    ghost view = { λ t. record { edges = edges_of (lists_of t.tables); reasons = reasons_of (lists_of t.tables) } };

    ghost invariant = { λ t. IsShaped (lists_of t.tables) };
}

impl Tabulation {
    /// How many there are.
    pub fn len(&self) -> usize
        ensures { result ≡ length self.now.edges }
    {
        self.tables.edges.len()
    }

    /// The edge at a place.
    pub fn at(&self, place: usize) -> PathEdge
        requires { place < length self.now.edges }
        ensures { slice_get self.now.edges place ≡ Some (edge_of result) }
    {
        let edge = self.tables.edges.at(place);
        let begin = self.tables.ends.end(edge.begin);
        let end = self.tables.ends.end(edge.end);
        PathEdge {
            method: end.method,
            entry: begin.fact,
            spot: end.spot,
            fact: end.fact,
        }
    }
    /// What holds where the edge at a place ends.
    pub fn fact(&self, place: usize) -> PlainFact
        requires { place < length self.now.edges }
        ensures { (e : RuleEdge) → slice_get self.now.edges place ≡ Some e → fact_of result ≡ e.fact }
    {
        let edge = self.tables.edges.at(place);
        self.tables.ends.end(edge.end).fact
    }

    /// From which edges the one at a place follows, by one instance of a rule. They stand before it.
    pub fn because(&self, place: usize) -> Because
        requires { place < length self.now.edges }
        ensures { slice_get self.now.reasons place ≡ Some (premises result) }
    {
        self.tables.reasons.at(place)
    }
}
