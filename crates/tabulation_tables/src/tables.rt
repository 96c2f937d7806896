//! The tables, and what is done to them one by one.

ghost use Rattle.std.specs.Prelude.{◌≡◌, ◌↔◌, ◌<◌, ◌+◌, [], ◌∷◌, ◌++◌, Some, length, slice_get, IsTrue, IfOk, OnOk, if◌then◌else◌};
ghost use Rattle.stage_facts.specs.Plain.{fact_of};
ghost use Rattle.edge_numbers.specs.Inserted.{IsInserted};
ghost use Rattle.end_numbers.specs.Ends.{end};
ghost use Rattle.tabulation_tables.specs.Lists.{HasEdge, IsVisited, Calls, Exits, Leads, lists_of};
ghost use Rattle.tabulation_tables.specs.Steps.{Adds, AreEmpty, CallsStay, Grows, IsAdded, IsOneLead, IsOnly, IsPair, NoLead, None1, None2, NotesStay};

use crate::visits::{is_marked, mark};
use chained_lists::{Chains, Place};
use edge_numbers::{Because, EdgeNo, EdgeNumbers, NumberedEdge, OptionalEdges, ReasonList};
use end_numbers::EndNumbers;
use jvm_model::MethodNo;
use op_model::Spot;
use stage_facts::PlainFact;
use std::alloc::{AllocError, Global};

/// What is found: ends by number; edges, and from which other ones each follows. By the number of an end: with which ends the edges to it begin, to which ends
/// it leads, which ends enter the method that begins with it, which edges of this method lead to exits, and whether it was visited. These lists may be walked
/// while they grow.
#[derive(Drop)]
pub struct Tables {
    pub ends: EndNumbers,
    pub edges: EdgeNumbers,
    pub reasons: ReasonList,
    pub begins: Chains,
    pub leads: Chains,
    /// By which exit, if by one, each end leads to another one, in the order of `leads`.
    pub by: OptionalEdges,
    pub callers: Chains,
    pub exits: Chains,
    pub visits: Vec<bool>,
}

impl Tables {
    /// Tables of nothing. It takes no memory.
    pub fn new(alloc: Global) -> Self
        ensures { AreEmpty (lists_of result) }
    {
        Tables {
            ends: EndNumbers::new(alloc),
            edges: EdgeNumbers::new(alloc),
            reasons: ReasonList::new(alloc),
            begins: Chains::new(alloc),
            leads: Chains::new(alloc),
            by: OptionalEdges::new(alloc),
            callers: Chains::new(alloc),
            exits: Chains::new(alloc),
            visits: Vec::new(alloc),
        }
    }

    /// The number of an end, which becomes the last one where it has none yet. It answers an error where memory or numbers run out.
    pub fn number(
        &mut self,
        method: Option<MethodNo>,
        spot: Spot,
        fact: &PlainFact,
    ) -> Result<u32, AllocError>
        ensures number { IfOk result (λ number. slice_get self.new.ends number ≡ Some (end method spot (fact_of fact.now))) }
        ensures grows { Grows (lists_of self.old) (lists_of self.new) }
        ensures adds { Adds None2 NoLead None2 None2 None1 (lists_of self.old) (lists_of self.new) }
        ensures stay { NotesStay (lists_of self.old) (lists_of self.new) }
        ensures edges { self.new.edges ≡ self.old.edges }
        ensures reasons { self.new.reasons.items ≡ self.old.reasons.items }
    {
        self.ends.number(method, spot, fact)
    }

    /// Adds an edge that follows from others, unless it is there, and tells whether it was added. It answers an error where memory or numbers run out.
    pub fn insert(&mut self, edge: NumberedEdge, because: Because) -> Result<bool, AllocError>
        ensures grows { OnOk result (Grows (lists_of self.old) (lists_of self.new)) }
        ensures adds { IfOk result (λ added. Adds (IsAdded added edge.begin edge.end) NoLead None2 None2 None1 (lists_of self.old) (lists_of self.new)) }
        ensures stay { OnOk result (NotesStay (lists_of self.old) (lists_of self.new)) }
        ensures there { OnOk result (HasEdge (lists_of self.new) edge.begin edge.end) }
        ensures count { IfOk result (λ added. length self.new.edges ≡ length self.old.edges + (if added then 1 else 0)) }
        ensures ends { self.new.ends ≡ self.old.ends }
        ensures inserted { IfOk result (λ added. IsInserted added self.old.edges self.new.edges edge) }
        ensures reasons { IfOk result (λ added. self.new.reasons.items ≡ (if added then self.old.reasons.items ++ because ∷ [] else self.old.reasons.items)) }
    {
        if !self.edges.insert(edge)? {
            return Ok(false);
        }
        self.reasons.push(because)?;
        self.begins.add(edge.end, edge.begin)?;
        Ok(true)
    }

    /// Notes that an end leads to another one, by an exit or by none. It answers an error where memory runs out.
    pub fn lead(&mut self, from: u32, to: u32, exit: Option<EdgeNo>) -> Result<(), AllocError>
        ensures grows { OnOk result (Grows (lists_of self.old) (lists_of self.new)) }
        ensures adds { OnOk result (Adds None2 (IsOneLead from to exit) None2 None2 None1 (lists_of self.old) (lists_of self.new)) }
        ensures stay { OnOk result (CallsStay (lists_of self.old) (lists_of self.new)) }
        ensures there { OnOk result (Leads (lists_of self.new) from to) }
        ensures edges { self.new.edges ≡ self.old.edges }
        ensures reasons { self.new.reasons.items ≡ self.old.reasons.items }
        ensures ends { self.new.ends ≡ self.old.ends }
    {
        self.by.push(exit)?;
        self.leads.add(from, to)
    }

    /// By which exit, if by one, an end leads to another one: what was noted at a place of `leads`.
    pub fn exit_at(&self, place: Place) -> Option<EdgeNo>
        requires { place.0 < length self.now.by.items }
        ensures { slice_get self.now.by.items place.0 ≡ Some result }
    {
        self.by.at(place.0 as usize)
    }

    /// Notes that an end enters the method that begins with another one. It answers an error where memory runs out.
    pub fn call(&mut self, begin: u32, caller: u32) -> Result<(), AllocError>
        ensures grows { OnOk result (Grows (lists_of self.old) (lists_of self.new)) }
        ensures adds { OnOk result (Adds None2 NoLead (IsPair begin caller) None2 None1 (lists_of self.old) (lists_of self.new)) }
        ensures there { OnOk result (Calls (lists_of self.new) begin caller) }
        ensures edges { self.new.edges ≡ self.old.edges }
        ensures reasons { self.new.reasons.items ≡ self.old.reasons.items }
        ensures ends { self.new.ends ≡ self.old.ends }
    {
        self.callers.add(begin, caller)
    }

    /// Notes an edge to an exit of the method that begins with an end. It answers an error where memory runs out.
    pub fn exit(&mut self, begin: u32, exit: EdgeNo) -> Result<(), AllocError>
        ensures grows { OnOk result (Grows (lists_of self.old) (lists_of self.new)) }
        ensures adds { OnOk result (Adds None2 NoLead None2 (IsPair begin exit.0) None1 (lists_of self.old) (lists_of self.new)) }
        ensures there { OnOk result (Exits (lists_of self.new) begin exit.0) }
        ensures edges { self.new.edges ≡ self.old.edges }
        ensures reasons { self.new.reasons.items ≡ self.old.reasons.items }
        ensures ends { self.new.ends ≡ self.old.ends }
    {
        self.exits.add(begin, exit.0)
    }

    /// Notes that an end was visited. It answers an error where memory runs out.
    pub fn visit(&mut self, end: u32) -> Result<(), AllocError>
        ensures grows { OnOk result (Grows (lists_of self.old) (lists_of self.new)) }
        ensures adds { OnOk result (Adds None2 NoLead None2 None2 (IsOnly end) (lists_of self.old) (lists_of self.new)) }
        ensures there { OnOk result (IsVisited (lists_of self.new) end) }
        ensures edges { self.new.edges ≡ self.old.edges }
        ensures reasons { self.new.reasons.items ≡ self.old.reasons.items }
        ensures ends { self.new.ends ≡ self.old.ends }
    {
        mark(&mut self.visits, end as usize)
    }

    /// Whether an end was visited.
    pub fn is_visited(&self, end: u32) -> bool
        ensures { IsTrue result ↔ IsVisited (lists_of self.now) end }
    {
        is_marked(&self.visits, end as usize)
    }
}
