//! The work list of the solver: the pairs by rows, and the other items that were found, each once, in the order in which they were found.

ghost use Rattle.std.specs.Prelude.{◌≡◌, ◌+◌, ◌<◌, ◌^◌, [], ◌∷◌, length, All, OnOk, IfErr, MatchOption};

use failure::Failure;
use indexmap::IndexSet;
use jvm_model::SiteNo;
use points_to_numbers::Item;
use points_to_rules::{PlaceNo, SolveFailure, SolveFault};
use site_rows::{FreshSites, SiteRows};
use std::alloc::Global;

/// The pairs that were found, the other items, and how many of these are done.
#[derive(Drop)]
pub struct Queue {
    pub rows: SiteRows,
    pub others: IndexSet<Item>,
    pub done: usize,
}

/// What is done at one turn of the loop.
#[derive(Drop)]
pub(crate) enum Turn {
    /// The sites of a place that were fresh.
    Sites(FreshSites),
    /// An item that is no pair.
    One(Item),
}

/// The items that are no pairs are numbered by 32 bits: so many are the most.
const MOST_ITEMS: usize = 0xffff_fffe;

impl Queue {
    ghost use Rattle.points_to.specs.Queues.{IsHeld, IsOther, IsQueueEnd, IsSound, Takes, pair_item, state_of, turns_of};
    ghost use Rattle.points_to.specs.Turns.{AreAllDone, IsNext};

    /// A work list of nothing. It takes no memory.
    pub(crate) fn new(alloc: Global) -> Self
        ensures rows { result.rows.rows.items ≡ [] }
        ensures pairs { result.rows.pairs ≡ 0 }
        ensures others { result.others.keys ≡ [] }
        ensures done { result.done ≡ 0 }
        ensures sound { IsSound result }
    {
        Queue {
            rows: SiteRows::new(alloc),
            others: IndexSet::new(alloc),
            done: 0,
        }
    }

    /// What is to be done next, which is done then; or nothing, where all is done.
    pub(crate) fn next(&mut self) -> Option<Turn>
        requires sound { IsSound self.old }
        ensures next { MatchOption result (AreAllDone self.old self.new) (IsNext self.old self.new) }
        ensures sound { IsSound self.new }
        ensures pairs { self.new.rows.pairs ≡ self.old.rows.pairs }
        ensures few { turns_of self.new < self.new.rows.pairs + 2 ^ 63 }
    {
        if self.done < self.others.len() {
            let item = self.others.as_slice()[self.done];
            self.done += 1;
            return Some(Turn::One(item));
        }
        match self.rows.take() {
            Some(fresh) => Some(Turn::Sites(fresh)),
            None => None,
        }
    }

    /// Takes items in, but for those that are there already, as long as there are fewer pairs than the limit.
    pub(crate) fn take_all(&mut self, steps: &[Item], limit: u64) -> Result<(), SolveFailure>
        requires sound { IsSound self.old }
        requires room { self.old.rows.pairs < limit }
        ensures takes { OnOk result (Takes (state_of self.old) steps.now (state_of self.new)) }
        ensures sound { OnOk result (IsSound self.new) }
        ensures held { OnOk result (All (IsHeld (state_of self.new)) steps.now) }
        ensures room { OnOk result (self.new.rows.pairs < limit) }
        ensures turns { turns_of self.new ≡ turns_of self.old }
        ensures end { IfErr result (IsQueueEnd (state_of self.old) steps.now (state_of self.new) limit) }
    {
        for step in steps {
            self.take(*step, limit)?;
        }
        Ok(())
    }

    /// Takes an item in, unless it is there already. The failure is the limit where the pairs reach it by this item, and `TooMany` where the items
    /// that are no pairs have no more numbers.
    fn take(&mut self, item: Item, limit: u64) -> Result<(), SolveFailure>
        requires sound { IsSound self.old }
        requires room { self.old.rows.pairs < limit }
        ensures takes { OnOk result (Takes (state_of self.old) (item ∷ []) (state_of self.new)) }
        ensures sound { OnOk result (IsSound self.new) }
        ensures held { OnOk result (IsHeld (state_of self.new) item) }
        ensures room { OnOk result (self.new.rows.pairs < limit) }
        ensures turns { turns_of self.new ≡ turns_of self.old }
        ensures end { IfErr result (IsQueueEnd (state_of self.old) (item ∷ []) (state_of self.new) limit) }
    {
        match item {
            Item::Holds(place, site) => self.take_pair(place, site, limit),
            Item::Runs(_) => self.take_other(item, limit),
            Item::Calls(_, _) => self.take_other(item, limit),
            Item::Constrains(_, _) => self.take_other(item, limit),
        }
    }

    /// Takes a pair in, unless it is there already.
    fn take_pair(&mut self, place: PlaceNo, site: SiteNo, limit: u64) -> Result<(), SolveFailure>
        requires sound { IsSound self.old }
        requires room { self.old.rows.pairs < limit }
        ensures takes { OnOk result (Takes (state_of self.old) (pair_item place.0 site.0 ∷ []) (state_of self.new)) }
        ensures sound { OnOk result (IsSound self.new) }
        ensures held { OnOk result (IsHeld (state_of self.new) (pair_item place.0 site.0)) }
        ensures room { OnOk result (self.new.rows.pairs < limit) }
        ensures turns { turns_of self.new ≡ turns_of self.old }
        ensures end { IfErr result (IsQueueEnd (state_of self.old) (pair_item place.0 site.0 ∷ []) (state_of self.new) limit) }
    {
        let is_below = self.rows.insert(place.0, site.0, limit)?;
        if !is_below {
            return Err(Failure::Cause(SolveFault::PairLimit(limit)));
        }
        Ok(())
    }

    /// Takes another item in, unless it is there already.
    fn take_other(&mut self, item: Item, limit: u64) -> Result<(), SolveFailure>
        requires other { IsOther item }
        requires sound { IsSound self.old }
        requires room { self.old.rows.pairs < limit }
        ensures takes { OnOk result (Takes (state_of self.old) (item ∷ []) (state_of self.new)) }
        ensures sound { OnOk result (IsSound self.new) }
        ensures held { OnOk result (IsHeld (state_of self.new) item) }
        ensures room { OnOk result (self.new.rows.pairs < limit) }
        ensures turns { turns_of self.new ≡ turns_of self.old }
        ensures end { IfErr result (IsQueueEnd (state_of self.old) (item ∷ []) (state_of self.new) limit) }
    {
        if self.others.len() >= MOST_ITEMS {
            return Err(Failure::Cause(SolveFault::TooMany));
        }
        self.others.insert(item)?;
        Ok(())
    }
}
