//! The sites of all places: `SiteRows`.

ghost use Rattle.std.specs.Prelude.{◌≡◌, ◌↔◌, ℕ, ◌+◌, ◌<◌, IsTrue, [], length, OnOk, IfOk, MatchOption};
ghost use Rattle.bit_rows.specs.declared.set.NumberSet.TheVariants.{Empty};
ghost use Rattle.bit_rows.specs.Sets.{IsIn, IsInBoth};

use crate::places::{has_site, reach, take_fresh};
use crate::row::SiteRow;
use crate::waiting::{next_place, wait_if};
use bit_rows::NumberSet;
use std::alloc::{AllocError, Global};
use std::collections::VecDeque;

/// The sites of each place by its number, the places that wait, how many pairs there are, and how many of these are passed on.
#[derive(Drop)]
pub struct SiteRows {
    pub rows: Vec<SiteRow>,
    pub waiting: VecDeque<u32>,
    pub pairs: u64,
    pub passed: u64,
    alloc: Global,
}

/// A place, and its sites that were fresh.
#[derive(Drop)]
pub struct FreshSites {
    pub place: u32,
    pub sites: NumberSet,
}

impl SiteRows {
    ghost use Rattle.site_rows.specs.Sound.{AreSound, IsDone, IsTaken};
    ghost use Rattle.site_rows.specs.Rows.{Gains, pairs_in};

    /// No pair. It takes no memory.
    pub fn new(alloc: Global) -> Self
        ensures rows { result.rows.items ≡ [] }
        ensures pairs { result.pairs ≡ 0 }
        ensures sound { AreSound result }
    {
        SiteRows {
            rows: Vec::new(alloc),
            waiting: VecDeque::new(alloc),
            pairs: 0,
            passed: 0,
            alloc,
        }
    }

    /// Adds a pair, and answers whether there are fewer pairs than the limit then. It answers an error where memory runs out.
    pub fn insert(&mut self, place: u32, site: u32, limit: u64) -> Result<bool, AllocError>
        requires sound { AreSound self.old }
        requires room { self.old.pairs < limit }
        ensures gains { OnOk result (Gains self.old.rows.items self.new.rows.items (λ q n. (q ≡ place) × (n ≡ site))) }
        ensures below { IfOk result (λ below. IsTrue below ↔ (pairs_in self.new.rows.items < limit)) }
        ensures sound { IfOk result (λ below. IsTrue below → AreSound self.new) }
        ensures passed { self.new.passed ≡ self.old.passed }
    {
        if has_site(&self.rows, place, site) {
            return Ok(true);
        }
        self.add_set(place, &NumberSet::One(site), limit)
    }

    /// Adds all sites of a set to those of a place, as `insert` adds one.
    pub fn add_set(&mut self, place: u32, sites: &NumberSet, limit: u64) -> Result<bool, AllocError>
        requires sound { AreSound self.old }
        requires room { self.old.pairs < limit }
        ensures gains { OnOk result (Gains self.old.rows.items self.new.rows.items (λ q n. (q ≡ place) × IsIn sites.now n)) }
        ensures below { IfOk result (λ below. IsTrue below ↔ (pairs_in self.new.rows.items < limit)) }
        ensures sound { IfOk result (λ below. IsTrue below → AreSound self.new) }
        ensures passed { self.new.passed ≡ self.old.passed }
    {
        self.add_fitting(place, sites, sites, limit)
    }

    /// Adds the sites of a set that are in the mask too, as `add_set` adds all.
    pub fn add_fitting(
        &mut self,
        place: u32,
        sites: &NumberSet,
        mask: &NumberSet,
        limit: u64,
    ) -> Result<bool, AllocError>
        requires sound { AreSound self.old }
        requires room { self.old.pairs < limit }
        ensures gains { OnOk result (Gains self.old.rows.items self.new.rows.items (λ q n. (q ≡ place) × IsInBoth sites.now mask.now n)) }
        ensures below { IfOk result (λ below. IsTrue below ↔ (pairs_in self.new.rows.items < limit)) }
        ensures sound { IfOk result (λ below. IsTrue below → AreSound self.new) }
        ensures passed { self.new.passed ≡ self.old.passed }
    {
        reach(&mut self.rows, place as usize)?;
        let row = &mut self.rows[place as usize];
        let gain = row.add_fitting(self.alloc, sites, mask)?;
        wait_if(&mut self.waiting, place, gain.wakes)?;
        if gain.count >= limit - self.pairs {
            return Ok(false);
        }
        self.pairs += gain.count;
        Ok(true)
    }

    /// Takes the fresh sites of a place, which are passed on then, or answers that there are none at any place.
    pub fn take(&mut self) -> Option<FreshSites>
        requires sound { AreSound self.old }
        ensures taken { MatchOption result (IsDone self.old self.new) (IsTaken self.old self.new) }
        ensures sound { AreSound self.new }
        ensures pairs { self.new.pairs ≡ self.old.pairs }
    {
        let Some(place) = next_place(&self.rows, &mut self.waiting) else {
            return None;
        };
        let sites = take_fresh(&mut self.rows, place);
        self.passed += sites.count();
        Some(FreshSites { place, sites })
    }
}
