//! The tables of what is numbered.

ghost use Rattle.std.specs.Prelude.{◌≡◌, ◌↔◌, ◌+◌, ◌<◌, ◌^◌, ℕ, true, false, length, map, Some, Err, slice_get, Contains, IfNone, IfOk, IfSome, OnOk, OnErr};
ghost use Rattle.std.specs.List.{list_any};
ghost use Rattle.failure.specs.declared.Failure.TheVariants.{Cause};
ghost use Rattle.program_index.specs.FirstPlaces.{StandsNowhere};
ghost use Rattle.program_index.specs.Limits.{AreTooMany, too_many};
ghost use Rattle.indexmap.specs.IndexSet.{insert_key};
ghost use Rattle.jvm_model.specs.declared.site.Site.{Site};
ghost use Rattle.least_sets.specs.Rules.{IsWithoutDoubles};
ghost use Rattle.points_to_rules.specs.declared.place.Place.{Place as PlaceKey};
ghost use Rattle.points_to_rules.specs.Facts.{Holder};
ghost use Rattle.points_to_rules.specs.Places.{IsHolderIn, holder_from};
ghost use Rattle.points_to_constraints.specs.Items.{CatchChain as ItemCatchChain, CallSite as ItemCallSite, Constraint as ItemConstraint};
ghost use Rattle.points_to_numbers.specs.Numbered.{Grows, IsNumbered, IsSiteAt, IsHolderAt, IsConstraintAt, IsCatchChainAt, IsCallAt, AreApart, AreSingle, none_numbered};

use crate::entries::{CallSite, CatchChain};
use crate::keys::{CallNo, CatchChainNo, ClassNameNo, Constraint, ConstraintNo, SiteKey};
use failure::Failure;
use indexmap::IndexSet;
use jvm_model::SiteNo;
use points_to_rules::{Place, PlaceNo};
use program_index::index_failure::{IndexFailure, TooMany};
use program_index::text_index::{TextIndex, next_number};
use std::alloc::Global;
use std::hash::Hash;
use std::marker::Model;

/// Names of classes, sites, places, constraints, catch chains and calls, each of which has a number. Each name, site, place and constraint has one. Contracts see
/// what they stand for.
#[derive(Drop)]
pub struct Tables {
    classes: TextIndex,
    sites: IndexSet<SiteKey>,
    places: IndexSet<Place>,
    constraints: IndexSet<Constraint>,
    catch_chains: Vec<CatchChain>,
    calls: Vec<CallSite>,
}

impl Model for Tables {
    ghost use Rattle.points_to_numbers.specs.Numbered.{Numbered};

    ghost Value = { Numbered };

    ghost use Rattle.points_to_numbers.specs.Kept.{kept, numbered, IsSound};

    ghost view = { λ t. numbered (kept t) };

    ghost invariant = { λ t. IsSound (kept t) };
}

impl Tables {
    /// Tables of nothing. It takes no memory.
    pub fn new(alloc: Global) -> Tables
        ensures { result ≡ none_numbered }
    {
        Tables {
            classes: TextIndex::new(alloc),
            sites: IndexSet::new(alloc),
            places: IndexSet::new(alloc),
            constraints: IndexSet::new(alloc),
            catch_chains: Vec::new(alloc),
            calls: Vec::new(alloc),
        }
    }

    /// The number of the name of a class or of an array.
    ///
    /// The failure is `TooMany` where it has none yet and there are 2^32 - 1 of them, as with each number here. After a failure the
    /// tables are as they were.
    pub fn class_name(&mut self, name: &[u8]) -> Result<ClassNameNo, IndexFailure>
        ensures same { OnErr result (self.new ≡ self.old) }
        ensures grows { OnOk result (Grows self.old self.new) }
        ensures calls { OnOk result (length self.new.calls ≡ length self.old.calls) }
        ensures stands { IfOk result (λ number. slice_get self.new.classes number.0 ≡ Some name.now) }
        ensures too_many { (result ≡ Err (Cause too_many)) ↔ (StandsNowhere self.old.classes name.now × AreTooMany self.old.classes) }
    {
        let number = self.classes.intern(name)?;
        Ok(ClassNameNo(number))
    }

    /// The number of a site.
    pub fn site(&mut self, key: SiteKey) -> Result<SiteNo, IndexFailure>
        requires { IsNumbered self.old.classes key.class.0 }
        ensures same { OnErr result (self.new ≡ self.old) }
        ensures grows { OnOk result (Grows self.old self.new) }
        ensures calls { OnOk result (length self.new.calls ≡ length self.old.calls) }
        ensures stands { IfOk result (λ number. (s : Site) → IsSiteAt self.old key s → slice_get self.new.sites number.0 ≡ Some s) }
        ensures too_many { (s : Site) → IsSiteAt self.old key s
            → (result ≡ Err (Cause too_many)) ↔ (StandsNowhere self.old.sites s × AreTooMany self.old.sites) }
    {
        self.apart();
        let number = number_of(&mut self.sites, key)?;
        Ok(SiteNo(number))
    }

    /// The number of a place.
    pub fn place(&mut self, place: Place) -> Result<PlaceNo, IndexFailure>
        requires { (h : Holder) × IsHolderAt self.old place h }
        ensures same { OnErr result (self.new ≡ self.old) }
        ensures grows { OnOk result (Grows self.old self.new) }
        ensures calls { OnOk result (length self.new.calls ≡ length self.old.calls) }
        ensures stands { IfOk result (λ number. (h : Holder) → IsHolderAt self.old place h → slice_get self.new.holders number.0 ≡ Some h) }
        ensures too_many { (h : Holder) → IsHolderAt self.old place h
            → (result ≡ Err (Cause too_many)) ↔ (StandsNowhere self.old.holders h × AreTooMany self.old.holders) }
    {
        self.apart();
        let number = number_of(&mut self.places, place)?;
        Ok(PlaceNo(number))
    }

    /// The number of a constraint.
    pub fn constraint(&mut self, constraint: Constraint) -> Result<ConstraintNo, IndexFailure>
        requires { (u : ItemConstraint) × IsConstraintAt self.old constraint u }
        ensures same { OnErr result (self.new ≡ self.old) }
        ensures grows { OnOk result (Grows self.old self.new) }
        ensures calls { OnOk result (length self.new.calls ≡ length self.old.calls) }
        ensures stands { IfOk result (λ number. (u : ItemConstraint) → IsConstraintAt self.old constraint u → slice_get self.new.constraints number.0 ≡ Some u) }
        ensures too_many { result ≡ Err (Cause too_many) → AreTooMany self.old.constraints }
        ensures full { (u : ItemConstraint) → IsConstraintAt self.old constraint u → StandsNowhere self.old.constraints u × AreTooMany self.old.constraints → result ≡ Err (Cause too_many) }
        ensures only_new { (u : ItemConstraint) → IsConstraintAt self.old constraint u → AreSingle self.old → result ≡ Err (Cause too_many) → StandsNowhere self.old.constraints u }
    {
        self.apart();
        let number = number_of(&mut self.constraints, constraint)?;
        Ok(ConstraintNo(number))
    }

    /// The number of a new catch chain.
    pub fn catch_chain(&mut self, catch_chain: CatchChain) -> Result<CatchChainNo, IndexFailure>
        requires { (l : ItemCatchChain) × IsCatchChainAt self.old catch_chain l }
        ensures same { OnErr result (self.new ≡ self.old) }
        ensures grows { OnOk result (Grows self.old self.new) }
        ensures calls { OnOk result (length self.new.calls ≡ length self.old.calls) }
        ensures stands { IfOk result (λ number. (l : ItemCatchChain) → IsCatchChainAt self.old catch_chain l → slice_get self.new.catch_chains number.0 ≡ Some l) }
        ensures too_many { (result ≡ Err (Cause too_many)) ↔ AreTooMany self.old.catch_chains }
    {
        let number = next_number(self.catch_chains.len())?;
        self.catch_chains.push(catch_chain)?;
        Ok(CatchChainNo(number))
    }

    /// The number of a new call.
    pub fn call(&mut self, call: CallSite) -> Result<CallNo, IndexFailure>
        requires { (c : ItemCallSite) × IsCallAt self.old call c }
        ensures same { OnErr result (self.new ≡ self.old) }
        ensures grows { OnOk result (Grows self.old self.new) }
        ensures added { IfOk result (λ number. number.0 ≡ length self.old.calls) }
        ensures one { OnOk result (length self.new.calls ≡ length self.old.calls + 1) }
        ensures stands { IfOk result (λ number. (c : ItemCallSite) → IsCallAt self.old call c → slice_get self.new.calls number.0 ≡ Some c) }
        ensures too_many { (result ≡ Err (Cause too_many)) ↔ AreTooMany self.old.calls }
    {
        let number = next_number(self.calls.len())?;
        self.calls.push(call)?;
        Ok(CallNo(number))
    }

    /// The name of a class or of an array.
    pub fn name_of(&self, class: ClassNameNo) -> &[u8]
        requires { IsNumbered self.now.classes class.0 }
        ensures { slice_get self.now.classes class.0 ≡ Some result.now }
    {
        self.classes.text(class.0).unwrap()
    }

    /// The site of a number.
    pub fn site_of(&self, site: SiteNo) -> SiteKey
        requires { IsNumbered self.now.sites site.0 }
        ensures { (s : Site) → slice_get self.now.sites site.0 ≡ Some s → IsSiteAt self.now result s }
    {
        *self.sites.get_index(site.0 as usize).unwrap()
    }

    /// The place of a number.
    pub fn place_of(&self, place: PlaceNo) -> Place
        requires { IsNumbered self.now.holders place.0 }
        ensures { (h : Holder) → slice_get self.now.holders place.0 ≡ Some h → IsHolderAt self.now result h }
    {
        *self.places.get_index(place.0 as usize).unwrap()
    }

    /// The constraint of a number.
    pub fn constraint_of(&self, constraint: ConstraintNo) -> Constraint
        requires { IsNumbered self.now.constraints constraint.0 }
        ensures { (u : ItemConstraint) → slice_get self.now.constraints constraint.0 ≡ Some u → IsConstraintAt self.now result u }
    {
        *self.constraints.get_index(constraint.0 as usize).unwrap()
    }

    /// The catch chain of a number.
    pub fn catch_chain_of(&self, catch_chain: CatchChainNo) -> &CatchChain
        requires { IsNumbered self.now.catch_chains catch_chain.0 }
        ensures { (l : ItemCatchChain) → slice_get self.now.catch_chains catch_chain.0 ≡ Some l → IsCatchChainAt self.now result.now l }
    {
        &self.catch_chains[catch_chain.0 as usize]
    }

    /// The call of a number.
    pub fn call_of(&self, call: CallNo) -> &CallSite
        requires { IsNumbered self.now.calls call.0 }
        ensures { (c : ItemCallSite) → slice_get self.now.calls call.0 ≡ Some c → IsCallAt self.now result.now c }
    {
        &self.calls[call.0 as usize]
    }

    /// The number of a place, if it has one.
    pub fn known_place(&self, place: Place) -> Option<usize>
        ensures found { IfSome result (λ number. (h : Holder) → IsHolderAt self.now place h → slice_get self.now.holders number ≡ Some h) }
        ensures none { IfNone result ((h : Holder) → IsHolderAt self.now place h → Contains self.now.holders h → ⊥) }
    {
        self.apart();
        self.places.get_index_of(&place)
    }

    /// How many sites are numbered.
    pub fn site_count(&self) -> usize
        ensures count { result ≡ length self.now.sites }
        ensures few { result < 2 ^ 32 }
    {
        self.sites.len()
    }

    /// How many places are numbered.
    pub fn place_count(&self) -> usize
        ensures { result ≡ length self.now.holders }
    {
        self.places.len()
    }

    /// The places, in the order of their numbers. All else is let go.
    pub fn into_places(self) -> IndexSet<Place>
        ensures holders { map (holder_from self.sites) result.keys ≡ self.holders }
        ensures stand { (number : ℕ) (place : PlaceKey) → slice_get result.keys number ≡ Some place → (h : Holder) × IsHolderIn self.sites place h }
        ensures apart { IsWithoutDoubles result.keys }
        ensures few { length result.keys < 2 ^ 32 }
    {
        self.places
    }

    /// Names, sites and places are numbered once. It does nothing.
    pub fn apart(&self)
        ensures { AreApart self.now }
    {
        let _ = self.classes.len();
    }
}

/// The number of a key, which goes last if it is not there yet. The key is looked up once.
///
/// The failure is `TooMany` where the key is new and there are 2^32 - 1 keys, and else out of memory.
fn number_of<K: Eq + Hash + Drop>(keys: &mut IndexSet<K>, key: K) -> Result<u32, IndexFailure>
    requires { length keys.old.keys < 2 ^ 32 }
    ensures keys { OnOk result (keys.new.keys ≡ insert_key K.eq keys.old.keys key) }
    ensures stored { IfOk result (λ number. (k : K) × (slice_get keys.new.keys number ≡ Some k) × (K.eq key k ≡ true)) }
    ensures few { length keys.new.keys < 2 ^ 32 }
    ensures too_many { (result ≡ Err (Cause too_many)) ↔ ((list_any (K.eq key) keys.old.keys ≡ false) × AreTooMany keys.old.keys) }
    ensures err { OnErr result (keys.new.keys ≡ keys.old.keys) }
{
    if keys.len() < u32::MAX as usize {
        let (number, _) = keys.insert_full(key)?;
        return Ok(number as u32);
    }
    match keys.get_index_of(&key) {
        Some(number) => Ok(number as u32),
        None => Err(Failure::Cause(TooMany)),
    }
}
