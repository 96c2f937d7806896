//! Lists by number.

ghost use Rattle.std.specs.Prelude.{◌≡◌, ◌↔◌, ℕ, ◌<◌, [], ◌∷◌, ◌++◌, IsTrue, Some, length, slice_get, Contains, MatchOption, OnErr, OnOk};
ghost use Rattle.chained_lists.specs.Entries.{HasNoneFrom, IsNext, IsOn, entry, passed};
ghost use Rattle.chained_lists.specs.Chained.{IsNamed};

use crate::links::{Head, Link, first_of, first_with_one, grow, join, later_name, place_named};
use crate::place::Place;
use std::alloc::{AllocError, Global};
use std::marker::Model;

/// For each number the values that were added, in their order. Contracts see all values with their numbers, in the order in which they were added.
#[derive(Drop)]
pub struct Chains {
    heads: Vec<Head>,
    links: Vec<Link>,
}

impl Model for Chains {
    ghost use Rattle.std.specs.Prelude.{List};
    ghost use Rattle.chained_lists.specs.Entries.{Entry};

    ghost Value = { List Entry };

    ghost use Rattle.chained_lists.specs.Chained.{AreChained, entries_of};

    ghost view = { λ c. entries_of c.heads.items c.links.items };

    ghost invariant = { λ c. AreChained (entries_of c.heads.items c.links.items) c.heads.items c.links.items };
}

impl Chains {
    /// No value at any number. It takes no memory.
    pub fn new(alloc: Global) -> Self
        ensures { result ≡ [] }
    {
        Chains {
            heads: Vec::new(alloc),
            links: Vec::new(alloc),
        }
    }

    /// Adds a value at the end of the list of a number. It answers an error where memory runs out, or places, of which there are 2^32 - 1; the lists are then
    /// as they were.
    pub fn add(&mut self, number: u32, value: u32) -> Result<(), AllocError>
        ensures added { OnOk result (self.new ≡ self.old ++ entry number value ∷ []) }
        ensures same { OnErr result (self.new ≡ self.old) }
    {
        if self.links.len() >= u32::MAX as usize {
            return Err(AllocError);
        }
        grow(&mut self.heads, number as usize)?;
        let next = first_with_one(&self.heads, &self.links, number as usize);
        self.links.push(Link { value, next })?;
        join(&mut self.heads, &mut self.links, number as usize);
        Ok(())
    }

    /// The place of the value that comes next in the list of a number, after a place of that list; or of the first one.
    pub fn after(&self, number: u32, last: Option<Place>) -> Option<Place>
        requires { IsOn self.now number last }
        ensures { MatchOption result (HasNoneFrom self.now number (passed last)) (λ p. IsNext self.now number (passed last) p.0) }
    {
        place_named(self.name_after(number, last))
    }

    /// The name of that value.
    fn name_after(&self, number: u32, last: Option<Place>) -> u32
        requires { IsOn self.now number last }
        ensures { IsNamed self.now number (passed last) result }
    {
        match last {
            None => first_of(&self.heads, &self.links, number as usize),
            Some(place) => later_name(place, self.links[place.0 as usize].next),
        }
    }

    /// The value at a place.
    pub fn value(&self, place: Place) -> u32
        requires { place.0 < length self.now }
        ensures { (number value : ℕ) → slice_get self.now place.0 ≡ Some (entry number value) → result ≡ value }
    {
        self.links[place.0 as usize].value
    }

    /// Whether a value is in the list of a number. It walks the list.
    pub fn has(&self, number: u32, value: u32) -> bool
        ensures { IsTrue result ↔ Contains self.now (entry number value) }
    {
        let mut last = None;
        while let Some(place) = self.after(number, last) {
            if self.value(place) == value {
                return true;
            }
            last = Some(place);
        }
        false
    }
}
