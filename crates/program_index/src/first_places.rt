//! A list of keys that may have one more than once, in which the first place of a key is found by hashing.

ghost use Rattle.std.specs.Prelude.{◌≡◌, ◌<◌, ◌^◌, ◌↔◌, [], ◌∷◌, ◌++◌, length, Err, IfSome, IfNone, OnOk, OnErr};
ghost use Rattle.failure.specs.declared.Failure.TheVariants.{Cause};
ghost use Rattle.program_index.specs.FirstPlaces.{IsFirstPlace, StandsNowhere};
ghost use Rattle.program_index.specs.Limits.{AreTooMany, too_many};

use crate::index_failure::IndexFailure;
use crate::numbered_key::NumberedKey;
use crate::text_index::next_number;
use std::alloc::Global;
use std::collections::HashMap;
use std::marker::Model;

/// Keys in the order of their insertion. Contracts see the list.
#[derive(Drop)]
pub struct FirstPlaces {
    keys: Vec<NumberedKey>,
    places: HashMap<NumberedKey, u32>,
}

impl Model for FirstPlaces {
    ghost use Rattle.std.specs.Prelude.{List};
    ghost use Rattle.program_index.specs.declared.numbered_key.NumberedKey.{NumberedKey};
    ghost use Rattle.program_index.specs.KeyPlaces.{ArePlaces};

    ghost Value = { List NumberedKey };

    ghost view = { λ s. s.keys.items };

    ghost invariant = { λ s. ArePlaces s.keys.items s.places };
}

impl FirstPlaces {
    /// No key. It takes no memory.
    pub fn new(alloc: Global) -> Self
        ensures { result ≡ [] }
    {
        FirstPlaces {
            keys: Vec::new(alloc),
            places: HashMap::new(alloc),
        }
    }

    /// How many keys there are.
    pub fn len(&self) -> usize
        ensures count { result ≡ length self.now }
        ensures small { result < 2 ^ 32 }
    {
        self.keys.len()
    }

    /// Adds a key last. The failure is `TooMany` where there are 2^32 - 1 keys, and else out of memory.
    pub fn push(&mut self, key: NumberedKey) -> Result<(), IndexFailure>
        ensures ok { OnOk result (self.new ≡ self.old ++ key ∷ []) }
        ensures err { OnErr result (self.new ≡ self.old) }
        ensures too_many { (result ≡ Err (Cause too_many)) ↔ AreTooMany self.old }
    {
        let place = next_number(self.keys.len())?;
        self.keys.push(key)?;
        if self.places.contains_key(&key) {
            return Ok(());
        }
        if let Err(full) = self.places.insert(key, place) {
            self.keys.pop();
            return Err(IndexFailure::from(full));
        }
        Ok(())
    }

    /// The first place at which a key stands.
    pub fn first(&self, key: &NumberedKey) -> Option<u32>
        ensures found { IfSome result (IsFirstPlace self.now key.now) }
        ensures none { IfNone result (StandsNowhere self.now key.now) }
    {
        self.places.get(key).copied()
    }
}
