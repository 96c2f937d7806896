//! The results of a transfer.

ghost use Rattle.std.specs.Prelude.{◌≡◌, slice_get, option_map};
ghost use Rattle.stage_facts.specs.Plain.{fact_of};
ghost use Rattle.stage_views.specs.Views.{facts_of};

use stage_facts::PlainFact;

/// The facts that a transfer gives: two at most.
#[derive(Drop)]
pub enum Facts {
    None,
    One(PlainFact),
    Two(PlainFact, PlainFact),
}

impl Facts {
    /// The fact at a place, counted from 0; `None` from the number of the facts on.
    pub fn get(&self, index: u8) -> Option<&PlainFact>
        ensures { option_map (λ fact. fact_of fact.now) result ≡ slice_get (facts_of self.now) index }
    {
        match self {
            Facts::None => None,
            Facts::One(fact) => match index {
                0 => Some(fact),
                _ => None,
            },
            Facts::Two(first, second) => match index {
                0 => Some(first),
                1 => Some(second),
                _ => None,
            },
        }
    }
}
