//! Sets of the events of an automaton, by their numbers.

ghost use Rattle.std.specs.Prelude.{◌≡◌, ◌<◌, ◌≤◌, ℕ, true, length, take, Some, slice_get, slice_set};

/// The most events of an automaton.
const EVENTS: usize = 32;

/// Which events of an automaton may occur at the objects of a site.
#[derive(Clone, Copy)]
pub(crate) struct EventSet {
    occurs: [bool; EVENTS],
    ghost size: { length occurs ≡ 32 },
}

impl EventSet {
    /// No event.
    pub(crate) fn none() -> EventSet
        ensures { (event : ℕ) → slice_get result.occurs event ≡ Some true → ⊥ }
    {
        EventSet {
            occurs: [false; EVENTS],
        }
    }

    /// Adds the event of a number.
    pub(crate) fn add(&mut self, event: usize)
        requires { event < 32 }
        ensures { self.new.occurs ≡ slice_set self.old.occurs event true }
    {
        self.occurs[event] = true;
    }

    /// Of each of the first events, whether it is in the set.
    pub(crate) fn first(&self, count: usize) -> &[bool]
        requires { count ≤ 32 }
        ensures { result.now ≡ take count self.now.occurs }
    {
        &self.occurs[..count]
    }
}
