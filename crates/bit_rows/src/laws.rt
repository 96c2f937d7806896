//! Laws of the numbers of a set, of any set at all.

ghost use Rattle.std.specs.Prelude.{◌≡◌, ◌↔◌, ℕ, [], Contains};
ghost use Rattle.std.specs.List.Sorted.{IsStrictlyIncreasing};
ghost use Rattle.bit_rows.specs.declared.set.NumberSet.{NumberSet as SomeSet};
ghost use Rattle.bit_rows.specs.declared.set.NumberSet.TheVariants.{Empty};
ghost use Rattle.bit_rows.specs.Sets.{IsIn, numbers_of};

/// The list of the numbers of a set has those that are in it, and no others; each is below the next one, so none stands twice; and the empty set has none.
pub fn numbers_are_listed()
    ensures listed { (set : SomeSet) (n : ℕ) → Contains (numbers_of set) n ↔ IsIn set n }
    ensures ascending { (set : SomeSet) → IsStrictlyIncreasing (numbers_of set) }
    ensures none { numbers_of Empty ≡ [] }
{}
