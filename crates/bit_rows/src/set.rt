//! A set of numbers: `NumberSet`.

ghost use Rattle.std.specs.Prelude.{◌≡◌, ◌↔◌, ℕ, ◌+◌, ◌<◌, ◌≤◌, ◌^◌, [], IsTrue, length, bit_or, if◌then◌else◌, OnOk, OnErr, IfOk, MatchOption};
ghost use Rattle.bit_rows.specs.Words.{word_of_one};

use crate::new_numbers::new_numbers;
use crate::row::BitRow;
use std::alloc::{AllocError, Global};
use std::mem;

/// An ascending set of numbers.
#[derive(Drop)]
pub enum NumberSet {
    /// No number.
    Empty,
    /// This number alone.
    One(u32),
    /// The numbers of a row.
    Many(BitRow),
}

impl NumberSet {
    ghost use Rattle.bit_rows.specs.declared.set.NumberSet.TheVariants.{Empty};
    ghost use Rattle.bit_rows.specs.Sets.{HasAtMost, HasMore, HasNone, HasSame, IsIn, IsInBoth, IsNew, numbers_of};
    ghost use Rattle.bit_rows.specs.SetWords.{row_word, word_of};
    ghost use Rattle.bit_rows.specs.Words.{HasNoneFrom, IsNextOf};

    /// The empty set. It takes no memory.
    pub fn new() -> Self
        ensures { result ≡ Empty }
    {
        NumberSet::Empty
    }

    /// Whether there is no number.
    pub fn is_empty(&self) -> bool
        ensures none { IsTrue result ↔ (numbers_of self.now ≡ []) }
        ensures empty { IsTrue result ↔ (self.now ≡ Empty) }
    {
        match self {
            NumberSet::Empty => true,
            NumberSet::One(_) => false,
            NumberSet::Many(row) => {
                row.well_formed();
                false
            }
        }
    }

    /// Whether a number is in the set.
    pub fn contains(&self, number: u32) -> bool
        ensures { IsTrue result ↔ IsIn self.now number }
    {
        (self.word(number / 64) >> (number % 64)) & 1 == 1
    }

    /// The word with this number of the bits of the set.
    pub(crate) fn word(&self, place: u32) -> u64
        ensures { result ≡ word_of self.now place }
    {
        match self {
            NumberSet::Empty => 0,
            NumberSet::One(number) => lone_word(*number, place),
            NumberSet::Many(row) => row.word(place),
        }
    }

    /// The number of the first word that may have a bit, and of the one behind the last.
    pub(crate) fn span(&self) -> (u32, u32)
        ensures ordered { result.0 ≤ result.1 }
        ensures few { result.1 ≤ 2 ^ 26 }
        ensures before { (place : ℕ) → place < result.0 → word_of self.now place ≡ 0 }
        ensures behind { (place : ℕ) → result.1 ≤ place → word_of self.now place ≡ 0 }
    {
        match self {
            NumberSet::Empty => (0, 0),
            NumberSet::One(number) => (*number / 64, *number / 64 + 1),
            NumberSet::Many(row) => (row.first(), row.end()),
        }
    }

    /// How many numbers there are.
    pub fn count(&self) -> u64
        ensures { result ≡ length (numbers_of self.now) }
    {
        match self {
            NumberSet::Empty => 0,
            NumberSet::One(_) => 1,
            NumberSet::Many(row) => row.count(),
        }
    }

    /// The least number of the set that is not below this one.
    pub fn next_from(&self, number: u32) -> Option<u32>
        ensures { MatchOption result (HasNoneFrom (IsIn self.now) number) (IsNextOf (IsIn self.now) number) }
    {
        match self {
            NumberSet::Empty => None,
            NumberSet::One(held) => next_of_one(*held, number),
            NumberSet::Many(row) => row.next_from(number),
        }
    }

    /// What holds of every set: no number is above those of 32 bits. It does nothing.
    pub fn well_formed(&self)
        ensures { (n : ℕ) → IsIn self.now n → n < 2 ^ 32 }
    {
        let _ = self.span();
    }

    /// Adds a number, and answers whether it is new. It answers an error where memory runs out; the numbers are then those that there were.
    pub fn insert(&mut self, alloc: Global, number: u32) -> Result<bool, AllocError>
        ensures inserted { OnOk result (HasMore self.old self.new (λ n. n ≡ number)) }
        ensures new { IfOk result (λ new. IsTrue new ↔ (IsIn self.old number → ⊥)) }
        ensures count { IfOk result (λ new. length (numbers_of self.new) ≡ length (numbers_of self.old) + (if new then 1 else 0)) }
        ensures err { OnErr result (HasSame self.old self.new) }
    {
        if self.contains(number) {
            return Ok(false);
        }
        self.add_number(alloc, number)?;
        Ok(true)
    }

    /// Adds the numbers of another set. Those that are new are added to `fresh` too. It answers how many these are, and an error where memory runs
    /// out; each set has then what it had, and at most some of what it would have got.
    pub fn add_set(
        &mut self,
        alloc: Global,
        other: &NumberSet,
        fresh: &mut NumberSet,
    ) -> Result<u64, AllocError>
        ensures added { OnOk result (HasMore self.old self.new (IsIn other.now)) }
        ensures fresh { OnOk result (HasMore fresh.old fresh.new (IsNew self.old (IsIn other.now))) }
        ensures count { IfOk result (λ count. length (numbers_of self.new) ≡ length (numbers_of self.old) + count) }
        ensures fresh_count { IfOk result (λ count. HasNone fresh.old (IsNew self.old (IsIn other.now)) → length (numbers_of fresh.new) ≡ length (numbers_of fresh.old) + count) }
        ensures err { OnErr result (HasAtMost self.old self.new (IsIn other.now)) }
        ensures fresh_err { OnErr result (HasAtMost fresh.old fresh.new (IsNew self.old (IsIn other.now))) }
    {
        self.add_fitting(alloc, other, other, fresh)
    }

    /// Adds the numbers of another set that are in the mask too, as `add_set` adds all.
    pub fn add_fitting(
        &mut self,
        alloc: Global,
        other: &NumberSet,
        mask: &NumberSet,
        fresh: &mut NumberSet,
    ) -> Result<u64, AllocError>
        ensures added { OnOk result (HasMore self.old self.new (IsInBoth other.now mask.now)) }
        ensures fresh { OnOk result (HasMore fresh.old fresh.new (IsNew self.old (IsInBoth other.now mask.now))) }
        ensures count { IfOk result (λ count. length (numbers_of self.new) ≡ length (numbers_of self.old) + count) }
        ensures fresh_count { IfOk result (λ count. HasNone fresh.old (IsNew self.old (IsInBoth other.now mask.now)) → length (numbers_of fresh.new) ≡ length (numbers_of fresh.old) + count) }
        ensures err { OnErr result (HasAtMost self.old self.new (IsInBoth other.now mask.now)) }
        ensures fresh_err { OnErr result (HasAtMost fresh.old fresh.new (IsNew self.old (IsInBoth other.now mask.now))) }
    {
        let new = new_numbers(alloc, self, other, mask)?;
        let count = new.count();
        self.unite(alloc, &new)?;
        fresh.absorb(alloc, new)?;
        Ok(count)
    }

    /// Adds the numbers of another set. It answers an error where memory runs out; the numbers are then those that there were.
    fn unite(&mut self, alloc: Global, other: &NumberSet) -> Result<(), AllocError>
        ensures united { OnOk result ((place : ℕ) → word_of self.new place ≡ bit_or (word_of self.old place) (word_of other.now place)) }
        ensures err { OnErr result ((place : ℕ) → word_of self.new place ≡ word_of self.old place) }
    {
        match other {
            NumberSet::Empty => Ok(()),
            NumberSet::One(number) => self.add_number(alloc, *number),
            NumberSet::Many(row) => self.add_row(alloc, row),
        }
    }

    /// What `unite` does with a set that is not needed any more.
    fn absorb(&mut self, alloc: Global, other: NumberSet) -> Result<(), AllocError>
        ensures united { OnOk result ((place : ℕ) → word_of self.new place ≡ bit_or (word_of self.old place) (word_of other place)) }
        ensures err { OnErr result ((place : ℕ) → word_of self.new place ≡ word_of self.old place) }
    {
        if self.is_empty() {
            *self = other;
            return Ok(());
        }
        self.unite(alloc, &other)
    }

    /// Adds a number. It answers an error where memory runs out; the numbers are then those that there were.
    fn add_number(&mut self, alloc: Global, number: u32) -> Result<(), AllocError>
        ensures united { OnOk result ((place : ℕ) → word_of self.new place ≡ bit_or (word_of self.old place) (word_of_one number place)) }
        ensures err { OnErr result ((place : ℕ) → word_of self.new place ≡ word_of self.old place) }
    {
        match self {
            NumberSet::Empty => {
                *self = NumberSet::One(number);
                Ok(())
            }
            NumberSet::One(held) => {
                let mut row = BitRow::of_one(alloc, *held)?;
                row.insert(number)?;
                *self = NumberSet::Many(row);
                Ok(())
            }
            NumberSet::Many(row) => row.insert(number),
        }
    }

    /// Adds the numbers of a row. It answers an error where memory runs out; the numbers are then those that there were.
    fn add_row(&mut self, alloc: Global, other: &BitRow) -> Result<(), AllocError>
        ensures united { OnOk result ((place : ℕ) → word_of self.new place ≡ bit_or (word_of self.old place) (row_word other.now place)) }
        ensures err { OnErr result ((place : ℕ) → word_of self.new place ≡ word_of self.old place) }
    {
        match self {
            NumberSet::Empty => {
                *self = NumberSet::Many(other.copy(alloc)?);
                Ok(())
            }
            NumberSet::One(held) => {
                let mut row = other.copy(alloc)?;
                row.insert(*held)?;
                *self = NumberSet::Many(row);
                Ok(())
            }
            NumberSet::Many(row) => row.join(other),
        }
    }

    /// Gives the numbers away, and leaves the empty set.
    pub fn take(&mut self) -> Self
        ensures given { result ≡ self.old }
        ensures left { self.new ≡ Empty }
    {
        mem::replace(self, NumberSet::Empty)
    }
}

/// The number that a set holds alone, if it is not below another one.
fn next_of_one(held: u32, number: u32) -> Option<u32>
    ensures { MatchOption result (held < number) (λ n. (n ≡ held) × (number ≤ held)) }
{
    if number <= held {
        return Some(held);
    }
    None
}

/// The word with this number of the bits of a set of one number.
fn lone_word(number: u32, place: u32) -> u64
    ensures { result ≡ word_of_one number place }
{
    if number / 64 == place {
        return 1 << (number % 64);
    }
    0
}
