//! A row of bits: `BitRow`.

ghost use Rattle.std.specs.Prelude.{◌≡◌, ℕ, true, ◌+◌, ◌*◌, ◌≤◌, ◌<◌, ◌^◌, length, bit_or, OnOk, OnErr, IfOk, MatchOption};
ghost use Rattle.bit_rows.specs.Words.{HasNoneFrom, IsNextOf, IsTrimmed, row_has, word_at, word_of_one};

use crate::words::{add_bits, widen};
use std::alloc::{AllocError, Global};

/// Numbers as bits: the number n is bit n % 64 of the word n / 64. There is at least one number.
#[derive(Drop)]
pub struct BitRow {
    /// The number of the first word.
    first: u32,
    /// The words from the lowest to the highest one that holds a number.
    words: Vec<u64>,
    ghost within: { first + length words.items ≤ 2 ^ 26 },
    ghost trimmed: { IsTrimmed words.items },
}

impl BitRow {
    ghost use Rattle.bit_rows.specs.SetWords.{IsInRow, IsSameRow, row_numbers, row_word};

    /// The row of these words, the first of which has this number.
    pub(crate) fn new(first: u32, words: Vec<u64>) -> Self
        requires within { first + length words.items ≤ 2 ^ 26 }
        requires trimmed { IsTrimmed words.items }
        ensures first { result.first ≡ first }
        ensures words { result.words.items ≡ words.items }
    {
        BitRow { first, words }
    }

    /// The row of one number.
    pub(crate) fn of_one(alloc: Global, number: u32) -> Result<Self, AllocError>
        ensures { IfOk result (λ row. (place : ℕ) → row_word row place ≡ word_of_one number place) }
    {
        let mut words = Vec::new(alloc);
        words.push(1 << (number % 64))?;
        Ok(BitRow::new(number / 64, words))
    }

    /// A row with the same numbers.
    pub(crate) fn copy(&self, alloc: Global) -> Result<Self, AllocError>
        ensures { IfOk result (λ row. IsSameRow self.now row) }
    {
        let mut words = Vec::new(alloc);
        words.extend_from_slice(&self.words)?;
        Ok(BitRow::new(self.first, words))
    }

    /// What holds of every row: it has a number. It does nothing.
    pub(crate) fn well_formed(&self)
        ensures { (n : ℕ) × IsInRow self.now n }
    {
        let _first = self.words[0];
    }

    /// The number of the first word.
    pub(crate) fn first(&self) -> u32
        ensures { result ≡ self.now.first }
    {
        self.first
    }

    /// The number of the word behind the last one.
    pub(crate) fn end(&self) -> u32
        ensures value { result ≡ self.now.first + length self.now.words.items }
        ensures few { result ≤ 2 ^ 26 }
    {
        self.first + self.words.len() as u32
    }

    /// The word with this number.
    pub(crate) fn word(&self, place: u32) -> u64
        ensures { result ≡ row_word self.now place }
    {
        if place < self.first {
            return 0;
        }
        match self.words.get((place - self.first) as usize) {
            Some(word) => *word,
            None => 0,
        }
    }

    /// Adds the numbers of a row. It answers an error where memory runs out; the row is then as it was.
    pub(crate) fn join(&mut self, other: &BitRow) -> Result<(), AllocError>
        ensures joined { OnOk result ((place : ℕ) → row_word self.new place ≡ bit_or (row_word self.old place) (row_word other.now place)) }
        ensures err { OnErr result (IsSameRow self.old self.new) }
    {
        self.join_words(other.first, &other.words)
    }

    /// Adds a number. It answers an error where memory runs out; the row is then as it was.
    pub(crate) fn insert(&mut self, number: u32) -> Result<(), AllocError>
        ensures joined { OnOk result ((place : ℕ) → row_word self.new place ≡ bit_or (row_word self.old place) (word_of_one number place)) }
        ensures err { OnErr result (IsSameRow self.old self.new) }
    {
        self.join_words(number / 64, &[1 << (number % 64)])
    }

    /// Adds the numbers of words, the first of which has this number. The words that are held are moved once at most.
    fn join_words(&mut self, first: u32, words: &[u64]) -> Result<(), AllocError>
        requires within { first + length words.now ≤ 2 ^ 26 }
        requires trimmed { IsTrimmed words.now }
        ensures joined { OnOk result ((place : ℕ) → row_word self.new place ≡ bit_or (row_word self.old place) (word_at first words.now place)) }
        ensures err { OnErr result (IsSameRow self.old self.new) }
    {
        let low = self.first.min(first);
        let end = self.end();
        let high = end.max(first + words.len() as u32);
        widen(
            &mut self.words,
            (self.first - low) as usize,
            (high - end) as usize,
        )?;
        self.first = low;
        add_bits(&mut self.words, (first - low) as usize, words);
        Ok(())
    }

    /// How many numbers there are.
    pub(crate) fn count(&self) -> u64
        ensures { result ≡ length (row_numbers self.now) }
    {
        let mut count = 0;
        for word in &self.words {
            count += u64::from(word.count_ones());
        }
        count
    }

    /// The least number that is not below this one.
    pub(crate) fn next_from(&self, number: u32) -> Option<u32>
        ensures { MatchOption result (HasNoneFrom (IsInRow self.now) number) (IsNextOf (IsInRow self.now) number) }
    {
        let place = number / 64;
        if place < self.first {
            return self.first_from(0);
        }
        let index = (place - self.first) as usize;
        if index >= self.words.len() {
            return None;
        }
        let rest = self.words[index] >> (number % 64);
        if rest != 0 {
            return Some(number + rest.trailing_zeros());
        }
        self.first_from(index + 1)
    }

    /// The least number in the words from this one on, which is counted from the first one.
    fn first_from(&self, index: usize) -> Option<u32>
        requires { index ≤ length self.now.words.items }
        ensures { MatchOption result (HasNoneFrom (IsInRow self.now) (64 * (self.now.first + index))) (IsNextOf (IsInRow self.now) (64 * (self.now.first + index))) }
    {
        for k in index..self.words.len() {
            let word = self.words[k];
            if word != 0 {
                return Some((self.first + k as u32) * 64 + word.trailing_zeros());
            }
        }
        None
    }
}
