//! What a set gets from another one: the numbers that it does not hold yet, by words.

ghost use Rattle.std.specs.Prelude.{◌≡◌, ℕ, ◌+◌, ◌-◌, ◌<◌, ◌≤◌, ◌/◌, ◌%◌, ◌^◌, [], ◌∷◌, length, slice_index, IfOk};
ghost use Rattle.bit_rows.specs.Words.{word_at};
ghost use Rattle.bit_rows.specs.SetWords.{new_word, word_of};

use crate::row::BitRow;
use crate::set::NumberSet;
use std::alloc::{AllocError, Global};

/// Of the numbers that one set offers, those that are in another one too, and that a third one does not hold. It answers an error where memory runs out.
pub(crate) fn new_numbers(
    alloc: Global,
    held: &NumberSet,
    offered: &NumberSet,
    mask: &NumberSet,
) -> Result<NumberSet, AllocError>
    ensures { IfOk result (λ new. (place : ℕ) → word_of new place ≡ new_word held.now offered.now mask.now place) }
{
    let (first, bound) = offered.span();
    let low = first_new(held, offered, mask, first, bound);
    if low == bound {
        return Ok(NumberSet::Empty);
    }
    let end = end_of_new(held, offered, mask, low, bound);
    if end == low + 1 {
        return one_word(alloc, low, new_word(held, offered, mask, low));
    }
    let words = gather(alloc, held, offered, mask, low, end)?;
    Ok(NumberSet::Many(BitRow::new(low, words)))
}

/// The bits that are new in the word with this number.
fn new_word(held: &NumberSet, offered: &NumberSet, mask: &NumberSet, place: u32) -> u64
    ensures { result ≡ new_word held.now offered.now mask.now place }
{
    let fitting = offered.word(place) & mask.word(place);
    fitting ^ (fitting & held.word(place))
}

/// The first word with a new bit, of those from `low` on; or else the end.
fn first_new(held: &NumberSet, offered: &NumberSet, mask: &NumberSet, low: u32, end: u32) -> u32
    requires { low ≤ end }
    ensures from { low ≤ result }
    ensures within { result ≤ end }
    ensures none { (place : ℕ) → low ≤ place → place < result → new_word held.now offered.now mask.now place ≡ 0 }
    ensures some { result < end → 0 < new_word held.now offered.now mask.now result }
{
    for place in low..end {
        if new_word(held, offered, mask, place) != 0 {
            return place;
        }
    }
    end
}

/// The word behind the last one with a new bit, where the word `low` has one.
fn end_of_new(held: &NumberSet, offered: &NumberSet, mask: &NumberSet, low: u32, end: u32) -> u32
    requires below { low < end }
    requires some { 0 < new_word held.now offered.now mask.now low }
    ensures from { low < result }
    ensures within { result ≤ end }
    ensures none { (place : ℕ) → result ≤ place → place < end → new_word held.now offered.now mask.now place ≡ 0 }
    ensures last { 0 < new_word held.now offered.now mask.now (result - 1) }
{
    let mut end = end;
    while new_word(held, offered, mask, end - 1) == 0 {
        end -= 1;
    }
    end
}

/// The new bits of the words from `low` up to the end.
fn gather(
    alloc: Global,
    held: &NumberSet,
    offered: &NumberSet,
    mask: &NumberSet,
    low: u32,
    end: u32,
) -> Result<Vec<u64>, AllocError>
    requires { low ≤ end }
    ensures count { IfOk result (λ words. low + length words.items ≡ end) }
    ensures words { IfOk result (λ words. (k : ℕ) → low + k < end → slice_index words.items k ≡ new_word held.now offered.now mask.now (low + k)) }
{
    let mut words = Vec::with_capacity(alloc, (end - low) as usize)?;
    for place in low..end {
        words.push(new_word(held, offered, mask, place))?;
    }
    Ok(words)
}

/// The set of the numbers of one word, which is not 0.
fn one_word(alloc: Global, place: u32, word: u64) -> Result<NumberSet, AllocError>
    requires few { place < 2 ^ 26 }
    requires some { 0 < word }
    ensures { IfOk result (λ set. (k : ℕ) → word_of set k ≡ word_at place (word ∷ []) k) }
{
    let bit = word.trailing_zeros();
    if word == 1 << bit {
        return Ok(NumberSet::One(place * 64 + bit));
    }
    let mut words = Vec::new(alloc);
    words.push(word)?;
    Ok(NumberSet::Many(BitRow::new(place, words)))
}
