//! Texts by number. A text is found by its bytes, and its number is its place in the order of insertion.

ghost use Rattle.std.specs.Prelude.{◌≡◌, ℕ, ◌+◌, ◌-◌, ◌<◌, ◌≤◌, ◌^◌, ◌↔◌, [], ◌∷◌, ◌++◌, length, take, Err, Some, slice_get, option_copied, IsErr, IsTrue, IfErr, IfOk, IfSome, IfNone, OnOk, OnErr};
ghost use Rattle.failure.specs.declared.Failure.TheVariants.{Cause};
ghost use Rattle.program_index.specs.Limits.{AreTooMany, too_many};
ghost use Rattle.program_index.specs.TextNumbers.{AreDistinct, with_text, Extends};
ghost use Rattle.program_index.specs.FirstPlaces.{StandsNowhere};
ghost use Rattle.program_index.specs.OwnedTexts.{owned_texts, AreIndexed};

use crate::index_failure::{IndexFailure, TooMany};
use failure::Failure;
use std::alloc::{AllocError, Global};
use std::collections::HashMap;
use std::marker::Model;

/// Texts, each of which has a number. Contracts see the list of the texts, in the order of their first insertion.
#[derive(Drop)]
pub struct TextIndex {
    alloc: Global,
    texts: Vec<Vec<u8>>,
    numbers: HashMap<Vec<u8>, u32>,
}

impl Model for TextIndex {
    ghost use Rattle.std.specs.Prelude.{ℕ, List};
    ghost use Rattle.program_index.specs.OwnedTexts.{owned_texts, AreIndexed};

    ghost Value = { List (List ℕ) };

    ghost view = { λ s. owned_texts s.texts.items };

    ghost invariant = { λ s. AreIndexed (owned_texts s.texts.items) s.numbers };
}

impl TextIndex {
    /// An index of no text. It takes no memory.
    pub fn new(alloc: Global) -> Self
        ensures { result ≡ [] }
    {
        TextIndex {
            alloc,
            texts: Vec::new(alloc),
            numbers: HashMap::new(alloc),
        }
    }

    /// How many texts there are.
    pub fn len(&self) -> usize
        ensures count { result ≡ length self.now }
        ensures small { result < 2 ^ 32 }
        ensures distinct { AreDistinct self.now }
    {
        self.texts.len()
    }

    /// Whether there is no text.
    pub fn is_empty(&self) -> bool
        ensures { IsTrue result ↔ (length self.now ≡ 0) }
    {
        self.len() == 0
    }

    /// The number of a text, which goes last if it is not there yet. Its bytes are copied then.
    ///
    /// The failure is `TooMany` where the text is new and there are 2^32 - 1 texts, and else out of memory.
    pub fn intern(&mut self, text: &[u8]) -> Result<u32, IndexFailure>
        ensures stands { IfOk result (λ number. slice_get self.new number ≡ Some text.now) }
        ensures ok { OnOk result (self.new ≡ with_text self.old text.now) }
        ensures extends { Extends self.old self.new }
        ensures err { OnErr result (self.new ≡ self.old) }
        ensures too_many { (result ≡ Err (Cause too_many)) ↔ (StandsNowhere self.old text.now × AreTooMany self.old) }
    {
        if let Some(number) = self.find(text) {
            return Ok(number);
        }
        let number = next_number(self.texts.len())?;
        add(self.alloc, &mut self.texts, &mut self.numbers, text, number)?;
        Ok(number)
    }

    /// The number of a text. It takes no memory, and time linear in the text.
    pub fn find(&self, text: &[u8]) -> Option<u32>
        ensures found { IfSome result (λ number. slice_get self.now number ≡ Some text.now) }
        ensures none { IfNone result (StandsNowhere self.now text.now) }
        ensures only { (number : ℕ) → slice_get self.now number ≡ Some text.now → result ≡ Some number }
    {
        let number = self.numbers.get(text)?;
        Some(*number)
    }

    /// Keeps the first texts, so many of them, and takes the others out.
    pub fn truncate(&mut self, len: usize)
        ensures { self.new ≡ take len self.old }
    {
        for dropped in len..self.texts.len() {
            self.drop_last();
        }
    }

    /// Takes the last text out, if there is one.
    fn drop_last(&mut self)
        ensures { self.new ≡ take (length self.old - 1) self.old }
    {
        if let Some(text) = self.texts.pop() {
            self.numbers.remove(text.as_slice());
        }
    }

    /// The text of a number.
    pub fn text(&self, number: u32) -> Option<&[u8]>
        ensures { option_copied result ≡ slice_get self.now number }
    {
        let text = self.texts.get(number as usize)?;
        Some(text.as_slice())
    }
}

/// Adds a text that is not there last: its number is how many there are.
fn add(
    alloc: Global,
    texts: &mut Vec<Vec<u8>>,
    numbers: &mut HashMap<Vec<u8>, u32>,
    text: &[u8],
    number: u32,
) -> Result<(), AllocError>
    requires indexed { AreIndexed (owned_texts texts.old.items) numbers.old }
    requires fresh { StandsNowhere (owned_texts texts.old.items) text.now }
    requires last { number ≡ length texts.old.items }
    requires room { number + 1 < 2 ^ 32 }
    ensures ok { OnOk result (owned_texts texts.new.items ≡ owned_texts texts.old.items ++ text.now ∷ []) }
    ensures err { OnErr result (owned_texts texts.new.items ≡ owned_texts texts.old.items) }
    ensures indexed { AreIndexed (owned_texts texts.new.items) numbers.new }
{
    let key = Vec::from_slice(alloc, text)?;
    let copy = Vec::from_slice(alloc, text)?;
    texts.push(copy)?;
    if let Err(full) = numbers.insert(key, number) {
        texts.pop();
        return Err(AllocError::from(full));
    }
    Ok(())
}

/// The number of the next item after so many. The failure is `TooMany`, and comes exactly where there are 2^32 - 1 or more.
pub fn next_number(count: usize) -> Result<u32, IndexFailure>
    ensures number { IfOk result (λ number. number ≡ count) }
    ensures room { IfOk result (λ number. number + 1 < 2 ^ 32) }
    ensures err { IsErr result ↔ (2 ^ 32 ≤ count + 1) }
    ensures too_many { IfErr result (λ e. e ≡ Cause too_many) }
{
    if count < u32::MAX as usize {
        Ok(count as u32)
    } else {
        Err(Failure::Cause(TooMany))
    }
}
