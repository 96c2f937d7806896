//! Words of bits, one after another: how there come to be more of them, and how those of another row are added.

ghost use Rattle.std.specs.Prelude.{◌≡◌, ℕ, ◌+◌, ◌≤◌, ◌^◌, length, slice_index, bit_or, OnOk, OnErr};
ghost use Rattle.bit_rows.specs.Words.{word_at};

use std::alloc::AllocError;

/// Puts so many words without a bit before the words, and so many behind them. It answers an error where memory runs out; the words are then as they were.
pub fn widen(words: &mut Vec<u64>, before: usize, behind: usize) -> Result<(), AllocError>
    requires few { length words.old.items ≤ 2 ^ 32 }
    requires before { before ≤ 2 ^ 32 }
    requires behind { behind ≤ 2 ^ 32 }
    ensures count { OnOk result (length words.new.items ≡ before + length words.old.items + behind) }
    ensures moved { OnOk result ((place : ℕ) → slice_index words.new.items place ≡ word_at before words.old.items place) }
    ensures err { OnErr result (words.new.items ≡ words.old.items) }
{
    let count = before + words.len() + behind;
    words.resize(count, 0)?;
    words.rotate_right(before);
    Ok(())
}

/// Adds the bits of words to those from a place on.
pub fn add_bits(words: &mut Vec<u64>, start: usize, more: &[u64])
    requires { start + length more.now ≤ length words.old.items }
    ensures count { length words.new.items ≡ length words.old.items }
    ensures added { (place : ℕ) → slice_index words.new.items place ≡ bit_or (slice_index words.old.items place) (word_at start more.now place) }
{
    for (k, word) in more.iter().enumerate() {
        words[start + k] |= *word;
    }
}
