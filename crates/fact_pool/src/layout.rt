//! The words of a row, where those of all rows stand one after another, and their hash.

ghost use Rattle.std.specs.Prelude.{◌≡◌, ℕ, ◌<◌, ◌≤◌, ◌↔◌, ◌∷◌, List, Some, IsTrue, length, slice_get};
ghost use Rattle.std.specs.List.{slice_index};
ghost use Rattle.fact_pool.specs.Hashes.{hash_of};
ghost use Rattle.fact_pool.specs.Layout.{Ascend, ends_of, rows_of};

use crate::entry::Entry;
use crate::hash::hash_of;

/// Where the words of a row begin, or those of one more row would.
fn start_of(entries: &[Entry], row: usize) -> usize
    requires { row ≤ length entries.now }
    ensures { result ≡ slice_index (0 ∷ ends_of entries.now) row }
{
    if row == 0 {
        0
    } else {
        entries[row - 1].end as usize
    }
}

/// The words of a row.
pub fn words_at<'a>(words: &'a [u32], entries: &[Entry], row: usize) -> &'a [u32]
    requires held { row < length entries.now }
    requires ascend { Ascend 0 (ends_of entries.now) (length words.now) }
    ensures { slice_get (rows_of words.now entries.now) row ≡ Some result.now }
{
    let start = start_of(entries, row);
    let end = start_of(entries, row + 1);
    words.split_at(end).0.split_at(start).1
}

/// Whether a row has these words.
pub fn has_words(words: &[u32], entries: &[Entry], row: usize, wanted: &[u32]) -> bool
    requires held { row < length entries.now }
    requires ascend { Ascend 0 (ends_of entries.now) (length words.now) }
    ensures { IsTrue result ↔ (slice_get (rows_of words.now entries.now) row ≡ Some wanted.now) }
{
    words_at(words, entries, row) == wanted
}

/// The hash of the words of a row.
pub fn hash_at(words: &[u32], entries: &[Entry], row: usize) -> u32
    requires held { row < length entries.now }
    requires ascend { Ascend 0 (ends_of entries.now) (length words.now) }
    ensures { (own : List ℕ) → slice_get (rows_of words.now entries.now) row ≡ Some own → result ≡ hash_of own }
{
    hash_of(words_at(words, entries, row))
}
