//! The chains by which rows are found: the rows of a bucket, from the last one down. A chain names a row by one more than its number, and
//! ends with 0. So a new row stands first in its chain, and is taken off first.

ghost use Rattle.std.specs.Prelude.{◌≡◌, ℕ, ◌<◌, ◌≤◌, ◌^◌, Some, Contains, IfOk, MatchOption, length, slice_get, vec_len};
ghost use Rattle.std.specs.List.{slice_index};
ghost use Rattle.fact_pool.specs.Chains.{AreChained, AreHeads, IsTable};
ghost use Rattle.fact_pool.specs.Hashes.{bucket_of, hash_of};
ghost use Rattle.fact_pool.specs.Layout.{Ascend, buckets_of, ends_of, rows_of};

use crate::entry::Entry;
use crate::hash::bucket_of;
use crate::layout::{has_words, hash_at};
use crate::row::Row;
use std::alloc::{AllocError, Global};

/// For at least how many rows there are buckets, once there are any.
const LEAST_ROWS: usize = 16;

/// For at most how many rows there are buckets: each number of a row, and one more than it, is a number of 32 bits.
const MOST_ROWS: usize = u32::MAX as usize;

/// The head of the chain of a hash: 0 where there is no bucket.
pub fn head_of(heads: &[u32], hash: u32) -> u32
    requires { length heads.now < 2 ^ 32 }
    ensures { result ≡ slice_index heads.now (bucket_of hash (length heads.now)) }
{
    heads
        .get(bucket_of(hash, heads.len()))
        .copied()
        .unwrap_or(0)
}

/// The heads of empty buckets: `wanted` of them at least, and twice as many as there were. More than 2^32 - 1 are refused.
pub fn empty_heads(alloc: Global, wanted: usize, had: usize) -> Result<Vec<u32>, AllocError>
    requires { had < 2 ^ 32 }
    ensures enough { IfOk result (λ heads. wanted ≤ vec_len heads) }
    ensures no_fewer { IfOk result (λ heads. had ≤ vec_len heads) }
    ensures few { IfOk result (λ heads. vec_len heads < 2 ^ 32) }
    ensures empty { IfOk result (λ heads. (bucket : ℕ) → slice_index heads.items bucket ≡ 0) }
{
    if wanted > MOST_ROWS {
        return Err(AllocError);
    }
    let count = wanted.max(2 * had).max(LEAST_ROWS).min(MOST_ROWS);
    let mut heads = Vec::new(alloc);
    heads.resize(count, 0)?;
    Ok(heads)
}

/// The row with these words, whose hash is given.
pub fn find(
    words: &[u32],
    entries: &[Entry],
    heads: &[u32],
    wanted: &[u32],
    hash: u32,
) -> Option<Row>
    requires table { IsTable words.now entries.now heads.now }
    requires few { length heads.now < 2 ^ 32 }
    requires hash { hash ≡ hash_of wanted.now }
    ensures { MatchOption result (Contains (rows_of words.now entries.now) wanted.now → ⊥)
        (λ row. slice_get (rows_of words.now entries.now) row.0 ≡ Some wanted.now) }
{
    let mut named = head_of(heads, hash);
    while named > 0 {
        let row = named - 1;
        if has_words(words, entries, row as usize, wanted) {
            return Some(Row(row));
        }
        named = entries[row as usize].next;
    }
    None
}

/// Links all rows, where each bucket is empty.
pub fn link_all(words: &[u32], entries: &mut [Entry], heads: &mut [u32])
    requires ascend { Ascend 0 (ends_of entries.old) (length words.now) }
    requires covered { length entries.old ≤ length heads.old }
    requires few { length heads.old < 2 ^ 32 }
    requires empty { (bucket : ℕ) → slice_index heads.old bucket ≡ 0 }
    ensures ends { ends_of entries.new ≡ ends_of entries.old }
    ensures chained { AreChained (rows_of words.now entries.new) entries.new heads.new }
{
    let count = heads.len();
    for row in 0..entries.len() {
        let bucket = bucket_of(hash_at(words, entries, row), count);
        entries[row].next = heads[bucket];
        heads[bucket] = row as u32 + 1;
    }
}

/// Takes rows off their chains, from the last one down to the row `kept`. Each of them is then the first of its chain.
pub fn unlink(words: &[u32], entries: &[Entry], heads: &mut [u32], kept: usize)
    requires ascend { Ascend 0 (ends_of entries.now) (length words.now) }
    requires kept { kept ≤ length entries.now }
    requires covered { length entries.now ≤ length heads.old }
    requires few { length heads.old < 2 ^ 32 }
    requires chained { AreChained (rows_of words.now entries.now) entries.now heads.old }
    ensures { AreHeads (buckets_of (rows_of words.now entries.now) (length heads.old)) kept heads.new }
{
    let count = heads.len();
    let mut held = entries.len();
    while held > kept {
        held -= 1;
        let bucket = bucket_of(hash_at(words, entries, held), count);
        heads[bucket] = entries[held].next;
    }
}
