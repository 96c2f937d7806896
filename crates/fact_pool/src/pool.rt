//! A pool of rows: `FactPool`.

ghost use Rattle.std.specs.Prelude.{◌≡◌, ◌<◌, ◌≤◌, ◌↔◌, [], ◌∷◌, ◌++◌, length, slice_get, take, Contains, IsTrue};
ghost use Rattle.std.specs.Prelude.{IfOk, IsOk, MatchOption, OnErr, OnOk, Some};
ghost use Rattle.fact_pool.specs.Hashes.{hash_of};
ghost use Rattle.fact_pool.specs.Rows.{AreDistinct, HasSpare, IsInterned, IsMarked, KeepsRoom, row_room, word_count, word_room};

use crate::chains::{empty_heads, find, head_of, link_all, unlink};
use crate::entry::Entry;
use crate::hash::{bucket_of, hash_of};
use crate::layout::words_at;
use crate::row::{Mark, Row};
use std::alloc::{AllocError, Global};
use std::marker::Model;

/// How many words all rows have together at most: each place where a row ends is a number of 32 bits.
const MOST_WORDS: usize = u32::MAX as usize;

/// Lists of words, each of which stands once. They go by the number of their row, and keep it until they are released.
#[derive(Drop)]
pub struct FactPool {
    /// The words of all rows, one after another.
    words: Vec<u32>,
    entries: Vec<Entry>,
    /// The head of each bucket's chain. There are as many buckets as there may be rows before more memory is taken.
    heads: Vec<u32>,
    alloc: Global,
}

impl Model for FactPool {
    ghost use Rattle.fact_pool.specs.Rows.{PoolRows};

    ghost Value = { PoolRows };

    ghost use Rattle.fact_pool.specs.Pools.{pool_rows, IsPool};

    ghost view = { pool_rows };

    ghost invariant = { IsPool };
}

impl FactPool {
    /// A pool without rows. It takes no memory.
    pub fn new(alloc: Global) -> Self
        ensures { result.rows ≡ [] }
    {
        FactPool {
            words: Vec::new(alloc),
            entries: Vec::new(alloc),
            heads: Vec::new(alloc),
            alloc,
        }
    }

    /// What holds of every pool: no two rows have the same words, and each number of a row is one of 32 bits.
    pub fn well_formed(&self)
        ensures distinct { AreDistinct self.now.rows }
        ensures few { length self.now.rows ≤ u32.MAX }
    {
        let _ = &self.entries;
    }

    /// How many rows are held.
    pub fn len(&self) -> u32
        ensures { result ≡ length self.now.rows }
    {
        self.entries.len() as u32
    }

    /// Whether no row is held.
    pub fn is_empty(&self) -> bool
        ensures { IsTrue result ↔ (self.now.rows ≡ []) }
    {
        self.entries.is_empty()
    }

    /// Makes room for so many more rows and words, and for some beyond them, as a vector does. It answers an error where memory runs out,
    /// or where there would be room for more than 2^32 - 1 rows, or as many words. Nothing has changed then.
    pub fn reserve(&mut self, rows: u32, words: u32) -> Result<(), AllocError>
        ensures rows { self.new.rows ≡ self.old.rows }
        ensures spare { OnOk result (HasSpare self.new rows words) }
        ensures err { OnErr result (self.new ≡ self.old) }
        ensures room { KeepsRoom self.old self.new }

        // What is spare already takes no memory.
        ensures sure { HasSpare self.old rows words → IsOk result }
    {
        self.make_room(rows, words as usize)
    }

    /// What `reserve` does, for any number of words. All memory is taken before anything changes.
    fn make_room(&mut self, rows: u32, words: usize) -> Result<(), AllocError>
        ensures rows { self.new.rows ≡ self.old.rows }
        ensures spare { OnOk result (HasSpare self.new rows words) }
        ensures err { OnErr result (self.new ≡ self.old) }
        ensures room { KeepsRoom self.old self.new }
        ensures sure { HasSpare self.old rows words → IsOk result }
    {
        if words > MOST_WORDS - self.words.len() {
            return Err(AllocError);
        }
        let held = self.entries.len();
        let wanted = held + rows as usize;
        if wanted <= self.heads.len() {
            return self.words.reserve(words);
        }
        let mut heads = empty_heads(self.alloc, wanted, self.heads.len())?;
        self.entries.reserve_exact(heads.len() - held)?;
        self.words.reserve(words)?;
        link_all(&self.words, &mut self.entries, &mut heads);
        self.heads = heads;
        Ok(())
    }

    /// The number of the row with these words, which becomes the last row where there is none yet. It answers an error where memory runs
    /// out, or where all rows would have more than 2^32 - 1 words together. Nothing has changed then.
    pub fn intern(&mut self, words: &[u32]) -> Result<Row, AllocError>
        requires { length self.old.rows < u32.MAX }
        ensures row { IfOk result (λ row. slice_get self.new.rows row.0 ≡ Some words.now) }
        ensures interned { OnOk result (IsInterned self.old self.new words.now) }
        ensures err { OnErr result (self.new ≡ self.old) }
        ensures room { KeepsRoom self.old self.new }

        // Words that are held, or for which there is room, take no memory.
        ensures sure_of_held { Contains self.old.rows words.now → IsOk result }
        ensures sure_of_spare { HasSpare self.old 1 (length words.now) → IsOk result }
    {
        let hash = hash_of(words);
        if let Some(row) = self.find(words, hash) {
            return Ok(row);
        }
        self.make_room(1, words.len())?;
        Ok(self.add(words, hash))
    }

    /// The row with these words, whose hash is given.
    fn find(&self, words: &[u32], hash: u32) -> Option<Row>
        requires { hash ≡ hash_of words.now }
        ensures { MatchOption result (Contains self.now.rows words.now → ⊥) (λ row. slice_get self.now.rows row.0 ≡ Some words.now) }
    {
        find(&self.words, &self.entries, &self.heads, words, hash)
    }

    /// Adds a row that is not held, for which there is room. The hash of its words is given.
    fn add(&mut self, words: &[u32], hash: u32) -> Row
        requires few { length self.old.rows < u32.MAX }
        requires room { HasSpare self.old 1 (length words.now) }
        requires absent { Contains self.old.rows words.now → ⊥ }
        requires hash { hash ≡ hash_of words.now }
        ensures row { result.0 ≡ length self.old.rows }
        ensures rows { self.new.rows ≡ self.old.rows ++ words.now ∷ [] }
        ensures room_kept { KeepsRoom self.old self.new }
    {
        let row = self.entries.len() as u32;
        let next = head_of(&self.heads, hash);
        let Ok(()) = self.words.extend_from_slice(words) else {
            unreachable!()
        };
        let end = self.words.len() as u32;
        let Ok(()) = self.entries.push(Entry { end, next }) else {
            unreachable!()
        };
        let bucket = bucket_of(hash, self.heads.len());
        self.heads[bucket] = row + 1;
        Row(row)
    }

    /// The words of a row.
    pub fn words(&self, row: Row) -> &[u32]
        requires { row.0 < length self.now.rows }
        ensures { slice_get self.now.rows row.0 ≡ Some result.now }
    {
        words_at(&self.words, &self.entries, row.0 as usize)
    }

    /// A mark after the rows that are held.
    pub fn mark(&self) -> Mark
        ensures rows { result.rows ≡ length self.now.rows }
        ensures words { result.words ≡ word_count self.now.rows }
    {
        Mark {
            rows: self.entries.len() as u32,
            words: self.words.len() as u64,
        }
    }

    /// Gives back all rows after a mark. Their room is spare then. It takes time for the rows that go, and none for those that stay.
    pub fn release(&mut self, mark: Mark)
        requires { IsMarked self.old.rows mark }
        ensures rows { self.new.rows ≡ take mark.rows self.old.rows }
        ensures row_room { row_room self.new ≡ row_room self.old }
        ensures word_room { word_room self.new ≡ word_room self.old }
    {
        let kept = mark.rows as usize;
        unlink(&self.words, &self.entries, &mut self.heads, kept);
        self.entries.truncate(kept);
        self.words.truncate(mark.words as usize);
    }
}
