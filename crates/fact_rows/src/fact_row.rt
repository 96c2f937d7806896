//! A fact as a row: what kind of fact it is, and of a tuple its parts, with the rows of its paths.

ghost use Rattle.std.specs.Prelude.{◌≡◌, List, ◌+◌, ◌*◌, ◌<◌, ◌≤◌, ◌^◌, length, IfOk, IsOk, OnErr, OnOk};
ghost use Rattle.arrayvec.specs.ArrayVec.{array_vec_len};
ghost use Rattle.access_paths.specs.Paths.{Path as AccessPath};
ghost use Rattle.fact_pool.specs.Rows.{HasSpare, KeepsRoom};
ghost use Rattle.stage_facts.specs.Facts.{of_object, SiteFact, Tuple};
ghost use Rattle.stage_facts.specs.Plain.{fact_of};
ghost use Rattle.fact_rows.specs.FactRows.{first_words, word_of, AreTupleWords, IsFactRow, SetHasRows};
ghost use Rattle.fact_rows.specs.Packing.{GetsRows, GrowsBy};
ghost use Rattle.fact_rows.specs.PathRows.{KeepsRows, SpendsAtMost};

use crate::path_row::{pack_path, unpack_path};
use access_paths::PathSet;
use arrayvec::ArrayVec;
use fact_pool::{FactPool, Row};
use stage_facts::{PlainFact, PlainTuple};
use std::alloc::AllocError;

/// A row of a fact has so many words at most.
const MOST_WORDS: usize = 17;

/// The row of a fact, which becomes the last row where there is none yet; so do the rows of its paths, before it. It answers an error where
/// memory runs out. The rows are then those that there were.
pub fn pack_fact(fact: &PlainFact, pool: &mut FactPool) -> Result<Row, AllocError>
    requires { length pool.old.rows + 16 ≤ 2 ^ 32 }
    ensures row { IfOk result (λ row. IsFactRow pool.new.rows row.0 (fact_of fact.now)) }
    ensures kept { KeepsRows pool.old.rows pool.new.rows }
    ensures spends { OnOk result (SpendsAtMost 13 77 pool.old pool.new) }
    ensures err { OnErr result (pool.new.rows ≡ pool.old.rows) }
    ensures room { KeepsRoom pool.old pool.new }

    // Thirteen rows and 77 words that are spare take no memory.
    ensures sure { HasSpare pool.old 13 77 → IsOk result }
{
    match fact {
        PlainFact::NoneYet => pool.intern(&[4]),
        PlainFact::SomeYet => pool.intern(&[5]),
        PlainFact::OfObject(tuple) => pack_tuple(tuple, pool),
    }
}

/// What `pack_fact` does, for a tuple.
fn pack_tuple(tuple: &PlainTuple, pool: &mut FactPool) -> Result<Row, AllocError>
    requires { length pool.old.rows + 16 ≤ 2 ^ 32 }
    ensures row { IfOk result (λ row. IsFactRow pool.new.rows row.0 (of_object tuple.now)) }
    ensures kept { KeepsRows pool.old.rows pool.new.rows }
    ensures spends { OnOk result (SpendsAtMost 13 77 pool.old pool.new) }
    ensures err { OnErr result (pool.new.rows ≡ pool.old.rows) }
    ensures room { KeepsRoom pool.old pool.new }
    ensures sure { HasSpare pool.old 13 77 → IsOk result }
{
    let mark = pool.mark();
    match tuple_row(tuple, pool) {
        Ok(row) => Ok(row),
        Err(error) => {
            pool.release(mark);
            Err(error)
        }
    }
}

/// The row of a tuple. Where it answers an error, rows of paths may have been added.
fn tuple_row(tuple: &PlainTuple, pool: &mut FactPool) -> Result<Row, AllocError>
    requires { length pool.old.rows + 16 ≤ 2 ^ 32 }
    ensures row { IfOk result (λ row. IsFactRow pool.new.rows row.0 (of_object tuple.now)) }
    ensures kept { KeepsRows pool.old.rows pool.new.rows }
    ensures spends { OnOk result (SpendsAtMost 13 77 pool.old pool.new) }
    ensures room { KeepsRoom pool.old pool.new }
    ensures sure { HasSpare pool.old 13 77 → IsOk result }
{
    tuple.must.well_formed();
    tuple.must_not.well_formed();
    let mut words = first_words(tuple);
    pack_paths(&tuple.must, pool, &mut words)?;
    pack_paths(&tuple.must_not, pool, &mut words)?;
    pool.intern(words.as_slice())
}

/// The words of a tuple before the rows of its paths.
fn first_words(tuple: &PlainTuple) -> ArrayVec<u32, MOST_WORDS>
    ensures words { result.items ≡ first_words tuple.now }
    ensures len { array_vec_len result ≡ 5 }
    ensures state { tuple.now.state ≤ u8.MAX }
{
    let mut words = ArrayVec::new();
    words.push(6);
    words.push(word_of(tuple.unique));
    words.push(u32::from(tuple.state));
    words.push(word_of(tuple.may));
    words.push(tuple.must.len() as u32);
    words
}

/// 1 for yes, and 0 for no.
fn word_of(holds: bool) -> u32
    ensures { result ≡ word_of holds }
{
    if holds { 1 } else { 0 }
}

/// Makes the paths rows, and puts the numbers of these behind the words.
fn pack_paths(
    set: &PathSet,
    pool: &mut FactPool,
    words: &mut ArrayVec<u32, MOST_WORDS>,
) -> Result<(), AllocError>
    requires few { length pool.old.rows + length set.now < 2 ^ 32 }
    requires fits { array_vec_len words.old + length set.now ≤ 17 }
    ensures rows { OnOk result (GetsRows pool.new.rows set.now words.old.items words.new.items) }
    ensures len { OnOk result (array_vec_len words.new ≡ array_vec_len words.old + length set.now) }
    ensures grows { OnOk result (GrowsBy (length set.now) pool.old pool.new) }
    ensures kept { KeepsRows pool.old.rows pool.new.rows }
    ensures room { KeepsRoom pool.old pool.new }
    ensures sure { HasSpare pool.old (length set.now) (5 * length set.now) → IsOk result }
{
    for path in set.as_slice() {
        let row = pack_path(path, pool)?;
        words.push(row.0);
    }
    Ok(())
}

/// The fact of a row.
pub fn unpack_fact(pool: &FactPool, row: Row) -> PlainFact
    requires { (fact : SiteFact) × IsFactRow pool.now.rows row.0 fact }
    ensures { (fact : SiteFact) → IsFactRow pool.now.rows row.0 fact → fact_of result ≡ fact }
{
    let words = pool.words(row);
    match words[0] {
        4 => PlainFact::NoneYet,
        5 => PlainFact::SomeYet,
        _ => PlainFact::OfObject(unpack_tuple(pool, words)),
    }
}

/// The tuple of these words.
fn unpack_tuple(pool: &FactPool, words: &[u32]) -> PlainTuple
    requires { (tuple : Tuple) × AreTupleWords pool.now.rows words.now tuple }
    ensures { (tuple : Tuple) → AreTupleWords pool.now.rows words.now tuple → result ≡ tuple }
{
    let (must, must_not) = words[5..].split_at(words[4] as usize);
    PlainTuple {
        unique: words[1] == 1,
        state: words[2] as u8,
        must: unpack_paths(pool, must),
        may: words[3] == 1,
        must_not: unpack_paths(pool, must_not),
    }
}

/// The set whose paths have these rows.
fn unpack_paths(pool: &FactPool, numbers: &[u32]) -> PathSet
    requires { (set : List AccessPath) × SetHasRows pool.now.rows set numbers.now }
    ensures { (set : List AccessPath) → SetHasRows pool.now.rows set numbers.now → result ≡ set }
{
    let mut set = PathSet::empty();
    for number in numbers {
        set = set.add(&unpack_path(pool, Row(*number))).set;
    }
    set
}
