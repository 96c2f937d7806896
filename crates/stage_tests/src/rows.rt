//! Rows of words that are held once, and released after a mark.

ghost use Rattle.std.specs.Prelude.{◌<◌, length};

use fact_pool::{FactPool, Row};
use std::alloc::AllocError;
use std::process::Abort;
use std::test::Fail;

/// The row of words, where the pool does not hold as many rows as it may.
fn row_of(pool: &mut FactPool, words: &[u32]) -> Result<Row, AllocError> {
    if pool.len() == u32::MAX {
        return Err(AllocError);
    }
    pool.intern(words)
}

/// The words of a row that is held.
fn words_of(pool: &FactPool, row: Row) -> Option<&[u32]> {
    if row.0 < pool.len() {
        Some(pool.words(row))
    } else {
        None
    }
}

/// Makes words a row after a mark, and releases all after the mark.
fn row_for_a_while(pool: &mut FactPool, words: &[u32]) -> Result<Row, AllocError>
    requires { length pool.old.rows < u32.MAX }
{
    let mark = pool.mark();
    let row = pool.intern(words)?;
    pool.release(mark);
    Ok(row)
}

/// Makes four lists of words rows, of which the third one comes back and the last one is released, and gives their numbers.
fn add_rows(pool: &mut FactPool) -> Result<[Row; 4], AllocError> {
    let first = row_of(pool, &[1, 2])?;
    let empty = row_of(pool, &[])?;
    let again = row_of(pool, &[1, 2])?;
    if pool.len() == u32::MAX {
        return Err(AllocError);
    }
    Ok([first, empty, again, row_for_a_while(pool, &[3])?])
}

/// Looks at the rows of the test below.
fn look_at_rows(rt: &impl Abort, pool: &FactPool) {
    assert_eq!(rt; pool.len(), 3);
    assert!(rt; words_of(pool, Row(0)) == Some([1, 2].as_slice()));
    assert!(rt; words_of(pool, Row(2)) == Some([4].as_slice()));
}

#[test]
fn rows_are_held_once(rt: HostRuntime) -> Result<(), Fail> {
    let mut pool = FactPool::new(rt.alloc());
    assert!(rt; pool.is_empty());
    pool.reserve(2, 8)?;
    assert_eq!(rt; add_rows(&mut pool)?, [Row(0), Row(1), Row(0), Row(2)]);
    assert_eq!(rt; row_of(&mut pool, &[4])?, Row(2));
    assert_eq!(rt; row_of(&mut pool, &[])?, Row(1));
    look_at_rows(&rt, &pool);
    Ok(())
}

/// Looks whether the pool holds the rows of the numbers below this one, and no others.
fn look_at_front(rt: &impl Abort, pool: &FactPool, count: u32) {
    assert_eq!(rt; pool.len(), count);
    for number in 0..count {
        assert!(rt; words_of(pool, Row(number)) == Some([number, 7, number].as_slice()));
    }
}

/// Makes a row of each number from the one to the other. Where memory runs out nothing has changed, and it is tried once more.
fn make_rows(rt: &impl Abort, pool: &mut FactPool, from: u32, to: u32) -> Result<(), AllocError> {
    for number in from..to {
        let words = [number, 7, number];
        if row_of(pool, &words).is_err() {
            look_at_front(rt, pool, number);
            assert_eq!(rt; row_of(pool, &words)?, Row(number));
        }
    }
    Ok(())
}

/// Looks whether each of the rows is found.
fn find_rows(rt: &impl Abort, pool: &mut FactPool, count: u32) -> Result<(), AllocError> {
    for number in 0..count {
        assert_eq!(rt; row_of(pool, &[number, 7, number])?, Row(number));
    }
    Ok(())
}

/// Makes room. Where memory runs out nothing has changed, and it is tried once more.
fn make_room(rt: &impl Abort, pool: &mut FactPool, held: u32) -> Result<(), AllocError> {
    if pool.reserve(1000, 3000).is_err() {
        look_at_front(rt, pool, held);
        pool.reserve(1000, 3000)?;
    }
    Ok(())
}

#[test]
fn rows_are_found_after_growth(rt: HostRuntime) -> Result<(), Fail> {
    let mut pool = FactPool::new(rt.alloc());
    make_rows(&rt, &mut pool, 0, 100)?;
    find_rows(&rt, &mut pool, 100)?;
    make_room(&rt, &mut pool, 100)?;
    make_rows(&rt, &mut pool, 100, 200)?;
    find_rows(&rt, &mut pool, 200)?;
    look_at_front(&rt, &pool, 200);
    Ok(())
}
