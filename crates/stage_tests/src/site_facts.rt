//! Facts that are made rows of a pool and read back; and a set of paths that gets too large.

use access_paths::{Path, PathSet, Root};
use fact_pool::{FactPool, Row};
use fact_rows::{pack_fact, unpack_fact};
use jvm_model::number::FieldNo;
use stage_facts::{PlainFact, PlainTuple};
use std::alloc::AllocError;
use std::process::Abort;
use std::test::Fail;

/// With more rows than these, a pool takes no fact.
const MOST_ROWS: u32 = 4_294_967_280;

/// The paths of so many slots, each of which follows one field. They begin with that of the slot `from`.
fn paths_of_slots(from: u32, count: u32) -> PathSet {
    let mut set = PathSet::empty();
    for slot in from..from.saturating_add(count) {
        let bare = Path::new(Root::Slot(slot));
        set = set.add(&bare.with_field(FieldNo(7)).unwrap_or(bare)).set;
    }
    set
}

/// What is known of an object, with so many must paths and so many must-not paths.
fn tuple_fact(must: u32, must_not: u32) -> PlainFact {
    PlainFact::OfObject(PlainTuple {
        unique: true,
        state: 3,
        must: paths_of_slots(0, must),
        may: false,
        must_not: paths_of_slots(10, must_not),
    })
}

/// The row of a fact, where the pool does not hold as many rows as it may.
fn row_of(pool: &mut FactPool, fact: &PlainFact) -> Result<Row, AllocError> {
    if pool.len() > MOST_ROWS {
        return Err(AllocError);
    }
    pack_fact(fact, pool)
}

/// The row of a fact, and whether the fact that is read from it has the same row.
fn row_and_back(pool: &mut FactPool, fact: &PlainFact) -> Result<(Row, bool), AllocError> {
    if pool.len() > MOST_ROWS {
        return Err(AllocError);
    }
    let row = pack_fact(fact, pool)?;
    let read = unpack_fact(pool, row);
    let again = row_of(pool, &read)?;
    Ok((row, again == row))
}

/// The slot at which a path of the set begins, by the path's place.
fn slot_at(set: &PathSet, index: u8) -> Option<u32> {
    match set.get(index)?.root() {
        Root::Slot(slot) => Some(slot),
        _ => None,
    }
}

#[test]
fn facts_are_rows(rt: HostRuntime) -> Result<(), Fail> {
    let mut pool = FactPool::new(rt.alloc());
    assert_eq!(rt;
        row_and_back(&mut pool, &PlainFact::NoneYet)?,
        (Row(0), true)
    );
    assert_eq!(rt;
        row_and_back(&mut pool, &PlainFact::SomeYet)?,
        (Row(1), true)
    );
    assert_eq!(rt; row_and_back(&mut pool, &tuple_fact(0, 0))?, (Row(2), true));
    assert_eq!(rt; row_and_back(&mut pool, &tuple_fact(2, 1))?, (Row(6), true));
    assert_eq!(rt;
        row_and_back(&mut pool, &tuple_fact(6, 6))?,
        (Row(16), true)
    );
    assert_eq!(rt; row_and_back(&mut pool, &tuple_fact(2, 1))?, (Row(6), true));
    assert_eq!(rt; pool.len(), 17);
    Ok(())
}

#[test]
fn the_words_of_a_fact(rt: HostRuntime) -> Result<(), Fail> {
    let mut pool = FactPool::new(rt.alloc());
    let row = row_of(&mut pool, &tuple_fact(2, 1))?;
    look_at_words(&rt, &pool, row);
    Ok(())
}

/// Looks at the rows of a tuple with two must paths and one must-not path.
fn look_at_words(rt: &impl Abort, pool: &FactPool, row: Row) {
    assert_eq!(rt; pool.len(), 4);
    assert_eq!(rt; row, Row(3));
    assert!(rt; pool.words(Row(1)) == [0, 1, 7].as_slice());
    assert!(rt; pool.words(Row(3)) == [6, 1, 3, 0, 2, 0, 1, 2].as_slice());
}

#[test]
fn a_seventh_path_leaves_the_least_six(rt: HostRuntime) {
    let six = paths_of_slots(1, 6);
    let late = six.add(&Path::new(Root::Returned));
    assert!(rt; late.dropped);
    assert_eq!(rt;
        (late.set.len(), slot_at(&late.set, 0), slot_at(&late.set, 5)),
        (6, Some(1), Some(6))
    );
    let early = six.add(&Path::new(Root::Slot(0)));
    assert!(rt; early.dropped);
    assert_eq!(rt;
        (
            early.set.len(),
            slot_at(&early.set, 0),
            slot_at(&early.set, 5)
        ),
        (6, Some(0), Some(5))
    );
    let again = six.add(
        &paths_of_slots(3, 1)
            .get(0)
            .unwrap_or(Path::new(Root::Thrown)),
    );
    assert!(rt; !again.dropped);
}
