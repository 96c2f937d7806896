//! Ends of path edges, each of which has one number.

use access_paths::{Path, PathSet, Root};
use end_numbers::EndNumbers;
use jvm_model::MethodNo;
use op_model::Spot;
use stage_facts::{PlainFact, PlainTuple};
use std::alloc::AllocError;
use std::process::Abort;
use std::test::Fail;

/// What is known of an object to which a slot refers.
fn fact_of_slot(slot: u32) -> PlainFact {
    PlainFact::OfObject(PlainTuple {
        unique: true,
        state: 1,
        must: PathSet::empty().add(&Path::new(Root::Slot(slot))).set,
        may: false,
        must_not: PathSet::empty(),
    })
}

/// The number of an end at a node of a method, with an object to which a slot refers.
fn at_node(ends: &mut EndNumbers, offset: u32, slot: u32) -> Result<u32, AllocError> {
    let fact = fact_of_slot(slot);
    ends.number(Some(MethodNo(7)), Spot::Node(offset), &fact)
}

/// Numbers ends that differ in their spot, their fact or their method, and the second one again.
fn number_ends(ends: &mut EndNumbers) -> Result<[u32; 6], AllocError> {
    let start = ends.number(None, Spot::Returned, &PlainFact::NoneYet)?;
    let first = at_node(ends, 5, 0)?;
    let other_fact = at_node(ends, 5, 1)?;
    let again = at_node(ends, 5, 0)?;
    let other_spot = at_node(ends, 6, 0)?;
    let returned = ends.number(Some(MethodNo(7)), Spot::Returned, &PlainFact::NoneYet)?;
    Ok([start, first, other_fact, again, other_spot, returned])
}

/// The method and the spot of a number.
fn place_of(ends: &EndNumbers, number: u32) -> Option<(Option<MethodNo>, Spot)> {
    if number < ends.len() {
        Some((ends.method(number), ends.spot(number)))
    } else {
        None
    }
}

/// The number of the end that is read at a number.
fn number_again(ends: &mut EndNumbers, number: u32) -> Result<Option<u32>, AllocError> {
    if number >= ends.len() {
        return Ok(None);
    }
    let end = ends.end(number);
    Ok(Some(ends.number(end.method, end.spot, &end.fact)?))
}

/// Looks at the methods and the spots of the test below.
fn look_at_places(rt: &impl Abort, ends: &EndNumbers) {
    let method = Some(MethodNo(7));
    assert_eq!(rt; ends.len(), 5);
    assert!(rt; place_of(ends, 0) == Some((None, Spot::Returned)));
    assert!(rt; place_of(ends, 2) == Some((method, Spot::Node(5))));
    assert!(rt; place_of(ends, 3) == Some((method, Spot::Node(6))));
    assert!(rt; place_of(ends, 4) == Some((method, Spot::Returned)));
}

#[test]
fn ends_have_one_number(rt: HostRuntime) -> Result<(), Fail> {
    let mut ends = EndNumbers::new(rt.alloc());
    ends.well_formed();
    assert_eq!(rt; number_ends(&mut ends)?, [0, 1, 2, 1, 3, 4]);
    for number in 0..5 {
        assert_eq!(rt; number_again(&mut ends, number)?, Some(number));
    }
    look_at_places(&rt, &ends);
    Ok(())
}
