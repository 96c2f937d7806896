//! Sets of numbers, at the borders of words of 64 bits.

use bit_rows::{NumberSet, numbers_are_listed};
use std::alloc::{AllocError, Global};
use std::process::Abort;
use std::test::Fail;

/// The set of some numbers.
fn set_of(alloc: Global, numbers: &[u32]) -> Result<NumberSet, AllocError> {
    let mut set = NumberSet::new();
    for number in numbers {
        set.insert(alloc, *number)?;
    }
    Ok(set)
}

/// The numbers of a set, in their order.
fn listed(alloc: Global, set: &NumberSet) -> Result<Vec<u32>, AllocError> {
    let mut numbers = Vec::new(alloc);
    let mut from = 0;
    while let Some(number) = set.next_from(from) {
        numbers.push(number)?;
        if number == u32::MAX {
            return Ok(numbers);
        }
        from = number + 1;
    }
    Ok(numbers)
}

/// Looks at what a set is.
fn see(rt: &impl Abort, set: &NumberSet, numbers: &[u32], expected: &[u32]) {
    assert_eq!(rt; numbers, expected);
    assert_eq!(rt; set.count(), expected.len() as u64);
    assert_eq!(rt; set.is_empty(), expected.is_empty());
    for number in expected {
        assert!(rt; set.contains(*number));
    }
}

#[test]
fn numbers_are_inserted_once(rt: HostRuntime) -> Result<(), Fail> {
    let alloc = rt.alloc();
    let mut set = NumberSet::new();
    let first = set.insert(alloc, 64)?;
    let same = set.insert(alloc, 64)?;
    see(&rt, &set, &listed(alloc, &set)?, &[64]);
    let lower = set.insert(alloc, 0)?;
    let higher = set.insert(alloc, 128)?;
    let within = set.insert(alloc, 65)?;
    let again = set.insert(alloc, 128)?;
    see(&rt, &set, &listed(alloc, &set)?, &[0, 64, 65, 128]);
    assert!(rt; first && lower && higher && within && !same && !again);
    Ok(())
}

#[test]
fn numbers_at_the_borders_of_words(rt: HostRuntime) -> Result<(), Fail> {
    let alloc = rt.alloc();
    let set = set_of(alloc, &[127, 63, 128, 0, 65, 64])?;
    set.well_formed();
    numbers_are_listed();
    see(&rt, &set, &listed(alloc, &set)?, &[0, 63, 64, 65, 127, 128]);
    assert!(rt;
        !set.contains(62) && !set.contains(66) && !set.contains(129) && !set.contains(u32::MAX)
    );
    assert!(rt;
        set.next_from(66) == Some(127)
            && set.next_from(128) == Some(128)
            && set.next_from(129).is_none()
    );
    Ok(())
}

#[test]
fn the_greatest_number(rt: HostRuntime) -> Result<(), Fail> {
    let alloc = rt.alloc();
    let mut set = set_of(alloc, &[u32::MAX])?;
    see(&rt, &set, &listed(alloc, &set)?, &[4294967295]);
    set.insert(alloc, 4294967231)?;
    see(&rt, &set, &listed(alloc, &set)?, &[4294967231, 4294967295]);
    assert!(rt; set.next_from(4294967232) == Some(u32::MAX) && !set.contains(0));
    Ok(())
}

#[test]
fn what_is_new_is_told_apart(rt: HostRuntime) -> Result<(), Fail> {
    let alloc = rt.alloc();
    let other = set_of(alloc, &[63, 64, 128, 200])?;
    let mut set = set_of(alloc, &[64, 0])?;
    let mut fresh = NumberSet::new();
    let first = set.add_set(alloc, &other, &mut fresh)?;
    let again = set.add_set(alloc, &other, &mut fresh)?;
    see(&rt, &set, &listed(alloc, &set)?, &[0, 63, 64, 128, 200]);
    see(&rt, &fresh, &listed(alloc, &fresh)?, &[63, 128, 200]);
    assert!(rt; first == 3 && again == 0);
    Ok(())
}

#[test]
fn a_mask_lets_some_through(rt: HostRuntime) -> Result<(), Fail> {
    let alloc = rt.alloc();
    let other = set_of(alloc, &[63, 64, 128, 200, 201])?;
    let mask = set_of(alloc, &[64, 200, 201, 300])?;
    let mut set = set_of(alloc, &[64])?;
    let mut fresh = set_of(alloc, &[7])?;
    let count = set.add_fitting(alloc, &other, &mask, &mut fresh)?;
    see(&rt, &set, &listed(alloc, &set)?, &[64, 200, 201]);
    see(&rt, &fresh, &listed(alloc, &fresh)?, &[7, 200, 201]);
    assert_eq!(rt; count, 2);
    Ok(())
}

#[test]
fn numbers_are_given_away(rt: HostRuntime) -> Result<(), Fail> {
    let alloc = rt.alloc();
    let mut set = set_of(alloc, &[1, 1000])?;
    let taken = set.take();
    see(&rt, &set, &listed(alloc, &set)?, &[]);
    see(&rt, &taken, &listed(alloc, &taken)?, &[1, 1000]);
    Ok(())
}
