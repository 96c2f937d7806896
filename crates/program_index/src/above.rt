//! The supertypes of each class through its superinterfaces, in the order in which resolution searches them, and the test
//! whether a class is at or above another.

ghost use Rattle.std.specs.Prelude.{◌≡◌, ◌↔◌, ◌<◌, length, Contains, IsTrue, IfOk, OnOk};
ghost use Rattle.std.specs.List.{AllZip};
ghost use Rattle.std.specs.List.Sorted.{IsNonDecreasing};
ghost use Rattle.program_index.specs.Supertypes.{AreInRange, IsAtOrAbove};
ghost use Rattle.program_index.specs.UpwardOrder.{IsUpward, HasOrder};
ghost use Rattle.program_index.specs.AboveLists.{IsSearched, AreAboveLists, AreListedAbove, AreListedFrom, IsGathered, IsSortedCopy, AreSortedAbove};

use crate::class_set::ClassSet;
use crate::order::empty_lists;
use crate::parents::Parents;
use std::alloc::{AllocError, Global};

/// For each class, by number, all its supertypes through one of its superinterfaces: without doubles, in the order in which
/// resolution searches them (JVMS 5.4.3.2). The order is an upward one, as `upward_order` gives it.
pub fn above_lists(
    alloc: Global,
    parents: &[Parents],
    order: &[u32],
) -> Result<Vec<Vec<u32>>, AllocError>
    requires in_range { AreInRange parents.now }
    requires upward { IsUpward parents.now order.now }
    ensures { IfOk result (λ lists. AreAboveLists parents.now lists.items) }
{
    let mut lists = empty_lists(alloc, parents.len())?;
    let mut gathered = ClassSet::new(alloc, parents.len())?;
    for class in order {
        gather_all(parents, order, &lists, *class, &mut gathered)?;
        lists[*class as usize] = Vec::from_slice(alloc, gathered.as_slice())?;
    }
    Ok(lists)
}

/// What is searched through the superinterfaces of the class, one after another.
fn gather_all(
    parents: &[Parents],
    order: &[u32],
    lists: &[Vec<u32>],
    class: u32,
    gathered: &mut ClassSet,
) -> Result<(), AllocError>
    requires in_range { AreInRange parents.now }
    requires upward { IsUpward parents.now order.now }
    requires class { class < length parents.now }
    requires size { gathered.old.size ≡ length parents.now }
    requires listed { AreListedAbove parents.now lists.now class }
    ensures size { OnOk result (gathered.new.size ≡ length parents.now) }
    ensures searched { OnOk result (IsSearched parents.now class gathered.new.items) }
{
    gathered.clear();
    for interface in &parents[class as usize].interfaces {
        gather(parents, order, lists, *interface, gathered)?;
    }
    Ok(())
}

/// What is searched from the class on: it and its superclasses, each before what is searched through its superinterfaces.
fn gather(
    parents: &[Parents],
    order: &[u32],
    lists: &[Vec<u32>],
    first: u32,
    gathered: &mut ClassSet,
) -> Result<(), AllocError>
    requires in_range { AreInRange parents.now }
    requires upward { IsUpward parents.now order.now }
    requires first { first < length parents.now }
    requires size { gathered.old.size ≡ length parents.now }
    requires listed { AreListedFrom parents.now lists.now first }
    ensures { OnOk result (IsGathered parents.now first gathered.old gathered.new) }
{
    let mut next = Some(first);
    while let Some(class) = next {
        gathered.add(class)?;
        gathered.add_all(&lists[class as usize])?;
        next = parents[class as usize].super_class;
    }
    Ok(())
}

/// The numbers of each list, ascending.
pub fn sorted_lists(alloc: Global, lists: &[Vec<u32>]) -> Result<Vec<Vec<u32>>, AllocError>
    ensures { IfOk result (λ sorted. AllZip IsSortedCopy lists.now sorted.items) }
{
    let mut sorted = Vec::new(alloc);
    for list in lists {
        sorted.push(sorted_copy(alloc, list)?)?;
    }
    Ok(sorted)
}

fn sorted_copy(alloc: Global, list: &Vec<u32>) -> Result<Vec<u32>, AllocError>
    ensures { IfOk result (λ copy. IsSortedCopy list.now copy) }
{
    let mut copy = Vec::from_slice(alloc, list)?;
    copy.sort_unstable();
    Ok(copy)
}

/// Whether the number is in the ascending list, by binary search.
pub fn holds(sorted: &[u32], x: u32) -> bool
    requires { IsNonDecreasing sorted.now }
    ensures { IsTrue result ↔ Contains sorted.now x }
{
    sorted.binary_search(&x).is_ok()
}

/// Whether the upper class is the lower one or above it, by the ascending lists of `sorted_lists` over those of
/// `above_lists`. It searches the list of the lower class and of each of its superclasses.
pub fn is_at_or_above(parents: &[Parents], sorted: &[Vec<u32>], lower: u32, upper: u32) -> bool
    requires in_range { AreInRange parents.now }
    requires ordered { HasOrder parents.now }
    requires lists { AreSortedAbove parents.now sorted.now }
    requires lower { lower < length parents.now }
    ensures { IsTrue result ↔ IsAtOrAbove parents.now lower upper }
{
    let mut class = lower;
    for _ in parents {
        if class == upper {
            return true;
        }
        if holds(&sorted[class as usize], upper) {
            return true;
        }
        let direct = &parents[class as usize];
        match direct.super_class {
            None => return false,
            Some(above) => class = above,
        }
    }
    unreachable!()
}
