//! Orders and cycles of small programs.

ghost use Rattle.std.specs.Prelude.{ℕ, ◌<◌, All, IsTrue, IfOk};
ghost use Rattle.program_index.specs.Supertypes.{AreInRange, direct_of};
ghost use Rattle.program_index.specs.AboveLists.{AreSortedAbove};
ghost use Rattle.program_index.specs.UpwardOrder.{HasOrder, IsUpward};

use program_index::above::{above_lists, is_at_or_above, sorted_lists};
use program_index::order::upward_order;
use program_index::parents::Parents;
use std::alloc::{AllocError, Global};
use std::process::Abort;
use std::test::Fail;

/// A class with these supertypes.
fn class(
    alloc: Global,
    super_class: Option<u32>,
    interfaces: &[u32],
) -> Result<Parents, AllocError> {
    let interfaces = Vec::from_slice(alloc, interfaces)?;
    Ok(Parents {
        super_class,
        interfaces,
    })
}

/// Whether all direct supertypes have numbers below the count.
fn is_in_range(parents: &Parents, count: usize) -> bool
    ensures { IsTrue result → All (λ (y : ℕ). y < count) (direct_of parents.now) }
{
    for interface in &parents.interfaces {
        if *interface as usize >= count {
            return false;
        }
    }
    match parents.super_class {
        Some(class) => (class as usize) < count,
        None => true,
    }
}

/// Whether all numbers stand for classes.
fn are_in_range(parents: &[Parents]) -> bool
    ensures { IsTrue result → AreInRange parents.now }
{
    for direct in parents {
        if !is_in_range(direct, parents.len()) {
            return false;
        }
    }
    true
}

/// The order, or the least class on a cycle, of a program whose numbers are in range.
fn order_of(
    rt: &impl Abort,
    alloc: Global,
    parents: &[Parents],
) -> Result<Result<Vec<u32>, u32>, AllocError>
    ensures in_range { AreInRange parents.now }
    ensures order { IfOk result (λ answer. IfOk answer (λ order. IsUpward parents.now order.items)) }
{
    assert!(rt; are_in_range(parents));
    assert!(rt; parents.len() < 100);
    upward_order(alloc, parents)
}

/// The supertypes of the classes of a program, by number: the superclass and the superinterfaces of each.
fn program_of(alloc: Global, rows: &[(Option<u32>, &[u32])]) -> Result<Vec<Parents>, AllocError> {
    let mut parents = Vec::new(alloc);
    for (super_class, interfaces) in rows {
        parents.push(class(alloc, *super_class, *interfaces)?)?;
    }
    Ok(parents)
}

/// The order of a program, or nothing where a class is above itself.
fn order_in(
    rt: &impl Abort,
    alloc: Global,
    rows: &[(Option<u32>, &[u32])],
) -> Result<Option<Vec<u32>>, AllocError> {
    let parents = program_of(alloc, rows)?;
    Ok(order_of(rt, alloc, &parents)?.ok())
}

/// The least class on a cycle of a program, if there is one.
fn cycle_in(
    rt: &impl Abort,
    alloc: Global,
    rows: &[(Option<u32>, &[u32])],
) -> Result<Option<u32>, AllocError> {
    let parents = program_of(alloc, rows)?;
    Ok(order_of(rt, alloc, &parents)?.err())
}

#[test]
fn a_chain_is_ordered(rt: HostRuntime) -> Result<(), Fail> {
    let chain = [(Some(1), [].as_slice()), (Some(2), &[]), (None, &[])];
    let order = order_in(&rt, rt.alloc(), &chain)?;
    assert!(rt; order.is_some_and(|order| order.as_slice() == [2, 1, 0].as_slice()));
    Ok(())
}

#[test]
fn cycles_are_found(rt: HostRuntime) -> Result<(), Fail> {
    let two = [(None, [1].as_slice()), (None, &[0])];
    assert_eq!(rt; cycle_in(&rt, rt.alloc(), &two)?, Some(0));
    let own = [(None, [].as_slice()), (Some(1), &[0])];
    assert_eq!(rt; cycle_in(&rt, rt.alloc(), &own)?, Some(1));
    let tail = [(Some(1), [].as_slice()), (Some(2), &[]), (None, &[1])];
    assert_eq!(rt; cycle_in(&rt, rt.alloc(), &tail)?, Some(1));
    Ok(())
}

/// Looks at what stands above each class of a ladder of interfaces.
fn look_at_ladder(
    rt: &impl Abort,
    alloc: Global,
    parents: &[Parents],
    order: &[u32],
) -> Result<(), AllocError>
    requires in_range { AreInRange parents.now }
    requires upward { IsUpward parents.now order.now }
{
    let lists = above_lists(alloc, parents, order)?;
    assert_eq!(rt; lists.len(), 7);
    assert_eq!(rt; lists[5].as_slice(), [3, 1, 0, 2, 4].as_slice());
    assert!(rt; lists[6].is_empty());
    look_at_tests(rt, parents, &sorted_lists(alloc, &lists)?);
    Ok(())
}

/// Asks which class of the ladder is above which.
fn look_at_tests(rt: &impl Abort, parents: &[Parents], sorted: &[Vec<u32>])
    requires in_range { AreInRange parents.now }
    requires ordered { HasOrder parents.now }
    requires lists { AreSortedAbove parents.now sorted.now }
{
    assert_eq!(rt; parents.len(), 7);
    assert!(rt; is_at_or_above(parents, sorted, 6, 4));
    assert!(rt; !is_at_or_above(parents, sorted, 4, 3));
}

#[test]
fn a_ladder_is_searched(rt: HostRuntime) -> Result<(), Fail> {
    let rows = [
        (None, [].as_slice()),
        (Some(0), &[]),
        (Some(0), &[]),
        (Some(0), &[1, 2]),
        (Some(0), &[2, 1]),
        (Some(0), &[3, 4]),
        (Some(5), &[]),
    ];
    let parents = program_of(rt.alloc(), &rows)?;
    let Ok(order) = order_of(&rt, rt.alloc(), &parents)? else {
        panic!(rt; "the ladder has no order");
    };
    look_at_ladder(&rt, rt.alloc(), &parents, &order)?;
    Ok(())
}
