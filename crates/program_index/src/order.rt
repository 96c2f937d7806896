//! An order in which each class stands after its direct supertypes, or the least class that is its own supertype.

ghost use Rattle.std.specs.Prelude.{◌≡◌, ◌↔◌, ℕ, ◌<◌, ◌^◌, [], length, take, All, IsTrue, IfOk, IfErr, OnOk, IfSome, IfNone};
ghost use Rattle.program_index.specs.ClassSets.{with_classes};
ghost use Rattle.program_index.specs.Supertypes.{AreInRange, IsAbove, direct_of};
ghost use Rattle.program_index.specs.UpwardOrder.{IsUpward, IsLeastOnCycle, HasNoCycle};
ghost use Rattle.program_index.specs.Sorting.{AreIn, IsMissing, IsReady, IsSorting, IsHeld, AreHeld, GoesOn, IsFilled};

use crate::class_set::ClassSet;
use crate::parents::Parents;
use std::alloc::{AllocError, Global};
use std::mem;

/// A direct supertype that is not placed yet.
#[derive(Clone, Copy)]
struct Missing {
    class: u32,
    /// How many of the superinterfaces are known to be placed.
    place: usize,
}

/// A class that waits for a direct supertype to be placed.
#[derive(Clone, Copy)]
struct Waiter {
    class: u32,
    /// How many of its superinterfaces are known to be placed.
    place: usize,
}

/// An order in which each class stands after its direct supertypes; or, where there is none, the least class that is
/// above itself (JVMS 5.3.5). The time for an order is linear in the number of direct supertypes. Where there is a cycle, each
/// class that cannot be placed may cost a walk over all that is above it, until one is found that comes back to itself.
pub fn upward_order(alloc: Global, parents: &[Parents]) -> Result<Result<Vec<u32>, u32>, AllocError>
    requires in_range { AreInRange parents.now }
    requires small { length parents.now < 2 ^ 32 }
    ensures order { IfOk result (λ answer. IfOk answer (λ order. IsUpward parents.now order.items)) }
    ensures cycle { IfOk result (λ answer. IfErr answer (λ c. IsLeastOnCycle parents.now c)) }
{
    let order = place_all(alloc, parents)?;
    match least_on_cycle(alloc, parents, &order)? {
        Some(class) => Ok(Err(class)),
        None => Ok(Ok(order.into_vec())),
    }
}

/// Places each class that can be placed: a class is placed once all its direct supertypes are. Until then it waits in the
/// list of one that is not; when the turn comes to that one, it looks for the next.
fn place_all(alloc: Global, parents: &[Parents]) -> Result<ClassSet, AllocError>
    requires in_range { AreInRange parents.now }
    requires small { length parents.now < 2 ^ 32 }
    ensures { IfOk result (λ order. IsFilled parents.now order) }
{
    let mut order = ClassSet::new(alloc, parents.len())?;
    let mut waiting = empty_lists(alloc, parents.len())?;
    settle_each(parents, &mut order, &mut waiting)?;
    let mut done = 0;
    while done < order.len() {
        let class = order.at(done);
        let released = mem::replace(&mut waiting[class as usize], Vec::new(alloc));
        settle_released(parents, &released, &mut order, &mut waiting)?;
        done += 1;
    }
    Ok(order)
}

/// Each class in turn, of which nothing is known yet.
fn settle_each(
    parents: &[Parents],
    order: &mut ClassSet,
    waiting: &mut Vec<Vec<Waiter>>,
) -> Result<(), AllocError>
    requires in_range { AreInRange parents.now }
    requires small { length parents.now < 2 ^ 32 }
    requires sorting { IsSorting parents.now order.old waiting.old.items }
    ensures sorting { OnOk result (IsSorting parents.now order.new waiting.new.items) }
    ensures held { OnOk result (AreHeld order.new.items waiting.new.items 0 (length parents.now)) }
{
    for class in 0..parents.len() {
        settle(
            parents,
            Waiter {
                class: class as u32,
                place: 0,
            },
            order,
            waiting,
        )?;
    }
    Ok(())
}

/// Those that waited for a class that is placed now.
fn settle_released(
    parents: &[Parents],
    released: &[Waiter],
    order: &mut ClassSet,
    waiting: &mut Vec<Vec<Waiter>>,
) -> Result<(), AllocError>
    requires in_range { AreInRange parents.now }
    requires sorting { IsSorting parents.now order.old waiting.old.items }
    requires ready { All (IsReady parents.now order.old.items) released.now }
    ensures sorting { OnOk result (IsSorting parents.now order.new waiting.new.items) }
    ensures goes_on { OnOk result (GoesOn order.old.items waiting.old.items order.new.items waiting.new.items) }
    ensures held { OnOk result (All (λ (w : Waiter). IsHeld order.new.items waiting.new.items (length order.old.items) w.class) released.now) }
{
    for waiter in released {
        settle(parents, *waiter, order, waiting)?;
    }
    Ok(())
}

/// Places the class if all its direct supertypes are placed, and otherwise lets it wait for one that is not.
fn settle(
    parents: &[Parents],
    waiter: Waiter,
    order: &mut ClassSet,
    waiting: &mut Vec<Vec<Waiter>>,
) -> Result<(), AllocError>
    requires in_range { AreInRange parents.now }
    requires sorting { IsSorting parents.now order.old waiting.old.items }
    requires ready { IsReady parents.now order.old.items waiter }
    ensures sorting { OnOk result (IsSorting parents.now order.new waiting.new.items) }
    ensures goes_on { OnOk result (GoesOn order.old.items waiting.old.items order.new.items waiting.new.items) }
    ensures held { OnOk result (IsHeld order.new.items waiting.new.items (length order.new.items) waiter.class) }
{
    match first_missing(&parents[waiter.class as usize], order, waiter.place) {
        None => order.add(waiter.class)?,
        Some(missing) => {
            let class = waiter.class;
            let place = missing.place;
            waiting[missing.class as usize].push(Waiter { class, place })?;
        }
    }
    Ok(())
}

/// The superclass, or the first superinterface from the place on, that is not placed.
fn first_missing(parents: &Parents, order: &ClassSet, from: usize) -> Option<Missing>
    requires in_range { All (λ (y : ℕ). y < order.now.size) (direct_of parents.now) }
    requires before { AreIn order.now.items (take from parents.now.interfaces.items) }
    ensures none { IfNone result (AreIn order.now.items (direct_of parents.now)) }
    ensures some { IfSome result (λ m. IsMissing parents.now order.now.items m) }
{
    if let Some(class) = parents.super_class {
        if !order.contains(class) {
            return Some(Missing { class, place: from });
        }
    }
    for place in from..parents.interfaces.len() {
        let class = parents.interfaces[place];
        if !order.contains(class) {
            return Some(Missing { class, place });
        }
    }
    None
}

/// An empty list for each number below the count.
pub fn empty_lists<X: Drop>(alloc: Global, count: usize) -> Result<Vec<Vec<X>>, AllocError>
    ensures count { IfOk result (λ lists. length lists.items ≡ count) }
    ensures empty { IfOk result (λ lists. All (λ list. list.items ≡ []) lists.items) }
{
    let mut lists = Vec::new(alloc);
    for _ in 0..count {
        lists.push(Vec::new(alloc))?;
    }
    Ok(lists)
}

/// The least class that is above itself.
fn least_on_cycle(
    alloc: Global,
    parents: &[Parents],
    order: &ClassSet,
) -> Result<Option<u32>, AllocError>
    requires in_range { AreInRange parents.now }
    requires small { length parents.now < 2 ^ 32 }
    requires filled { IsFilled parents.now order.now }
    ensures some { IfOk result (λ found. IfSome found (λ c. IsLeastOnCycle parents.now c)) }
    ensures none { IfOk result (λ found. IfNone found (HasNoCycle parents.now)) }
{
    let mut walked = ClassSet::new(alloc, parents.len())?;
    for class in 0..parents.len() {
        if is_on_cycle(parents, class as u32, order, &mut walked)? {
            return Ok(Some(class as u32));
        }
    }
    Ok(None)
}

/// Whether the class is above itself. One that is placed is not.
fn is_on_cycle(
    parents: &[Parents],
    class: u32,
    order: &ClassSet,
    walked: &mut ClassSet,
) -> Result<bool, AllocError>
    requires in_range { AreInRange parents.now }
    requires class { class < length parents.now }
    requires filled { IsFilled parents.now order.now }
    requires size { walked.old.size ≡ length parents.now }
    ensures size { OnOk result (walked.new.size ≡ length parents.now) }
    ensures answer { IfOk result (λ b. IsTrue b ↔ IsAbove parents.now class class) }
{
    if order.contains(class) {
        return Ok(false);
    }
    is_above_itself(parents, class, walked)
}

/// Whether a walk over all that is above the class comes back to it. The set is the walk's, and is emptied before.
fn is_above_itself(
    parents: &[Parents],
    class: u32,
    walked: &mut ClassSet,
) -> Result<bool, AllocError>
    requires in_range { AreInRange parents.now }
    requires class { class < length parents.now }
    requires size { walked.old.size ≡ length parents.now }
    ensures size { OnOk result (walked.new.size ≡ length parents.now) }
    ensures answer { IfOk result (λ b. IsTrue b ↔ IsAbove parents.now class class) }
{
    walked.clear();
    add_direct(&parents[class as usize], walked)?;
    let mut done = 0;
    while done < walked.len() {
        let next = walked.at(done);
        add_direct(&parents[next as usize], walked)?;
        done += 1;
    }
    Ok(walked.contains(class))
}

/// Adds the direct supertypes of a class.
fn add_direct(parents: &Parents, classes: &mut ClassSet) -> Result<(), AllocError>
    requires { All (λ (y : ℕ). y < classes.old.size) (direct_of parents.now) }
    ensures { OnOk result (classes.new ≡ record { size = classes.old.size; items = with_classes classes.old.items (direct_of parents.now) }) }
{
    classes.add_all(&parents.interfaces)?;
    if let Some(class) = parents.super_class {
        classes.add(class)?;
    }
    Ok(())
}
