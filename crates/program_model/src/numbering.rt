//! The numbers of classes: each class has its place in byte order of the names as its number, and its supertypes by number.

ghost use Rattle.std.specs.Prelude.{◌≡◌, ◌<◌, ◌^◌, length, map, Some, All, Contains, IfOk};
ghost use Rattle.jvm_model.specs.Linking.{class_from, names};
ghost use Rattle.program_model.specs.ByteOrder.{IsAscending};
ghost use Rattle.program_model.specs.Numbering.{AreParents, HasNames, IsParents, name_in};

use crate::origin::{interface_count, interface_name, name, super_name};
use crate::sorted::find_in_order;
use jvm_model::{Bytes, Origin, Sequence};
use program_index::parents::Parents;
use std::alloc::{AllocError, Global};

/// The names of classes, as copies.
pub fn names_of(alloc: Global, order: &[Origin]) -> Result<Vec<Bytes>, AllocError>
    ensures { IfOk result (λ all. all.items ≡ names order.now) }
{
    let mut all = Vec::with_capacity(alloc, order.len())?;
    for origin in order {
        all.push(copy_of(alloc, name(origin))?)?;
    }
    Ok(all)
}

/// A text of its own.
fn copy_of(alloc: Global, text: &[u8]) -> Result<Bytes, AllocError>
    ensures { IfOk result (λ copy. copy ≡ text.now) }
{
    Ok(Sequence::from_vec(Vec::from_slice(alloc, text)?))
}

/// The supertypes of each class, by number.
pub fn parents_of_all(
    alloc: Global,
    all: &[Bytes],
    order: &[Origin],
) -> Result<Vec<Parents>, AllocError>
    requires ascending { IsAscending all.now }
    requires small { length all.now < 2 ^ 32 }
    requires named { all.now ≡ names order.now }
    requires there { All (λ origin. HasNames all.now (class_from origin)) order.now }
    ensures { IfOk result (λ parents. AreParents order.now parents.items) }
{
    let mut parents = Vec::with_capacity(alloc, order.len())?;
    for origin in order {
        parents.push(parents_of(alloc, all, origin)?)?;
    }
    Ok(parents)
}

/// The supertypes of a class, by number.
fn parents_of(alloc: Global, all: &[Bytes], origin: &Origin) -> Result<Parents, AllocError>
    requires ascending { IsAscending all.now }
    requires small { length all.now < 2 ^ 32 }
    requires there { HasNames all.now (class_from origin.now) }
    ensures { IfOk result (λ parents. IsParents all.now (class_from origin.now) parents) }
{
    let super_class = match super_name(origin) {
        Some(name) => Some(number_of(all, name)),
        None => None,
    };
    let interfaces = interfaces_of(alloc, all, origin)?;
    Ok(Parents {
        super_class,
        interfaces,
    })
}

/// The superinterfaces of a class, by number.
fn interfaces_of(alloc: Global, all: &[Bytes], origin: &Origin) -> Result<Vec<u32>, AllocError>
    requires ascending { IsAscending all.now }
    requires small { length all.now < 2 ^ 32 }
    requires there { All (Contains all.now) (class_from origin.now).interfaces }
    ensures named { IfOk result (λ numbers. map (name_in all.now) numbers.items ≡ (class_from origin.now).interfaces) }
    ensures below { IfOk result (λ numbers. All (λ n. n < length all.now) numbers.items) }
{
    let count = interface_count(origin);
    let mut numbers = Vec::with_capacity(alloc, count)?;
    for place in 0..count {
        numbers.push(number_of(all, interface_name(origin, place)))?;
    }
    Ok(numbers)
}

/// The number of a name that is there.
fn number_of(all: &[Bytes], text: &[u8]) -> u32
    requires ascending { IsAscending all.now }
    requires small { length all.now < 2 ^ 32 }
    requires there { Contains all.now text.now }
    ensures below { result < length all.now }
    ensures named { name_in all.now result ≡ text.now }
{
    match find_in_order(all, text) {
        Some(number) => number,
        None => unreachable!(),
    }
}
