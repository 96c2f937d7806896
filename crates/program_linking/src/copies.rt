//! Copies of what stubs say of methods.

ghost use Rattle.std.specs.Prelude.{◌≡◌, map, IfOk};
ghost use Rattle.program_linking.specs.Patching.{description_of};
ghost use Rattle.jvm_model.specs.Linking.{described_methods};

use crate::descriptions::Described;
use jvm_model::{Bytes, Sequence, StubMethod, StubResult};
use std::alloc::{AllocError, Global};

/// A copy of bytes.
fn copied_bytes(alloc: Global, bytes: &Bytes) -> Result<Bytes, AllocError>
    ensures { IfOk result (λ copy. copy ≡ bytes.now) }
{
    let copy = Vec::from_slice(alloc, bytes.as_slice())?;
    Ok(Bytes::from_vec(copy))
}

/// A copy of names.
fn copied_names(alloc: Global, names: &[Bytes]) -> Result<Sequence<Bytes>, AllocError>
    ensures { IfOk result (λ copy. copy ≡ names.now) }
{
    let mut copies = Vec::new(alloc);
    for name in names {
        let copy = copied_bytes(alloc, name)?;
        copies.push(copy)?;
    }
    Ok(Sequence::from_vec(copies))
}

/// A copy of a result.
fn copied_result(alloc: Global, returned: &StubResult) -> Result<StubResult, AllocError>
    ensures { IfOk result (λ copy. copy ≡ returned.now) }
{
    match returned {
        StubResult::Primitive => Ok(StubResult::Primitive),
        StubResult::Void => Ok(StubResult::Void),
        StubResult::Null => Ok(StubResult::Null),
        StubResult::Given(argument) => Ok(StubResult::Given(*argument)),
        StubResult::New(name) => {
            let copy = copied_bytes(alloc, name)?;
            Ok(StubResult::New(copy))
        }
        StubResult::Kept => Ok(StubResult::Kept),
    }
}

/// A copy of results.
fn copied_results(alloc: Global, all: &[StubResult]) -> Result<Sequence<StubResult>, AllocError>
    ensures { IfOk result (λ copy. copy ≡ all.now) }
{
    let mut copies = Vec::new(alloc);
    for returned in all {
        let copy = copied_result(alloc, returned)?;
        copies.push(copy)?;
    }
    Ok(Sequence::from_vec(copies))
}

/// A copy of what a stub says of a method.
pub fn copied(alloc: Global, method: &StubMethod) -> Result<StubMethod, AllocError>
    ensures { IfOk result (λ copy. copy ≡ method.now) }
{
    let name = copied_bytes(alloc, &method.name)?;
    let descriptor = copied_bytes(alloc, &method.descriptor)?;
    let returns = copied_results(alloc, method.returns.as_slice())?;
    let throws = copied_names(alloc, method.throws.as_slice())?;
    let keeps = Vec::from_slice(alloc, method.keeps.as_slice())?;
    Ok(StubMethod {
        name,
        descriptor,
        is_static: method.is_static,
        is_abstract: method.is_abstract,
        returns,
        throws,
        keeps: Sequence::from_vec(keeps),
    })
}

/// Copies of what descriptions say.
pub(crate) fn copied_methods(
    alloc: Global,
    all: &[Described<'_>],
) -> Result<Sequence<StubMethod>, AllocError>
    ensures { IfOk result (λ copy. copy ≡ described_methods (map description_of all.now)) }
{
    let mut copies = Vec::new(alloc);
    for described in all {
        let copy = copied(alloc, described.method)?;
        copies.push(copy)?;
    }
    Ok(Sequence::from_vec(copies))
}
