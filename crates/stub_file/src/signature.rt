//! The names and descriptors of the members of a class, and whether two of them agree. The time is that of a sorted set.

ghost use Rattle.std.specs.Prelude.{◌≡◌, ◌||◌, map, IfOk, OnOk};
ghost use Rattle.std.specs.BTreeSet.{contains};
ghost use Rattle.jvm_model.specs.Automata.{all_differ};
ghost use Rattle.stub_file.specs.Signatures.{field_texts, is_same_texts, method_texts, signature_cmp, signature_texts};

use jvm_model::{StubField, StubMethod};
use std::alloc::{AllocError, Global};
use std::collections::BTreeSet;

/// The name and the descriptor of a member.
#[derive(Clone, Copy, PartialEq, Eq, PartialOrd, Ord, Drop)]
struct Signature<'stub> {
    name: &'stub [u8],
    descriptor: &'stub [u8],
}

/// Whether no two methods agree in name and descriptor.
pub(crate) fn methods_differ(alloc: Global, methods: &[StubMethod]) -> Result<bool, AllocError>
    ensures { IfOk result (λ differ. differ ≡ all_differ is_same_texts (map method_texts methods.now)) }
{
    let signatures = method_signatures(alloc, methods)?;
    signatures_differ(alloc, signatures.as_slice())
}

/// Whether no two fields agree in name and descriptor.
pub(crate) fn fields_differ(alloc: Global, fields: &[StubField]) -> Result<bool, AllocError>
    ensures { IfOk result (λ differ. differ ≡ all_differ is_same_texts (map field_texts fields.now)) }
{
    let signatures = field_signatures(alloc, fields)?;
    signatures_differ(alloc, signatures.as_slice())
}

/// The names and descriptors of methods, in order.
fn method_signatures<'stub>(
    alloc: Global,
    methods: &'stub [StubMethod],
) -> Result<Vec<Signature<'stub>>, AllocError>
    ensures { IfOk result (λ signatures. map signature_texts signatures.items ≡ map method_texts methods.now) }
{
    let mut signatures = Vec::new(alloc);
    for method in methods {
        signatures.push(Signature {
            name: method.name.as_slice(),
            descriptor: method.descriptor.as_slice(),
        })?;
    }
    Ok(signatures)
}

/// The names and descriptors of fields, in order.
fn field_signatures<'stub>(
    alloc: Global,
    fields: &'stub [StubField],
) -> Result<Vec<Signature<'stub>>, AllocError>
    ensures { IfOk result (λ signatures. map signature_texts signatures.items ≡ map field_texts fields.now) }
{
    let mut signatures = Vec::new(alloc);
    for field in fields {
        signatures.push(Signature {
            name: field.name.as_slice(),
            descriptor: field.descriptor.as_slice(),
        })?;
    }
    Ok(signatures)
}

/// Whether no two of these agree.
fn signatures_differ(alloc: Global, signatures: &[Signature]) -> Result<bool, AllocError>
    ensures { IfOk result (λ differ. differ ≡ all_differ is_same_texts (map signature_texts signatures.now)) }
{
    let mut seen = BTreeSet::new(alloc);
    for signature in signatures {
        if was_seen(&mut seen, *signature)? {
            return Ok(false);
        }
    }
    Ok(true)
}

/// Whether this one is among those that were seen, to which it is added.
fn was_seen<'stub>(
    seen: &mut BTreeSet<Signature<'stub>>,
    signature: Signature<'stub>,
) -> Result<bool, AllocError>
    ensures before { IfOk result (λ was. was ≡ contains signature_cmp seen.old signature.entry) }
    ensures after { OnOk result ((other : Signature) → contains signature_cmp seen.new other
        ≡ (contains signature_cmp seen.old other || is_same_texts (signature_texts signature.entry) (signature_texts other))) }
{
    let added = seen.insert(signature)?;
    Ok(!added)
}
