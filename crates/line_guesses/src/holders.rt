//! Holders at the front of bytes.

ghost use Rattle.std.specs.Prelude.{◌≡◌, IfOk};
ghost use Rattle.line_guesses.specs.Guess.{holder_at, parameter_at, plain_holder_at, site_field_at, slot_at};

use crate::numbers::{first_byte, number_at, skip};
use crate::sites::site_at;
use certificate_lines::Holder;
use jvm_model::{FieldNo, MethodNo};
use slot_names::Variable;
use std::alloc::{AllocError, Global};

/// The numbers of a slot from an offset on.
#[tactic(auto, unfolding(crate::specs::Guess::slot_at))]
fn slot_at(bytes: &[u8]) -> (Holder, &[u8])
    ensures holder { result.0 ≡ (slot_at bytes.now).0 }
    ensures rest { result.1.now ≡ (slot_at bytes.now).1 }
{
    let (method, rest) = number_at(bytes);
    let (offset, rest) = number_at(skip(rest, 1));
    let (slot, rest) = number_at(skip(rest, 1));
    let variable = Variable::At {
        method: MethodNo(method),
        offset,
        slot,
    };
    (Holder::Variable(variable), rest)
}

/// The numbers of a parameter.
#[tactic(auto, unfolding(crate::specs::Guess::parameter_at))]
fn parameter_at(bytes: &[u8]) -> (Holder, &[u8])
    ensures holder { result.0 ≡ (parameter_at bytes.now).0 }
    ensures rest { result.1.now ≡ (parameter_at bytes.now).1 }
{
    let (method, rest) = number_at(bytes);
    let (slot, rest) = number_at(skip(rest, 1));
    let variable = Variable::Parameter {
        method: MethodNo(method),
        slot,
    };
    (Holder::Variable(variable), rest)
}

/// The site and the number of a field of its objects.
#[tactic(auto, unfolding(crate::specs::Guess::site_field_at))]
fn site_field_at(alloc: Global, bytes: &[u8]) -> Result<(Holder, &[u8]), AllocError>
    ensures holder { IfOk result (λ p. p.0 ≡ (site_field_at bytes.now).0) }
    ensures rest { IfOk result (λ p. p.1.now ≡ (site_field_at bytes.now).1) }
{
    let (site, rest) = site_at(alloc, bytes)?;
    let (field, rest) = number_at(skip(rest, 1));
    Ok((Holder::Field(site, FieldNo(field)), rest))
}

/// A holder that is no variable and has no site.
#[tactic(auto, unfolding(crate::specs::Guess::plain_holder_at))]
fn plain_holder_at(bytes: &[u8]) -> (Holder, &[u8])
    ensures holder { result.0 ≡ (plain_holder_at bytes.now).0 }
    ensures rest { result.1.now ≡ (plain_holder_at bytes.now).1 }
{
    let first = first_byte(bytes);
    if first == b'k' {
        return (Holder::Kept, skip(bytes, 1));
    }
    let (number, rest) = number_at(skip(bytes, 2));
    if first == b's' {
        return (Holder::Static(FieldNo(number)), rest);
    }
    if first == b'r' {
        return (Holder::Returned(MethodNo(number)), rest);
    }
    (Holder::Thrown(MethodNo(number)), rest)
}

/// A holder.
#[tactic(auto, unfolding(crate::specs::Guess::holder_at))]
pub(crate) fn holder_at(alloc: Global, bytes: &[u8]) -> Result<(Holder, &[u8]), AllocError>
    ensures holder { IfOk result (λ p. p.0 ≡ (holder_at bytes.now).0) }
    ensures rest { IfOk result (λ p. p.1.now ≡ (holder_at bytes.now).1) }
{
    let first = first_byte(bytes);
    if first == b'v' {
        return Ok(slot_at(skip(bytes, 2)));
    }
    if first == b'p' {
        return Ok(parameter_at(skip(bytes, 2)));
    }
    if first == b'f' {
        return site_field_at(alloc, skip(bytes, 2));
    }
    if first == b'a' {
        let (site, rest) = site_at(alloc, skip(bytes, 2))?;
        return Ok((Holder::Elements(site), rest));
    }
    Ok(plain_holder_at(bytes))
}
