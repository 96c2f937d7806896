//! Names at the front of bytes.

ghost use Rattle.std.specs.Prelude.{◌≡◌, length, IfOk, OnOk};
ghost use Rattle.line_guesses.specs.Guess.{byte_at, hex_value, name_at, name_on};

use crate::numbers::{first_byte, skip};
use jvm_model::{Bytes, Sequence};
use std::alloc::{AllocError, Global};

/// The value of a hexadecimal digit.
fn hex_value(byte: u8) -> u8
    ensures { result ≡ hex_value byte }
{
    if byte <= 57 {
        byte.saturating_sub(48)
    } else {
        byte.saturating_sub(87)
    }
}

/// A byte of a name: as it is, or behind `\x`.
#[tactic(auto, unfolding(crate::specs::Guess::byte_at))]
fn byte_at(bytes: &[u8]) -> (u8, &[u8])
    ensures byte { result.0 ≡ (byte_at bytes.now).0 }
    ensures rest { result.1.now ≡ (byte_at bytes.now).1 }
{
    let first = first_byte(bytes);
    if first != b'\\' {
        return (first, skip(bytes, 1));
    }
    let high = u32::from(hex_value(first_byte(skip(bytes, 2))));
    let low = u32::from(hex_value(first_byte(skip(bytes, 3))));
    let byte = (16 * high + low) % 256;
    (byte as u8, skip(bytes, 4))
}

/// A name, up to a space or a newline.
#[tactic(auto, unfolding(crate::specs::Guess::name_at))]
pub(crate) fn name_at(alloc: Global, bytes: &[u8]) -> Result<(Bytes, &[u8]), AllocError>
    ensures name { IfOk result (λ p. p.0 ≡ (name_at bytes.now).0) }
    ensures rest { IfOk result (λ p. p.1.now ≡ (name_at bytes.now).1) }
{
    let mut name = Vec::new(alloc);
    let rest = push_name(&mut name, bytes)?;
    Ok((Sequence::from_vec(name), rest))
}

/// Adds the bytes of a name, up to a space or a newline.
fn push_name<'b>(name: &mut Vec<u8>, bytes: &'b [u8]) -> Result<&'b [u8], AllocError>
    ensures name { OnOk result (name.new.items ≡ (name_on (length bytes.now) name.old.items bytes.now).0) }
    ensures rest { IfOk result (λ rest. rest.now ≡ (name_on (length bytes.now) name.old.items bytes.now).1) }
{
    let mut rest = bytes;
    let mut left = bytes.len();
    while left > 0 {
        if first_byte(rest) <= b' ' {
            return Ok(rest);
        }
        let (byte, after) = byte_at(rest);
        name.push(byte)?;
        rest = after;
        left -= 1;
    }
    Ok(rest)
}
