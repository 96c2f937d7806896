//! Sentences for standard error, in which no name can end a line.

ghost use Rattle.std.specs.Prelude.{◌≡◌, ◌++◌, IfOk, OnOk};
ghost use Rattle.typestate.specs.Sentences.{said, said_byte};

use site_report::push_name;
use std::alloc::{AllocError, Global};

/// A sentence as it is said: spaces stay, and each other byte that is no visible ASCII character, and the backslash, is written
/// as `\x` and two hexadecimal digits.
pub(crate) fn escaped(alloc: Global, sentence: &[u8]) -> Result<Vec<u8>, AllocError>
    ensures { IfOk result (λ text. text.items ≡ said sentence.now) }
{
    let mut text = Vec::new(alloc);
    for byte in sentence {
        push_said(&mut text, *byte)?;
    }
    Ok(text)
}

/// Adds a byte as it is said.
fn push_said(text: &mut Vec<u8>, byte: u8) -> Result<(), AllocError>
    ensures { OnOk result (text.new.items ≡ text.old.items ++ said_byte byte) }
{
    if byte == b' ' {
        text.push(byte)?;
        return Ok(());
    }
    push_name(text, &[byte])
}
