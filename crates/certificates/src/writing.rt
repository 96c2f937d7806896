//! Writing certificates.

ghost use Rattle.std.specs.Prelude.{◌≡◌, ◌↔◌, ◌≤◌, length, IfErr, IfOk, IsTrue};
ghost use Rattle.certificates.specs.Texts.{IsWriteEnd, most_bytes, text};

use crate::fault::{CertificateFailure, CertificateFault};
use certificate_lines::{Line, line_length, push_line};
use failure::Failure;
use std::alloc::{AllocError, Global};

/// The most bytes of a certificate.
pub const MOST_BYTES: u32 = 1_073_741_824;

/// The text of lines. It is refused exactly where it has more than `MOST_BYTES` bytes, which is known before the text is made, or where memory
/// runs out.
pub fn write_certificate(alloc: Global, lines: &[Line]) -> Result<Vec<u8>, CertificateFailure>
    ensures written { IfOk result (λ bytes. bytes.items ≡ text lines.now) }
    ensures room { IfOk result (λ bytes. length bytes.items ≤ most_bytes) }
    ensures end { IfErr result (IsWriteEnd lines.now) }
{
    if !fits(lines) {
        return Err(Failure::Cause(CertificateFault::TooLarge));
    }
    let bytes = text_of(alloc, lines)?;
    Ok(bytes)
}

/// Whether the text of the lines is within the limit.
fn fits(lines: &[Line]) -> bool
    ensures { IsTrue result ↔ (length (text lines.now) ≤ most_bytes) }
{
    let mut left = u128::from(MOST_BYTES);
    for line in lines {
        let long = line_length(line);
        if long > left {
            return false;
        }
        left -= long;
    }
    true
}

/// The text of lines.
fn text_of(alloc: Global, lines: &[Line]) -> Result<Vec<u8>, AllocError>
    ensures { IfOk result (λ bytes. bytes.items ≡ text lines.now) }
{
    let mut bytes = Vec::new(alloc);
    for line in lines {
        push_line(&mut bytes, line)?;
    }
    Ok(bytes)
}
