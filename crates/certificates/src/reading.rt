//! Reading certificates.

ghost use Rattle.std.specs.Prelude.{◌≡◌, ◌↔◌, ◌≤◌, [], ◌++◌, ℕ, List, length, IsTrue, IfOk, IfErr, option_map};
ghost use Rattle.certificate_lines.specs.declared.line.Line.{Line as OneLine};
ghost use Rattle.certificate_lines.specs.LineTexts.{line_text};
ghost use Rattle.certificates.specs.Format.{IsCertificate, IsEnded, count_of};
ghost use Rattle.certificates.specs.Reading.{IsAfter, IsNext, IsReadEnd, ReadsAs};
ghost use Rattle.certificates.specs.Texts.{most_bytes, text};
ghost use Rattle.line_guesses.specs.Guess.{line_at};

use crate::certificate::Certificate;
use crate::fault::{BadLine, CertificateRefusal};
use crate::following::{Counts, may_follow};
use crate::ranges::Ranges;
use crate::writing::MOST_BYTES;
use certificate_lines::{Line, kind_of, push_line};
use failure::Failure;
use line_guesses::guess_line;
use std::alloc::{AllocError, Global};

/// Reads a certificate of a program with so many methods and fields. It is refused exactly where the bytes are not of the format, at the first
/// line that is not, or at line 0 where there are more than `MOST_BYTES` bytes; or where memory runs out.
pub fn read_certificate(
    alloc: Global,
    ranges: Ranges,
    bytes: &[u8],
) -> Result<Certificate, CertificateRefusal>
    ensures certificate { IfOk result (λ c. IsCertificate ranges c) }
    ensures found { IfOk result (λ c. bytes.now ≡ text c) }
    ensures end { IfErr result (IsReadEnd ranges bytes.now) }
    ensures only { (lines : List OneLine) → IsCertificate ranges lines → length bytes.now ≤ most_bytes → bytes.now ≡ text lines → ReadsAs result lines }
{
    read_lines(alloc, ranges, bytes)
}

/// Reads the lines, one after another.
fn read_lines(
    alloc: Global,
    ranges: Ranges,
    bytes: &[u8],
) -> Result<Certificate, CertificateRefusal>
    ensures certificate { IfOk result (λ c. IsCertificate ranges c) }
    ensures found { IfOk result (λ c. bytes.now ≡ text c) }
    ensures end { IfErr result (IsReadEnd ranges bytes.now) }
{
    if bytes.len() > MOST_BYTES as usize {
        return Err(Failure::Cause(BadLine(0)));
    }
    let mut lines = Vec::new(alloc);
    let mut counts = Counts {
        states: 0,
        events: 0,
    };
    let mut number: u32 = 1;
    let mut rest = bytes;
    while !is_all(lines.as_slice(), rest) {
        match read_next(alloc, ranges, counts, &mut lines, rest)? {
            None => return Err(Failure::Cause(BadLine(number))),
            Some((after, kind)) => {
                rest = after;
                counts = counts.with(kind);
                number += 1;
            }
        }
    }
    Ok(Certificate::from_vec(lines))
}

/// Whether the lines have ended, and nothing is left.
fn is_all(lines: &[Line], rest: &[u8]) -> bool
    ensures { IsTrue result ↔ (IsEnded lines.now × (rest.now ≡ [])) }
{
    match lines.last() {
        Some(Line::End) => rest.is_empty(),
        _ => false,
    }
}

/// Reads the line with which the bytes go on, if it is good behind these, and answers what comes behind it and its kind.
fn read_next<'a>(
    alloc: Global,
    ranges: Ranges,
    counts: Counts,
    lines: &mut Vec<Line>,
    bytes: &'a [u8],
) -> Result<Option<(&'a [u8], u8)>, AllocError>
    requires states { counts.states ≡ count_of 2 lines.old.items }
    requires events { counts.events ≡ count_of 5 lines.old.items }
    ensures { IfOk result (λ next. IsNext ranges lines.old.items lines.new.items bytes.now (option_map (λ p. (p.0.now, p.1)) next)) }
{
    let line = first_guess(alloc, bytes)?;
    if !may_follow(ranges, counts, lines.as_slice(), &line) {
        return Ok(None);
    }
    let kind = kind_of(&line);
    let after = after_line(alloc, &line, bytes)?;
    match after {
        None => Ok(None),
        Some(rest) => {
            lines.push(line)?;
            Ok(Some((rest, kind)))
        }
    }
}

/// The line that is guessed at the front of bytes.
fn first_guess(alloc: Global, bytes: &[u8]) -> Result<Line, AllocError>
    ensures { IfOk result (λ x. x ≡ (line_at bytes.now).0) }
{
    let (line, _rest) = guess_line(alloc, bytes)?;
    Ok(line)
}

/// What comes behind the line, where the bytes begin with its text.
fn after_line<'a>(
    alloc: Global,
    line: &Line,
    bytes: &'a [u8],
) -> Result<Option<&'a [u8]>, AllocError>
    ensures { IfOk result (λ after. IsAfter (line_text line.now) bytes.now (option_map (λ r. r.now) after)) }
{
    let mut text = Vec::new(alloc);
    push_line(&mut text, line)?;
    Ok(after_front(text.as_slice(), bytes))
}

/// What comes behind the front, where the bytes begin with it.
fn after_front<'a>(front: &[u8], bytes: &'a [u8]) -> Option<&'a [u8]>
    ensures { IsAfter front.now bytes.now (option_map (λ r. r.now) result) }
{
    if bytes.len() < front.len() {
        return None;
    }
    let (begin, rest) = bytes.split_at(front.len());
    if begin == front { Some(rest) } else { None }
}
