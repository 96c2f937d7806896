//! Methods and sites at the front of bytes.

ghost use Rattle.std.specs.Prelude.{◌≡◌, IfOk};
ghost use Rattle.line_guesses.specs.Guess.{kind_at, method_at, site_at};

use crate::names::name_at;
use crate::numbers::{first_byte, number_at, skip};
use jvm_model::{MethodNo, Site, SiteKind};
use std::alloc::{AllocError, Global};

/// What allocates, by its letter.
#[tactic(auto, unfolding(crate::specs::Guess::kind_at))]
fn kind_at(bytes: &[u8]) -> SiteKind
    ensures { result ≡ kind_at bytes.now }
{
    let first = first_byte(bytes);
    if first == b'b' {
        return SiteKind::Boot;
    }
    if first == b'n' {
        return SiteKind::New;
    }
    if first == b'r' {
        return SiteKind::Result;
    }
    SiteKind::Thrown
}

/// A method, or the start of the program.
#[tactic(auto, unfolding(crate::specs::Guess::method_at))]
pub(crate) fn method_at(bytes: &[u8]) -> (Option<MethodNo>, &[u8])
    ensures method { result.0 ≡ (method_at bytes.now).0 }
    ensures rest { result.1.now ≡ (method_at bytes.now).1 }
{
    if first_byte(bytes) == b'b' {
        return (None, skip(bytes, 4));
    }
    let (number, rest) = number_at(bytes);
    (Some(MethodNo(number)), rest)
}

/// A site.
#[tactic(auto, unfolding(crate::specs::Guess::site_at))]
pub(crate) fn site_at(alloc: Global, bytes: &[u8]) -> Result<(Site, &[u8]), AllocError>
    ensures site { IfOk result (λ p. p.0 ≡ (site_at bytes.now).0) }
    ensures rest { IfOk result (λ p. p.1.now ≡ (site_at bytes.now).1) }
{
    let kind = kind_at(bytes);
    let (method, rest) = method_at(skip(bytes, 2));
    let (offset, rest) = number_at(skip(rest, 1));
    let (class, rest) = name_at(alloc, skip(rest, 1))?;
    Ok((
        Site {
            kind,
            method,
            offset,
            class,
        },
        rest,
    ))
}
