//! The line at the front of bytes.

ghost use Rattle.std.specs.Prelude.{◌≡◌, length, IfOk, OnOk};
ghost use Rattle.line_guesses.specs.Guess.{by_second, claim_or_class, content_at, entry_or_end, event_at, line_at, modifies_at, plain_at, points_to_at, states_on};

use crate::facts::edge_at;
use crate::holders::holder_at;
use crate::names::name_at;
use crate::numbers::{first_byte, number_at, skip, small_at};
use crate::sites::site_at;
use certificate_lines::Line;
use jvm_model::{Event, FieldNo, MethodNo, Sequence};
use std::alloc::{AllocError, Global};

/// The line with which the bytes begin, if they begin with one, and what comes after it; else any line and any bytes. `AllocError` where
/// memory runs out.
#[tactic(auto, unfolding(crate::specs::Guess::line_at))]
pub fn guess_line(alloc: Global, bytes: &[u8]) -> Result<(Line, &[u8]), AllocError>
    ensures line { IfOk result (λ p. p.0 ≡ (line_at bytes.now).0) }
    ensures rest { IfOk result (λ p. p.1.now ≡ (line_at bytes.now).1) }
{
    let (line, rest) = content_at(alloc, bytes)?;
    Ok((line, skip(rest, 1)))
}

/// The line without its newline.
#[tactic(auto, unfolding(crate::specs::Guess::content_at))]
fn content_at(alloc: Global, bytes: &[u8]) -> Result<(Line, &[u8]), AllocError>
    ensures line { IfOk result (λ p. p.0 ≡ (content_at bytes.now).0) }
    ensures rest { IfOk result (λ p. p.1.now ≡ (content_at bytes.now).1) }
{
    let first = first_byte(bytes);
    if first == b'e' {
        return by_second(alloc, bytes);
    }
    if first == b'c' {
        return claim_or_class(alloc, bytes);
    }
    if first == b'p' {
        return points_to_at(alloc, skip(bytes, 4));
    }
    if first == b's' {
        let (name, rest) = name_at(alloc, skip(bytes, 6))?;
        return Ok((Line::State(name), rest));
    }
    Ok(plain_at(bytes))
}

/// A line of numbers alone, by its first letter.
#[tactic(auto, unfolding(crate::specs::Guess::plain_at))]
fn plain_at(bytes: &[u8]) -> (Line, &[u8])
    ensures line { result.0 ≡ (plain_at bytes.now).0 }
    ensures rest { result.1.now ≡ (plain_at bytes.now).1 }
{
    let first = first_byte(bytes);
    if first == b't' {
        return (Line::Version, skip(bytes, 23));
    }
    if first == b'i' {
        let (state, rest) = small_at(skip(bytes, 8));
        return (Line::Initial(state), rest);
    }
    if first == b'd' {
        let (depth, rest) = small_at(skip(bytes, 6));
        return (Line::Depth(depth), rest);
    }
    if first == b'r' {
        let (method, rest) = number_at(skip(bytes, 8));
        return (Line::Reached(MethodNo(method)), rest);
    }
    modifies_at(skip(bytes, 5))
}

/// A field that a method may write.
#[tactic(auto, unfolding(crate::specs::Guess::modifies_at))]
fn modifies_at(bytes: &[u8]) -> (Line, &[u8])
    ensures line { result.0 ≡ (modifies_at bytes.now).0 }
    ensures rest { result.1.now ≡ (modifies_at bytes.now).1 }
{
    let (method, rest) = number_at(bytes);
    let (field, rest) = number_at(skip(rest, 1));
    let line = Line::Modifies {
        method: MethodNo(method),
        field: FieldNo(field),
    };
    (line, rest)
}

/// What may be held somewhere.
#[tactic(auto, unfolding(crate::specs::Guess::points_to_at))]
fn points_to_at(alloc: Global, bytes: &[u8]) -> Result<(Line, &[u8]), AllocError>
    ensures line { IfOk result (λ p. p.0 ≡ (points_to_at bytes.now).0) }
    ensures rest { IfOk result (λ p. p.1.now ≡ (points_to_at bytes.now).1) }
{
    let (holder, rest) = holder_at(alloc, bytes)?;
    let (site, rest) = site_at(alloc, skip(rest, 1))?;
    Ok((Line::PointsTo { holder, site }, rest))
}

/// A line that begins with c, by its fourth letter.
#[tactic(auto, unfolding(crate::specs::Guess::claim_or_class))]
fn claim_or_class(alloc: Global, bytes: &[u8]) -> Result<(Line, &[u8]), AllocError>
    ensures line { IfOk result (λ p. p.0 ≡ (claim_or_class bytes.now).0) }
    ensures rest { IfOk result (λ p. p.1.now ≡ (claim_or_class bytes.now).1) }
{
    if first_byte(skip(bytes, 3)) == b'i' {
        let (stage, rest) = small_at(skip(bytes, 6));
        let (site, rest) = site_at(alloc, skip(rest, 1))?;
        return Ok((Line::Claim { stage, site }, rest));
    }
    let (name, rest) = name_at(alloc, skip(bytes, 6))?;
    Ok((Line::Class(name), rest))
}

/// A line that begins with e, by its second letter.
#[tactic(auto, unfolding(crate::specs::Guess::by_second))]
fn by_second(alloc: Global, bytes: &[u8]) -> Result<(Line, &[u8]), AllocError>
    ensures line { IfOk result (λ p. p.0 ≡ (by_second bytes.now).0) }
    ensures rest { IfOk result (λ p. p.1.now ≡ (by_second bytes.now).1) }
{
    let second = first_byte(skip(bytes, 1));
    if second == b'd' {
        let (edge, rest) = edge_at(alloc, skip(bytes, 5))?;
        return Ok((Line::PathEdge(edge), rest));
    }
    if second == b'v' {
        let (event, rest) = event_at(alloc, skip(bytes, 6))?;
        return Ok((Line::Event(event), rest));
    }
    if second == b'r' {
        let (state, rest) = small_at(skip(bytes, 6));
        return Ok((Line::Error(state), rest));
    }
    Ok(entry_or_end(bytes))
}

/// The entry, or the last line.
#[tactic(auto, unfolding(crate::specs::Guess::entry_or_end))]
fn entry_or_end(bytes: &[u8]) -> (Line, &[u8])
    ensures line { result.0 ≡ (entry_or_end bytes.now).0 }
    ensures rest { result.1.now ≡ (entry_or_end bytes.now).1 }
{
    if first_byte(skip(bytes, 2)) == b't' {
        let (method, rest) = number_at(skip(bytes, 6));
        return (Line::Entry(MethodNo(method)), rest);
    }
    (Line::End, skip(bytes, 3))
}

/// An event.
#[tactic(auto, unfolding(crate::specs::Guess::event_at))]
fn event_at(alloc: Global, bytes: &[u8]) -> Result<(Event, &[u8]), AllocError>
    ensures event { IfOk result (λ p. p.0 ≡ (event_at bytes.now).0) }
    ensures rest { IfOk result (λ p. p.1.now ≡ (event_at bytes.now).1) }
{
    let (name, rest) = name_at(alloc, bytes)?;
    let (descriptor, rest) = name_at(alloc, skip(rest, 1))?;
    let mut next = Vec::new(alloc);
    let rest = push_states(&mut next, rest)?;
    Ok((
        Event {
            name,
            descriptor,
            next: Sequence::from_vec(next),
        },
        rest,
    ))
}

/// Adds states, each behind a space.
fn push_states<'b>(states: &mut Vec<u8>, bytes: &'b [u8]) -> Result<&'b [u8], AllocError>
    ensures states { OnOk result (states.new.items ≡ (states_on (length bytes.now) states.old.items bytes.now).0) }
    ensures rest { IfOk result (λ rest. rest.now ≡ (states_on (length bytes.now) states.old.items bytes.now).1) }
{
    let mut rest = bytes;
    let mut left = bytes.len();
    while left > 0 {
        if first_byte(rest) != b' ' {
            return Ok(rest);
        }
        let (state, after) = small_at(skip(rest, 1));
        states.push(state)?;
        rest = after;
        left -= 1;
    }
    Ok(rest)
}
