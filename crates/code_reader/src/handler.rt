//! The table of exception handlers of a code array (JVMS 4.7.3).

ghost use Rattle.std.specs.Prelude.{◌≡◌};
ghost use Rattle.byte_reader.specs.Reading.{Reads, items_at, table_at};
ghost use Rattle.code_reader.specs.CodeReading.{handler_at};
ghost use Rattle.code_reader.specs.HandlerParts.{pair_at};
ghost use Rattle.code_reader.specs.Divided.{KnowsStarts};
ghost use Rattle.code_reader.specs.Division.{is_handler};

use crate::division::Division;
use byte_reader::Input;
use jvm_model::lookup::leads_to;
use jvm_model::reason::fault_at;
use jvm_model::{EntryKind, Handler, PoolEntry, ReadFailure, Reason, Sequence};
use std::alloc::Global;

/// Whether a handler is one of code that has so many bytes and is divided so.
fn is_handler(pool: &[PoolEntry], long: u32, division: &Division, handler: Handler) -> bool
    requires { KnowsStarts division.now }
    ensures { result ≡ is_handler pool.now long division.now.spots.items handler }
{
    handler.start < handler.finish
        && division.starts_at(handler.start)
        && (division.starts_at(handler.finish) || handler.finish == long)
        && division.starts_at(handler.target)
        && (handler.catch_type == 0 || leads_to(pool, &[EntryKind::Class], handler.catch_type))
}

/// Two numbers of two bytes.
#[tactic(auto, unfolding(crate::specs::HandlerParts::pair_at))]
fn pair(input: &mut Input) -> Result<(u16, u16), ReadFailure>
    ensures { Reads result input.new (pair_at input.old) }
{
    let first = input.u2()?;
    let second = input.u2()?;
    Ok((first, second))
}

/// The handler at the front of the input.
#[tactic(auto, using(crate::proofs::HandlerParts::handler_in_pairs), unfolding(crate::specs::HandlerParts::by_pairs_at))]
fn next_handler(
    input: &mut Input,
    pool: &[PoolEntry],
    long: u32,
    division: &Division,
) -> Result<Handler, ReadFailure>
    requires { KnowsStarts division.now }
    ensures { Reads result input.new (handler_at pool.now long division.now.spots.items input.old) }
{
    let offset = input.offset();
    let (start, finish) = pair(input)?;
    let (target, catch_type) = pair(input)?;
    let handler = Handler {
        start: u32::from(start),
        finish: u32::from(finish),
        target: u32::from(target),
        catch_type,
    };
    if !is_handler(pool, long, division, handler) {
        return Err(fault_at(offset, Reason::BadHandler));
    }
    Ok(handler)
}

/// So many handlers. Nothing is reserved for them, since a count is only a promise.
fn listed(
    input: &mut Input,
    alloc: Global,
    pool: &[PoolEntry],
    long: u32,
    division: &Division,
    count: u16,
) -> Result<Sequence<Handler>, ReadFailure>
    requires { KnowsStarts division.now }
    ensures { Reads result input.new (items_at (handler_at pool.now long division.now.spots.items) count input.old) }
{
    let mut handlers = Vec::new(alloc);
    for _ in 0..count {
        let handler = next_handler(input, pool, long, division)?;
        handlers.push(handler)?;
    }
    Ok(Sequence::from_vec(handlers))
}

/// The handlers of code that has so many bytes and is divided so: their count, and then the handlers.
#[tactic(auto, unfolding(byte_reader::specs::Reading::table_at))]
pub(crate) fn handlers(
    input: &mut Input,
    alloc: Global,
    pool: &[PoolEntry],
    long: u32,
    division: &Division,
) -> Result<Sequence<Handler>, ReadFailure>
    requires { KnowsStarts division.now }
    ensures { Reads result input.new (table_at (handler_at pool.now long division.now.spots.items) input.old) }
{
    let count = input.u2()?;
    listed(input, alloc, pool, long, division, count)
}
