//! The constant pool (JVMS 4.4).

ghost use Rattle.std.specs.Prelude.{◌≡◌, ◌-◌, None, List};
ghost use Rattle.std.specs.Int.{w32, w64};
ghost use Rattle.jvm_model.specs.Spelling.{is_wide};
ghost use Rattle.byte_reader.specs.Reading.{Reads, Gives};
ghost use Rattle.classfile_reader.specs.PoolReading.{pair_at, utf8_at, handle_at, contents_at, tagged_at, entry_at, index_at, indices_at, pool_at};

use byte_reader::Input;
use failure::Failure;
use jvm_model::pool::PoolEntry;
use jvm_model::reason::{Fault, ReadFailure, Reason, fault_at};
use jvm_model::sequence::{Bytes, Sequence};
use std::alloc::Global;

/// Two numbers of two bytes.
#[tactic(auto, unfolding(crate::specs::PoolReading::pair_at))]
fn pair(input: &mut Input) -> Result<(u16, u16), ReadFailure>
    ensures { Reads result input.new (pair_at input.old) }
{
    let first = input.u2()?;
    let second = input.u2()?;
    Ok((first, second))
}

/// A text, behind its tag.
#[tactic(auto, unfolding(crate::specs::PoolReading::utf8_at))]
fn text(input: &mut Input, alloc: Global) -> Result<PoolEntry, ReadFailure>
    ensures { Reads result input.new (utf8_at input.old) }
{
    let len = input.u2()?;
    let bytes = input.take(len as usize)?;
    let bytes = Bytes::from_vec(Vec::from_slice(alloc, bytes)?);
    Ok(PoolEntry::Utf8(bytes))
}

/// A method handle, behind its tag.
#[tactic(auto, unfolding(crate::specs::PoolReading::handle_at))]
fn handle(input: &mut Input) -> Result<PoolEntry, ReadFailure>
    ensures { Reads result input.new (handle_at input.old) }
{
    let kind = input.u1()?;
    let reference = input.u2()?;
    Ok(PoolEntry::MethodHandle { kind, reference })
}

/// What a tag calls for.
#[tactic(auto, unfolding(crate::specs::PoolReading::contents_at, crate::specs::PoolReading::one_at, crate::specs::PoolReading::two_at))]
fn contents(input: &mut Input, alloc: Global, tag: u8) -> Result<PoolEntry, ReadFailure>
    ensures { Reads result input.new (contents_at tag input.old) }
{
    match tag {
        1 => text(input, alloc),
        3 => Ok(PoolEntry::Integer(input.u4()?)),
        4 => Ok(PoolEntry::Float(input.u4()?)),
        5 => Ok(PoolEntry::Long(input.u8()?)),
        6 => Ok(PoolEntry::Double(input.u8()?)),
        7 => Ok(PoolEntry::Class(input.u2()?)),
        8 => Ok(PoolEntry::Str(input.u2()?)),
        9 => {
            let (class, member) = pair(input)?;
            Ok(PoolEntry::Fieldref { class, member })
        }
        10 => {
            let (class, member) = pair(input)?;
            Ok(PoolEntry::Methodref { class, member })
        }
        11 => {
            let (class, member) = pair(input)?;
            Ok(PoolEntry::InterfaceMethodref { class, member })
        }
        12 => {
            let (name, descriptor) = pair(input)?;
            Ok(PoolEntry::NameAndType { name, descriptor })
        }
        15 => handle(input),
        16 => Ok(PoolEntry::MethodType(input.u2()?)),
        18 => {
            let (bootstrap, member) = pair(input)?;
            Ok(PoolEntry::InvokeDynamic { bootstrap, member })
        }
        _ => Err(fault_at(input.offset(), Reason::BadTag)),
    }
}

/// A tag, and what it calls for.
#[tactic(auto, unfolding(crate::specs::PoolReading::tagged_at))]
fn tagged(input: &mut Input, alloc: Global) -> Result<PoolEntry, ReadFailure>
    ensures { Reads result input.new (tagged_at input.old) }
{
    let tag = input.u1()?;
    contents(input, alloc, tag)
}

/// An entry. Whatever is wrong inside it is reported at its tag.
#[tactic(auto, unfolding(crate::specs::PoolReading::entry_at))]
fn entry(input: &mut Input, alloc: Global) -> Result<PoolEntry, ReadFailure>
    ensures { Reads result input.new (entry_at input.old) }
{
    let start = input.offset();
    match tagged(input, alloc) {
        Ok(entry) => Ok(entry),
        Err(Failure::Cause(Fault { reason, .. })) => Err(fault_at(start, reason)),
        Err(Failure::OutOfMemory) => Err(Failure::OutOfMemory),
    }
}

/// Whether an entry takes two indices (JVMS 4.4.5).
fn is_wide(entry: &PoolEntry) -> bool
    ensures { result ≡ is_wide entry.now }
{
    matches!(entry, PoolEntry::Long(_) | PoolEntry::Double(_))
}

/// What the next index holds. `wide` is the offset of a Long or a Double whose second index it is, and the
/// second result is the same for the index after it.
#[tactic(auto, unfolding(crate::specs::PoolReading::index_at))]
fn index(
    input: &mut Input,
    alloc: Global,
    wide: Option<u32>,
) -> Result<(PoolEntry, Option<u32>), ReadFailure>
    ensures { Reads result input.new (index_at wide input.old) }
{
    if wide.is_some() {
        return Ok((PoolEntry::Taken, None));
    }
    let start = input.offset();
    let entry = entry(input, alloc)?;
    let wide = if is_wide(&entry) { Some(start) } else { None };
    Ok((entry, wide))
}

/// The entries of that many indices. Nothing is reserved for them, since a count is only a promise.
fn indices(input: &mut Input, alloc: Global, count: u16) -> Result<Sequence<PoolEntry>, ReadFailure>
    ensures { Reads result input.new (indices_at count None input.old) }
{
    let mut entries = Vec::new(alloc);
    let mut wide = None;
    for _ in 0..count {
        let (entry, next) = index(input, alloc, wide)?;
        entries.push(entry)?;
        wide = next;
    }
    match wide {
        None => Ok(Sequence::from_vec(entries)),
        Some(tag) => Err(fault_at(tag, Reason::BadIndex)),
    }
}

/// The constant pool, behind its count.
#[tactic(auto, unfolding(crate::specs::PoolReading::pool_at))]
pub(crate) fn pool(input: &mut Input, alloc: Global) -> Result<Sequence<PoolEntry>, ReadFailure>
    ensures { Reads result input.new (pool_at input.old) }
{
    let start = input.offset();
    let count = input.u2()?;
    if count == 0 {
        return Err(fault_at(start, Reason::BadIndex));
    }
    indices(input, alloc, count - 1)
}
