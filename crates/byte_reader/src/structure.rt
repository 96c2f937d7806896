//! Tables: a count, and that many structures of one kind.

ghost use Rattle.std.specs.Int.{w16};
ghost use Rattle.std.specs.Prelude.{Result};
ghost use Rattle.jvm_model.specs.declared.reason.Fault.{Fault};
ghost use Rattle.byte_reader.specs.Reading.{Place, Reads, number_at, items_at, table_at};

use crate::input::Input;
use jvm_model::reason::ReadFailure;
use jvm_model::sequence::Sequence;
use std::alloc::Global;

/// What a table lists: an index, an attribute, a field or a method.
pub trait Structure: Drop {
    ghost reading: { Place → Result (Self × Place) Fault };

    /// The structure at the front of the input.
    fn read(input: &mut Input, alloc: Global) -> Result<Self, ReadFailure>
        ensures { Reads result input.new (reading input.old) };
}

/// An index into the constant pool.
impl Structure for u16 {
    ghost reading = { number_at w16 };

    fn read(input: &mut Input, _alloc: Global) -> Result<u16, ReadFailure> {
        input.u2()
    }
}

/// A table and its count.
#[tactic(auto, unfolding(crate::specs::Reading::table_at))]
pub fn table<X: Structure>(input: &mut Input, alloc: Global) -> Result<Sequence<X>, ReadFailure>
    ensures { Reads result input.new (table_at X.reading input.old) }
{
    let count = input.u2()?;
    items(input, alloc, count)
}

/// That many structures. Nothing is reserved for them, since a count is only a promise.
fn items<X: Structure>(
    input: &mut Input,
    alloc: Global,
    count: u16,
) -> Result<Sequence<X>, ReadFailure>
    ensures { Reads result input.new (items_at X.reading count input.old) }
{
    let mut items = Vec::new(alloc);
    for _ in 0..count {
        let item = X::read(input, alloc)?;
        items.push(item)?;
    }
    Ok(Sequence::from_vec(items))
}
