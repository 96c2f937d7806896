//! Attributes, fields and methods (JVMS 4.5 to 4.7).

ghost use Rattle.byte_reader.specs.Reading.{Reads, table_at};
ghost use Rattle.byte_reader.specs.Structures.{attribute_at, member_at};

use crate::input::Input;
use crate::structure::{Structure, table};
use jvm_model::class_file::{Attribute, Member};
use jvm_model::reason::ReadFailure;
use jvm_model::sequence::Bytes;
use std::alloc::Global;

impl Structure for Attribute {
    ghost reading = { attribute_at };

    #[tactic(auto, unfolding(crate::specs::Structures::attribute_at))]
    fn read(input: &mut Input, alloc: Global) -> Result<Attribute, ReadFailure> {
        let name = input.u2()?;
        let len = input.u4()?;
        let body = input.take(len as usize)?;
        let body = Bytes::from_vec(Vec::from_slice(alloc, body)?);
        Ok(Attribute { name, body })
    }
}

impl Structure for Member {
    ghost reading = { member_at };

    #[tactic(auto, unfolding(crate::specs::Structures::member_at))]
    fn read(input: &mut Input, alloc: Global) -> Result<Member, ReadFailure> {
        let flags = input.u2()?;
        let name = input.u2()?;
        let descriptor = input.u2()?;
        let attributes = table(input, alloc)?;
        Ok(Member {
            flags,
            name,
            descriptor,
            attributes,
        })
    }
}
