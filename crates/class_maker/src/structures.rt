//! The spellings of indices, of attributes, and of fields and methods (JVMS 4.5 to 4.7).

ghost use Rattle.jvm_model.specs.Spelling.{u2, attribute, member};
ghost use Rattle.class_maker.specs.Counts.{IsCountedAttribute, IsCountedMember};

use crate::number::{push_u2, push_u4};
use crate::spelled::{Spelled, push_table};
use jvm_model::{Attribute, Member};
use std::alloc::AllocError;

/// An index into the constant pool.
impl Spelled for u16 {
    ghost spelling = { u2 };

    ghost counted = { λ _. Unit {0} };

    fn push_to(&self, bytes: &mut Vec<u8>) -> Result<(), AllocError> {
        push_u2(bytes, *self)
    }
}

impl Spelled for Attribute {
    ghost spelling = { attribute };

    ghost counted = { IsCountedAttribute };

    fn push_to(&self, bytes: &mut Vec<u8>) -> Result<(), AllocError> {
        push_u2(bytes, self.name)?;
        push_u4(bytes, self.body.len() as u32)?;
        bytes.extend_from_slice(self.body.as_slice())
    }
}

impl Spelled for Member {
    ghost spelling = { member };

    ghost counted = { IsCountedMember };

    fn push_to(&self, bytes: &mut Vec<u8>) -> Result<(), AllocError> {
        push_u2(bytes, self.flags)?;
        push_u2(bytes, self.name)?;
        push_u2(bytes, self.descriptor)?;
        push_table(bytes, self.attributes.as_slice())
    }
}
