//! The bytes of a file from left to right, and the numbers that they spell (JVMS 4).

ghost use Rattle.std.specs.Prelude.{◌≡◌, ◌↔◌, ◌+◌, ◌<◌, ◌^◌, length, IsTrue, IfErr};
ghost use Rattle.std.specs.Int.{w16, w32, w64};
ghost use Rattle.byte_reader.specs.Reading.{Place, Gives, Reads, FailsUnmoved, number_at, byte_at, bytes_at};

use failure::Failure;
use jvm_model::reason::{Fault, ReadFailure, Reason};
use std::marker::Model;

/// The bytes that are left, and how many were before them. Where a field is cut off, none of its bytes is taken.
#[derive(Drop)]
pub struct Input<'a> {
    offset: u32,
    rest: &'a [u8],
}

impl<'a> Model for Input<'a> {
    ghost Value = { Place };

    ghost view = { λ i. record { offset = i.offset; rest = i.rest.now } };

    ghost invariant = { λ i. i.offset + length i.rest.now < 2 ^ 32 };
}

impl<'a> Input<'a> {
    /// The part of a file from an offset on.
    pub fn at(offset: u32, bytes: &'a [u8]) -> Self
        requires { offset + length bytes.now < 2 ^ 32 }
        ensures { result ≡ record { offset = offset; rest = bytes.now } }
    {
        Input {
            offset,
            rest: bytes,
        }
    }

    /// The start of a file.
    pub fn new(bytes: &'a [u8]) -> Self
        requires { length bytes.now < 2 ^ 32 }
        ensures { result ≡ record { offset = 0; rest = bytes.now } }
    {
        Input {
            offset: 0,
            rest: bytes,
        }
    }

    /// How many bytes were before the next one.
    pub fn offset(&self) -> u32
        ensures is { result ≡ self.now.offset }
        // Each offset of what is left is a number of four bytes too.
        ensures fits { result + length self.now.rest < 2 ^ 32 }
    {
        self.offset
    }

    /// Whether no byte is left.
    pub fn is_empty(&self) -> bool
        ensures { IsTrue result ↔ (length self.now.rest ≡ 0) }
    {
        self.rest.is_empty()
    }

    /// That many bytes, as one field: where fewer are left, none is taken.
    pub fn take(&mut self, count: usize) -> Result<&'a [u8], ReadFailure>
        ensures reads { Gives (λ bytes. bytes.now) result self.new (bytes_at count self.old) }
        ensures unmoved { IfErr result (FailsUnmoved self.old self.new) }
    {
        if self.rest.len() < count {
            return Err(Failure::Cause(Fault {
                offset: self.offset,
                reason: Reason::Truncated,
            }));
        }
        let (front, rest) = self.rest.split_at(count);
        self.rest = rest;
        self.offset += count as u32;
        Ok(front)
    }

    /// A number of one byte.
    pub fn u1(&mut self) -> Result<u8, ReadFailure>
        ensures reads { Reads result self.new (byte_at self.old) }
        ensures unmoved { IfErr result (FailsUnmoved self.old self.new) }
    {
        let front = self.take(1)?;
        Ok(front[0])
    }

    /// A number of two bytes.
    pub fn u2(&mut self) -> Result<u16, ReadFailure>
        ensures reads { Reads result self.new (number_at w16 self.old) }
        ensures unmoved { IfErr result (FailsUnmoved self.old self.new) }
    {
        let front = self.take(2)?;
        Ok(u16::from_be_bytes([front[0], front[1]]))
    }

    /// A number of four bytes.
    pub fn u4(&mut self) -> Result<u32, ReadFailure>
        ensures reads { Reads result self.new (number_at w32 self.old) }
        ensures unmoved { IfErr result (FailsUnmoved self.old self.new) }
    {
        let front = self.take(4)?;
        Ok(u32::from_be_bytes([front[0], front[1], front[2], front[3]]))
    }

    /// A number of eight bytes.
    pub fn u8(&mut self) -> Result<u64, ReadFailure>
        ensures reads { Reads result self.new (number_at w64 self.old) }
        ensures unmoved { IfErr result (FailsUnmoved self.old self.new) }
    {
        let front = self.take(8)?;
        Ok(u64::from_be_bytes([
            front[0], front[1], front[2], front[3], front[4], front[5], front[6], front[7],
        ]))
    }
}
