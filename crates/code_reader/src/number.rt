//! The big-endian numbers of a code array (JVMS 6.5), and the places to which branches lead.

ghost use Rattle.std.specs.Prelude.{◌≡◌, ◌≤◌, ◌<◌, ◌+◌, ◌^◌, length, drop};
ghost use Rattle.jvm_model.specs.Instructions.{short, word, above_least, padding, near_target, far_target, target};

use byteorder::{BigEndian, ByteOrder};

/// The number in the first two bytes.
pub(crate) fn short(bytes: &[u8]) -> u16
    requires { 2 ≤ length bytes.now }
    ensures { result ≡ short bytes.now }
{
    BigEndian::read_u16(bytes)
}

/// The number in the first four bytes.
pub(crate) fn word(bytes: &[u8]) -> u32
    requires { 4 ≤ length bytes.now }
    ensures { result ≡ word bytes.now }
{
    BigEndian::read_u32(bytes)
}

/// How far a signed number is above the least one.
pub(crate) fn above_least(number: u32) -> u32
    ensures { result ≡ above_least number }
{
    number.wrapping_add(0x8000_0000)
}

/// How many bytes of padding stand after an opcode at an offset of the code (JVMS 6.5.tableswitch).
pub(crate) fn padding(offset: u32) -> usize
    ensures { result ≡ padding offset }
{
    3 - offset as usize % 4
}

/// The place at a signed distance of two bytes from an offset; `None` before the first byte.
pub(crate) fn near_target(offset: u32, distance: u16) -> Option<u32>
    requires { offset < 2 ^ 16 }
    ensures { result ≡ near_target offset distance }
{
    target(0x1_0000, offset, u32::from(distance))
}

/// The place at a signed distance of four bytes from an offset; `None` before the first byte.
pub(crate) fn far_target(offset: u32, distance: u32) -> Option<u32>
    requires { offset < 2 ^ 16 }
    ensures { result ≡ far_target offset distance }
{
    target(0x1_0000_0000, offset, distance)
}

/// The place at a signed distance, which is written modulo a power of two, from an offset.
fn target(modulus: u64, offset: u32, distance: u32) -> Option<u32>
    requires modulus { modulus ≤ 2 ^ 32 }
    requires offset { offset < 2 ^ 16 }
    requires distance { distance < modulus }
    ensures { result ≡ target modulus offset distance }
{
    let distance = u64::from(distance);
    let place = u64::from(offset) + distance;
    if distance + distance < modulus {
        return Some(place as u32);
    }
    if place < modulus {
        return None;
    }
    Some((place - modulus) as u32)
}

/// The bytes after so many; none where there are not more.
pub(crate) fn after(bytes: &[u8], count: usize) -> &[u8]
    ensures { result.now ≡ drop count bytes.now }
{
    if bytes.len() < count {
        return &[];
    }
    &bytes[count..]
}
