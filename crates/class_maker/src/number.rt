//! The numbers of a class file, high byte first (JVMS 4).

ghost use Rattle.std.specs.Prelude.{◌≡◌, ◌++◌, OnOk};
ghost use Rattle.jvm_model.specs.Spelling.{u2, u4, u8};

use std::alloc::AllocError;

/// Adds a number of two bytes.
pub(crate) fn push_u2(bytes: &mut Vec<u8>, number: u16) -> Result<(), AllocError>
    ensures { OnOk result (bytes.new.items ≡ bytes.old.items ++ u2 number) }
{
    bytes.extend_from_slice(&number.to_be_bytes())
}

/// Adds a number of four bytes.
pub(crate) fn push_u4(bytes: &mut Vec<u8>, number: u32) -> Result<(), AllocError>
    ensures { OnOk result (bytes.new.items ≡ bytes.old.items ++ u4 number) }
{
    bytes.extend_from_slice(&number.to_be_bytes())
}

/// Adds a number of eight bytes.
pub(crate) fn push_u8(bytes: &mut Vec<u8>, number: u64) -> Result<(), AllocError>
    ensures { OnOk result (bytes.new.items ≡ bytes.old.items ++ u8 number) }
{
    bytes.extend_from_slice(&number.to_be_bytes())
}
