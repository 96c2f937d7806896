//! Names and numbers in output. Of a name a byte that is no visible ASCII character, and the backslash, is written as `\x` and two
//! hexadecimal digits. A number is written in decimal digits.

ghost use Rattle.std.specs.Prelude.{◌≡◌, ◌<◌, ◌++◌, OnOk};
ghost use Rattle.std.specs.Fmt.{decimal};
ghost use Rattle.site_report.specs.Printed.{printed, printed_byte, hex_digit};

use std::alloc::AllocError;

/// The digit of a number below 16.
fn hex_digit(number: u8) -> u8
    requires { number < 16 }
    ensures { result ≡ hex_digit number }
{
    if number < 10 {
        b'0' + number
    } else {
        b'a' - 10 + number
    }
}

/// Adds a byte of a name at the end of a line.
fn push_byte(line: &mut Vec<u8>, byte: u8) -> Result<(), AllocError>
    ensures { OnOk result (line.new.items ≡ line.old.items ++ printed_byte byte) }
{
    if (0x21..=0x7E).contains(&byte) && byte != b'\\' {
        line.push(byte)?;
        return Ok(());
    }
    line.extend_from_slice(&[b'\\', b'x', hex_digit(byte / 16), hex_digit(byte % 16)])
}

/// Adds a name at the end of a line.
pub fn push_name(line: &mut Vec<u8>, name: &[u8]) -> Result<(), AllocError>
    ensures { OnOk result (line.new.items ≡ line.old.items ++ printed name.now) }
{
    for byte in name {
        push_byte(line, *byte)?;
    }
    Ok(())
}

/// Adds a number at the end of a line.
pub fn push_number(line: &mut Vec<u8>, number: u32) -> Result<(), AllocError>
    ensures { OnOk result (line.new.items ≡ line.old.items ++ decimal number) }
{
    let digits = number.to_string(*line.allocator())?;
    line.extend_from_slice(digits.as_bytes())
}
