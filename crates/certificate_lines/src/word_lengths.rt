//! The lengths of numbers, names and sites as words.

ghost use Rattle.std.specs.Prelude.{◌≡◌, ◌≤◌, ◌^◌, length};
ghost use Rattle.std.specs.Fmt.{decimal};
ghost use Rattle.site_report.specs.Printed.{printed, printed_byte};
ghost use Rattle.edge_lines.specs.EdgeLines.{method_word, site_words};

use jvm_model::{MethodNo, Site};

/// How many digits a number has.
pub(crate) fn number_length(number: u32) -> u128
    ensures long { result ≡ length (decimal number) }
    ensures few { result ≤ 10 }
{
    let mut rest = number;
    let mut long = 1;
    while rest >= 10 {
        rest /= 10;
        long += 1;
    }
    long
}

/// How many bytes print a byte of a name.
fn byte_length(byte: u8) -> u128
    ensures long { result ≡ length (printed_byte byte) }
    ensures few { result ≤ 4 }
{
    if (0x21..=0x7E).contains(&byte) && byte != b'\\' {
        1
    } else {
        4
    }
}

/// How many bytes print a name.
pub(crate) fn name_length(name: &[u8]) -> u128
    ensures long { result ≡ length (printed name.now) }
    ensures few { result ≤ 2 ^ 66 }
{
    let mut long = 0;
    for byte in name {
        long += byte_length(*byte);
    }
    long
}

/// The length of a method, or of what stands for the start of the program.
pub(crate) fn method_length(method: Option<MethodNo>) -> u128
    ensures long { result ≡ length (method_word method) }
    ensures few { result ≤ 10 }
{
    match method {
        Some(number) => number_length(number.0),
        None => 4,
    }
}

/// The length of the words of a site.
pub(crate) fn site_length(site: &Site) -> u128
    ensures long { result ≡ length (site_words site.now) }
    ensures few { result ≤ 2 ^ 67 }
{
    let method = method_length(site.method);
    let offset = number_length(site.offset);
    let class = name_length(site.class.as_slice());
    method + offset + class + 4
}
