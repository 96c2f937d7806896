//! The order of lines.

ghost use Rattle.std.specs.Prelude.{◌≡◌};
ghost use Rattle.certificate_lines.specs.LineOrder.{line_cmp, line_key};

use crate::line::Line;
use crate::line_key::{compare_keys, key_of};
use std::cmp::Ordering;

/// How a line stands to another in the order of lines: by the kinds, and within a kind by the words from left to right. It takes no memory.
pub fn compare_lines(one: &Line, other: &Line) -> Ordering
    ensures { result ≡ line_cmp one.now other.now }
{
    compare_keys(&key_of(one), &key_of(other))
}

/// The kind of a line, by its place in the order of kinds, from 0.
pub fn kind_of(line: &Line) -> u8
    ensures { result ≡ (line_key line.now).kind }
{
    key_of(line).kind()
}
