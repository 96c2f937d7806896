//! Bytes and numbers at the front of bytes.

ghost use Rattle.std.specs.Prelude.{◌≡◌, ◌≤◌, length, drop};
ghost use Rattle.line_guesses.specs.Guess.{digit_count, first_byte, is_digit, number_at, read_on, small_at};

/// The bytes after so many.
pub(crate) fn skip(bytes: &[u8], count: usize) -> &[u8]
    ensures { result.now ≡ drop count bytes.now }
{
    if count <= bytes.len() {
        &bytes[count..]
    } else {
        &[]
    }
}

/// The first byte, or 0 where there is none.
pub(crate) fn first_byte(bytes: &[u8]) -> u8
    ensures { result ≡ first_byte bytes.now }
{
    if bytes.is_empty() { 0 } else { bytes[0] }
}

fn is_digit(byte: u8) -> bool
    ensures { result ≡ is_digit byte }
{
    if 48 <= byte { byte <= 57 } else { false }
}

/// How many digits stand at the front.
fn digit_count(bytes: &[u8]) -> usize
    ensures { result ≡ digit_count bytes.now }
{
    let mut count = 0;
    for byte in bytes {
        if !is_digit(*byte) {
            return count;
        }
        count += 1;
    }
    count
}

/// The number that at most ten digits make.
fn value_of(digits: &[u8]) -> u64
    requires few { length digits.now ≤ 10 }
    requires digits { digit_count digits.now ≡ length digits.now }
    ensures { result ≡ read_on 0 digits.now }
{
    let mut value = 0;
    for digit in digits {
        value = 10 * value + u64::from(*digit - b'0');
    }
    value
}

/// A number of 32 bits.
#[tactic(auto, unfolding(crate::specs::Guess::number_at))]
pub(crate) fn number_at(bytes: &[u8]) -> (u32, &[u8])
    ensures number { result.0 ≡ (number_at bytes.now).0 }
    ensures rest { result.1.now ≡ (number_at bytes.now).1 }
{
    let count = digit_count(bytes);
    if count > 10 {
        return (0, bytes);
    }
    let value = value_of(&bytes[..count]);
    let number = if value < 4_294_967_296 {
        value as u32
    } else {
        0
    };
    (number, skip(bytes, count))
}

/// A number of 8 bits.
#[tactic(auto, unfolding(crate::specs::Guess::small_at))]
pub(crate) fn small_at(bytes: &[u8]) -> (u8, &[u8])
    ensures number { result.0 ≡ (small_at bytes.now).0 }
    ensures rest { result.1.now ≡ (small_at bytes.now).1 }
{
    let (number, rest) = number_at(bytes);
    let small = if number < 256 { number as u8 } else { 0 };
    (small, rest)
}
