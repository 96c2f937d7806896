//! Numbers in words.

ghost use Rattle.std.specs.Prelude.{◌≡◌, ◌-◌, ◌≤◌, ◌↔◌, ℕ, false, length, option_map, IsTrue, IfOk, IfErr, IfSome, IfNone};
ghost use Rattle.std.specs.List.{list_all};
ghost use Rattle.command_words.specs.GivenValues.{rule_for, LacksBy};
ghost use Rattle.command_words.specs.Requests.{is_digit, number_of, IsNumberBy, Spells};

use crate::fault::NumberOption;

/// The last stage.
const LAST_STAGE: u32 = 4;

/// The most digits of a number.
const MOST_DIGITS: usize = 8;

/// The range of an option's number, and the number where the option is not given.
#[derive(Clone, Copy)]
struct NumberRange {
    least: u32,
    most: u32,
    otherwise: u32,
}

/// The number of an option: what its value spells, or the number that stands for none. The error is the option itself.
pub(crate) fn number_for(option: NumberOption, value: Option<&str>) -> Result<u32, NumberOption>
    ensures found { IfOk result (IsNumberBy (rule_for option) (option_map (λ text. text.now) value.entry)) }
    ensures below { IfOk result (λ n. n ≤ (rule_for option).most) }
    ensures fault { IfErr result (λ o. (o ≡ option) × LacksBy (rule_for option) (option_map (λ text. text.now) value.entry)) }
{
    let range = range_of(option);
    let Some(text) = value else {
        return Ok(range.otherwise);
    };
    let Some(number) = number_spelled(text.as_bytes()) else {
        return Err(option);
    };
    if is_within(range, number) {
        Ok(number)
    } else {
        Err(option)
    }
}

/// The range of an option.
fn range_of(option: NumberOption) -> NumberRange
    ensures least { result.least ≡ (rule_for option).least }
    ensures most { result.most ≡ (rule_for option).most }
    ensures otherwise { result.otherwise ≡ (rule_for option).otherwise }
    ensures within { result.otherwise ≤ result.most }
{
    match option {
        NumberOption::Stages => NumberRange {
            least: 1,
            most: LAST_STAGE,
            otherwise: LAST_STAGE,
        },
        NumberOption::Depth => NumberRange {
            least: 0,
            most: 3,
            otherwise: 2,
        },
        NumberOption::FactLimit => NumberRange {
            least: 1,
            most: 1_000_000,
            otherwise: 50_000,
        },
        NumberOption::PairLimit => NumberRange {
            least: 1,
            most: 20_000_000,
            otherwise: 20_000_000,
        },
        NumberOption::Sample => NumberRange {
            least: 1,
            most: 200,
            otherwise: 0,
        },
    }
}

/// Whether the range has the number.
fn is_within(range: NumberRange, number: u32) -> bool
    ensures { IsTrue result ↔ ((range.least ≤ number) × (number ≤ range.most)) }
{
    range.least <= number && number <= range.most
}

/// The number that a text spells in 1 to 8 decimal digits.
fn number_spelled(text: &[u8]) -> Option<u32>
    ensures found { IfSome result (Spells 0 99999999 text.now) }
    ensures none { IfNone result ((n : ℕ) → Spells 0 99999999 text.now n → ⊥) }
{
    if text.is_empty() {
        return None;
    }
    if MOST_DIGITS < text.len() {
        return None;
    }
    number_in_digits(text)
}

/// The number of a text that has no other bytes than digits.
fn number_in_digits(text: &[u8]) -> Option<u32>
    requires { length text.now ≤ 8 }
    ensures found { IfSome result (λ n. IsTrue (list_all is_digit text.now) × (n ≡ number_of text.now)) }
    ensures none { IfNone result (list_all is_digit text.now ≡ false) }
{
    let mut number = 0;
    for byte in text {
        let digit = digit_of(*byte)?;
        number = number * 10 + u32::from(digit);
    }
    Some(number)
}

/// The number of a decimal digit.
fn digit_of(byte: u8) -> Option<u8>
    ensures found { IfSome result (λ digit. IsTrue (is_digit byte) × (digit ≡ byte - 48)) }
    ensures below { IfSome result (λ digit. digit ≤ 9) }
    ensures none { IfNone result (is_digit byte ≡ false) }
{
    match byte {
        b'0'..=b'9' => Some(byte - b'0'),
        _ => None,
    }
}
