//! Decimal digits.
ghost use Rattle.std.specs.Prelude.{◌≡◌, min};
ghost use Rattle.std.specs.Char.{is_ascii_digit};
ghost use Rattle.std.specs.List.{list_all};
ghost use Rattle.tm_types.specs.Digits as spec;

use itoa::Buffer;

/// What `capped_number` answers at most.
pub const NUMBER_CAP: u32 = 1_000_000_000;

/// Whether each byte is a digit.
pub fn are_digits(text: &[u8]) -> bool
    ensures { result ≡ list_all is_ascii_digit text.now }
{
    text.iter().all(|b| b.is_ascii_digit())
}

/// The last four decimal digits of a number: all of them where it is below 10,000.
pub fn four_digits(number: u16) -> [u8; 4]
    ensures { result ≡ spec.four_digits number }
{
    [
        last_digit(number / 1000),
        last_digit(number / 100),
        last_digit(number / 10),
        last_digit(number),
    ]
}

/// The last decimal digit of a number.
fn last_digit(number: u16) -> u8
    ensures { result ≡ spec.digit number }
{
    b'0' + (number % 10) as u8
}

/// The number that digits say, or the cap where it is above.
#[tactic(auto, using(crate::proofs::CappedNumber::capped_more), unfolding(crate::specs::Digits::number_of))]
pub fn capped_number(digits: &[u8]) -> u32
    ensures { result ≡ min (spec.number_of digits.now) NUMBER_CAP }
{
    let mut number: u64 = 0;
    for &digit in digits {
        number = (10 * number + u64::from(digit.saturating_sub(b'0'))).min(u64::from(NUMBER_CAP));
    }
    number as u32
}

/// The number from `low` to `high` that the text spells in digits, with no zero before them, or None exactly where
/// it spells none.
#[tactic(auto, unfolding(crate::specs::Digits::spelled_number))]
pub(crate) fn spelled_number(low: u8, high: u8, text: &[u8]) -> Option<u8>
    ensures { result ≡ spec.spelled_number low high text.now }
{
    let number = capped_number(text);
    if number < u32::from(low) || u32::from(high) < number {
        return None;
    }
    let mut digits = Buffer::new();
    if digits.format(number).as_bytes() == text {
        Some(number as u8)
    } else {
        None
    }
}
