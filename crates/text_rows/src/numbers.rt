//! Numbers.
ghost use Rattle.std.specs.Prelude.{◌≡◌, ◌<◌, ◌≤◌, IfOk};
ghost use Rattle.text_rows.specs.Numbers as spec;

use crate::rules::{NO_NUMBER, OUT_OF_RANGE};
use tm_types::{NUMBER_CAP, are_digits, capped_number};

#[tactic(auto, unfolding(crate::specs::Numbers::number_between))]
/// The number that the text spells, from `low` to `high`.
///
/// A text that isn't 1 to 20 digits is no number; another number is out of range. The limits are below
/// 1,000,000,000.
pub fn number_between(low: u32, high: u32, text: &[u8]) -> Result<u32, u8>
    requires { high < NUMBER_CAP }
    ensures value { result ≡ spec.number_between low high text.now }
    ensures within { IfOk result (λ number. (low ≤ number) × (number ≤ high)) }
{
    if !is_number(text) {
        return Err(NO_NUMBER);
    }
    let number = capped_number(text);
    if number < low || high < number {
        return Err(OUT_OF_RANGE);
    }
    Ok(number)
}

/// The number that the text spells, from `low` to `high`, where a byte holds both.
pub fn byte_between(low: u8, high: u8, text: &[u8]) -> Result<u8, u8>
    ensures value { result ≡ spec.number_between low high text.now }
    ensures within { IfOk result (λ number. (low ≤ number) × (number ≤ high)) }
{
    Ok(number_between(u32::from(low), u32::from(high), text)? as u8)
}

fn is_number(text: &[u8]) -> bool
    ensures { result ≡ spec.is_number text.now }
{
    1 <= text.len() && text.len() <= 20 && are_digits(text)
}
