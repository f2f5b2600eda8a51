//! Numbers and names, as operands.
ghost use Rattle.std.specs.Prelude.{◌≡◌, ◌≤◌, length, IsTrue, IfOk, IfSome};
ghost use Rattle.std.specs.List.{list_all};
ghost use Rattle.std.specs.Char.{is_ascii_digit};
ghost use Rattle.std.specs.Str.Parse.{digits_value};
ghost use Rattle.model_session.specs.Numbers as spec;

use crate::rules::{NO_NAME, NO_NUMBER};
use tm_types::{Name, are_digits};

/// The name that an operand is.
#[tactic(auto, unfolding(model_session::specs::Numbers::name_operand))]
pub(crate) fn name_operand(text: &[u8]) -> Result<Name, u8>
    ensures { result ≡ spec.name_operand text.now }
{
    match Name::read(text) {
        Some(name) => Ok(name),
        None => Err(NO_NAME),
    }
}

/// The number that an operand writes, where it writes one from low to high.
#[tactic(auto, unfolding(model_session::specs::Numbers::number_operand))]
pub(crate) fn number_operand(low: u64, high: u64, text: &[u8]) -> Result<u64, u8>
    ensures value { result ≡ spec.number_operand low high text.now }
    ensures within { IfOk result (λ number. (low ≤ number) × (number ≤ high)) }
{
    match number_in(low, high, text) {
        Some(number) => Ok(number),
        None => Err(NO_NUMBER),
    }
}

/// The number that a text writes, where it writes one from low to high.
pub fn number_in(low: u64, high: u64, text: &[u8]) -> Option<u64>
    ensures value { result ≡ spec.number_in low high text.now }
    ensures within { IfSome result (λ number. (low ≤ number) × (number ≤ high)) }
{
    if !is_number(text) {
        return None;
    }
    let value = digits_value(text);
    if value < u128::from(low) || value > u128::from(high) {
        return None;
    }
    Some(value as u64)
}

fn is_number(text: &[u8]) -> bool
    ensures { result ≡ spec.is_padded_number text.now }
{
    !text.is_empty() && text.len() <= 20 && are_digits(text)
}

/// The number that these digits write.
#[tactic(auto, using(crate::proofs::Digits::digit_steps))]
fn digits_value(text: &[u8]) -> u128
    requires short { length text.now ≤ 20 }
    requires digits { IsTrue (list_all is_ascii_digit text.now) }
    ensures { result ≡ digits_value 10 text.now }
{
    let mut value = 0;
    for &digit in text {
        value = value * 10 + u128::from(digit - b'0');
    }
    value
}
