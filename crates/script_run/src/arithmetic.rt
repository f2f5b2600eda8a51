//! Sums and differences of texts of digits.
ghost use Rattle.std.specs.Prelude.{◌≡◌, ◌<◌, ◌≤◌, ◌^◌, IsTrue, IfOk, IfSome, length};
ghost use Rattle.std.specs.Option.{option_map};
ghost use Rattle.std.specs.Fmt.{decimal};
ghost use Rattle.tm_types.specs.Segment.{IsSegmentText};
ghost use Rattle.model_system.specs.Arithmetic as spec;

use std::alloc::Global;
use tm_types::{Bytes, Memory, are_digits};

/// One more than the greatest number of 18 digits.
const AMOUNT_CAP: u64 = 1_000_000_000_000_000_000;

/// The sum of the texts, without leading zeros; None exactly where one isn't 1 to 18 digits, or the
/// sum has more than 18.
#[tactic(auto, unfolding(model_system::specs::Arithmetic::sum_text))]
pub fn sum(alloc: Global, x: &[u8], y: &[u8]) -> Result<Option<Bytes>, Memory>
    ensures value { IfOk result (λ text. text ≡ spec.sum_text x.now y.now) }
    ensures text { IfOk result (λ text. IfSome text (λ digits. IsSegmentText digits)) }
{
    if !is_amount(x) || !is_amount(y) {
        return Ok(None);
    }
    let value = amount(x) + amount(y);
    if value < AMOUNT_CAP {
        Ok(Some(digits(alloc, value)?))
    } else {
        Ok(None)
    }
}

/// The first text less the second, without leading zeros; None exactly where one isn't 1 to 18
/// digits, or the second is greater.
#[tactic(auto, unfolding(model_system::specs::Arithmetic::difference_text))]
pub fn difference(alloc: Global, x: &[u8], y: &[u8]) -> Result<Option<Bytes>, Memory>
    ensures value { IfOk result (λ text. text ≡ spec.difference_text x.now y.now) }
    ensures text { IfOk result (λ text. IfSome text (λ digits. IsSegmentText digits)) }
{
    if !is_amount(x) || !is_amount(y) {
        return Ok(None);
    }
    let (first, second) = (amount(x), amount(y));
    if second <= first {
        Ok(Some(digits(alloc, first - second)?))
    } else {
        Ok(None)
    }
}

fn is_amount(text: &[u8]) -> bool
    ensures { result ≡ spec.is_amount text.now }
{
    1 <= text.len() && text.len() <= 18 && are_digits(text)
}

/// The number that the digits write.
#[tactic(auto, using(crate::proofs::Digits::digit_steps))]
fn amount(text: &[u8]) -> u64
    requires { IsTrue (spec.is_amount text.now) }
    ensures value { result ≡ spec.amount text.now }
    ensures below { result < AMOUNT_CAP }
{
    let mut value = 0;
    for &digit in text {
        value = value * 10 + u64::from(digit - b'0');
    }
    value
}

#[tactic(auto, using(crate::proofs::SegmentTexts::decimal_text))]
/// The number's digits, without leading zeros.
fn digits(alloc: Global, number: u64) -> Result<Bytes, Memory>
    requires { number < AMOUNT_CAP }
    ensures value { IfOk result (λ text. text ≡ decimal number) }
    ensures text { IfOk result (λ text. IsSegmentText text) }
{
    let text = format!(in alloc; "{number}")?;
    Ok(Bytes::from_vec(text.into_bytes()))
}
