//! Of several rules that are broken the lowest is told.
ghost use Rattle.std.specs.Prelude.{◌≡◌, Ok, IfOk, OnOk, IsOk};
ghost use Rattle.text_rows.specs.LowestRule as lowest;

/// Both values, or the lowest rule that one of them breaks.
#[tactic(auto, unfolding(crate::specs::LowestRule::both))]
pub fn both<A: Drop, B: Drop>(first: Result<A, u8>, second: Result<B, u8>) -> Result<(A, B), u8>
    ensures value { result ≡ lowest.both first second }
    ensures first { IfOk result (λ values. first ≡ Ok values.0) }
    ensures second { IfOk result (λ values. second ≡ Ok values.1) }
{
    match (first, second) {
        (Ok(a), Ok(b)) => Ok((a, b)),
        (Err(rule), Err(other)) => Err(rule.min(other)),
        (Err(rule), Ok(_)) | (Ok(_), Err(rule)) => Err(rule),
    }
}

/// The value, or the lowest rule that it or something besides breaks.
#[tactic(auto, unfolding(crate::specs::LowestRule::also))]
pub fn also<A: Drop, B: Drop>(value: Result<A, u8>, besides: Result<B, u8>) -> Result<A, u8>
    ensures value { result ≡ lowest.also value besides }
    ensures kept { IfOk result (λ kept. value ≡ Ok kept) }
    ensures besides { OnOk result (IsOk besides) }
{
    match (value, besides) {
        (value, Ok(_)) => value,
        (Ok(_), Err(rule)) => Err(rule),
        (Err(own), Err(other)) => Err(own.min(other)),
    }
}
