//! Lists in brackets.
ghost use Rattle.std.specs.Prelude.{◌≡◌, Ok, Err, MatchResult};
ghost use Rattle.text_rows.specs.Lists as spec;

use crate::lines::split_at;
use crate::pieces::{Pieces, Place};
use crate::rules::WRONG_LIST;

/// The elements of a list in brackets: rule 8 where the text is none.
#[tactic(auto, unfolding(crate::specs::Lists::list_of))]
pub fn list_of(text: &[u8]) -> Result<Pieces<'_>, u8>
    ensures { result ≡ spec.list_of text.now }
{
    let [b'(', rest @ ..] = text else {
        return Err(WRONG_LIST);
    };
    match split_at(b')', rest) {
        Some((inside, [])) => Ok(elements(inside)),
        _ => Err(WRONG_LIST),
    }
}

fn elements(inside: &[u8]) -> Pieces<'_>
    ensures { result ≡ spec.elements inside.now }
{
    if inside.is_empty() {
        Pieces::none(inside)
    } else {
        Pieces::of(Place::Element, inside)
    }
}

/// The two elements of a list: rule 8 where the text is no list of two.
#[tactic(auto, unfolding(crate::specs::Lists::two_of))]
pub fn two_of(text: &[u8]) -> Result<(&[u8], &[u8]), u8>
    ensures { MatchResult result (λ two. spec.two_of text.now ≡ Ok (two.0.now, two.1.now)) (λ rule. spec.two_of text.now ≡ Err rule) }
{
    let mut elements = list_of(text)?;
    match (elements.next(), elements.next(), elements.next()) {
        (Some(first), Some(second), None) => Ok((first, second)),
        _ => Err(WRONG_LIST),
    }
}

/// The three elements of a list: rule 8 where the text is no list of three.
#[tactic(auto, unfolding(crate::specs::Lists::three_of))]
pub fn three_of(text: &[u8]) -> Result<(&[u8], &[u8], &[u8]), u8>
    ensures { MatchResult result (λ three. spec.three_of text.now ≡ Ok (three.0.now, three.1.now, three.2.now)) (λ rule. spec.three_of text.now ≡ Err rule) }
{
    let mut elements = list_of(text)?;
    match (
        elements.next(),
        elements.next(),
        elements.next(),
        elements.next(),
    ) {
        (Some(first), Some(second), Some(third), None) => Ok((first, second, third)),
        _ => Err(WRONG_LIST),
    }
}
