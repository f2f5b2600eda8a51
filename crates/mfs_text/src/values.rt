//! The values of operands.
ghost use Rattle.std.specs.Prelude.{◌≡◌, ◌≤◌, Ok, Err, IfOk, IsTrue, MatchResult};
ghost use Rattle.text_rows.specs.Lines.{split_at};
ghost use Rattle.model_system.specs.ValidFormat.{is_fill, is_literal};
ghost use Rattle.mfs_text.specs.Values as spec;

use crate::lines::Direction;
use model_system::Justify;
use text_rows::rules::{NOT_PRINTABLE, WRONG_WORD};
use text_rows::{both, byte_between, is_word, split_at, two_of};
use tm_types::{are_printable, is_printable};

/// POS: a row of 1 to 24 and a column of 1 to 80.
#[tactic(auto, unfolding(crate::specs::Values::screen_place_of))]
pub(crate) fn place_of(text: &[u8]) -> Result<(u8, u8), u8>
    ensures value { result ≡ spec.screen_place_of text.now }
    ensures row { IfOk result (λ place. (1 ≤ place.0) × (place.0 ≤ 24)) }
    ensures column { IfOk result (λ place. (1 ≤ place.1) × (place.1 ≤ 80)) }
{
    let (row, column) = two_of(text)?;
    both(byte_between(1, 24, row), byte_between(1, 80, column))
}

/// TYPE: INPUT or OUTPUT.
#[tactic(auto, unfolding(crate::specs::Values::direction_of))]
pub(crate) fn direction_of(word: &[u8]) -> Result<Direction, u8>
    ensures { result ≡ spec.direction_of word.now }
{
    if is_word(word, b"INPUT") {
        Ok(Direction::Input)
    } else if is_word(word, b"OUTPUT") {
        Ok(Direction::Output)
    } else {
        Err(WRONG_WORD)
    }
}

/// JUST: L or R.
#[tactic(auto, unfolding(crate::specs::Values::justify_of))]
pub(crate) fn justify_of(word: &[u8]) -> Result<Justify, u8>
    ensures { result ≡ spec.justify_of word.now }
{
    if is_word(word, b"L") {
        Ok(Justify::Left)
    } else if is_word(word, b"R") {
        Ok(Justify::Right)
    } else {
        Err(WRONG_WORD)
    }
}

/// FILL: the word BLANK, or one printable byte but a comma.
#[tactic(auto, unfolding(crate::specs::Values::fill_of))]
pub(crate) fn fill_of(word: &[u8]) -> Result<u8, u8>
    ensures value { result ≡ spec.fill_of word.now }
    ensures valid { IfOk result (λ byte. IsTrue (is_fill byte)) }
{
    if is_word(word, b"BLANK") {
        return Ok(b' ');
    }
    match word {
        [byte] if is_fill(*byte) => Ok(*byte),
        _ => Err(WRONG_WORD),
    }
}

fn is_fill(byte: u8) -> bool
    ensures { result ≡ is_fill byte }
{
    is_printable(byte) && byte != b','
}

/// LIT: a printable text in quotes, with no quote in it.
#[tactic(auto, unfolding(crate::specs::Values::literal_of))]
pub(crate) fn literal_of(text: &[u8]) -> Result<&[u8], u8>
    ensures value { MatchResult result (λ inside. spec.literal_of text.now ≡ Ok inside.now) (λ rule. spec.literal_of text.now ≡ Err rule) }
    ensures valid { IfOk result (λ inside. IsTrue (is_literal inside.now)) }
{
    match text {
        [b'\'', rest @ ..] => closed(rest),
        _ => Err(WRONG_WORD),
    }
}

fn closed(text: &[u8]) -> Result<&[u8], u8>
    ensures value { MatchResult result (λ inside. spec.literal_closed (split_at 39 text.now) ≡ Ok inside.now) (λ rule. spec.literal_closed (split_at 39 text.now) ≡ Err rule) }
    ensures valid { IfOk result (λ inside. IsTrue (is_literal inside.now)) }
{
    match split_at(b'\'', text) {
        Some((inside, [])) if are_printable(inside) => Ok(inside),
        Some((_, [])) => Err(NOT_PRINTABLE),
        _ => Err(WRONG_WORD),
    }
}
