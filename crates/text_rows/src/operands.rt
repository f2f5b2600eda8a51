//! The operands of a macro.
ghost use Rattle.std.specs.Prelude.{◌≡◌, Ok, Err, MatchResult, map};
ghost use Rattle.std.specs.List.{list_any};
ghost use Rattle.std.specs.Option.{option_copied};
ghost use Rattle.std.specs.Str.{bytes_eq};
ghost use Rattle.text_rows.specs.Names as names;
ghost use Rattle.text_rows.specs.Operands as spec;

use crate::lines::split_at;
use crate::names::name_of;
use crate::pieces::{Pieces, Place};
use crate::rules::{OPERAND_MISSING, OPERAND_TWICE, UNKNOWN_OPERAND};
use std::marker::Model;
use tm_types::Name;

/// The operands of a macro, seen as the list of their texts.
#[derive(Drop)]
pub struct Operands<'a> {
    text: &'a [u8],
    is_there: bool,
}

impl<'a> Model for Operands<'a> {
    ghost use Rattle.std.specs.Prelude.{List, [], ℕ, if◌then◌else◌};
    ghost use Rattle.text_rows.specs.declared.pieces.Place.TheVariants.{Operand};
    ghost use Rattle.text_rows.specs.Pieces.{pieces};

    ghost Value = { List (List ℕ) };

    ghost view = { λ o. if o.is_there then pieces Operand o.text.now else [] };
}

impl<'a> Operands<'a> {
    /// The operands, in order.
    pub fn pieces(&self) -> Pieces<'a>
        ensures { result ≡ self.now }
    {
        if self.is_there {
            Pieces::of(Place::Operand, self.text)
        } else {
            Pieces::none(self.text)
        }
    }

    /// The value under a key: None where it isn't there, rule 3 where it stands twice.
    pub fn only_value(&self, key: &[u8]) -> Result<Option<&'a [u8]>, u8>
        ensures { MatchResult result (λ value. spec.only (spec.values key.now self.now) ≡ Ok (option_copied value)) (λ rule. spec.only (spec.values key.now self.now) ≡ Err rule) }
    {
        let mut found = None;
        for operand in self.pieces() {
            if let Some(value) = value_under(key, operand) {
                if found.is_some() {
                    return Err(OPERAND_TWICE);
                }
                found = Some(value);
            }
        }
        Ok(found)
    }

    /// Whether an operand with this key stands there, be it once or twice.
    pub fn stands(&self, key: &[u8]) -> bool
        ensures { result ≡ spec.stands key.now self.now }
    {
        match self.only_value(key) {
            Ok(None) => false,
            Ok(Some(_)) => true,
            Err(_) => true,
        }
    }

    /// The name under a key: rule 4 where it isn't there.
    #[tactic(auto, unfolding(crate::specs::Operands::needed))]
    pub fn needed_name(&self, key: &[u8]) -> Result<Name, u8>
        ensures { result ≡ spec.needed key.now names.name_of self.now }
    {
        match self.only_value(key)? {
            Some(text) => name_of(text),
            None => Err(OPERAND_MISSING),
        }
    }

    /// Rule 2 where an operand has none of these keys.
    pub fn known_among(&self, keys: &[&[u8]]) -> Result<(), u8>
        ensures { result ≡ spec.known_among (map (λ key. key.now) keys.now) self.now }
    {
        for operand in self.pieces() {
            if !has_key(keys, operand) {
                return Err(UNKNOWN_OPERAND);
            }
        }
        Ok(())
    }
}

/// Whether an operand has one of these keys.
#[tactic(auto, unfolding(crate::specs::Operands::has_key))]
fn has_key(keys: &[&[u8]], operand: &[u8]) -> bool
    ensures { result ≡ spec.has_key (map (λ key. key.now) keys.now) operand.now }
{
    match split_at(b'=', operand) {
        Some((word, _)) => is_among(keys, word),
        None => false,
    }
}

fn is_among(words: &[&[u8]], text: &[u8]) -> bool
    ensures { result ≡ list_any (bytes_eq text.now) (map (λ word. word.now) words.now) }
{
    for &word in words {
        if is_word(text, word) {
            return true;
        }
    }
    false
}

/// The name of the macro that stands in the line, and its operands.
#[tactic(auto, unfolding(crate::specs::Operands::macro_name, crate::specs::Operands::macro_operands))]
pub fn split_macro(line: &[u8]) -> (&[u8], Operands<'_>)
    ensures name { result.0.now ≡ spec.macro_name line.now }
    ensures operands { result.1 ≡ spec.macro_operands line.now }
{
    match split_at(b' ', line) {
        Some((name, text)) => (
            name,
            Operands {
                text,
                is_there: true,
            },
        ),
        None => (
            line,
            Operands {
                text: line,
                is_there: false,
            },
        ),
    }
}

/// The value of an operand that has this key.
#[tactic(auto, unfolding(crate::specs::Operands::value_under))]
fn value_under<'a>(key: &[u8], operand: &'a [u8]) -> Option<&'a [u8]>
    ensures { option_copied result ≡ spec.value_under key.now operand.now }
{
    let (word, value) = split_at(b'=', operand)?;
    if word == key { Some(value) } else { None }
}

/// Whether the text is this word.
pub fn is_word(text: &[u8], word: &[u8]) -> bool
    ensures { result ≡ bytes_eq text.now word.now }
{
    text == word
}
