//! A line cut into words or operands.
ghost use Rattle.std.specs.Prelude.{◌≡◌, ◌≤◌, [], ◌∷◌, length};
ghost use Rattle.std.specs.Iterator.{item_count, YieldsFirstRef};
ghost use Rattle.text_rows.specs.Pieces as spec;

use std::marker::Model;

/// Where a cut stands.
#[derive(Clone, Copy, Debug, PartialEq, Eq)]
pub enum Place {
    /// Before the first byte of an operand of a macro.
    Operand,
    /// In an operand that is `F` so far.
    AfterF,
    /// In one that is `FI` so far.
    AfterFi,
    /// In one that is `FIL` so far.
    AfterFil,
    /// In one that is `FILL` so far.
    AfterFill,
    /// Behind `FILL=`.
    Fill,
    /// In an operand of a macro, outside brackets and quotes.
    InOperand,
    /// In the brackets of an operand.
    InBrackets,
    /// In the quotes of an operand.
    InQuotes,
    /// In an element of a list.
    Element,
    /// Before the first byte of a word of a script.
    WordStart,
    /// In a word of a script.
    InWord,
    /// In a literal of a script.
    InLiteral,
}

impl Place {
    #[tactic(auto, unfolding(crate::specs::Pieces::parts))]
    fn parts(self, byte: u8) -> bool
        ensures { result ≡ spec.parts self byte }
    {
        match self {
            Place::Operand
            | Place::AfterF
            | Place::AfterFi
            | Place::AfterFil
            | Place::AfterFill
            | Place::Fill
            | Place::InOperand
            | Place::Element => byte == b',',
            Place::WordStart | Place::InWord => byte == b' ',
            Place::InBrackets | Place::InQuotes | Place::InLiteral => false,
        }
    }

    #[tactic(auto, unfolding(crate::specs::Pieces::place_after))]
    fn after(self, byte: u8) -> Place
        ensures { result ≡ spec.place_after self byte }
    {
        match (self, byte) {
            (Place::Operand, b'F') => Place::AfterF,
            (Place::AfterF, b'I') => Place::AfterFi,
            (Place::AfterFi, b'L') => Place::AfterFil,
            (Place::AfterFil, b'L') => Place::AfterFill,
            (Place::AfterFill, b'=') => Place::Fill,
            (
                Place::Operand
                | Place::AfterF
                | Place::AfterFi
                | Place::AfterFil
                | Place::AfterFill
                | Place::InOperand,
                _,
            ) => within_operand(byte),
            (Place::Fill, _) | (Place::InBrackets, b')') | (Place::InQuotes, b'\'') => {
                Place::InOperand
            }
            (Place::WordStart, b'"') => Place::InLiteral,
            (Place::WordStart, _) | (Place::InLiteral, b'"') => Place::InWord,
            (place, _) => place,
        }
    }
}

/// The place behind a byte of an operand.
#[tactic(auto, unfolding(crate::specs::Pieces::within_operand))]
fn within_operand(byte: u8) -> Place
    ensures { result ≡ spec.within_operand byte }
{
    match byte {
        b'(' => Place::InBrackets,
        b'\'' => Place::InQuotes,
        _ => Place::InOperand,
    }
}

/// The pieces of a text that are left, seen as a list of texts.
#[derive(Drop)]
pub struct Pieces<'a> {
    first: Place,
    text: &'a [u8],
    ended: bool,
}

impl<'a> Model for Pieces<'a> {
    ghost use Rattle.std.specs.Prelude.{List, ℕ};
    ghost use Rattle.text_rows.specs.Pieces.{pieces_left};

    ghost Value = { List (List ℕ) };

    ghost view = { λ p. pieces_left p.first p.text.now p.ended };
}

impl<'a> Pieces<'a> {
    /// The pieces of a text that begins at the place.
    pub fn of(first: Place, text: &'a [u8]) -> Pieces<'a>
        ensures { result ≡ spec.pieces first text.now }
    {
        Pieces {
            first,
            text,
            ended: false,
        }
    }

    /// No pieces.
    pub fn none(text: &'a [u8]) -> Pieces<'a>
        ensures { result ≡ [] }
    {
        Pieces {
            first: Place::Element,
            text,
            ended: true,
        }
    }
}

impl<'a> Iterator for Pieces<'a> {
    type Item = &'a [u8];

    ghost next_gives = { YieldsFirstRef (λ p. p) };

    ghost remaining = { item_count (λ p. p) };

    fn next(&mut self) -> Option<&'a [u8]> {
        if self.ended {
            return None;
        }
        let (piece, rest, ended) = cut_first(self.first, self.text);
        self.text = rest;
        self.ended = ended;
        Some(piece)
    }
}

/// The first piece, the text behind the byte that parts, and whether no byte parts.
fn cut_first(first: Place, text: &[u8]) -> (&[u8], &[u8], bool)
    ensures { spec.pieces first text.now ≡ result.0.now ∷ spec.pieces_left first result.1.now result.2 }
{
    let length = first_length(first, text);
    if length < text.len() {
        (&text[..length], &text[length + 1..], false)
    } else {
        (text, text, true)
    }
}

fn first_length(first: Place, text: &[u8]) -> usize
    ensures value { result ≡ spec.first_length first text.now }
    ensures within { result ≤ length text.now }
{
    let mut place = first;
    for (index, &byte) in text.iter().enumerate() {
        if place.parts(byte) {
            return index;
        }
        place = place.after(byte);
    }
    text.len()
}
