//! The field lines of a screen.
ghost use Rattle.std.specs.Prelude.{◌≡◌, Ok, Err, IfOk, IsTrue, MatchResult, if◌then◌else◌};
ghost use Rattle.tm_types.specs.Segment.{are_printable};
ghost use Rattle.tm_types.specs.Words.{operands};
ghost use Rattle.text_rows.specs.Lines.{split_at};
ghost use Rattle.model_session.specs.Blocks as spec;

use crate::numbers::name_operand;
use crate::rules::{NO_EQUALS, NOT_PRINTABLE, WRONG_OPERANDS};
use crate::words::has_operand;
use text_rows::split_at;
use tm_types::{Name, are_printable, operands};

/// `+ NAME=text`: the name, and the text, which may be empty; or the lowest rule that the line breaks.
pub(crate) fn field_of(line: &[u8]) -> Result<(Name, &[u8]), u8>
    ensures value { MatchResult result (λ field. spec.field_of line.now ≡ Ok (record { name = field.0; text = field.1.now })) (λ rule. spec.field_of line.now ≡ Err rule) }
    ensures printable { IfOk result (λ field. IsTrue (are_printable field.1.now)) }
{
    judged_field(line)
}

#[tactic(auto, unfolding(model_session::specs::Blocks::field_of, text_rows::specs::LowestRule::also))]
fn judged_field(line: &[u8]) -> Result<(Name, &[u8]), u8>
    ensures { MatchResult result (λ field. spec.field_of line.now ≡ Ok (record { name = field.0; text = field.1.now })) (λ rule. spec.field_of line.now ≡ Err rule) }
{
    match (field_parts(line), printable_line(line)) {
        (Ok(field), Ok(())) => Ok(field),
        (Err(rule), Err(other)) => Err(rule.min(other)),
        (Err(rule), Ok(())) | (Ok(_), Err(rule)) => Err(rule),
    }
}

/// The name and the text, or the rule that their form breaks.
fn field_parts(line: &[u8]) -> Result<(Name, &[u8]), u8>
    ensures { MatchResult result (λ field. (if spec.has_operand line.now then spec.field_parts (split_at 61 (operands line.now)) else Err 2) ≡ Ok (record { name = field.0; text = field.1.now })) (λ rule. (if spec.has_operand line.now then spec.field_parts (split_at 61 (operands line.now)) else Err 2) ≡ Err rule) }
{
    if !has_operand(line) {
        return Err(WRONG_OPERANDS);
    }
    match split_at(b'=', operands(line)) {
        Some((name, text)) => with_text(name_operand(name), text),
        None => Err(NO_EQUALS),
    }
}

fn with_text(name: Result<Name, u8>, text: &[u8]) -> Result<(Name, &[u8]), u8>
    ensures { MatchResult result (λ field. spec.with_field_text text.now name ≡ Ok (record { name = field.0; text = field.1.now })) (λ rule. spec.with_field_text text.now name ≡ Err rule) }
{
    match name {
        Ok(name) => Ok((name, text)),
        Err(rule) => Err(rule),
    }
}

/// Rule 6 where a byte of the line isn't printable.
fn printable_line(line: &[u8]) -> Result<(), u8>
    ensures { result ≡ spec.printable_block_line line.now }
{
    if are_printable(line) {
        Ok(())
    } else {
        Err(NOT_PRINTABLE)
    }
}
