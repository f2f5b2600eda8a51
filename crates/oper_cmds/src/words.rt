//! The words of a command, which one blank parts, its names and its numbers.
ghost use Rattle.std.specs.Prelude.{◌≡◌, ◌≤◌, IfOk};
ghost use Rattle.model_machine.specs.CommandText as spec;

use crate::rules::{NO_NAME, NO_NUMBER, WRONG_OPERANDS};
use text_rows::byte_between;
use tm_types::{Name, first_word, operands};

/// How many operands a text has, as many as blanks.
pub(crate) fn operand_count(text: &[u8]) -> usize
    ensures { result ≡ spec.command_operand_count text.now }
{
    text.iter().filter(|b| **b == b' ').count()
}

pub(crate) fn first_operand(text: &[u8]) -> &[u8]
    ensures { result.now ≡ spec.first_operand text.now }
{
    first_word(operands(text))
}

pub(crate) fn second_operand(text: &[u8]) -> &[u8]
    ensures { result.now ≡ spec.second_operand text.now }
{
    first_word(operands(operands(text)))
}

pub(crate) fn third_operand(text: &[u8]) -> &[u8]
    ensures { result.now ≡ spec.third_operand text.now }
{
    first_word(operands(operands(operands(text))))
}

pub(crate) fn fourth_operand(text: &[u8]) -> &[u8]
    ensures { result.now ≡ spec.fourth_operand text.now }
{
    first_word(operands(operands(operands(operands(text)))))
}

/// The name that a word is.
#[tactic(auto, unfolding(model_machine::specs::CommandText::command_name_operand))]
pub(crate) fn name_operand(word: &[u8]) -> Result<Name, u8>
    ensures { result ≡ spec.command_name_operand word.now }
{
    match Name::read(word) {
        Some(name) => Ok(name),
        None => Err(NO_NAME),
    }
}

/// The name that stands second, where there are so many operands.
pub(crate) fn name_of(count: usize, text: &[u8]) -> Result<Name, u8>
    ensures { result ≡ spec.command_name_of count text.now }
{
    if operand_count(text) == count {
        name_operand(second_operand(text))
    } else {
        Err(WRONG_OPERANDS)
    }
}

/// The number from `low` to `high` that a word spells in digits.
#[tactic(auto, unfolding(model_machine::specs::CommandText::command_number_operand))]
pub(crate) fn number_operand(low: u8, high: u8, word: &[u8]) -> Result<u8, u8>
    ensures value { result ≡ spec.command_number_operand low high word.now }
    ensures within { IfOk result (λ number. (low ≤ number) × (number ≤ high)) }
{
    match byte_between(low, high, word) {
        Ok(number) => Ok(number),
        Err(_) => Err(NO_NUMBER),
    }
}
