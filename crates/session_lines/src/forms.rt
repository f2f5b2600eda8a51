//! The forms of session lines.
ghost use Rattle.std.specs.Prelude.{◌≡◌, ◌≤◌, ℕ, IfOk};
ghost use Rattle.model_session.specs.Lines as spec;
ghost use Rattle.session_lines.specs.BlockReading.{IsFormWithin};

use crate::block::is_screen;
use crate::numbers::{name_operand, number_operand};
use crate::rules::{NO_LINE, UNKNOWN_WORD, WRONG_OPERANDS};
use crate::words::operand_count;
use model_session::Form;
use text_rows::both;
use tm_types::{Name, first_word, operands};

/// The greatest number of an input or a reply.
const GREATEST_NUMBER: u64 = 999_999_999_999;

/// The most turns that QUIET asks for.
const GREATEST_QUIET: u64 = 1_000_000;

fn message_number(text: &[u8]) -> Result<u64, u8>
    ensures value { result ≡ spec.message_number text.now }
    ensures some { IfOk result (λ number. 1 ≤ number) }
{
    number_operand(1, GREATEST_NUMBER, text)
}

/// `IN t n text`
#[tactic(auto, unfolding(model_session::specs::Lines::input_form))]
fn input_form(line: &[u8]) -> Result<Form, u8>
    ensures value { result ≡ spec.input_form line.now }
    ensures within { IfOk result (λ form. (regions : ℕ) → IsFormWithin regions form) }
{
    if operand_count(line) < 3 {
        return Err(WRONG_OPERANDS);
    }
    let behind = operands(line);
    let number = message_number(first_word(operands(behind)));
    match both(name_operand(first_word(behind)), number) {
        Ok((terminal, number)) => Ok(Form::Input(terminal, number)),
        Err(rule) => Err(rule),
    }
}

/// The terminal and the number of a line that has no other operand.
fn terminal_and_number(line: &[u8]) -> Result<(Name, u64), u8>
    ensures { result ≡ spec.terminal_and_number line.now }
{
    if operand_count(line) != 2 {
        return Err(WRONG_OPERANDS);
    }
    let behind = operands(line);
    both(
        name_operand(first_word(behind)),
        message_number(operands(behind)),
    )
}

/// `SCREEN t n`
#[tactic(auto, unfolding(model_session::specs::Lines::screen_form))]
fn screen_form(line: &[u8]) -> Result<Form, u8>
    ensures value { result ≡ spec.screen_form line.now }
    ensures within { IfOk result (λ form. (regions : ℕ) → IsFormWithin regions form) }
{
    match terminal_and_number(line) {
        Ok((terminal, number)) => Ok(Form::Screen(terminal, number)),
        Err(rule) => Err(rule),
    }
}

/// `RECV t`
#[tactic(auto, unfolding(model_session::specs::Lines::receive_form))]
fn receive_form(line: &[u8]) -> Result<Form, u8>
    ensures value { result ≡ spec.receive_form line.now }
    ensures within { IfOk result (λ form. (regions : ℕ) → IsFormWithin regions form) }
{
    if operand_count(line) != 1 {
        return Err(WRONG_OPERANDS);
    }
    match name_operand(operands(line)) {
        Ok(terminal) => Ok(Form::Receive(terminal)),
        Err(rule) => Err(rule),
    }
}

/// `ACK t n`
#[tactic(auto, unfolding(model_session::specs::Lines::acknowledge_form))]
fn acknowledge_form(line: &[u8]) -> Result<Form, u8>
    ensures value { result ≡ spec.acknowledge_form line.now }
    ensures within { IfOk result (λ form. (regions : ℕ) → IsFormWithin regions form) }
{
    match terminal_and_number(line) {
        Ok((terminal, number)) => Ok(Form::Acknowledge(terminal, number)),
        Err(rule) => Err(rule),
    }
}

/// `TURN r`
#[tactic(auto, unfolding(model_session::specs::Lines::turn_form))]
fn turn_form(regions: u32, line: &[u8]) -> Result<Form, u8>
    ensures value { result ≡ spec.turn_form regions line.now }
    ensures within { IfOk result (IsFormWithin regions) }
{
    if operand_count(line) != 1 {
        return Err(WRONG_OPERANDS);
    }
    match number_operand(1, u64::from(regions), operands(line)) {
        Ok(region) => Ok(Form::Turn(region as u32)),
        Err(rule) => Err(rule),
    }
}

/// `QUIET n`
#[tactic(auto, unfolding(model_session::specs::Lines::quiet_form))]
fn quiet_form(line: &[u8]) -> Result<Form, u8>
    ensures value { result ≡ spec.quiet_form line.now }
    ensures within { IfOk result (λ form. (regions : ℕ) → IsFormWithin regions form) }
{
    if operand_count(line) != 1 {
        return Err(WRONG_OPERANDS);
    }
    match number_operand(1, GREATEST_QUIET, operands(line)) {
        Ok(most) => Ok(Form::Quiet(most as u32)),
        Err(rule) => Err(rule),
    }
}

/// The number that picks what a cut of the disk leaves.
fn pick_number(text: &[u8]) -> Result<u64, u8>
    ensures { result ≡ spec.pick_number text.now }
{
    number_operand(0, GREATEST_NUMBER, text)
}

/// `POWER IN n p`
fn power_in_form(line: &[u8]) -> Result<Form, u8>
    ensures value { result ≡ spec.power_in_form line.now }
    ensures within { IfOk result (λ form. (regions : ℕ) → IsFormWithin regions form) }
{
    if operand_count(line) != 3 {
        return Err(WRONG_OPERANDS);
    }
    let behind = operands(operands(line));
    let writes = message_number(first_word(behind));
    match both(writes, pick_number(operands(behind))) {
        Ok((writes, pick)) => Ok(Form::PowerIn(writes, pick)),
        Err(rule) => Err(rule),
    }
}

/// `POWER p`, or `POWER IN n p`
#[tactic(auto, unfolding(model_session::specs::Lines::power_form))]
fn power_form(line: &[u8]) -> Result<Form, u8>
    ensures value { result ≡ spec.power_form line.now }
    ensures within { IfOk result (λ form. (regions : ℕ) → IsFormWithin regions form) }
{
    if first_word(operands(line)) == b"IN".as_slice() {
        return power_in_form(line);
    }
    if operand_count(line) != 1 {
        return Err(WRONG_OPERANDS);
    }
    match pick_number(operands(line)) {
        Ok(pick) => Ok(Form::Power(pick)),
        Err(rule) => Err(rule),
    }
}

/// A `+` line that belongs to no line.
#[tactic(auto, unfolding(model_session::specs::Lines::lone_form))]
fn lone_form(line: &[u8]) -> Result<Form, u8>
    ensures value { result ≡ spec.lone_form line.now }
    ensures within { IfOk result (λ form. (regions : ℕ) → IsFormWithin regions form) }
{
    if operand_count(line) == 0 {
        Err(WRONG_OPERANDS)
    } else {
        Err(NO_LINE)
    }
}

/// The form of a line, of a system with so many regions, or the lowest rule that it breaks; a byte
/// that isn't printable is not looked for.
#[tactic(auto, unfolding(model_session::specs::Lines::line_form))]
pub(crate) fn form_of(regions: u32, line: &[u8]) -> Result<Form, u8>
    ensures value { result ≡ spec.line_form regions line.now }
    ensures within { IfOk result (IsFormWithin regions) }
{
    let word = first_word(line);
    if word == b"IN".as_slice() {
        input_form(line)
    } else if is_screen(line) {
        screen_form(line)
    } else if word == b"TURN".as_slice() {
        turn_form(regions, line)
    } else if word == b"RECV".as_slice() {
        receive_form(line)
    } else if word == b"ACK".as_slice() {
        acknowledge_form(line)
    } else if word == b"QUIET".as_slice() {
        quiet_form(line)
    } else if word == b"POWER".as_slice() {
        power_form(line)
    } else if word == b"+".as_slice() {
        lone_form(line)
    } else {
        Err(UNKNOWN_WORD)
    }
}
