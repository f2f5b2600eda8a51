//! What a text commands.
ghost use Rattle.std.specs.Prelude.{◌≡◌, Ok, Err, MatchResult, IfOk, IfSome};
ghost use Rattle.tm_types.specs.Commands.{IsAssigned};
ghost use Rattle.model_machine.specs.CommandAnswers.{lasting_command};
ghost use Rattle.model_machine.specs.CommandText as spec;

use crate::rules::{UNKNOWN_KEYWORD, UNKNOWN_VERB, WRONG_OPERANDS};
use crate::words::{
    first_operand, fourth_operand, name_of, name_operand, number_operand, operand_count,
    second_operand, third_operand,
};
use model_machine::Command;
use thiserror::Error;
use tm_types::first_word;

/// Why a text is no command.
#[derive(Clone, Copy, Debug, PartialEq, Eq, Error)]
#[error("the text breaks rule {rule} of commands")]
pub struct BadCommand {
    /// The lowest rule that the text breaks: 1 a first word that is no command, 2 a word that is none of
    /// the command's keywords, 3 operands missing or too many, 4 a word that is no name, 5 a word that is no number,
    /// or a number out of range.
    pub rule: u8,
}

/// What a text commands. Its words are parted by one blank.
///
/// The error tells the lowest rule that the text breaks, and comes exactly where it breaks one. This takes
/// no memory. What it assigns is in range.
pub fn read_command(text: &[u8]) -> Result<Command, BadCommand>
    ensures value { MatchResult result (λ command. spec.command_of text.now ≡ Ok command) (λ bad. spec.command_of text.now ≡ Err bad.rule) }
    ensures assigned { IfOk result (λ command. IfSome (lasting_command command) IsAssigned) }
{
    match command_of(text) {
        Ok(command) => Ok(command),
        Err(rule) => Err(BadCommand { rule }),
    }
}

#[tactic(auto, unfolding(model_machine::specs::CommandText::command_of))]
fn command_of(text: &[u8]) -> Result<Command, u8>
    ensures value { result ≡ spec.command_of text.now }
    ensures assigned { IfOk result (λ command. IfSome (lasting_command command) IsAssigned) }
{
    let verb = first_word(text);
    if verb == b"/START".as_slice() {
        start_command(text)
    } else if verb == b"/STOP".as_slice() {
        stop_command(text)
    } else if verb == b"/DISPLAY".as_slice() {
        display_command(text)
    } else if verb == b"/CHECKPOINT".as_slice() {
        checkpoint_command(text)
    } else if verb == b"/DEQUEUE".as_slice() {
        dequeue_command(text)
    } else if verb == b"/EXIT".as_slice() {
        exit_command(text)
    } else if verb == b"/ASSIGN".as_slice() {
        assign_command(text)
    } else if verb == b"/ERESTART".as_slice() {
        alone(0, Command::EmergencyRestart, text)
    } else if verb == b"/NRESTART".as_slice() {
        restart_command(text)
    } else {
        Err(UNKNOWN_VERB)
    }
}

/// A command behind whose words nothing more stands.
fn alone(count: usize, command: Command, text: &[u8]) -> Result<Command, u8>
    requires { IfSome (lasting_command command) IsAssigned }
    ensures value { result ≡ spec.command_alone count command text.now }
    ensures assigned { IfOk result (λ read. IfSome (lasting_command read) IsAssigned) }
{
    if operand_count(text) == count {
        Ok(command)
    } else {
        Err(WRONG_OPERANDS)
    }
}

/// `/START TRANSACTION c`, `/START LTERM t`
#[tactic(auto, unfolding(model_machine::specs::CommandText::start_command))]
fn start_command(text: &[u8]) -> Result<Command, u8>
    ensures value { result ≡ spec.start_command text.now }
    ensures assigned { IfOk result (λ command. IfSome (lasting_command command) IsAssigned) }
{
    if operand_count(text) == 0 {
        return Err(WRONG_OPERANDS);
    }
    let keyword = first_operand(text);
    if keyword == b"TRANSACTION".as_slice() {
        let code = name_of(2, text)?;
        Ok(Command::StartTransaction(code))
    } else if keyword == b"LTERM".as_slice() {
        let terminal = name_of(2, text)?;
        Ok(Command::StartTerminal(terminal))
    } else {
        Err(UNKNOWN_KEYWORD)
    }
}

/// `/STOP TRANSACTION c`, `/STOP LTERM t`
#[tactic(auto, unfolding(model_machine::specs::CommandText::stop_command))]
fn stop_command(text: &[u8]) -> Result<Command, u8>
    ensures value { result ≡ spec.stop_command text.now }
    ensures assigned { IfOk result (λ command. IfSome (lasting_command command) IsAssigned) }
{
    if operand_count(text) == 0 {
        return Err(WRONG_OPERANDS);
    }
    let keyword = first_operand(text);
    if keyword == b"TRANSACTION".as_slice() {
        let code = name_of(2, text)?;
        Ok(Command::StopTransaction(code))
    } else if keyword == b"LTERM".as_slice() {
        let terminal = name_of(2, text)?;
        Ok(Command::StopTerminal(terminal))
    } else {
        Err(UNKNOWN_KEYWORD)
    }
}

/// `/DISPLAY TRANSACTION c`, `/DISPLAY LTERM t`, `/DISPLAY ACTIVE`
#[tactic(auto, unfolding(model_machine::specs::CommandText::display_command))]
fn display_command(text: &[u8]) -> Result<Command, u8>
    ensures value { result ≡ spec.display_command text.now }
    ensures assigned { IfOk result (λ command. IfSome (lasting_command command) IsAssigned) }
{
    if operand_count(text) == 0 {
        return Err(WRONG_OPERANDS);
    }
    let keyword = first_operand(text);
    if keyword == b"TRANSACTION".as_slice() {
        let code = name_of(2, text)?;
        Ok(Command::DisplayTransaction(code))
    } else if keyword == b"LTERM".as_slice() {
        let terminal = name_of(2, text)?;
        Ok(Command::DisplayTerminal(terminal))
    } else if keyword == b"ACTIVE".as_slice() {
        alone(1, Command::DisplayActive, text)
    } else {
        Err(UNKNOWN_KEYWORD)
    }
}

/// `/CHECKPOINT`, `/CHECKPOINT FREEZE`
#[tactic(auto, unfolding(model_machine::specs::CommandText::checkpoint_command))]
fn checkpoint_command(text: &[u8]) -> Result<Command, u8>
    ensures value { result ≡ spec.checkpoint_command text.now }
    ensures assigned { IfOk result (λ command. IfSome (lasting_command command) IsAssigned) }
{
    if operand_count(text) == 0 {
        Ok(Command::Checkpoint)
    } else if first_operand(text) == b"FREEZE".as_slice() {
        alone(1, Command::Freeze, text)
    } else {
        Err(UNKNOWN_KEYWORD)
    }
}

/// `/DEQUEUE LTERM t PURGE1`, `/DEQUEUE LTERM t PURGE`
#[tactic(auto, unfolding(model_machine::specs::CommandText::dequeue_command))]
fn dequeue_command(text: &[u8]) -> Result<Command, u8>
    ensures value { result ≡ spec.dequeue_command text.now }
    ensures assigned { IfOk result (λ command. IfSome (lasting_command command) IsAssigned) }
{
    if operand_count(text) == 0 {
        Err(WRONG_OPERANDS)
    } else if first_operand(text) == b"LTERM".as_slice() {
        purge_command(text)
    } else {
        Err(UNKNOWN_KEYWORD)
    }
}

/// The keyword behind the name counts before the name.
#[tactic(auto, unfolding(model_machine::specs::CommandText::purge_command))]
fn purge_command(text: &[u8]) -> Result<Command, u8>
    ensures value { result ≡ spec.purge_command text.now }
    ensures assigned { IfOk result (λ command. IfSome (lasting_command command) IsAssigned) }
{
    if operand_count(text) < 3 {
        return Err(WRONG_OPERANDS);
    }
    let keyword = third_operand(text);
    if keyword == b"PURGE1".as_slice() {
        let terminal = name_of(3, text)?;
        Ok(Command::DequeueFirst(terminal))
    } else if keyword == b"PURGE".as_slice() {
        let terminal = name_of(3, text)?;
        Ok(Command::DequeueAll(terminal))
    } else {
        Err(UNKNOWN_KEYWORD)
    }
}

/// `/EXIT t`
#[tactic(auto, unfolding(model_machine::specs::CommandText::exit_command))]
fn exit_command(text: &[u8]) -> Result<Command, u8>
    ensures value { result ≡ spec.exit_command text.now }
    ensures assigned { IfOk result (λ command. IfSome (lasting_command command) IsAssigned) }
{
    if operand_count(text) != 1 {
        return Err(WRONG_OPERANDS);
    }
    let terminal = name_operand(first_operand(text))?;
    Ok(Command::Exit(terminal))
}

/// `/ASSIGN TRANSACTION c CLASS k`, `/ASSIGN TRANSACTION c PRIORITY p`
#[tactic(auto, unfolding(model_machine::specs::CommandText::assign_command))]
fn assign_command(text: &[u8]) -> Result<Command, u8>
    ensures value { result ≡ spec.assign_command text.now }
    ensures assigned { IfOk result (λ command. IfSome (lasting_command command) IsAssigned) }
{
    if operand_count(text) == 0 {
        Err(WRONG_OPERANDS)
    } else if first_operand(text) == b"TRANSACTION".as_slice() {
        assigned_command(text)
    } else {
        Err(UNKNOWN_KEYWORD)
    }
}

/// The keyword behind the name counts before the name, and that before the number.
#[tactic(auto, unfolding(model_machine::specs::CommandText::assigned_command))]
fn assigned_command(text: &[u8]) -> Result<Command, u8>
    ensures value { result ≡ spec.assigned_command text.now }
    ensures assigned { IfOk result (λ command. IfSome (lasting_command command) IsAssigned) }
{
    if operand_count(text) < 3 {
        return Err(WRONG_OPERANDS);
    }
    let keyword = third_operand(text);
    if keyword == b"CLASS".as_slice() {
        let code = name_of(4, text)?;
        let class = number_operand(1, 255, fourth_operand(text))?;
        Ok(Command::AssignClass(code, class))
    } else if keyword == b"PRIORITY".as_slice() {
        let code = name_of(4, text)?;
        let priority = number_operand(0, 14, fourth_operand(text))?;
        Ok(Command::AssignPriority(code, priority))
    } else {
        Err(UNKNOWN_KEYWORD)
    }
}

/// `/NRESTART`, `/NRESTART CHECKPOINT 0`
#[tactic(auto, unfolding(model_machine::specs::CommandText::restart_command))]
fn restart_command(text: &[u8]) -> Result<Command, u8>
    ensures value { result ≡ spec.restart_command text.now }
    ensures assigned { IfOk result (λ command. IfSome (lasting_command command) IsAssigned) }
{
    if operand_count(text) == 0 {
        Ok(Command::NormalRestart)
    } else if first_operand(text) == b"CHECKPOINT".as_slice() {
        cold_command(text)
    } else {
        Err(UNKNOWN_KEYWORD)
    }
}

/// The 0 is a keyword.
#[tactic(auto, unfolding(model_machine::specs::CommandText::cold_command))]
fn cold_command(text: &[u8]) -> Result<Command, u8>
    ensures value { result ≡ spec.cold_command text.now }
    ensures assigned { IfOk result (λ command. IfSome (lasting_command command) IsAssigned) }
{
    if operand_count(text) < 2 {
        Err(WRONG_OPERANDS)
    } else if second_operand(text) == b"0".as_slice() {
        alone(2, Command::ColdStart, text)
    } else {
        Err(UNKNOWN_KEYWORD)
    }
}
