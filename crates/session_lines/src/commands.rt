//! Operator commands as session lines.
ghost use Rattle.std.specs.Prelude.{◌≡◌, ℕ, take, Ok, IfSome};
ghost use Rattle.tm_types.specs.Commands.{IsAssigned};
ghost use Rattle.model_session.specs.Lines as spec;
ghost use Rattle.model_machine.specs.CommandAnswers.{lasting_command};
ghost use Rattle.model_machine.specs.CommandText.{command_of};

use model_machine::{Command, ControlCall};
use model_session::Asked;
use oper_cmds::read_command;

/// Whether the line is an operator's command.
pub(crate) fn is_command(line: &[u8]) -> bool
    ensures { result ≡ spec.is_command line.now }
{
    first_byte(line) == b"/".as_slice()
}

fn first_byte(line: &[u8]) -> &[u8]
    ensures { result.now ≡ take 1 line.now }
{
    if line.is_empty() { line } else { &line[..1] }
}

/// What a command asks for.
pub(crate) fn command_asked(line: &[u8]) -> Asked
    ensures value { result ≡ spec.command_asked (command_of line.now) }
    ensures can { (regions : ℕ) → spec.CanAsk regions result }
{
    match read_command(line) {
        Ok(command) => asked_by(command),
        Err(bad) => Asked::BadCommand(bad.rule),
    }
}

/// Openings and checkpoints are asked for by themselves, and all else is a command of the control region.
fn asked_by(command: Command) -> Asked
    requires { IfSome (lasting_command command) IsAssigned }
    ensures value { result ≡ spec.command_asked (Ok command) }
    ensures can { (regions : ℕ) → spec.CanAsk regions result }
{
    match command {
        Command::EmergencyRestart => Asked::Restart,
        Command::NormalRestart => Asked::Restart,
        Command::ColdStart => Asked::ColdStart,
        Command::Checkpoint => Asked::Call(ControlCall::Checkpoint(false)),
        Command::Freeze => Asked::Call(ControlCall::Checkpoint(true)),
        Command::StartTransaction(_) => commanded(command),
        Command::StopTransaction(_) => commanded(command),
        Command::StartTerminal(_) => commanded(command),
        Command::StopTerminal(_) => commanded(command),
        Command::DisplayTransaction(_) => commanded(command),
        Command::DisplayTerminal(_) => commanded(command),
        Command::DisplayActive => commanded(command),
        Command::DequeueFirst(_) => commanded(command),
        Command::DequeueAll(_) => commanded(command),
        Command::Exit(_) => commanded(command),
        Command::AssignClass(_, _) => commanded(command),
        Command::AssignPriority(_, _) => commanded(command),
    }
}

fn commanded(command: Command) -> Asked
    ensures { result ≡ Asked.Call (ControlCall.Command command) }
{
    Asked::Call(ControlCall::Command(command))
}
