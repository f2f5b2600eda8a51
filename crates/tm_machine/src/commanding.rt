//! Commands, answered and done.
ghost use Rattle.std.specs.Prelude.{◌≡◌, Ok, IfErr, IfOk, OnErr, OnOk};
ghost use Rattle.model_machine.specs.declared.entry.ControlCall.TheVariants.{Command as CommandCall};
ghost use Rattle.model_machine.specs.declared.entry.Entry.TheVariants.{Commanded};
ghost use Rattle.model_machine.specs.CommandAnswers.{IsCommandServed, command_answer, lasting_command};
ghost use Rattle.lasting_state.specs.UntoldSteps.{WhereFull};
ghost use Rattle.tm_machine.specs.Answers.{IsAnswered};
ghost use Rattle.tm_machine.specs.ToldByCall.{IsCallLonger, TellsLastingStep};

use crate::Parts;
use crate::answers::answer_to;
use lasting_state::Untold;
use model_machine::{Answer, Command, CommandRefused};
use program_rows::Telling;
use std::alloc::Global;
use tm_types::LastingCommand;

/// Answers a command, and does what lasts of it. The record of that, of at most `room` bytes, is appended. A refusal by the
/// machine changes nothing. Want of memory and of room change nothing and tell nothing; `Memory` is answered too where a
/// count would pass its limit.
pub fn command(
    alloc: Global,
    parts: &mut Parts,
    command: &Command,
    telling: &mut Telling,
) -> Result<Result<Answer, CommandRefused>, Untold>
    requires { IsCommandServed command.now }
    ensures answer { IfOk result (λ answer. IsAnswered parts.old parts.new (Commanded command.now answer)) }
    ensures told { OnOk result (TellsLastingStep parts.old.system parts.old.moment 0 telling.old.room (CommandCall command.now) telling.old.told.items telling.new.told.items) }
    ensures databases { parts.new.databases ≡ parts.old.databases }
    ensures err { OnErr result (parts.new ≡ parts.old) }
    ensures untold { OnErr result (telling.new.told.items ≡ telling.old.told.items) }
    ensures place { telling.new ≡ record telling.old { told = telling.new.told } }
    ensures full { IfErr result (WhereFull (IsCallLonger parts.old.system parts.old.moment 0 telling.old.room (CommandCall command.now))) }
{
    match answer_to(alloc, parts, command) {
        Ok(Ok(answer)) => match perform(parts, command, answer, telling) {
            Ok(answer) => Ok(Ok(answer)),
            Err(untold) => Err(untold),
        },
        Ok(Err(refused)) => {
            let _regions = parts.region_count();
            Ok(Err(refused))
        }
        Err(_) => Err(Untold::Memory),
    }
}

/// Does what lasts of a command that is answered so.
fn perform(
    parts: &mut Parts,
    command: &Command,
    answer: Answer,
    telling: &mut Telling,
) -> Result<Answer, Untold>
    requires served { IsCommandServed command.now }
    requires answer { Ok answer ≡ command_answer parts.old.system parts.old.moment command.now }
    ensures answer { IfOk result (λ done. IsAnswered parts.old parts.new (Commanded command.now (Ok done))) }
    ensures told { OnOk result (TellsLastingStep parts.old.system parts.old.moment 0 telling.old.room (CommandCall command.now) telling.old.told.items telling.new.told.items) }
    ensures databases { parts.new.databases ≡ parts.old.databases }
    ensures err { OnErr result (parts.new ≡ parts.old) }
    ensures untold { OnErr result (telling.new.told.items ≡ telling.old.told.items) }
    ensures place { telling.new ≡ record telling.old { told = telling.new.told } }
    ensures full { IfErr result (WhereFull (IsCallLonger parts.old.system parts.old.moment 0 telling.old.room (CommandCall command.now))) }
{
    match lasting_command(command) {
        Some(lasting) => match parts.do_command(&lasting, telling) {
            Ok(()) => Ok(answer),
            Err(untold) => Err(untold),
        },
        None => {
            let _regions = parts.region_count();
            Ok(answer)
        }
    }
}

/// The command that lasts, of those that do.
fn lasting_command(command: &Command) -> Option<LastingCommand>
    ensures { result ≡ lasting_command command.now }
{
    match command {
        Command::StartTransaction(code) => Some(LastingCommand::StartTransaction(*code)),
        Command::StopTransaction(code) => Some(LastingCommand::StopTransaction(*code)),
        Command::StartTerminal(terminal) => Some(LastingCommand::StartTerminal(*terminal)),
        Command::StopTerminal(terminal) => Some(LastingCommand::StopTerminal(*terminal)),
        Command::DequeueFirst(terminal) => Some(LastingCommand::DequeueFirst(*terminal)),
        Command::DequeueAll(terminal) => Some(LastingCommand::DequeueAll(*terminal)),
        Command::Exit(terminal) => Some(LastingCommand::Exit(*terminal)),
        Command::AssignClass(code, class) => Some(LastingCommand::AssignClass(*code, *class)),
        Command::AssignPriority(code, priority) => {
            Some(LastingCommand::AssignPriority(*code, *priority))
        }
        _ => None,
    }
}
