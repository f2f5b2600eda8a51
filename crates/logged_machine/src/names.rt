//! What commands name and assign.
ghost use Rattle.std.specs.Prelude.{IfSome};
ghost use Rattle.model_machine.specs.CommandAnswers.{IsCommandServed, lasting_command};
ghost use Rattle.tm_types.specs.Commands.{IsSpellable};
ghost use Rattle.tm_types.specs.Name.{IsName};

use model_machine::Command;
use tm_types::Name;

/// What a command that lasts names is a name, and what it assigns may be where it is served.
pub(crate) fn see_spellable(command: &Command)
    requires { IsCommandServed command.now }
    ensures { IfSome (lasting_command command.now) IsSpellable }
{
    match command {
        Command::StartTransaction(code) => see_name(code),
        Command::StopTransaction(code) => see_name(code),
        Command::StartTerminal(terminal) => see_name(terminal),
        Command::StopTerminal(terminal) => see_name(terminal),
        Command::DequeueFirst(terminal) => see_name(terminal),
        Command::DequeueAll(terminal) => see_name(terminal),
        Command::Exit(terminal) => see_name(terminal),
        Command::AssignClass(code, _) => see_name(code),
        Command::AssignPriority(code, _) => see_name(code),
        _ => {}
    }
}

/// A name is one.
fn see_name(name: &Name)
    ensures { IsName name.now }
{
    let _bytes = name.as_bytes();
}
