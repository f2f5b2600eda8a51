//! Commands of a log, done on the tables.
ghost use Rattle.std.specs.Prelude.{◌≡◌, ◌<◌, ◌^◌};
ghost use Rattle.log_replay.specs.ReplaySteps.{kept_commanded, step_commands};
ghost use Rattle.log_replay.specs.ConversationTally.{conversation_ended_by};

use image_records::Kept;
use lasting_changes::{
    assign_class, assign_priority, change_pad, dequeue_all, dequeue_first, stop_code, stop_terminal,
};
use model_messages::PadChange;
use tm_types::{LastingCommand, Name};

/// Does a command.
pub fn command(kept: &mut Kept, command: &LastingCommand)
    requires { kept.old.steps < 2 ^ 62 }
    ensures { kept.new ≡ step_commands command.now kept.old }
{
    do_command(kept, command);
    kept.steps += 1;
}

fn do_command(kept: &mut Kept, command: &LastingCommand)
    ensures { kept.new ≡ kept_commanded command.now kept.old }
{
    match command {
        LastingCommand::StartTransaction(code) => stop_code(&mut kept.codes, code, false),
        LastingCommand::StopTransaction(code) => stop_code(&mut kept.codes, code, true),
        LastingCommand::StartTerminal(name) => stop_terminal(&mut kept.terminals, name, false),
        LastingCommand::StopTerminal(name) => stop_terminal(&mut kept.terminals, name, true),
        LastingCommand::DequeueFirst(name) => dequeue_first(&mut kept.outputs, name),
        LastingCommand::DequeueAll(name) => dequeue_all(&mut kept.outputs, name),
        LastingCommand::Exit(name) => {
            change_pad(&mut kept.conversations, name, PadChange::Ends);
        }
        LastingCommand::AssignClass(code, class) => assign_class(&mut kept.codes, code, *class),
        LastingCommand::AssignPriority(code, priority) => {
            assign_priority(&mut kept.codes, code, *priority)
        }
    }
}

/// The terminal whose conversation a command ends.
pub fn ended_by(command: &LastingCommand) -> Option<Name>
    ensures { result ≡ conversation_ended_by command.now }
{
    match command {
        LastingCommand::Exit(terminal) => Some(*terminal),
        _ => None,
    }
}
