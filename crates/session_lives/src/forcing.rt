//! What is forced before the text of an answer is given out.
ghost use Rattle.std.specs.Prelude.{◌≡◌, ℕ, List, Option, true};
ghost use Rattle.std.specs.Option.{is_some};
ghost use Rattle.model_messages.specs.declared.replies.TerminalReplies.{TerminalReplies};
ghost use Rattle.model_machine.specs.declared.lasting.TerminalState.{TerminalState};
ghost use Rattle.model_machine.specs.declared.command.Command.{Command};
ghost use Rattle.model_machine.specs.declared.entry.Entry.TheVariants.{Accept, Show, Acked as AckedEntry, Commanded};
ghost use Rattle.model_machine.specs.CommandAnswers.{lasting_command};
ghost use Rattle.model_machine.specs.MachineCalls.{show_to};
ghost use Rattle.model_session.specs.Lives.{binds};
ghost use Rattle.lasting_state.specs.ShownTerminal.{IsShownTo};
ghost use Rattle.tm_control.specs.ControlCalls.{StaysSo};
ghost use Rattle.session_lives.specs.ControlCounts.{KeepsPace};
ghost use Rattle.session_lives.specs.AskedControl.{IsForcedSo, BindsBy};

use crate::called::{Called, Ending};
use model_machine::{Answer, Command, CommandRefused};
use tm_control::{AckRefused, Acked, Control, InputRefused, Shown, Taken};
use tm_disk::Disk;

/// Forces all that waits for the disk.
pub fn force<D: Disk>(control: &mut Control<D>) -> Ending
    requires up { control.old.up ≡ true }
    ensures forced { IsForcedSo D.state result control.old control.new }
    ensures pace { KeepsPace D.state control.old control.new }
    ensures stays { StaysSo D.state control.old control.new }
{
    let _ = control.is_up();
    match control.force_log() {
        Ok(_) => Ending::Forced,
        Err(_) => Ending::Broke,
    }
}

/// Forces all, where a lasting step waits.
fn force_steps<D: Disk>(control: &mut Control<D>) -> Ending
    requires up { control.old.up ≡ true }
    ensures forced { IsForcedSo D.state result control.old control.new }
    ensures pace { KeepsPace D.state control.old control.new }
    ensures stays { StaysSo D.state control.old control.new }
{
    let _ = control.is_up();
    if control.forced() < control.front() {
        return force(control);
    }
    Ending::Forced
}

/// How a call went, before its text is given out: where that binds, all lasting steps are forced.
pub fn bind<D: Disk>(control: &mut Control<D>, binding: bool, called: Called) -> Called
    requires up { binding ≡ true → control.old.up ≡ true }
    ensures bound { BindsBy D.state binding called result control.old control.new }
    ensures pace { KeepsPace D.state control.old control.new }
    ensures stays { StaysSo D.state control.old control.new }
{
    if !binding {
        return called;
    }
    match force_steps(control) {
        Ending::Forced => Called::Answered,
        Ending::Broke => Called::Broke,
    }
}

/// Whether an input was accepted.
pub fn is_taken(answer: &Result<Taken, InputRefused>) -> bool
    ensures { (terminal : List ℕ) → (number : ℕ) → (segments : List (List ℕ)) → result ≡ binds (Accept terminal number segments answer.now) }
{
    match answer {
        Ok(Taken::New(_)) => true,
        Ok(Taken::Already) => false,
        Err(_) => false,
    }
}

/// Whether a reply was removed.
pub fn is_removed(answer: &Result<Acked, AckRefused>) -> bool
    ensures { (terminal : List ℕ) → (number : ℕ) → result ≡ binds (AckedEntry terminal number answer.now) }
{
    match answer {
        Ok(Acked::Removed) => true,
        Ok(Acked::Already) => false,
        Err(_) => false,
    }
}

/// Whether a command was done that lasts.
pub fn is_done(command: &Command, answer: &Result<Answer, CommandRefused>) -> bool
    ensures { result ≡ binds (Commanded command.now answer.now) }
{
    match answer {
        Ok(_) => is_lasting(command),
        Err(_) => false,
    }
}

/// Whether a command is one that lasts.
fn is_lasting(command: &Command) -> bool
    ensures { result ≡ is_some (lasting_command command.now) }
{
    match command {
        Command::StartTransaction(_) => true,
        Command::StopTransaction(_) => true,
        Command::StartTerminal(_) => true,
        Command::StopTerminal(_) => true,
        Command::DequeueFirst(_) => true,
        Command::DequeueAll(_) => true,
        Command::Exit(_) => true,
        Command::AssignClass(_, _) => true,
        Command::AssignPriority(_, _) => true,
        _ => false,
    }
}

/// Whether a reply is shown.
pub fn is_reply(shown: &Shown<'_>) -> bool
    ensures { (terminal : Option TerminalState) → (output : Option TerminalReplies) → IsShownTo terminal output shown.now → (name : List ℕ) → result ≡ binds (Show name (show_to terminal output)) }
{
    match shown {
        Shown::Reply(_) => true,
        Shown::Empty => false,
        Shown::Stopped => false,
        Shown::Unknown => false,
    }
}
