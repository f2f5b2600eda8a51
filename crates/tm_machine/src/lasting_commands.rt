//! Commands of an operator that last.
ghost use Rattle.std.specs.Prelude.{◌≡◌, IfErr, OnErr, OnOk};
ghost use Rattle.lasting_state.specs.UntoldSteps.{WhereFull};
ghost use Rattle.tm_machine.specs.LastingCommands.{EndsNoneBusy, IsCommanded, IsLongerCommand, TellsCommand, states_set};

use crate::parts::Parts;
use lasting_state::Untold;
use program_rows::Telling;
use system_types::Codes;
use tm_types::LastingCommand;

impl Parts {
    /// Does a command that lasts, also where it changes nothing. Its record, of at most `room` bytes, is appended. A refusal
    /// changes nothing; `Memory` is answered too where the count of steps would pass its limit.
    pub fn do_command(
        &mut self,
        command: &LastingCommand,
        telling: &mut Telling,
    ) -> Result<(), Untold>
        requires { EndsNoneBusy command.now self.old.moment.lasting }
        ensures done { OnOk result (IsCommanded self.old self.new command.now) }
        ensures told { OnOk result (TellsCommand self.old.moment telling.old.room command.now telling.old.told.items telling.new.told.items) }
        ensures databases { self.new.databases ≡ self.old.databases }
        ensures err { OnErr result (self.new ≡ self.old) }
        ensures untold { OnErr result (telling.new.told.items ≡ telling.old.told.items) }
        ensures place { telling.new ≡ record telling.old { told = telling.new.told } }
        ensures full { IfErr result (WhereFull (IsLongerCommand self.old.moment telling.old.room command.now)) }
    {
        self.tables.command(self.alloc, command, telling)?;
        set_states(&mut self.codes, command);
        Ok(())
    }
}

/// Stops or starts the code that a command names, or gives it another class or normal priority.
fn set_states(codes: &mut Codes, command: &LastingCommand)
    ensures { codes.new ≡ states_set command.now codes.old }
{
    match command {
        LastingCommand::StartTransaction(code) => codes.set_stopped(code, false),
        LastingCommand::StopTransaction(code) => codes.set_stopped(code, true),
        LastingCommand::StartTerminal(_) => {}
        LastingCommand::StopTerminal(_) => {}
        LastingCommand::DequeueFirst(_) => {}
        LastingCommand::DequeueAll(_) => {}
        LastingCommand::Exit(_) => {}
        LastingCommand::AssignClass(code, class) => codes.set_class(code, *class),
        LastingCommand::AssignPriority(code, priority) => codes.set_priority(code, *priority),
    }
}
