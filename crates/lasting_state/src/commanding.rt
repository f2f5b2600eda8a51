//! Commands of an operator that last.
ghost use Rattle.std.specs.Prelude.{◌≡◌, ◌<◌, ◌^◌, IfErr, OnErr, OnOk};
ghost use Rattle.model_machine.specs.LastingSteps.LastingStep.{Commands};
ghost use Rattle.lasting_state.specs.UntoldSteps.{WhereFull};
ghost use Rattle.lasting_state.specs.DoneCommands.{AppliesCommand, command_done, tables_commanded};
ghost use Rattle.lasting_state.specs.ToldSteps.{AreRecordsLonger, TellsStep};

use crate::limits::COUNT_LIMIT;
use crate::step_records::tell_command;
use crate::tables::Tables;
use lasting_changes::{change_pad, dequeue_all, dequeue_first, stop_terminal};
use log_records::Untold;
use model_messages::PadChange;
use program_rows::Telling;
use std::alloc::Global;
use tm_types::LastingCommand;

impl Tables {
    /// Does a command: it changes these tables, and what it changes in the settings of the codes is the caller's to do. Its
    /// record, of at most so many bytes, is appended. A refusal changes nothing; `Memory` is answered too where the count of
    /// steps would pass its limit.
    pub fn command(
        &mut self,
        alloc: Global,
        command: &LastingCommand,
        telling: &mut Telling,
    ) -> Result<(), Untold>
        ensures done { OnOk result (self.new ≡ command_done command.now self.old) }
        ensures applies { OnOk result (AppliesCommand command.now self.old self.new) }
        ensures told { OnOk result (TellsStep 0 telling.old.room (Commands command.now) self.old telling.old.told.items telling.new.told.items) }
        ensures err { OnErr result (self.new ≡ self.old) }
        ensures untold { OnErr result (telling.new.told.items ≡ telling.old.told.items) }
        ensures place { telling.new ≡ record telling.old { told = telling.new.told } }
        ensures full { IfErr result (WhereFull (AreRecordsLonger 0 telling.old.room (Commands command.now) self.old)) }
    {
        if self.steps >= COUNT_LIMIT {
            return Err(Untold::Memory);
        }
        tell_command(alloc, command, telling)?;
        self.do_command(command);
        Ok(())
    }

    fn do_command(&mut self, command: &LastingCommand)
        requires { self.old.steps < 2 ^ 62 }
        ensures { self.new ≡ command_done command.now self.old }
    {
        self.change(command);
        self.steps += 1;
    }

    // What the command changes but for the count of steps.
    fn change(&mut self, command: &LastingCommand)
        ensures { self.new ≡ tables_commanded command.now self.old }
    {
        match command {
            LastingCommand::StartTransaction(_) => {}
            LastingCommand::StopTransaction(_) => {}
            LastingCommand::AssignClass(_, _) => {}
            LastingCommand::AssignPriority(_, _) => {}
            LastingCommand::StartTerminal(terminal) => {
                stop_terminal(&mut self.terminals, terminal, false);
            }
            LastingCommand::StopTerminal(terminal) => {
                stop_terminal(&mut self.terminals, terminal, true);
            }
            LastingCommand::DequeueFirst(terminal) => dequeue_first(&mut self.outputs, terminal),
            LastingCommand::DequeueAll(terminal) => dequeue_all(&mut self.outputs, terminal),
            LastingCommand::Exit(terminal) => {
                change_pad(&mut self.conversations, terminal, PadChange::Ends);
            }
        }
    }
}
