//! Replies that terminals see and acknowledge.
ghost use Rattle.std.specs.Prelude.{◌≡◌, IfOk, IfErr, OnOk, OnErr};
ghost use Rattle.model_machine.specs.declared.entry.ControlCall.TheVariants.{Acknowledge};
ghost use Rattle.model_machine.specs.declared.entry.Entry.TheVariants.{Acked as AckedEntry, Show as ShowEntry};
ghost use Rattle.model_machine.specs.Machine.{output_at, terminal_at};
ghost use Rattle.model_machine.specs.MachineCalls.{show_answer};
ghost use Rattle.lasting_state.specs.ShownTerminal.{IsShownTo};
ghost use Rattle.lasting_state.specs.UntoldSteps.{WhereFull};
ghost use Rattle.tm_machine.specs.Answers.{Answers, IsAnswered};
ghost use Rattle.tm_machine.specs.ToldByCall.{IsCallLonger, TellsLastingStep};

use crate::parts::Parts;
use lasting_state::{Shown, Untold};
use model_machine::{AckRefused, Acked, ShowAnswer};
use program_rows::Telling;
use tm_types::Name;

impl Parts {
    /// What the terminal is to be shown.
    pub fn showing(&self, terminal: &Name) -> Shown<'_>
        ensures { IsShownTo (terminal_at self.now.moment.lasting.terminals terminal.now) (output_at self.now.moment.lasting.outputs terminal.now) result }
    {
        let Some(place) = self.system.terminal_place(terminal) else {
            return Shown::Unknown;
        };
        if self.tables.is_stopped(place) {
            return Shown::Stopped;
        }
        self.tables.showing(terminal)
    }

    /// The answer of an entry that shows it.
    pub fn show_answer(&self, terminal: &Name) -> ShowAnswer
        ensures value { result ≡ show_answer self.now.moment terminal.now }
        ensures answers { Answers self.now self.now (ShowEntry terminal.now result) }
    {
        let _ = &self.alloc;
        self.shown_answer(terminal)
    }

    #[tactic(auto, using(crate::proofs::ShownTo::shown_answers))]
    fn shown_answer(&self, terminal: &Name) -> ShowAnswer
        ensures { result ≡ show_answer self.now.moment terminal.now }
    {
        match self.showing(terminal) {
            Shown::Unknown => ShowAnswer::Unknown,
            Shown::Reply(reply) => ShowAnswer::Reply(reply.number),
            Shown::Empty => ShowAnswer::Empty,
            Shown::Stopped => ShowAnswer::Stopped,
        }
    }

    /// How many lasting steps were done.
    pub fn steps(&self) -> u64
        ensures { result ≡ self.now.moment.lasting.steps }
    {
        self.tables.steps()
    }

    /// Takes an acknowledgement, or says why not. The record of a reply that is removed, of at most `room` bytes, is
    /// appended. After an Err nothing has changed; `Memory` is answered too where the count of steps would pass its limit.
    pub fn acknowledge(
        &mut self,
        terminal: &Name,
        number: u64,
        telling: &mut Telling,
    ) -> Result<Result<Acked, AckRefused>, Untold>
        ensures answer { IfOk result (λ answer. IsAnswered self.old self.new (AckedEntry terminal.now number answer)) }
        ensures told { OnOk result (TellsLastingStep self.old.system self.old.moment 0 telling.old.room (Acknowledge terminal.now number) telling.old.told.items telling.new.told.items) }
        ensures databases { self.new.databases ≡ self.old.databases }
        ensures err { OnErr result (self.new ≡ self.old) }
        ensures untold { OnErr result (telling.new.told.items ≡ telling.old.told.items) }
        ensures place { telling.new ≡ record telling.old { told = telling.new.told } }
        ensures full { IfErr result (WhereFull (IsCallLonger self.old.system self.old.moment 0 telling.old.room (Acknowledge terminal.now number))) }
    {
        self.tables.acknowledge(terminal, number, telling)
    }
}
