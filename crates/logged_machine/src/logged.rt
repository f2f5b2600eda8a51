//! A machine with its log.
ghost use Rattle.std.specs.Prelude.{◌≡◌, ◌<◌, ◌↔◌, false, IfOk, IsTrue, IsFalse};
ghost use Rattle.tm_disk.specs.Disk.{IsToldToStop, armed};
ghost use Rattle.model_machine.specs.CommandAnswers.{command_answer};
ghost use Rattle.model_machine.specs.declared.entry.Entry.TheVariants.{Quiet as QuietEntry, Show as ShowEntry};
ghost use Rattle.model_machine.specs.Machine.{output_at, terminal_at};
ghost use Rattle.model_machine.specs.MachineCalls.{is_machine_quiet, show_answer};
ghost use Rattle.lasting_state.specs.ShownTerminal.{IsShownTo};
ghost use Rattle.tm_machine.specs.Answers.{Answers, IsAnswered};
ghost use Rattle.tm_machine.specs.SlotChanges.{HasSlots};
ghost use Rattle.logged_machine.specs.CallOutcome.{PendsStill};
ghost use Rattle.logged_machine.specs.LoggedState.{LastsNow};

use journal::Journal;
use lasting_state::Shown;
use model_machine::{Answer, Command, CommandRefused, ShowAnswer};
use std::alloc::Global;
use std::marker::Model;
use system_types::System;
use tm_disk::Disk;
use tm_machine::{Parts, answer_to};
use tm_types::{Bytes, Memory, Name};

/// A machine with its log on a disk.
#[derive(Drop)]
pub struct LoggedMachine<D: Disk> {
    pub(crate) alloc: Global,
    pub(crate) parts: Parts,
    pub(crate) journal: Journal,
    pub(crate) disk: D,
    pub(crate) text: Bytes,
    /// The number of each region's unit, or 0.
    pub(crate) units: Vec<u64>,
    pub(crate) next_unit: u64,
    /// The disk hasn't failed.
    pub(crate) served: bool,
    /// How many lasting steps each image has that a crash may leave.
    pub(crate) forced: u64,
}

impl<D: Disk> Model for LoggedMachine<D> {
    ghost use Rattle.std.specs.Prelude.{◌≡◌, true};
    ghost use Rattle.logged_machine.specs.LoggedParts.{PendSome};
    ghost use Rattle.logged_machine.specs.LoggedState.{LoggedState};

    ghost Value = { LoggedState D };

    ghost view = { λ m. record { machine = m.parts; text = m.text; served = m.served; forced = m.forced; journal = m.journal; units = m.units.items; next_unit = m.next_unit; disk = m.disk } };

    ghost invariant = { λ m. m.served ≡ true → PendSome m.parts m.units.items m.next_unit m.journal m.text m.forced (D.state m.disk) };
}

impl<D: Disk> LoggedMachine<D> {
    /// Whether calls are served: until the disk has failed in one.
    pub fn is_served(&self) -> bool
        ensures value { result ≡ self.now.served }
        ensures lasts { LastsNow D.state self.now }
        ensures slots { HasSlots self.now.machine }
    {
        let _stores = self.parts.stores();
        self.served
    }

    /// The system that is served.
    pub fn system(&self) -> &System
        ensures { result.now ≡ self.now.machine.system }
    {
        self.parts.system()
    }

    /// The disk, the system and the text.
    pub fn into_parts(self) -> (D, System, Bytes)
        ensures disk { result.0 ≡ self.disk }
        ensures system { result.1 ≡ self.machine.system }
        ensures text { result.2 ≡ self.text }
        ensures lasts { LastsNow D.state self }
    {
        (self.disk, self.parts.into_system(), self.text)
    }

    /// How many lasting steps there were.
    pub fn steps(&self) -> u64
        ensures { result ≡ self.now.machine.moment.lasting.steps }
    {
        self.parts.steps()
    }

    /// How many of them each image has that a crash may leave.
    pub fn forced(&self) -> u64
        ensures { result ≡ self.now.forced }
    {
        self.forced
    }

    /// The number of the checkpoint that holds.
    pub fn checkpoint_number(&self) -> u64
        ensures { result ≡ self.now.journal.restart.checkpoint }
    {
        self.journal.restart().checkpoint
    }

    /// Whether nothing is left to do.
    pub fn is_quiet(&self) -> bool
        ensures { result ≡ is_machine_quiet self.now.machine.system self.now.machine.moment }
    {
        self.parts.is_quiet()
    }

    /// The same, as an answer.
    pub fn quiet_answer(&self) -> bool
        ensures value { result ≡ is_machine_quiet self.now.machine.system self.now.machine.moment }
        ensures answers { IsAnswered self.now.machine self.now.machine (QuietEntry result) }
    {
        let _regions = self.parts.region_count();
        self.parts.is_quiet()
    }

    /// Makes the `n`-th write from now fail and the disk stop. It answers false where the disk can't be told so.
    pub fn arm(&mut self, n: u64) -> bool
        requires some { 0 < n }
        ensures can { IsTrue result ↔ IsTrue (D.state self.old.disk).can_arm }
        ensures machine { self.new.machine ≡ self.old.machine }
        ensures served { self.new.served ≡ self.old.served }
        ensures forced { self.new.forced ≡ self.old.forced }
        ensures journal { self.new.journal ≡ self.old.journal }
        ensures units { self.new.units ≡ self.old.units }
        ensures next_unit { self.new.next_unit ≡ self.old.next_unit }
        ensures text { self.new.text ≡ self.old.text }
        ensures told { IsToldToStop (D.state self.old.disk) (D.state self.new.disk) }
        ensures no_fault { (D.state self.new.disk).faults ≡ (D.state self.old.disk).faults }
        ensures armed { IsTrue result → (D.state self.new.disk).until_stop ≡ armed n (D.state self.old.disk).until_stop }
        ensures nothing { IsFalse result → (D.state self.new.disk).until_stop ≡ (D.state self.old.disk).until_stop }
        ensures pends { PendsStill D.state false self.old self.new }
        ensures lasts { LastsNow D.state self.new }
    {
        self.disk.arm(n)
    }

    /// What a command is answered now.
    pub fn answer_to(&self, command: &Command) -> Result<Result<Answer, CommandRefused>, Memory>
        ensures { IfOk result (λ answer. answer ≡ command_answer self.now.machine.system self.now.machine.moment command.now) }
    {
        answer_to(self.alloc, &self.parts, command)
    }

    /// What the terminal is to be shown.
    pub fn showing(&self, terminal: &Name) -> Shown<'_>
        ensures { IsShownTo (terminal_at self.now.machine.moment.lasting.terminals terminal.now) (output_at self.now.machine.moment.lasting.outputs terminal.now) result }
    {
        self.parts.showing(terminal)
    }

    /// The same, as an answer.
    pub fn show_answer(&self, terminal: &Name) -> ShowAnswer
        ensures value { result ≡ show_answer self.now.machine.moment terminal.now }
        ensures answers { Answers self.now.machine self.now.machine (ShowEntry terminal.now result) }
    {
        self.parts.show_answer(terminal)
    }
}
