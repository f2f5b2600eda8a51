//! The calls of the control region.
ghost use Rattle.std.specs.Prelude.{◌≡◌, Err, false, ℕ, ◌+◌, ◌-◌, ◌*◌, ◌<◌, ◌≤◌, ◌↔◌, length, true, if◌then◌else◌, IfOk, IfErr, OnOk, OnErr, IsTrue};
ghost use Rattle.std.specs.Borrow.{sem};
ghost use Rattle.std.specs.Io.BufRead.{Rests};
ghost use Rattle.disk_law.specs.UnitCounts.{StandsUpTo};
ghost use Rattle.checkpointing.specs.Counts.{CountsUpTo, RaisesCounts};
ghost use Rattle.openings.specs.declared.how.How.TheVariants.{Found};
ghost use Rattle.tm_disk.specs.Disk.{Only, Within, armed};
ghost use Rattle.model_machine.specs.declared.entry.Entry.TheVariants.{Accept, Show, Acked as AckedEntry, Turn as TurnEntry, Commanded, Checked, Quiet};
ghost use Rattle.model_machine.specs.declared.entry.CheckpointRefused.TheVariants.{Fault as CheckpointFault};
ghost use Rattle.model_machine.specs.declared.entry.ControlFault.TheVariants.{Disk as DiskFault};
ghost use Rattle.model_machine.specs.CommandAnswers.{IsCommandServed, command_answer};
ghost use Rattle.model_machine.specs.Machine.{output_at, terminal_at, IsRegion};
ghost use Rattle.model_machine.specs.MachineCalls.{is_machine_quiet, show_answer};
ghost use Rattle.model_machine.specs.History.{AddsNothing, call_of, control_moment};
ghost use Rattle.lasting_state.specs.ShownTerminal.{IsShownTo};
ghost use Rattle.openings.specs.Faults.{fault_in};
ghost use Rattle.openings.specs.LifeBeginning.{HandsBack};
ghost use Rattle.tm_machine.specs.SlotChanges.{HasSlots};
ghost use Rattle.logged_machine.specs.CheckpointDue.{WritesLog};
ghost use Rattle.logged_machine.specs.LoggedState.{LastsNow};
ghost use Rattle.logged_machine.specs.TakenCheckpoint.{IsTaken, LeavesSettled, WritesCheckpoint};
ghost use Rattle.tm_control.specs.ControlOnDisk.{Lasts, control_spent_now, front_of};
ghost use Rattle.tm_control.specs.ControlCalls.{HasArmed, StaysSo, Shows, AddsBy, BrokeOff, ControlCountsSince, ControlCrashes, ForcesBy, ForcesLog, KeepsLog, RaisesBy, SavesRoom, TellsSpent, StaysSpent, StaysUndone, ControlStaysUntaken, WritesFrugally, parts_now};
ghost use Rattle.tm_control.specs.ClosedControl.{OpensControl, Closes};
ghost use Rattle.tm_control.specs.contracts.control.Control.{the_row};

use crate::closed::Closed;
use crate::noting::{acked_entry, checked_entry, command_entry, input_entry, note, turn_entry};
use image_loading::sectors_needed;
use lasting_state::Shown;
use logged_machine::{Acknowledgement, Input, LoggedMachine, OpenRefused, Turn};
use model_machine::{
    AckRefused, Acked, Answer, CheckpointRefused, Command, CommandRefused, ControlFault, Entry,
    InputRefused, Lasting, Taken, Turned,
};
use openings::{History, How, Life, OpenError};
use std::alloc::Global;
use std::marker::Model;
use system_types::System;
use tm_disk::Disk;
use tm_types::{Bytes, Memory, Name, Segments};

/// The control region on its disk. Contracts see its system, what it opened with, its history and the room for further
/// entries; what its machine has come to follows from these. They see its disk too, whether it is up, its databases with what
/// open units have changed, what it keeps of its log, and how many lasting steps of the life are forced.
///
/// While it is up there is room for one entry more than they see: that of a force in which the disk fails.
#[derive(Drop)]
pub struct Control<D: Disk> {
    alloc: Global,
    machine: LoggedMachine<D>,
    opening: Lasting,
    /// The number of the checkpoint with which it was opened.
    checkpoint: u64,
    history: Vec<Entry>,
    /// How often the disk had failed when it was opened.
    began: u64,
    /// How many lasting steps were answered, those before the opening among them.
    steps: u64,
}

impl<D: Disk> Model for Control<D> {
    ghost use Rattle.std.specs.Prelude.{◌-◌};
    ghost use Rattle.std.specs.Vec.{vec_len, vec_capacity};
    ghost use Rattle.tm_control.specs.ControlOnDisk.{ControlOnDisk};

    ghost Value = { ControlOnDisk D };

    ghost use Rattle.tm_control.specs.ControlParts.{IsControl};

    ghost view = { λ c. record {
      control = record { system = c.machine.machine.system; opening = c.opening; history = c.history.items; room = vec_capacity c.history - vec_len c.history - 1 };
      checkpoint = c.checkpoint;
      text = c.machine.text;
      up = c.machine.served;
      forced = c.machine.forced - c.opening.steps;
      began = c.began;
      databases = c.machine.machine.databases;
      journal = c.machine.journal;
      units = c.machine.units;
      next_unit = c.machine.next_unit;
      disk = c.machine.disk;
    } };

    ghost invariant = { λ c. IsControl D.state c.machine c.opening c.checkpoint c.history.items c.steps (vec_len c.history) (vec_capacity c.history) };
}

impl<D: Disk> Control<D> {
    /// Opens a control region of this system, whose definition has this text, on this disk.
    pub fn open(
        alloc: Global,
        disk: D,
        system: System,
        text: Bytes,
        how: How,
    ) -> Result<Control<D>, OpenRefused<D>>
        requires text { length text ≤ 262144 }
        requires only { Only (D.state disk).shown (D.state disk) }
        ensures opened { IfOk result (OpensControl D.state how system text disk) }
        ensures lasts { IfOk result (Lasts D.state) }
        // Where no counter is above a bound, none of what a crash leaves is more than one above it, and no first one of the life.
        ensures counts { IfOk result (λ opened. Within (RaisesCounts 1 system) (D.state disk) (D.state opened.disk)) }
        ensures stands { IfOk result (λ opened. (high : ℕ) → (how ≡ Found → IsTrue (D.state disk).tells) → (how ≡ Found → CountsUpTo system high (D.state disk).shown) → StandsUpTo (high + 1) opened.journal opened.next_unit) }
        ensures counts_back { IfErr result (λ refused. Within (RaisesCounts 1 system) (D.state disk) (D.state refused.disk)) }
        ensures refused { IfErr result (λ refused. HandsBack D.state how system text disk refused.error refused.disk refused.system refused.text) }
    {
        let Ok(history) = Vec::with_capacity(alloc, 1) else {
            return Err(without_memory(disk, system, text));
        };
        let began = disk.faults();
        match LoggedMachine::open(alloc, disk, system, text, how) {
            Ok((machine, opening)) => {
                let steps = machine.steps();
                let checkpoint = machine.checkpoint_number();
                Ok(Control {
                    alloc,
                    machine,
                    opening,
                    checkpoint,
                    history,
                    began,
                    steps,
                })
            }
            Err(refused) => Err(refused),
        }
    }

    /// Whether calls are served: until the disk has failed in one.
    pub fn is_up(&self) -> bool
        ensures value { result ≡ self.now.up }
        ensures lasts { Lasts D.state self.now }
        ensures slots { self.now.up ≡ true → HasSlots (parts_now self.now) }
    {
        self.machine.is_served()
    }

    /// Ends the life, and hands the disk back.
    pub fn into_disk(self) -> Closed<D>
        ensures closes { Closes self result.disk result.life result.system result.text result.faults }
        ensures lasts { Lasts D.state self }
    {
        close(
            self.machine,
            self.opening,
            self.checkpoint,
            self.history,
            self.began,
            self.steps,
        )
    }

    /// The system that is served.
    pub fn system(&self) -> &System
        ensures { result.now ≡ self.now.control.system }
    {
        self.machine.system()
    }

    /// Whether nothing is left to do: all regions are empty, and none has a message to take, or the room for it.
    pub fn quiet(&self) -> bool
        requires up { self.now.up ≡ true }
        ensures { result ≡ is_machine_quiet self.now.control.system (control_moment self.now.control) }
    {
        self.machine.is_quiet()
    }

    /// How many lasting steps there were, those before the opening among them.
    pub fn steps(&self) -> u64
        requires up { self.now.up ≡ true }
        ensures { result ≡ (control_moment self.now.control).lasting.steps }
    {
        self.machine.steps()
    }

    /// How many lasting steps the life has.
    pub fn front(&self) -> u64
        requires up { self.now.up ≡ true }
        ensures { result ≡ front_of self.now.control }
    {
        steps_since(self.machine.steps(), &self.opening)
    }

    /// How many of these every image has that a crash may leave.
    pub fn forced(&self) -> u64
        requires up { self.now.up ≡ true }
        ensures { result ≡ self.now.forced }
    {
        steps_since(self.machine.forced(), &self.opening)
    }

    /// Makes the `n`-th write from now fail and the disk stop. It answers false where the disk can't be told so.
    pub fn arm(&mut self, n: u64) -> bool
        requires some { 0 < n }
        requires up { self.old.up ≡ true }
        ensures can { IsTrue result ↔ IsTrue (D.state self.old.disk).can_arm }
        ensures control { self.new.control ≡ self.old.control }
        ensures arms { HasArmed D.state n self.old self.new }
        ensures up { self.new.up ≡ true }
        ensures log { KeepsLog self.old self.new }
        ensures no_fault { (D.state self.new.disk).faults ≡ (D.state self.old.disk).faults }
        ensures armed { IsTrue result → (D.state self.new.disk).until_stop ≡ armed n (D.state self.old.disk).until_stop }
        ensures lasts { Lasts D.state self.new }
    {
        self.machine.arm(n)
    }

    /// Makes room for this many history entries. What room there was is kept.
    pub fn reserve(&mut self, n: u32) -> Result<(), Memory>
        requires up { self.old.up ≡ true }
        ensures same { AddsNothing self.old.control self.new.control }
        ensures ok { OnOk result (n ≤ self.new.control.room) }
        ensures room { self.old.control.room ≤ self.new.control.room }
        ensures err { OnErr result (self.new ≡ self.old) }
        ensures log { KeepsLog self.old self.new }
        ensures stays { StaysSo D.state self.old self.new }
        ensures up { self.new.up ≡ true }
        ensures disk { self.new.disk ≡ self.old.disk }
        ensures lasts { Lasts D.state self.new }
    {
        let _ = self.machine.is_served();
        self.history.reserve(n as usize + 1)
    }

    /// Takes an input of a terminal under a number. The refusals are looked at in the order in which they are defined; a `Fault`
    /// in the answer's place is the disk's, want of memory, or a spent counter.
    pub fn input(
        &mut self,
        terminal: &Name,
        number: u64,
        segments: Segments,
    ) -> Result<Taken, InputRefused>
        requires some { 0 < length segments }
        requires up { self.old.up ≡ true }
        ensures adds { AddsBy D.state (fault_in (Accept terminal.now number segments result)) self.old self.new (Accept terminal.now number segments result) }
        ensures crash { ControlCrashes D.state self.old self.new }
        ensures forced { ForcesBy (fault_in (Accept terminal.now number segments result)) (call_of (Accept terminal.now number segments result)) self.old self.new }
        ensures lasts { Lasts D.state self.new }
        ensures spent { TellsSpent (control_spent_now self.old) (fault_in (Accept terminal.now number segments result)) }
        ensures nothing { StaysSpent (fault_in (Accept terminal.now number segments result)) self.old self.new }
        ensures undone { StaysUndone (fault_in (Accept terminal.now number segments result)) self.old self.new }
        ensures room { SavesRoom (fault_in (Accept terminal.now number segments result)) self.old self.new }
        ensures frugal { WritesFrugally D.state (fault_in (Accept terminal.now number segments result)) self.old self.new (Accept terminal.now number segments result) }
        ensures raises { RaisesBy (2 * self.old.control.system.logs) self.old self.new }
        ensures counts { ControlCountsSince D.state (2 * self.old.control.system.logs) self.old self.new }
        ensures stays { StaysSo D.state self.old self.new }
    {
        if let Some(counter) = self.machine.spent() {
            return Err(InputRefused::Fault(ControlFault::Spent(counter)));
        }
        if self.history.reserve(2).is_err() {
            return Err(InputRefused::Fault(ControlFault::Memory));
        }
        let input = Input {
            terminal: *terminal,
            number,
            segments: &segments,
        };
        let answer = self.machine.serve(&input);
        self.steps = steps_of(self.steps, &self.machine);
        note(
            &mut self.history,
            input_entry(terminal, number, segments, &answer),
        );
        answer
    }

    /// What the terminal is to be shown; this adds no entry.
    pub fn showing(&self, terminal: &Name) -> Shown<'_>
        requires up { self.now.up ≡ true }
        ensures { IsShownTo (terminal_at (control_moment self.now.control).lasting.terminals terminal.now) (output_at (control_moment self.now.control).lasting.outputs terminal.now) result }
    {
        self.machine.showing(terminal)
    }

    /// What a command is answered now; this adds no entry.
    pub fn answer_to(&self, command: &Command) -> Result<Result<Answer, CommandRefused>, Memory>
        requires up { self.now.up ≡ true }
        ensures { IfOk result (λ answer. answer ≡ command_answer self.now.control.system (control_moment self.now.control) command.now) }
    {
        self.machine.answer_to(command)
    }

    /// Shows a terminal its first reply, again and again under the reply's own number. It takes no memory; the room for its
    /// entry was made by `reserve`.
    #[tactic(auto, using(crate::proofs::Room::one_less))]
    pub fn receive(&mut self, terminal: &Name) -> Shown<'_>
        requires up { self.old.up ≡ true }
        requires room { 0 < self.old.control.room }
        ensures shown { IsShownTo (terminal_at (control_moment self.old.control).lasting.terminals terminal.now) (output_at (control_moment self.old.control).lasting.outputs terminal.now) result }
        ensures* shows { sem 𝓛 (Rests (the_row D.row D.Disk) self.entry (λ new. Shows D.state self.old new (Show terminal.now (show_answer (control_moment self.old.control) terminal.now)))) }
    {
        let answer = self.machine.show_answer(terminal);
        self.history.push_reserved(Entry::Show(*terminal, answer));
        self.machine.showing(terminal)
    }

    /// Answers what `quiet` does, and adds its entry. It takes no memory; the room for the entry was made by `reserve`.
    pub fn ask_quiet(&mut self) -> bool
        requires up { self.old.up ≡ true }
        requires room { 0 < self.old.control.room }
        ensures value { result ≡ is_machine_quiet self.old.control.system (control_moment self.old.control) }
        ensures adds { Shows D.state self.old self.new (Quiet (is_machine_quiet self.old.control.system (control_moment self.old.control))) }
        ensures lasts { Lasts D.state self.new }
    {
        let _before = self.machine.is_served();
        let quiet = self.machine.quiet_answer();
        self.history.push_reserved(Entry::Quiet(quiet));
        quiet
    }

    /// Takes the acknowledgement of a reply.
    pub fn acknowledge(&mut self, terminal: &Name, number: u64) -> Result<Acked, AckRefused>
        requires up { self.old.up ≡ true }
        ensures adds { AddsBy D.state (fault_in (AckedEntry terminal.now number result)) self.old self.new (AckedEntry terminal.now number result) }
        ensures crash { ControlCrashes D.state self.old self.new }
        ensures forced { ForcesBy (fault_in (AckedEntry terminal.now number result)) (call_of (AckedEntry terminal.now number result)) self.old self.new }
        ensures lasts { Lasts D.state self.new }
        ensures spent { TellsSpent (control_spent_now self.old) (fault_in (AckedEntry terminal.now number result)) }
        ensures nothing { StaysSpent (fault_in (AckedEntry terminal.now number result)) self.old self.new }
        ensures undone { StaysUndone (fault_in (AckedEntry terminal.now number result)) self.old self.new }
        ensures room { SavesRoom (fault_in (AckedEntry terminal.now number result)) self.old self.new }
        ensures frugal { WritesFrugally D.state (fault_in (AckedEntry terminal.now number result)) self.old self.new (AckedEntry terminal.now number result) }
        ensures raises { RaisesBy (2 * self.old.control.system.logs) self.old self.new }
        ensures counts { ControlCountsSince D.state (2 * self.old.control.system.logs) self.old self.new }
        ensures stays { StaysSo D.state self.old self.new }
    {
        if let Some(counter) = self.machine.spent() {
            return Err(AckRefused::Fault(ControlFault::Spent(counter)));
        }
        if self.history.reserve(2).is_err() {
            return Err(AckRefused::Fault(ControlFault::Memory));
        }
        let acknowledgement = Acknowledgement {
            terminal: *terminal,
            number,
        };
        let answer = self.machine.serve(&acknowledgement);
        self.steps = steps_of(self.steps, &self.machine);
        note(&mut self.history, acked_entry(terminal, number, &answer));
        answer
    }

    /// Lets a region do its next step.
    pub fn turn(&mut self, region: u32) -> Result<Turned, ControlFault>
        requires up { self.old.up ≡ true }
        requires region { IsRegion self.old.control.system region }
        ensures adds { AddsBy D.state (fault_in (TurnEntry region result)) self.old self.new (TurnEntry region result) }
        ensures crash { ControlCrashes D.state self.old self.new }
        ensures forced { ForcesBy (fault_in (TurnEntry region result)) (call_of (TurnEntry region result)) self.old self.new }
        ensures lasts { Lasts D.state self.new }
        ensures spent { TellsSpent (control_spent_now self.old) (fault_in (TurnEntry region result)) }
        ensures nothing { StaysSpent (fault_in (TurnEntry region result)) self.old self.new }
        ensures undone { StaysUndone (fault_in (TurnEntry region result)) self.old self.new }
        ensures room { SavesRoom (fault_in (TurnEntry region result)) self.old self.new }
        ensures frugal { WritesFrugally D.state (fault_in (TurnEntry region result)) self.old self.new (TurnEntry region result) }
        ensures raises { RaisesBy (2 * self.old.control.system.logs) self.old self.new }
        ensures counts { ControlCountsSince D.state (2 * self.old.control.system.logs) self.old self.new }
        ensures stays { StaysSo D.state self.old self.new }
    {
        if let Some(counter) = self.machine.spent() {
            return Err(ControlFault::Spent(counter));
        }
        if self.history.reserve(2).is_err() {
            return Err(ControlFault::Memory);
        }
        let turned = self.machine.serve(&Turn { region });
        self.steps = steps_of(self.steps, &self.machine);
        note(&mut self.history, turn_entry(region, &turned));
        turned
    }

    /// Does an operator's command. A checkpoint and the opening of a system aren't among these.
    pub fn command(&mut self, command: &Command) -> Result<Answer, CommandRefused>
        requires up { self.old.up ≡ true }
        requires command { IsCommandServed command.now }
        ensures adds { AddsBy D.state (fault_in (Commanded command.now result)) self.old self.new (Commanded command.now result) }
        ensures crash { ControlCrashes D.state self.old self.new }
        ensures forced { ForcesBy (fault_in (Commanded command.now result)) (call_of (Commanded command.now result)) self.old self.new }
        ensures lasts { Lasts D.state self.new }
        ensures spent { TellsSpent (control_spent_now self.old) (fault_in (Commanded command.now result)) }
        ensures nothing { StaysSpent (fault_in (Commanded command.now result)) self.old self.new }
        ensures undone { StaysUndone (fault_in (Commanded command.now result)) self.old self.new }
        ensures room { SavesRoom (fault_in (Commanded command.now result)) self.old self.new }
        ensures frugal { WritesFrugally D.state (fault_in (Commanded command.now result)) self.old self.new (Commanded command.now result) }
        ensures raises { RaisesBy (2 * self.old.control.system.logs) self.old self.new }
        ensures counts { ControlCountsSince D.state (2 * self.old.control.system.logs) self.old self.new }
        ensures stays { StaysSo D.state self.old self.new }
    {
        if let Some(counter) = self.machine.spent() {
            return Err(CommandRefused::Fault(ControlFault::Spent(counter)));
        }
        let Ok(kept) = self.machine.answer_to(command) else {
            return Err(CommandRefused::Fault(ControlFault::Memory));
        };
        if self.history.reserve(2).is_err() {
            return Err(CommandRefused::Fault(ControlFault::Memory));
        }
        let answer = self.machine.serve(command);
        self.steps = steps_of(self.steps, &self.machine);
        note(&mut self.history, command_entry(command, kept, &answer));
        answer
    }

    /// Takes a checkpoint, of which it answers the number. Before a freeze no region may work on a message: `BusyRegion` has the
    /// lowest one at work, and its message. `Fault` is the disk's, want of memory, or a spent counter. No slot counts as changed
    /// behind it.
    pub fn checkpoint(&mut self, freeze: bool) -> Result<u64, CheckpointRefused>
        requires up { self.old.up ≡ true }
        ensures adds { AddsBy D.state (fault_in (Checked freeze result)) self.old self.new (Checked freeze result) }
        ensures crash { ControlCrashes D.state self.old self.new }
        ensures forced { OnOk result (self.new.forced ≡ front_of self.old.control) }
        ensures as_forced { OnErr result (self.new.forced ≡ self.old.forced) }
        ensures lasts { Lasts D.state self.new }
        ensures spent { TellsSpent (control_spent_now self.old) (fault_in (Checked freeze result)) }
        ensures nothing { StaysSpent (fault_in (Checked freeze result)) self.old self.new }
        ensures undone { StaysUndone (fault_in (Checked freeze result)) self.old self.new }
        ensures room { SavesRoom (fault_in (Checked freeze result)) self.old self.new }
        ensures raises { RaisesBy self.old.control.system.logs self.old self.new }
        ensures counts { ControlCountsSince D.state (2 * self.old.control.system.logs) self.old self.new }
        ensures stays { StaysSo D.state self.old self.new }
        ensures taken { IfOk result (λ number. IsTaken self.new.control.system number self.old.journal self.new.journal (D.state self.new.disk)) }
        ensures settled { OnOk result (LeavesSettled self.old.databases self.new.databases self.old.units self.new.units self.old.next_unit self.new.next_unit) }
        ensures writes { WritesCheckpoint self.old.control.system self.old.databases.stores self.old.databases.changed self.old.journal (D.state self.old.disk) (D.state self.new.disk) }
        ensures refused { IfErr result (λ refusal. ControlStaysUntaken refusal self.old self.new (Checked freeze result)) }
    {
        if let Some(counter) = self.machine.spent() {
            return Err(CheckpointRefused::Fault(ControlFault::Spent(counter)));
        }
        if self.history.reserve(2).is_err() {
            return Err(CheckpointRefused::Fault(ControlFault::Memory));
        }
        let answer = self.machine.checkpoint(freeze);
        self.steps = steps_of(self.steps, &self.machine);
        note(&mut self.history, checked_entry(freeze, &answer));
        answer
    }

    /// Forces to the disk all that pends, and answers how many lasting steps of the life are forced: all. It adds no entry; but where
    /// the disk fails, an entry tells of a checkpoint with that fault, and no call is served any more.
    pub fn force_log(&mut self) -> Result<u64, ControlFault>
        requires up { self.old.up ≡ true }
        ensures ok { IfOk result (λ forced. forced ≡ self.new.forced) }
        ensures forces { OnOk result (ForcesLog D.state self.old self.new) }
        ensures err { IfErr result (λ fault. fault ≡ DiskFault) }
        ensures broke { OnErr result (BrokeOff D.state self.old self.new (Checked false (Err (CheckpointFault DiskFault)))) }
        ensures as_forced { OnErr result (self.new.forced ≡ self.old.forced) }
        ensures crash { ControlCrashes D.state self.old self.new }
        ensures lasts { Lasts D.state self.new }
        ensures writes { WritesLog self.old.journal.log (D.state self.old.disk) (D.state self.new.disk) }
        ensures counts { ControlCountsSince D.state self.old.control.system.logs self.old self.new }
        ensures raises { self.new.up ≡ true → (high : ℕ) → StandsUpTo high self.old.journal self.old.next_unit → StandsUpTo high self.new.journal self.new.next_unit }
        ensures stays { StaysSo D.state self.old self.new }
    {
        if self.machine.force_log().is_err() {
            let refused = CheckpointRefused::Fault(ControlFault::Disk);
            self.history
                .push_reserved(Entry::Checked(false, Err(refused)));
            return Err(ControlFault::Disk);
        }
        self.steps = steps_of(self.steps, &self.machine);
        let all = self.machine.forced();
        Ok(steps_since(all, &self.opening))
    }
}

/// An opening for which there is no memory, before the disk was touched. Its size is looked at first.
fn without_memory<D: Disk>(disk: D, system: System, text: Bytes) -> OpenRefused<D>
    ensures refused { (how : How) → HandsBack D.state how system text disk result.error result.disk result.system result.text }
    ensures disk { result.disk ≡ disk }
{
    let needed = sectors_needed(&system);
    let has = disk.sectors();
    if has < needed {
        return OpenRefused {
            error: OpenError::TooSmall(needed, has),
            disk,
            system,
            text,
        };
    }
    OpenRefused {
        error: OpenError::Memory,
        disk,
        system,
        text,
    }
}

/// How many lasting steps were answered, so many before: those of the machine, unless its disk has failed.
fn steps_of<D: Disk>(before: u64, machine: &LoggedMachine<D>) -> u64
    ensures { result ≡ (if machine.now.served then machine.now.machine.moment.lasting.steps else before) }
{
    if machine.is_served() {
        machine.steps()
    } else {
        before
    }
}

/// What is handed back at the end of a life.
fn close<D: Disk>(
    machine: LoggedMachine<D>,
    opening: Lasting,
    checkpoint: u64,
    history: Vec<Entry>,
    began: u64,
    steps: u64,
) -> Closed<D>
    requires more { opening.steps ≤ steps }
    requires opened { opening.steps ≤ machine.forced }
    ensures disk { result.disk ≡ machine.disk }
    ensures system { result.system ≡ machine.machine.system }
    ensures text { result.text ≡ machine.text }
    ensures faults { result.faults ≡ began }
    ensures opening { result.life.opening ≡ opening }
    ensures checkpoint { result.life.checkpoint ≡ checkpoint }
    ensures history { result.life.history ≡ history.items }
    ensures forced { result.life.forced ≡ machine.forced - opening.steps }
    ensures kept { result.life.kept ≡ steps - opening.steps }
    ensures lasts { LastsNow D.state machine }
{
    let forced = steps_since(machine.forced(), &opening);
    let kept = steps_since(steps, &opening);
    let (disk, system, text) = machine.into_parts();
    Closed {
        disk,
        life: Life {
            opening,
            checkpoint,
            history: History::from_vec(history),
            forced,
            kept,
        },
        system,
        text,
        faults: began,
    }
}

/// How many of these lasting steps were done since.
fn steps_since(steps: u64, opening: &Lasting) -> u64
    requires { opening.now.steps ≤ steps }
    ensures { result ≡ steps - opening.now.steps }
{
    steps - opening.steps
}
