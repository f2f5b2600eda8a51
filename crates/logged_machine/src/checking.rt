//! Checkpoints that are asked for.
ghost use Rattle.std.specs.Prelude.{◌*◌, ◌≡◌, true, false, ℕ, None, Ok, IfErr, IfOk, OnOk};
ghost use Rattle.tm_disk.specs.Disk.{Image};
ghost use Rattle.model_machine.specs.CommandAnswers.{checkpoint_answer, unless_busy};
ghost use Rattle.model_machine.specs.declared.entry.Entry.TheVariants.{Checked};
ghost use Rattle.journal.specs.CountRanges.{AreCountsInRange};
ghost use Rattle.logged_machine.specs.Attempts.{CountsSince, Did, LeavesCounts};
ghost use Rattle.logged_machine.specs.CheckpointDue.{Raises};
ghost use Rattle.logged_machine.specs.CallOutcome.{CrashesIntoPending, KeepsMachine, MachineGoesBy, PendsAnew};
ghost use Rattle.openings.specs.Faults.{fault_in};
ghost use Rattle.logged_machine.specs.LoggedState.{LastsNow, machine_spent_now};
ghost use Rattle.logged_machine.specs.TakenCheckpoint.{HasNumber, IsTaken, LeavesSettled, StaysUntaken, WritesCheckpoint, again};

use crate::logged::LoggedMachine;
use model_machine::CheckpointRefused;
use tm_disk::Disk;
use tm_machine::{Parts, busy_region};

impl<D: Disk> LoggedMachine<D> {
    /// Takes a checkpoint, of which it answers the number. Before a freeze no region may work on a message. No slot counts as
    /// changed behind it, and all that lasts is forced.
    pub fn checkpoint(&mut self, freeze: bool) -> Result<u64, CheckpointRefused>
        requires served { self.old.served ≡ true }
        requires unspent { machine_spent_now self.old ≡ None }
        ensures goes { MachineGoesBy D.state (fault_in (Checked freeze result)) self.old self.new (Checked freeze result) }
        ensures crash { CrashesIntoPending D.state self.old self.new }
        ensures forced { OnOk result (PendsAnew D.state false self.old self.new) }
        ensures lasts { LastsNow D.state self.new }
        ensures keeps { KeepsMachine D.state self.old self.new }
        ensures counts { CountsSince D.state (2 * self.old.machine.system.logs) self.old self.new }
        ensures raises { self.new.served ≡ true → Raises self.old.machine.system.logs self.old.journal self.new.journal self.old.next_unit self.new.next_unit }
        ensures taken { IfOk result (λ number. IsTaken self.new.machine.system number self.old.journal self.new.journal (D.state self.new.disk)) }
        ensures settled { OnOk result (LeavesSettled self.old.machine.databases self.new.machine.databases self.old.units self.new.units self.old.next_unit self.new.next_unit) }
        ensures writes { WritesCheckpoint self.old.machine.system self.old.machine.databases.stores self.old.machine.databases.changed self.old.journal (D.state self.old.disk) (D.state self.new.disk) }
        ensures refused { IfErr result (λ refusal. StaysUntaken refusal self.old self.new) }
    {
        let _before = self.is_served();
        let answer = self.checkpoint_any(freeze);
        let _behind = self.is_served();
        answer
    }

    /// The same, by what it does.
    fn checkpoint_any(&mut self, freeze: bool) -> Result<u64, CheckpointRefused>
        requires served { self.old.served ≡ true }
        requires counted { AreCountsInRange 0 self.old.machine.moment.lasting self.old.next_unit self.old.journal }
        ensures did { Did D.state (fault_in (Checked freeze result)) self.old self.new (Checked freeze result) }
        ensures forced { OnOk result (PendsAnew D.state false self.old self.new) }
        ensures counts { LeavesCounts D.state (2 * self.old.machine.system.logs) self.old self.new }
        ensures raises { self.new.served ≡ true → Raises self.old.machine.system.logs self.old.journal self.new.journal self.old.next_unit self.new.next_unit }
        ensures taken { IfOk result (λ number. IsTaken self.new.machine.system number self.old.journal self.new.journal (D.state self.new.disk)) }
        ensures settled { OnOk result (LeavesSettled self.old.machine.databases self.new.machine.databases self.old.units self.new.units self.old.next_unit self.new.next_unit) }
        ensures writes { WritesCheckpoint self.old.machine.system self.old.machine.databases.stores self.old.machine.databases.changed self.old.journal (D.state self.old.disk) (D.state self.new.disk) }
        ensures refused { IfErr result (λ refusal. StaysUntaken refusal self.old self.new) }
    {
        let _regions = self.parts.region_count();
        match busy_for(&self.parts, freeze) {
            Some((region, id)) => Err(CheckpointRefused::BusyRegion(region, id)),
            None => self.checkpoint_free(freeze),
        }
    }

    /// The same where no region forbids it.
    fn checkpoint_free(&mut self, freeze: bool) -> Result<u64, CheckpointRefused>
        requires served { self.old.served ≡ true }
        requires counted { AreCountsInRange 0 self.old.machine.moment.lasting self.old.next_unit self.old.journal }
        requires stays { again self.old.machine ≡ self.old.machine.moment }
        requires free { (number : ℕ) → checkpoint_answer self.old.machine.moment freeze number ≡ Ok number }
        ensures did { Did D.state (fault_in (Checked freeze result)) self.old self.new (Checked freeze result) }
        ensures forced { OnOk result (PendsAnew D.state false self.old self.new) }
        ensures counts { LeavesCounts D.state (2 * self.old.machine.system.logs) self.old self.new }
        ensures raises { self.new.served ≡ true → Raises self.old.machine.system.logs self.old.journal self.new.journal self.old.next_unit self.new.next_unit }
        ensures taken { IfOk result (λ number. IsTaken self.new.machine.system number self.old.journal self.new.journal (D.state self.new.disk)) }
        ensures settled { OnOk result (LeavesSettled self.old.machine.databases self.new.machine.databases self.old.units self.new.units self.old.next_unit self.new.next_unit) }
        ensures writes { WritesCheckpoint self.old.machine.system self.old.machine.databases.stores self.old.machine.databases.changed self.old.journal (D.state self.old.disk) (D.state self.new.disk) }
        ensures refused { IfErr result (λ refusal. StaysUntaken refusal self.old self.new) }
    {
        match self.refresh() {
            Ok(()) => self.number_taken(),
            Err(fault) => Err(CheckpointRefused::Fault(fault)),
        }
    }

    /// The number of a checkpoint that was just taken.
    fn number_taken(&self) -> Result<u64, CheckpointRefused>
        requires served { self.now.served ≡ true }
        requires place { self.now.journal.log.place ≡ 0 }
        ensures value { result ≡ Ok self.now.journal.restart.checkpoint }
        ensures images { (image : Image) → (D.state self.now.disk).may_leave image → HasNumber self.now.machine.system self.now.journal.restart.checkpoint image }
    {
        Ok(self.journal.restart().checkpoint)
    }
}

/// The region that forbids a checkpoint, which is one that works on a message before a freeze.
fn busy_for(parts: &Parts, freeze: bool) -> Option<(u32, u64)>
    ensures { (number : ℕ) → checkpoint_answer parts.now.moment freeze number ≡ unless_busy number result }
{
    if freeze {
        return busy_region(parts);
    }
    None
}
