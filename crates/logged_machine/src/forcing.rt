//! All that was appended, forced.
ghost use Rattle.std.specs.Prelude.{◌≡◌, true, OnErr, OnOk};
ghost use Rattle.logged_machine.specs.Attempts.{AttemptLeaves, Broke, CountsSince, LeavesCounts};
ghost use Rattle.logged_machine.specs.CallOutcome.{CrashesIntoPending, Failed, HasForced, KeepsMachine};
ghost use Rattle.logged_machine.specs.CheckpointDue.{WritesLog};
ghost use Rattle.logged_machine.specs.LoggedState.{LastsNow};

use crate::logged::LoggedMachine;
use tm_disk::{Disk, DiskFault};

impl<D: Disk> LoggedMachine<D> {
    /// Forces all that was appended: each image that a crash may leave has all that lasts then. It takes no memory.
    pub fn force_log(&mut self) -> Result<(), DiskFault>
        requires served { self.old.served ≡ true }
        ensures done { OnOk result (HasForced D.state self.old self.new) }
        ensures fault { OnErr result (Failed D.state self.old self.new) }
        ensures crash { CrashesIntoPending D.state self.old self.new }
        ensures lasts { LastsNow D.state self.new }
        ensures keeps { KeepsMachine D.state self.old self.new }
        ensures counts { CountsSince D.state self.old.machine.system.logs self.old self.new }
        ensures writes { WritesLog self.old.journal.log (D.state self.old.disk) (D.state self.new.disk) }
    {
        let _before = self.is_served();
        let forced = self.force_any();
        let _behind = self.is_served();
        forced
    }

    /// The same, by what it does.
    fn force_any(&mut self) -> Result<(), DiskFault>
        requires served { self.old.served ≡ true }
        ensures done { OnOk result (HasForced D.state self.old self.new) }
        ensures broke { OnErr result (Broke D.state self.old self.new) }
        ensures leaves { AttemptLeaves D.state self.old self.new }
        ensures keeps { KeepsMachine D.state self.old self.new }
        ensures counts { LeavesCounts D.state self.old.machine.system.logs self.old self.new }
        ensures writes { WritesLog self.old.journal.log (D.state self.old.disk) (D.state self.new.disk) }
    {
        match self.journal.force(&mut self.disk) {
            Ok(()) => {
                self.forced = self.parts.steps();
                Ok(())
            }
            Err(fault) => {
                self.served = false;
                Err(fault)
            }
        }
    }
}
