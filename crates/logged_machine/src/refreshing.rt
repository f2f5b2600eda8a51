//! Checkpoints.
ghost use Rattle.std.specs.Prelude.{◌≡◌, true, OnOk, IfErr};
ghost use Rattle.journal.specs.CountRanges.{AreCountsInRange};
ghost use Rattle.logged_machine.specs.Attempts.{Refreshed, Unrefreshed, is_memory};

use crate::checkpoint;
use crate::logged::LoggedMachine;
use model_machine::ControlFault;
use tm_disk::Disk;

impl<D: Disk> LoggedMachine<D> {
    /// Takes a checkpoint. The machine stands where it stood, no slot counts as changed, and all that lasts is forced.
    pub(crate) fn refresh(&mut self) -> Result<(), ControlFault>
        requires served { self.old.served ≡ true }
        requires counted { AreCountsInRange 0 self.old.machine.moment.lasting self.old.next_unit self.old.journal }
        ensures done { OnOk result (Refreshed D.state self.old self.new) }
        ensures fault { IfErr result (Unrefreshed D.state self.old self.new) }
    {
        match checkpoint(
            self.alloc,
            &mut self.parts,
            &mut self.journal,
            &mut self.disk,
            self.units.as_slice(),
            self.next_unit,
        ) {
            Ok(()) => {
                self.forced = self.parts.steps();
                Ok(())
            }
            Err(fault) => {
                self.served = is_memory(&fault);
                Err(fault)
            }
        }
    }
}

/// Whether a fault is want of memory.
pub(crate) fn is_memory(fault: &ControlFault) -> bool
    ensures { result ≡ is_memory fault.now }
{
    match fault {
        ControlFault::Memory => true,
        ControlFault::Disk => false,
        ControlFault::Spent(_) => false,
    }
}
