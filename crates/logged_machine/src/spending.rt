//! Counters that are spent.
ghost use Rattle.std.specs.Prelude.{◌≡◌, true};
ghost use Rattle.logged_machine.specs.LoggedState.{LastsNow, machine_spent_now};

use crate::logged::LoggedMachine;
use model_machine::Counter;
use openings::{Counts, spent_counter};
use tm_disk::Disk;

impl<D: Disk> LoggedMachine<D> {
    /// The first counter that stands at its limit.
    pub fn spent(&self) -> Option<Counter>
        requires served { self.now.served ≡ true }
        ensures value { result ≡ machine_spent_now self.now }
        ensures lasts { LastsNow D.state self.now }
    {
        let _served = self.is_served();
        let restart = self.journal.restart();
        let counts = Counts {
            epoch: restart.epoch,
            sequence: self.journal.next_sequence(),
            checkpoint: restart.checkpoint,
            next_id: self.parts.next_id(),
            last_unit: self.next_unit - 1,
            steps: self.parts.steps(),
        };
        spent_counter(&counts, self.parts.outputs())
    }
}
