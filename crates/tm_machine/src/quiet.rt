//! Whether anything is left to do.
ghost use Rattle.std.specs.Prelude.{◌≡◌};
ghost use Rattle.model_machine.specs.Machine.{IsRegion};
ghost use Rattle.model_machine.specs.MachineCalls.{rests, is_machine_quiet};

use crate::parts::Parts;
use tran_pick::pick;

impl Parts {
    /// Whether nothing is left to do: all regions are empty, and none has a message to take and the room for it.
    pub fn is_quiet(&self) -> bool
        ensures { result ≡ is_machine_quiet self.now.system self.now.moment }
    {
        for (place, _work) in self.regions.iter().enumerate() {
            if !self.rests(place as u32 + 1) {
                return false;
            }
        }
        true
    }

    /// Whether the region is empty and has no message to take, or no room for it.
    fn rests(&self, region: u32) -> bool
        requires { IsRegion self.now.system region }
        ensures { result ≡ rests self.now.system self.now.moment region }
    {
        if self.regions[region as usize - 1].is_some() {
            return false;
        }
        if pick(&self.system, region, &self.codes, self.tables.queues()).is_none() {
            return true;
        }
        self.slot_need() > u64::from(self.tables.queues().limit())
    }
}
