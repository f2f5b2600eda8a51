//! A control region that goes on with what lasts.
ghost use Rattle.std.specs.Prelude.{◌≡◌, [], length, replicate};
ghost use Rattle.model_machine.specs.Machine.{LastingState, empty_state, start_of};
ghost use Rattle.tm_machine.specs.SlotChanges.{slots_now};
ghost use Rattle.tm_machine.specs.MachineOpening.{IsOpenedWith};

use crate::parts::Parts;

impl Parts {
    /// What lasts is what these parts are of; no region has a message. The parts were new. This takes no memory.
    pub fn open(&mut self, parts: openings::Parts)
        requires fresh { self.old.moment ≡ start_of self.old.system (empty_state self.old.system) }
        requires some { (state : LastingState) × IsOpenedWith self.old.system state parts }
        ensures system { self.new.system ≡ self.old.system }
        ensures moment { (state : LastingState) → IsOpenedWith self.old.system state parts → self.new.moment ≡ start_of self.old.system state }
        ensures slots { slots_now self.new ≡ record { stores = parts.stores.stores; changed = parts.stores.changed; committed = parts.stores.stores; touched = replicate (length self.old.system.regions) [] } }
    {
        let _codes = self.system.codes();
        self.tables.open(
            parts.stores,
            parts.queues,
            parts.next_id,
            parts.terminals,
            parts.outputs,
            parts.conversations,
            parts.steps,
        );
        self.codes = parts.codes;
    }
}
