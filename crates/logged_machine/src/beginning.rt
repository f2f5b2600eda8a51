//! A machine and its journal as a life begins.
ghost use Rattle.std.specs.Prelude.{◌≡◌, length};
ghost use Rattle.model_machine.specs.Machine.{LastingState, empty_state, start_of};
ghost use Rattle.restart_data.specs.Restart.{IsRestart};
ghost use Rattle.openings.specs.Renewal.{first_writer};
ghost use Rattle.tm_machine.specs.SlotChanges.{HasSlots, slots_now};
ghost use Rattle.tm_machine.specs.MachineOpening.{IsOpenedWith};
ghost use Rattle.logged_machine.specs.OpeningSlots.{slots_of_opening};

use image_loading::log_first;
use journal::Journal;
use std::alloc::Global;
use tm_machine::Parts;

/// The machine goes on with these parts. Its journal begins behind the restart sector; and this is the next unit's number.
pub(crate) fn begin(alloc: Global, parts: &mut Parts, opening: openings::Parts) -> (Journal, u64)
    requires fresh { parts.old.moment ≡ start_of parts.old.system (empty_state parts.old.system) }
    requires some { (state : LastingState) × IsOpenedWith parts.old.system state opening }
    requires restart { IsRestart opening.now }
    ensures system { parts.new.system ≡ parts.old.system }
    ensures moment { (state : LastingState) → IsOpenedWith parts.old.system state opening → parts.new.moment ≡ start_of parts.old.system state }
    ensures slots { slots_now parts.new ≡ slots_of_opening opening (length parts.old.system.regions) }
    ensures has { HasSlots parts.new }
    ensures log { result.0.log ≡ first_writer parts.old.system opening.now }
    ensures restart { result.0.restart ≡ opening.now }
    ensures unit { result.1 ≡ opening.next_unit }
{
    let now = opening.now;
    let next_unit = opening.next_unit;
    let first = log_first(parts.system(), now.log);
    let journal = Journal::begin(alloc, first, parts.system().logs(), &now);
    parts.open(opening);
    let _stores = parts.stores();
    (journal, next_unit)
}
