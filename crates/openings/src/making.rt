//! The parts of a life that begins with what was read.
ghost use Rattle.std.specs.Prelude.{◌≡◌, map, IfOk};
ghost use Rattle.model_machine.specs.Machine.{LastingState};
ghost use Rattle.image_records.specs.KeptState.{kept_of};
ghost use Rattle.seg_store.specs.Slots.{rows_of_slots};
ghost use Rattle.seg_store.specs.ChangedSlots.{all_stores, stored};
ghost use Rattle.seg_store.specs.Stores.{no_changed};
ghost use Rattle.openings.specs.OpeningParts.{AreOpeningParts};

use crate::codes::codes_of;
use crate::parts::Parts;
use image_records::Kept;
use restart_data::RestartSector;
use seg_store::{Store, Stores};
use std::alloc::Global;
use system_types::System;
use tm_types::Memory;

/// The parts of a life that begins with what is kept, with the stores of the system's databases, of which no slot counts
/// as changed. All is moved; `Memory` is the only refusal.
pub fn parts_of(
    alloc: Global,
    system: &System,
    kept: Kept,
    stores: Vec<Store>,
    now: RestartSector,
    next_unit: u64,
) -> Result<Parts, Memory>
    requires databases { map (λ store. store.dbd) stores.items ≡ system.now.databases }
    requires unchanged { map (λ store. store.changed) stores.items ≡ no_changed system.now.databases }
    // They are those of each state that this is kept of, with the rows of the stores.
    ensures are { IfOk result (λ parts. (lasting : LastingState) → kept ≡ kept_of system.now lasting → AreOpeningParts system.now (record lasting { rows = map (λ store. rows_of_slots store.slots) (map stored stores.items) }) parts) }
    ensures stores { IfOk result (λ parts. parts.stores ≡ all_stores stores.items) }
    ensures now { IfOk result (λ parts. parts.now ≡ now) }
    ensures next_unit { IfOk result (λ parts. parts.next_unit ≡ next_unit) }
{
    let codes = codes_of(alloc, system, &kept)?;
    Ok(Parts {
        queues: kept.queues,
        outputs: kept.outputs,
        codes,
        terminals: kept.terminals,
        conversations: kept.conversations,
        stores: Stores::of(stores),
        now,
        next_id: kept.next_id,
        next_unit,
        steps: kept.steps,
    })
}
