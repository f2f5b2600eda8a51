//! What an empty machine begins with, and its first snapshot.
ghost use Rattle.std.specs.Prelude.{◌≡◌, ◌≤◌, map, IfOk};
ghost use Rattle.model_machine.specs.Machine.{empty_state};
ghost use Rattle.seg_store.specs.Stores.{empty_stores};
ghost use Rattle.system_types.specs.Codes.{first_state};
ghost use Rattle.openings.specs.MadeParts.{IsFirstMade};
ghost use Rattle.openings.specs.OpeningParts.{AreOpeningParts};

use crate::Parts;
use crate::first_sector::first_restart;
use crate::spelled::first_snapshot;
use conversation::Conversations;
use lasting_changes::{empty_lasting, fresh_states};
use model_machine::Lasting;
use msg_queues::Queues;
use out_queues::Outputs;
use restart_data::RestartSector;
use seg_store::Stores;
use std::alloc::Global;
use system_types::{Codes, System};
use tm_types::Memory;

// The parts of the empty machine, with these codes and this restart sector.
fn parts(alloc: Global, system: &System, codes: Codes, now: RestartSector) -> Result<Parts, Memory>
    requires codes { codes ≡ map first_state system.now.codes }
    ensures are { IfOk result (λ parts. AreOpeningParts system.now (empty_state system.now) parts) }
    ensures stores { IfOk result (λ parts. parts.stores.stores ≡ empty_stores system.now.databases) }
    ensures next_unit { IfOk result (λ parts. parts.next_unit ≡ 1) }
    ensures now { IfOk result (λ parts. parts.now ≡ now) }
{
    Ok(Parts {
        queues: Queues::new(alloc, system.qbytes()),
        outputs: Outputs::new(alloc, system.terminals())?,
        codes,
        terminals: fresh_states(alloc, system.terminals())?,
        conversations: Conversations::none(alloc, system.terminals())?,
        stores: Stores::empty(alloc, system.databases())?,
        now,
        next_id: 1,
        next_unit: 1,
        steps: 0,
    })
}

/// What a cold start begins with.
#[derive(Drop)]
pub struct Made {
    pub parts: Parts,
    pub lasting: Lasting,
    /// The bytes of the first snapshot.
    pub bytes: Vec<u8>,
    /// The first restart sector, which the parts have too.
    pub now: RestartSector,
}

/// What the empty machine of this system begins with, on a disk with a text of so many bytes.
pub fn make(alloc: Global, system: &System, text: u32) -> Result<Made, Memory>
    requires text { text ≤ 262144 }
    ensures made { IfOk result (λ made. IsFirstMade system.now text made.parts made.lasting made.bytes.items made.now) }
{
    let _terminals = system.terminals();
    let lasting = empty_lasting(alloc, system)?;
    let codes = Codes::of(alloc, system)?;
    let bytes = first_snapshot(alloc, system, &lasting, codes.states())?;
    let now = first_restart(bytes.len(), text);
    let parts = parts(alloc, system, codes, now)?;
    Ok(Made {
        parts,
        lasting,
        bytes,
        now,
    })
}
