//! The databases of an image, with the slots that records name.
ghost use Rattle.std.specs.Prelude.{◌≡◌, ◌≤◌, true, List, IsTrue, IfOk, length};
ghost use Rattle.std.specs.List.{list_all};
ghost use Rattle.log_records.specs.declared.record.Record.{Record as OneRecord};
ghost use Rattle.tm_disk.specs.Disk.{Keeps};
ghost use Rattle.model_system.specs.Areas.{data_first};
ghost use Rattle.model_image.specs.Slots.{all_slots};
ghost use Rattle.image_loading.specs.LoadedStore.{LoadCause};
ghost use Rattle.image_records.specs.NamedSlots.{is_slot_of, NamedSlotsAscend, AreSlotsNamed};
ghost use Rattle.image_loading.specs.LoadedStores.{AreAllMade};
ghost use Rattle.image_reading.specs.NamedBytes.{AreNamedBytes};
ghost use Rattle.tm_restart.specs.NamedDatabases.{TellsNamed};

use image_loading::{LoadFault, Loaded, Slots, load_all};
use image_reading::given_of;
use image_records::NamedSlot;
use std::alloc::Global;
use system_types::System;
use tm_disk::Disk;

/// The databases, and of each the slots that records name.
#[derive(Debug, Drop)]
pub struct Named {
    pub given: Vec<Slots>,
    pub loaded: Loaded,
}

/// Loads all databases, the slots that records name from there and all others from their sectors. Nothing is written.
pub fn load_named<D: Disk>(
    alloc: Global,
    disk: &mut D,
    system: &System,
    named: &[NamedSlot],
) -> Result<Named, LoadFault>
    requires areas { data_first system.now (length system.now.databases) ≤ (D.state disk.old).size }
    requires ascending { NamedSlotsAscend named.now }
    requires images { list_all (is_slot_of system.now) named.now ≡ true }
    ensures given { IfOk result (λ found. AreNamedBytes (length system.now.databases) named.now found.given.items) }
    ensures made { IfOk result (λ found. AreAllMade system.now.databases found.loaded.stores) }
    // They are those of the image, for all records that name these slots.
    ensures value { IsTrue (D.state disk.old).tells → (snapshot log : List OneRecord) → AreSlotsNamed snapshot log named.now → TellsNamed result (all_slots system.now (D.state disk.old).shown snapshot log 0 system.now.databases) }
    ensures keeps { Keeps (D.state disk.old) (D.state disk.new) }
    ensures cause { LoadCause result (D.state disk.old) (D.state disk.new) }
{
    let count = system.databases().len() as u8;
    let Ok(given) = given_of(alloc, count, named) else {
        return Err(LoadFault::Memory);
    };
    match load_all(alloc, disk, system, &given) {
        Ok(loaded) => Ok(Named { given, loaded }),
        Err(fault) => Err(fault),
    }
}
