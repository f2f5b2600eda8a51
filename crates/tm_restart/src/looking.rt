//! All of an image behind its text, read and judged.
ghost use Rattle.std.specs.Prelude.{◌≡◌, ◌+◌, ◌≤◌, Some, Ok, IsTrue, IfOk, length};
ghost use Rattle.tm_disk.specs.Disk.{Keeps};
ghost use Rattle.restart_data.specs.Restart.{restart_in};
ghost use Rattle.restart_data.specs.WrittenSectors.{IsValid};
ghost use Rattle.model_system.specs.Areas.{is_single, snapshot_area, data_first};
ghost use Rattle.image_reading.specs.NamedBytes.{AreNamedBytes};
ghost use Rattle.image_loading.specs.LoadedStores.{AreAllMade};
ghost use Rattle.tm_restart.specs.ReplayedImage.{ComesBehind};
ghost use Rattle.tm_restart.specs.LookedImage.{TellsLook, LookCause};

use crate::databases::{Named, load_named};
use crate::later::later_sector;
use crate::replaying::{Reread, read_replayed};
use image_loading::LoadFault;
use image_reading::ReadFault;
use restart_data::RestartSector;
use std::alloc::Global;
use system_types::System;
use tm_disk::Disk;

/// What an image comes to: its tables, the slots that records name, and its databases.
#[derive(Drop)]
pub struct Looked {
    pub reread: Reread,
    pub named: Named,
}

/// Reads the snapshot, the log and all databases of an image with this restart sector, and looks for log sectors of a later
/// life. Nothing is written.
pub fn look<D: Disk>(
    alloc: Global,
    disk: &mut D,
    system: &System,
    restart: &RestartSector,
) -> Result<Looked, ReadFault>
    requires areas { data_first system.now (length system.now.databases) ≤ (D.state disk.old).size }
    requires valid { IsValid (snapshot_area system.now) restart.now }
    requires has { IsTrue (D.state disk.old).tells → restart_in (snapshot_area system.now) (is_single system.now) (D.state disk.old).shown ≡ Ok (Some restart.now) }
    ensures behind { IfOk result (λ looked. ComesBehind system.now looked.reread.replayed) }
    ensures least { IfOk result (λ looked. restart.now.sequence ≤ looked.reread.next_sequence) }
    ensures few { IfOk result (λ looked. looked.reread.next_sequence ≤ restart.now.sequence + system.now.logs) }
    ensures given { IfOk result (λ looked. AreNamedBytes (length system.now.databases) looked.reread.replayed.slots looked.named.given.items) }
    ensures made { IfOk result (λ looked. AreAllMade system.now.databases looked.named.loaded.stores) }
    ensures value { IsTrue (D.state disk.old).tells → TellsLook system.now restart.now (D.state disk.old).shown result }
    ensures keeps { Keeps (D.state disk.old) (D.state disk.new) }
    ensures cause { LookCause result (D.state disk.old) (D.state disk.new) }
{
    let reread = match read_replayed(alloc, disk, system, restart) {
        Ok(reread) => reread,
        Err(fault) => return Err(fault),
    };
    let named = match load_named(alloc, disk, system, &reread.replayed.slots) {
        Ok(named) => named,
        Err(LoadFault::Bad(rule, sector)) => return Err(ReadFault::Bad(rule, sector)),
        Err(LoadFault::Disk) => return Err(ReadFault::Disk),
        Err(LoadFault::Memory) => return Err(ReadFault::Memory),
    };
    match later_sector(disk, system, restart, reread.later) {
        Ok(None) => Ok(Looked { reread, named }),
        Ok(Some(sector)) => Err(ReadFault::Bad(24, sector)),
        Err(_) => Err(ReadFault::Disk),
    }
}
