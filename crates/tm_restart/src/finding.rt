//! What an image is found to be, before anything is written.
ghost use Rattle.std.specs.Prelude.{◌≡◌, ◌+◌, ◌≤◌, None, Some, Ok, IsTrue, length};
ghost use Rattle.tm_disk.specs.Disk.{Keeps};
ghost use Rattle.model_machine.specs.Machine.{LastingState as OneState};
ghost use Rattle.restart_data.specs.Restart.{restart_in};
ghost use Rattle.restart_data.specs.WrittenSectors.{IsValid};
ghost use Rattle.model_system.specs.Areas.{is_single, snapshot_area, sectors_needed};
ghost use Rattle.model_image.specs.Text as texts;
ghost use Rattle.openings.specs.OpenedImage.{counters, first_spent};
ghost use Rattle.tm_restart.specs.FoundImage.{SizeKnown, TellsFound, TellsFind, FoundAlways, FindAlways, FoundCause};

use crate::looking::{Looked, look};
use image_loading::{is_single, snapshot_area};
use image_reading::{ReadFault, text_difference};
use openings::{Counter, Counts, OpenError, spent_counter};
use restart_data::{RestartFault, RestartSector, read_restart};
use std::alloc::Global;
use system_types::System;
use tm_disk::Disk;

/// An image of the system that may be opened: its restart sector, and what it comes to.
#[derive(Drop)]
pub struct Found {
    pub restart: RestartSector,
    pub looked: Looked,
}

// The first counter that is spent.
fn spent_of(restart: &RestartSector, looked: &Looked) -> Option<Counter>
    ensures { (state : OneState) → state.next_id ≡ looked.now.reread.replayed.kept.next_id → state.steps ≡ looked.now.reread.replayed.kept.steps → state.outputs ≡ looked.now.reread.replayed.kept.outputs → result ≡ first_spent (counters restart.now.epoch looked.now.reread.next_sequence restart.now.checkpoint (looked.now.reread.replayed.last_unit + 1) state) }
{
    let replayed = &looked.reread.replayed;
    let counts = Counts {
        epoch: restart.epoch,
        sequence: looked.reread.next_sequence,
        checkpoint: restart.checkpoint,
        next_id: replayed.kept.next_id,
        last_unit: replayed.last_unit,
        steps: replayed.kept.steps,
    };
    spent_counter(&counts, &replayed.kept.outputs)
}

// Looks at the rest of an image with this restart sector and this text, and then at the counters.
fn find_rest<D: Disk>(
    alloc: Global,
    disk: &mut D,
    system: &System,
    text: &[u8],
    restart: RestartSector,
) -> Result<Found, OpenError>
    requires size { sectors_needed system.now ≤ (D.state disk.old).size }
    requires valid { IsValid (snapshot_area system.now) restart }
    requires text_size { length text.now ≡ restart.text }
    requires has { IsTrue (D.state disk.old).tells → restart_in (snapshot_area system.now) (is_single system.now) (D.state disk.old).shown ≡ Ok (Some restart) }
    requires same { IsTrue (D.state disk.old).tells → texts.first_difference text.now (texts.text_in (D.state disk.old).shown restart.text) ≡ None }
    ensures size { SizeKnown system.now (D.state disk.old).size result }
    ensures value { IsTrue (D.state disk.old).tells → TellsFound system.now text.now (D.state disk.old).shown result }
    ensures always { FoundAlways system.now text.now result }
    ensures keeps { Keeps (D.state disk.old) (D.state disk.new) }
    ensures cause { FoundCause result (D.state disk.old) (D.state disk.new) }
{
    let looked = match look(alloc, disk, system, &restart) {
        Ok(looked) => looked,
        Err(ReadFault::Bad(rule, sector)) => return Err(OpenError::BadImage(rule, sector)),
        Err(ReadFault::Disk) => return Err(OpenError::Disk),
        Err(ReadFault::Memory) => return Err(OpenError::Memory),
    };
    match spent_of(&restart, &looked) {
        None => Ok(Found { restart, looked }),
        Some(counter) => Err(OpenError::Spent(counter)),
    }
}

// A place in a text of this size.
fn place_in(place: usize, size: usize) -> u32
    requires few { size ≤ 262144 }
    ensures { place ≤ size → result ≡ place }
{
    if place > size {
        return 0;
    }
    place as u32
}

// Looks at the text of an image with this restart sector, and then at the rest. No place that differs is past the text.
fn find_behind<D: Disk>(
    alloc: Global,
    disk: &mut D,
    system: &System,
    text: &[u8],
    restart: RestartSector,
) -> Result<Found, OpenError>
    requires text { length text.now ≤ 262144 }
    requires size { sectors_needed system.now ≤ (D.state disk.old).size }
    requires valid { IsValid (snapshot_area system.now) restart }
    requires has { IsTrue (D.state disk.old).tells → restart_in (snapshot_area system.now) (is_single system.now) (D.state disk.old).shown ≡ Ok (Some restart) }
    ensures size { SizeKnown system.now (D.state disk.old).size result }
    ensures value { IsTrue (D.state disk.old).tells → TellsFound system.now text.now (D.state disk.old).shown result }
    ensures always { FoundAlways system.now text.now result }
    ensures keeps { Keeps (D.state disk.old) (D.state disk.new) }
    ensures cause { FoundCause result (D.state disk.old) (D.state disk.new) }
{
    match text_difference(disk, text, restart.text) {
        Ok(None) => find_rest(alloc, disk, system, text, restart),
        Ok(Some(place)) => Err(OpenError::WrongDefinition(place_in(place, text.len()))),
        Err(_) => Err(OpenError::Disk),
    }
}

/// Reads the restart sector of a disk that is large enough, compares the text, looks at the rest of the image, and then at
/// the counters; it finds nothing exactly where sector 0 is all zeros. Nothing is written.
pub fn find<D: Disk>(
    alloc: Global,
    disk: &mut D,
    system: &System,
    text: &[u8],
) -> Result<Option<Found>, OpenError>
    requires text { length text.now ≤ 262144 }
    requires size { sectors_needed system.now ≤ (D.state disk.old).size }
    ensures size { SizeKnown system.now (D.state disk.old).size result }
    ensures value { IsTrue (D.state disk.old).tells → TellsFind system.now text.now (D.state disk.old).shown result }
    ensures always { FindAlways system.now text.now result }
    ensures keeps { Keeps (D.state disk.old) (D.state disk.new) }
    ensures cause { FoundCause result (D.state disk.old) (D.state disk.new) }
{
    let restart = match read_restart(disk, snapshot_area(system), is_single(system)) {
        Ok(Some(restart)) => restart,
        Ok(None) => return Ok(None),
        Err(RestartFault::Bad(rule)) => return Err(OpenError::BadImage(rule, 0)),
        Err(RestartFault::Disk) => return Err(OpenError::Disk),
    };
    match find_behind(alloc, disk, system, text, restart) {
        Ok(found) => Ok(Some(found)),
        Err(error) => Err(error),
    }
}
