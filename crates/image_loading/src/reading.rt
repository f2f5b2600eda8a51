//! The slots of a database are read.
ghost use Rattle.std.specs.Prelude.{◌≡◌, ◌+◌, ◌*◌, ◌≤◌, ◌<◌, ◌==◌, ◌&&◌, [], IsTrue, IfOk, IfErr, IfSome, OnOk, length, None, Some, if◌then◌else◌};
ghost use Rattle.std.specs.List.{AllByRecursion};
ghost use Rattle.std.specs.List.Sorted.{IsStrictlySortedBy};
ghost use Rattle.std.specs.Map.{keys_of};
ghost use Rattle.std.specs.Option.{is_some, option_copied, option_or, unwrap_or};
ghost use Rattle.std.specs.Ordering.{nat_cmp};
ghost use Rattle.tm_disk.specs.Disk.{Keeps};
ghost use Rattle.model_image.specs.Slots.{Spelled, is_image, rows_of_bytes, sectors_from, source_of};
ghost use Rattle.seg_store.specs.Slots.{IsSlot};
ghost use Rattle.image_loading.specs.LoadedStore.{image_slots_in, LoadCause};
ghost use Rattle.image_loading.specs.declared.fault.LoadFault.TheVariants.{Memory as memory};
ghost use Rattle.image_loading.specs.ReadSlots.{TellsSectors, TellsSlot, TellsRead, MaySlot, head_given, given_behind};

use crate::LoadFault;
use crate::judging::{bytes_in, image_of};
use seg_rows::RecordImage;
use seg_store::RecordBytes;
use std::alloc::Global;
use tm_disk::{Disk, Sector};
use tm_types::{Bytes, Dbd};

/// The records of a database's slots, and the first sector of the first slot whose bytes are none.
#[derive(Debug, Drop)]
pub struct SlotImages {
    pub images: Vec<RecordImage>,
    pub broken: Option<u32>,
}

/// Reads all slots of a database, of which slot 0 begins at the sector `first`, but those that are given.
pub fn read_slots<D: Disk>(
    alloc: Global,
    disk: &mut D,
    dbd: &Dbd,
    first: u32,
    given: &[(u16, Bytes)],
) -> Result<SlotImages, LoadFault>
    requires area { first + dbd.now.roots * dbd.now.sectors ≤ (D.state disk.old).size }
    requires few { dbd.now.sectors ≤ 8 }
    requires ascending { IsStrictlySortedBy nat_cmp (keys_of given.now) }
    requires given { AllByRecursion (λ s. IsTrue (is_image dbd.now s.1)) given.now }
    ensures count { IfOk result (λ read. length read.images.items ≡ dbd.now.roots) }
    ensures each { IfOk result (λ read. AllByRecursion (IsSlot dbd.now) read.images.items) }
    ensures value { IsTrue (D.state disk.old).tells → TellsRead result (image_slots_in (D.state disk.old).shown dbd.now first given.now) }
    ensures keeps { Keeps (D.state disk.old) (D.state disk.new) }
    ensures until_stop { (D.state disk.new).until_stop ≡ (D.state disk.old).until_stop }
    ensures cause { LoadCause result (D.state disk.old) (D.state disk.new) }
{
    let Ok(mut images) = Vec::with_capacity(alloc, dbd.roots as usize) else {
        return Err(LoadFault::Memory);
    };
    let mut broken = None;
    let mut rest = given;
    let mut sector = Sector::blank();
    let mut spelled = RecordBytes::new();
    for number in 0..dbd.roots {
        let at = first + u32::from(number) * u32::from(dbd.sectors);
        let bytes = head_given(rest, number);
        let rows = match slot_rows(alloc, disk, dbd, at, bytes, &mut sector, &mut spelled) {
            Ok(rows) => rows,
            Err(fault) => return Err(fault),
        };
        rest = behind(rest, number);
        broken = first_broken(broken, &rows, at);
        images.push_reserved(or_none(alloc, rows));
    }
    Ok(SlotImages { images, broken })
}

// The rows of a slot: those that it is given, or else those of its sectors.
fn slot_rows<D: Disk>(
    alloc: Global,
    disk: &mut D,
    dbd: &Dbd,
    at: u32,
    given: Option<&[u8]>,
    sector: &mut Sector,
    spelled: &mut RecordBytes,
) -> Result<Option<RecordImage>, LoadFault>
    requires within { at + dbd.now.sectors ≤ (D.state disk.old).size }
    requires few { dbd.now.sectors ≤ 8 }
    requires given { IfSome (option_copied given) (λ bytes. IsTrue (is_image dbd.now bytes)) }
    ensures value { IsTrue (D.state disk.old).tells → TellsSlot result dbd.now (source_of (option_copied given.entry) (sectors_from (D.state disk.old).shown at dbd.now.sectors)) at }
    ensures slot { IfOk result (MaySlot dbd.now) }
    ensures keeps { Keeps (D.state disk.old) (D.state disk.new) }
    ensures until_stop { (D.state disk.new).until_stop ≡ (D.state disk.old).until_stop }
    ensures cause { LoadCause result (D.state disk.old) (D.state disk.new) }
{
    match given {
        Some(bytes) => slot_image(alloc, dbd, bytes),
        None => read_slot(alloc, disk, dbd, at, sector, spelled),
    }
}

// The rows of a slot's sectors. The bytes of one sector aren't copied.
fn read_slot<D: Disk>(
    alloc: Global,
    disk: &mut D,
    dbd: &Dbd,
    at: u32,
    sector: &mut Sector,
    spelled: &mut RecordBytes,
) -> Result<Option<RecordImage>, LoadFault>
    requires within { at + dbd.now.sectors ≤ (D.state disk.old).size }
    requires few { dbd.now.sectors ≤ 8 }
    ensures value { IsTrue (D.state disk.old).tells → TellsSlot result dbd.now (Spelled (sectors_from (D.state disk.old).shown at dbd.now.sectors)) at }
    ensures slot { IfOk result (MaySlot dbd.now) }
    ensures keeps { Keeps (D.state disk.old) (D.state disk.new) }
    ensures until_stop { (D.state disk.new).until_stop ≡ (D.state disk.old).until_stop }
    ensures cause { LoadCause result (D.state disk.old) (D.state disk.new) }
{
    if dbd.sectors == 1 {
        return read_one(alloc, disk, dbd, at, sector);
    }
    match read_sectors(disk, dbd.sectors, at, sector, spelled) {
        Ok(()) => slot_image(alloc, dbd, spelled.as_slice()),
        Err(fault) => Err(fault),
    }
}

// The rows of a slot that has one sector.
fn read_one<D: Disk>(
    alloc: Global,
    disk: &mut D,
    dbd: &Dbd,
    at: u32,
    sector: &mut Sector,
) -> Result<Option<RecordImage>, LoadFault>
    requires within { at < (D.state disk.old).size }
    requires one { dbd.now.sectors ≡ 1 }
    ensures value { IsTrue (D.state disk.old).tells → TellsSlot result dbd.now (Spelled (sectors_from (D.state disk.old).shown at dbd.now.sectors)) at }
    ensures slot { IfOk result (MaySlot dbd.now) }
    ensures keeps { Keeps (D.state disk.old) (D.state disk.new) }
    ensures until_stop { (D.state disk.new).until_stop ≡ (D.state disk.old).until_stop }
    ensures cause { LoadCause result (D.state disk.old) (D.state disk.new) }
{
    if disk.read(at, sector).is_err() {
        return Err(LoadFault::Disk);
    }
    let Some(bytes) = bytes_in(sector, true) else {
        return Err(LoadFault::Bad(20, at));
    };
    slot_image(alloc, dbd, bytes)
}

// Reads so many sectors, from one on, and has the bytes that they spell together. It ends at the first wrong one.
fn read_sectors<D: Disk>(
    disk: &mut D,
    sectors: u8,
    at: u32,
    sector: &mut Sector,
    spelled: &mut RecordBytes,
) -> Result<(), LoadFault>
    requires within { at + sectors ≤ (D.state disk.old).size }
    requires few { sectors ≤ 8 }
    ensures value { IsTrue (D.state disk.old).tells → TellsSectors result (sectors_from (D.state disk.old).shown at sectors) at spelled.new }
    ensures keeps { Keeps (D.state disk.old) (D.state disk.new) }
    ensures until_stop { (D.state disk.new).until_stop ≡ (D.state disk.old).until_stop }
    ensures cause { LoadCause result (D.state disk.old) (D.state disk.new) }
{
    spelled.clear();
    let mut full = true;
    for index in 0..sectors {
        let place = at + u32::from(index);
        if disk.read(place, sector).is_err() {
            return Err(LoadFault::Disk);
        }
        let Some(bytes) = bytes_in(sector, full) else {
            return Err(LoadFault::Bad(20, place));
        };
        full = are_full(full, bytes);
        spelled.push(bytes);
    }
    Ok(())
}

// Whether all sectors so far are full, with one more that has these bytes.
fn are_full(full: bool, bytes: &[u8]) -> bool
    ensures { result ≡ (full && (length bytes.now == 4000)) }
{
    full && bytes.len() == 4000
}

// The rows that a slot's bytes spell.
fn slot_image(alloc: Global, dbd: &Dbd, bytes: &[u8]) -> Result<Option<RecordImage>, LoadFault>
    ensures rows { IfOk result (λ rows. rows ≡ rows_of_bytes dbd.now bytes.now) }
    ensures slot { IfOk result (MaySlot dbd.now) }
    ensures memory { IfErr result (λ fault. fault ≡ memory) }
{
    let _types = dbd.types.as_slice();
    match image_of(alloc, dbd, bytes) {
        Ok(rows) => Ok(rows),
        Err(_) => Err(LoadFault::Memory),
    }
}

fn head_given(rest: &[(u16, Bytes)], number: u16) -> Option<&[u8]>
    ensures { option_copied result ≡ head_given number rest.now }
{
    match rest {
        [slot, ..] if slot.0 == number => Some(slot.1.as_slice()),
        _ => None,
    }
}

fn behind(rest: &[(u16, Bytes)], number: u16) -> &[(u16, Bytes)]
    ensures { result.now ≡ given_behind number rest.now }
{
    match rest {
        [slot, others @ ..] if slot.0 == number => others,
        _ => rest,
    }
}

fn first_broken(broken: Option<u32>, rows: &Option<RecordImage>, at: u32) -> Option<u32>
    ensures { result ≡ option_or broken (if is_some rows.now then None else Some at) }
{
    match broken {
        Some(place) => Some(place),
        None => if_none(rows, at),
    }
}

fn if_none(rows: &Option<RecordImage>, at: u32) -> Option<u32>
    ensures { result ≡ (if is_some rows.now then None else Some at) }
{
    match rows {
        Some(_) => None,
        None => Some(at),
    }
}

fn or_none(alloc: Global, rows: Option<RecordImage>) -> RecordImage
    ensures { result ≡ unwrap_or rows [] }
{
    match rows {
        Some(image) => image,
        None => RecordImage::new(alloc),
    }
}
