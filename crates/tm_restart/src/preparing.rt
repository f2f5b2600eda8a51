//! What is made of an image that was found, before anything is written.
ghost use Rattle.std.specs.Prelude.{◌≡◌, ◌+◌, ◌-◌, ◌<◌, ◌≤◌, [], length, map, IfOk};
ghost use Rattle.std.specs.List.{AllByRecursion};
ghost use Rattle.tm_disk.specs.Disk.{Image};
ghost use Rattle.model_machine.specs.Machine.{LastingState as OneState};
ghost use Rattle.image_records.specs.KeptState.{kept_of};
ghost use Rattle.seg_store.specs.Slots.{rows_of_slots};
ghost use Rattle.seg_store.specs.ChangedSlots.{all_stores, stored};
ghost use Rattle.seg_store.specs.Stores.{no_changed};
ghost use Rattle.checkpointing.specs.SnapshotRecords.{snapshot_records};
ghost use Rattle.checkpointing.specs.SpelledRecords.{AddsSpelled, IsWritable};
ghost use Rattle.checkpointing.specs.Touches.{HasFewSectors};
ghost use Rattle.openings.specs.OpeningParts.{AreOpeningParts};
ghost use Rattle.openings.specs.OpeningState.{shown_state};
ghost use Rattle.tm_restart.specs.FoundImage.{IsFoundJudged, IsSeen};
ghost use Rattle.tm_restart.specs.PreparedLife.{state_in, sector_behind, IsPrepared, IsMadeOf};

use crate::Found;
use crate::databases::Named;
use crate::looking::Looked;
use crate::replaying::Reread;
use checkpointing::{SnapshotView, write};
use image_loading::{Loaded, Slots};
use image_records::{Kept, Replayed};
use model_machine::Lasting;
use openings::{Parts, lasting_of, parts_of, rows_of};
use restart_data::RestartSector;
use seg_store::Store;
use std::alloc::Global;
use system_types::System;
use tm_types::Memory;

// The tables of a life, and what lasts by them.
#[derive(Drop)]
struct Tabled {
    parts: Parts,
    lasting: Lasting,
}

// Those of a life that begins with what is kept and with these stores.
fn tables(
    alloc: Global,
    system: &System,
    kept: Kept,
    stores: Vec<Store>,
    restart: RestartSector,
    next_unit: u64,
) -> Result<Tabled, Memory>
    requires databases { map (λ store. store.dbd) stores.items ≡ system.now.databases }
    requires unchanged { map (λ store. store.changed) stores.items ≡ no_changed system.now.databases }
    ensures are { IfOk result (λ made. (lasting : OneState) → kept ≡ kept_of system.now lasting → AreOpeningParts system.now (record lasting { rows = map (λ store. rows_of_slots store.slots) (map stored stores.items) }) made.parts) }
    ensures stores { IfOk result (λ made. made.parts.stores ≡ all_stores stores.items) }
    ensures next_unit { IfOk result (λ made. made.parts.next_unit ≡ next_unit) }
    ensures lasting { IfOk result (λ made. made.lasting ≡ shown_state kept (map (λ store. rows_of_slots store.slots) stores.items)) }
{
    let rows = rows_of(alloc, &stores)?;
    let lasting = lasting_of(alloc, &kept, rows)?;
    let parts = parts_of(alloc, system, kept, stores, restart, next_unit)?;
    Ok(Tabled { parts, lasting })
}

// The bytes of the snapshot of these tables.
fn snapshot_bytes(alloc: Global, parts: &Parts, checkpoint: u64) -> Result<Vec<u8>, Memory>
    requires state { IsWritable (state_in parts.now) }
    requires few_sectors { AllByRecursion HasFewSectors parts.now.stores.stores }
    ensures { IfOk result (λ bytes. AddsSpelled (snapshot_records checkpoint parts.entry.now.next_unit (state_in parts.entry.now) []) [] bytes.items) }
{
    let view = SnapshotView {
        checkpoint,
        next_unit: parts.next_unit,
        next_id: parts.next_id,
        steps: parts.steps,
        terminals: &parts.terminals,
        outputs: &parts.outputs,
        conversations: &parts.conversations,
        codes: parts.codes.states(),
        queues: &parts.queues,
        units: &[],
        stores: &parts.stores,
    };
    write(alloc, &view)
}

// The other of two areas.
fn other_area(area: u8) -> u8
    requires { area ≤ 1 }
    ensures { result ≡ 1 - area }
{
    1 - area
}

// The restart sector of the next life, whose log begins with this sequence, for a snapshot and a text of so many bytes.
fn next_sector(restart: &RestartSector, sequence: u64, bytes: usize, text: u32) -> RestartSector
    requires snapshot { restart.now.snapshot ≤ 1 }
    requires log { restart.now.log ≤ 1 }
    requires epoch { restart.now.epoch < 1000000000000000000 }
    requires checkpoint { restart.now.checkpoint < 1000000000000000000 }
    requires few { bytes ≤ 266338304 }
    ensures { result ≡ sector_behind restart.now sequence bytes text }
{
    RestartSector {
        epoch: restart.epoch + 1,
        snapshot: other_area(restart.snapshot),
        log: other_area(restart.log),
        sectors: bytes.div_ceil(4064) as u32,
        sequence,
        checkpoint: restart.checkpoint + 1,
        text,
    }
}

/// What a life begins with that opens an image, the slots that are to be written, the new snapshot, and its restart sector,
/// which the parts have too.
#[derive(Drop)]
pub(crate) struct Prepared {
    pub parts: Parts,
    pub lasting: Lasting,
    pub given: Vec<Slots>,
    pub bytes: Vec<u8>,
    pub now: RestartSector,
}

// The restart sector of the next life, for this snapshot and this text.
fn sector_for(restart: &RestartSector, sequence: u64, bytes: &[u8], text: &[u8]) -> RestartSector
    requires snapshot { restart.now.snapshot ≤ 1 }
    requires log { restart.now.log ≤ 1 }
    requires epoch { restart.now.epoch < 1000000000000000000 }
    requires checkpoint { restart.now.checkpoint < 1000000000000000000 }
    requires few { length bytes.now ≤ 266338304 }
    requires text { length text.now ≤ 262144 }
    ensures { result ≡ sector_behind restart.now sequence (length bytes.now) (length text.now) }
{
    next_sector(restart, sequence, bytes.len(), text.len() as u32)
}

// The number behind one that isn't spent.
fn behind(number: u64) -> u64
    requires { number + 1 ≤ 1000000000000000000 }
    ensures { result ≡ number + 1 }
{
    number + 1
}

// The next unit, behind the last.
fn next_unit(replayed: &Replayed) -> u64
    requires { replayed.now.last_unit + 1 ≤ 1000000000000000000 }
    ensures { result ≡ replayed.now.last_unit + 1 }
{
    behind(replayed.last_unit)
}

fn kept_in(replayed: Replayed) -> Kept
    ensures { result ≡ replayed.kept }
{
    replayed.kept
}

fn stores_in(loaded: Loaded) -> Vec<Store>
    ensures { result.items ≡ loaded.stores }
{
    loaded.stores
}

// The parts with this restart sector.
fn with_sector(parts: Parts, now: RestartSector) -> Parts
    ensures { result ≡ record parts { now = now } }
{
    Parts { now, ..parts }
}

/// All that a life begins with that opens this image. `Memory` is the only refusal.
pub(crate) fn prepare(
    alloc: Global,
    system: &System,
    text: &[u8],
    found: Found,
) -> Result<Prepared, Memory>
    requires text { length text.now ≤ 262144 }
    requires judged { IsFoundJudged system.now text.now found }
    ensures prepared { IfOk result (λ made. IsPrepared system.now text.now made.given.items made.parts made.lasting made.bytes.items made.now) }
    ensures made_of { IfOk result (λ made. (image : Image) → IsSeen system.now text.now image found → IsMadeOf system.now text.now made.given.items made.parts made.lasting made.now image) }
{
    let _terminals = system.terminals();
    let Found { restart, looked } = found;
    let Looked { reread, named } = looked;
    let Reread {
        replayed,
        next_sequence,
        ..
    } = reread;
    let Named { given, loaded } = named;
    let unit = next_unit(&replayed);
    let checkpoint = behind(restart.checkpoint);
    let kept = kept_in(replayed);
    let stores = stores_in(loaded);
    let tabled = tables(alloc, system, kept, stores, restart, unit)?;
    let Tabled { parts, lasting } = tabled;
    let bytes = snapshot_bytes(alloc, &parts, checkpoint)?;
    let now = sector_for(&restart, next_sequence, &bytes, text);
    Ok(Prepared {
        parts: with_sector(parts, now),
        lasting,
        given,
        bytes,
        now,
    })
}
