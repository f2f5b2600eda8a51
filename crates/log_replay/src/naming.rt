//! Slots that records name.
ghost use Rattle.std.specs.Prelude.{◌≡◌, ℕ, IfOk, OnOk, map};
ghost use Rattle.std.specs.BTreeSet.{contains};
ghost use Rattle.std.specs.List.Sorted.{IsStrictlySortedBy};
ghost use Rattle.std.specs.Map.{keys_of};
ghost use Rattle.std.specs.Ordering.{nat_cmp};
ghost use Rattle.image_records.specs.NamedSlots.{AreSlotsNamed};
ghost use Rattle.log_replay.specs.SlotBytes.{said_at, with_record_said, with_records_said, said_slot, place_cmp};

use crate::said::{Said, bytes_of, note_change};
use crate::synced::synced_units;
use image_records::NamedSlot;
use log_records::Record;
use std::alloc::Global;
use std::collections::{BTreeMap, BTreeSet};
use tm_types::Memory;

/// The slots that these changes of a snapshot or a record of the log behind it name, by database and slot.
pub fn named_slots(
    alloc: Global,
    changes: &[Record],
    log: &[Record],
) -> Result<Vec<NamedSlot>, Memory>
    ensures { IfOk result (λ slots. AreSlotsNamed changes.now log.now slots.items) }
{
    let units = synced_units(alloc, log)?;
    let mut said = BTreeMap::new(alloc);
    note_all(&units, &mut said, changes)?;
    note_all(&units, &mut said, log)?;
    slots_of(alloc, &said)
}

fn note_all(
    units: &BTreeSet<u64>,
    said: &mut BTreeMap<(u8, u16), Said>,
    records: &[Record],
) -> Result<(), Memory>
    ensures { OnOk result ((database slot : ℕ) → said_at database slot said.new.entries ≡ with_records_said (contains nat_cmp units.now) database slot records.now (said_at database slot said.old.entries)) }
{
    for record in records {
        note(units, said, record)?;
    }
    Ok(())
}

fn note(
    units: &BTreeSet<u64>,
    said: &mut BTreeMap<(u8, u16), Said>,
    r: &Record,
) -> Result<(), Memory>
    ensures { OnOk result ((database slot : ℕ) → said_at database slot said.new.entries ≡ with_record_said (contains nat_cmp units.now) database slot r.now (said_at database slot said.old.entries)) }
{
    match r {
        Record::Change {
            unit,
            database,
            slot,
            before,
            after,
        } => note_change(
            said,
            (*database, *slot),
            units.contains(unit),
            before,
            after,
        ),
        _ => Ok(()),
    }
}

fn slots_of(alloc: Global, said: &BTreeMap<(u8, u16), Said>) -> Result<Vec<NamedSlot>, Memory>
    ensures value { IfOk result (λ slots. slots.items ≡ map said_slot said.now.entries) }
    ensures ordered { IsStrictlySortedBy place_cmp (keys_of said.now.entries) }
{
    let _count = said.len();
    let mut slots = Vec::new(alloc);
    for (place, told) in said {
        slots.push(slot_of(place, told)?)?;
    }
    Ok(slots)
}

fn slot_of(place: &(u8, u16), said: &Said) -> Result<NamedSlot, Memory>
    ensures { IfOk result (λ slot. slot ≡ said_slot (place.now, said.now)) }
{
    Ok(NamedSlot {
        database: place.0,
        slot: place.1,
        bytes: bytes_of(said)?,
    })
}
