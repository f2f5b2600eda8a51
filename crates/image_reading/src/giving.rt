//! Slots by database.
ghost use Rattle.std.specs.Prelude.{◌≡◌, ◌<◌, ◌++◌, ◌∷◌, [], IfOk, OnOk};
ghost use Rattle.std.specs.List.{AllByRecursion};
ghost use Rattle.image_records.specs.NamedSlots.{NamedSlotsAscend};
ghost use Rattle.image_reading.specs.NamedBytes.{of_database, AreNamedBytes};

use image_loading::Slots;
use image_records::NamedSlot;
use std::alloc::Global;
use tm_types::Memory;

// Adds a slot, if it is one of this database.
fn add(slots: &mut Slots, database: u8, slot: &NamedSlot) -> Result<(), Memory>
    requires { slot.now.database ≡ database → AllByRecursion (λ s. s.0 < slot.now.slot) slots.old }
    ensures { OnOk result (slots.new ≡ slots.old ++ of_database database (slot.now ∷ [])) }
{
    if slot.database != database {
        return Ok(());
    }
    let bytes = slot.bytes.clone()?;
    slots.push(slot.slot, bytes)
}

// The slots of this database.
fn slots_of(alloc: Global, database: u8, named: &[NamedSlot]) -> Result<Slots, Memory>
    requires { NamedSlotsAscend named.now }
    ensures { IfOk result (λ slots. slots ≡ of_database database named.now) }
{
    let mut slots = Slots::new(alloc);
    for slot in named {
        if add(&mut slots, database, slot).is_err() {
            return Err(Memory);
        }
    }
    Ok(slots)
}

/// The slots of each of so many databases, in their order, with the bytes that the list has for them.
pub fn given_of(alloc: Global, count: u8, named: &[NamedSlot]) -> Result<Vec<Slots>, Memory>
    requires few { count < 255 }
    requires ascending { NamedSlotsAscend named.now }
    ensures { IfOk result (λ given. AreNamedBytes count named.now given.items) }
{
    let mut given = Vec::new(alloc);
    for place in 0..count {
        let slots = slots_of(alloc, place + 1, named)?;
        given.push(slots)?;
    }
    Ok(given)
}
