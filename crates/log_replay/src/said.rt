//! What is said of a slot.
ghost use Rattle.std.specs.Prelude.{◌≡◌, ℕ, ◌==◌, ◌&&◌, Some, None, IfOk, OnOk, if◌then◌else◌};
ghost use Rattle.std.specs.Ordering.{nat_cmp};
ghost use Rattle.log_replay.specs.SlotBytes.{said_at, with_change_said, said_bytes};

use std::alloc::Global;
use std::collections::BTreeMap;
use tm_types::{Bytes, Memory};

/// What changes say of a slot: what stood there before the first, and what the last left that counts.
#[derive(Debug, Drop)]
pub struct Said {
    pub first: Bytes,
    pub last: Option<Bytes>,
}

/// The bytes of the slot.
pub fn bytes_of(said: &Said) -> Result<Bytes, Memory>
    ensures { IfOk result (λ bytes. bytes ≡ said_bytes said.now) }
{
    match &said.last {
        Some(bytes) => bytes.clone(),
        None => said.first.clone(),
    }
}

/// One change more, which counts or doesn't.
pub fn note_change(
    said: &mut BTreeMap<(u8, u16), Said>,
    place: (u8, u16),
    counts: bool,
    before: &Bytes,
    after: &Bytes,
) -> Result<(), Memory>
    ensures { OnOk result ((database slot : ℕ) → said_at database slot said.new.entries ≡ (if (place.0 == database) && (place.1 == slot) then Some (with_change_said counts before.now after.now (said_at database slot said.old.entries)) else said_at database slot said.old.entries)) }
{
    match said.get_mut(&place) {
        Some(slot) => add(slot, counts, after),
        None => begin(said, place, counts, before, after),
    }
}

fn add(said: &mut Said, counts: bool, after: &Bytes) -> Result<(), Memory>
    ensures { OnOk result (said.new ≡ with_change_said counts after.now after.now (Some said.old)) }
{
    if counts {
        said.last = Some(after.clone()?);
    }
    Ok(())
}

fn begin(
    said: &mut BTreeMap<(u8, u16), Said>,
    place: (u8, u16),
    counts: bool,
    before: &Bytes,
    after: &Bytes,
) -> Result<(), Memory>
    requires { said_at place.0 place.1 said.old.entries ≡ None }
    ensures { OnOk result ((database slot : ℕ) → said_at database slot said.new.entries ≡ (if (place.0 == database) && (place.1 == slot) then Some (with_change_said counts before.now after.now (said_at database slot said.old.entries)) else said_at database slot said.old.entries)) }
{
    let first = first_said(counts, before, after)?;
    match said.insert(place, first) {
        Ok(_) => Ok(()),
        Err(_) => Err(Memory),
    }
}

fn first_said(counts: bool, before: &Bytes, after: &Bytes) -> Result<Said, Memory>
    ensures { IfOk result (λ said. said ≡ with_change_said counts before.now after.now None) }
{
    let first = before.clone()?;
    if counts {
        return Ok(Said {
            first,
            last: Some(after.clone()?),
        });
    }
    Ok(Said { first, last: None })
}
