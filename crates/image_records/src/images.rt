//! The changes of a snapshot and their images.
ghost use Rattle.std.specs.Prelude.{◌≡◌, false, not, IfOk, None};
ghost use Rattle.std.specs.Option.{option_copied};
ghost use Rattle.std.specs.List.{list_all};
ghost use Rattle.model_image.specs.Slots.{are_images, dbd_at, is_image, is_image_of};

use image_loading::image_of;
use log_records::Record;
use std::alloc::Global;
use system_types::System;
use tm_types::{Dbd, Memory};

/// Whether each of these records is no change, or one of a slot that is there, both of whose images spell a record or none.
pub fn are_images_of(alloc: Global, system: &System, records: &[Record]) -> Result<bool, Memory>
    ensures { IfOk result (λ are. are ≡ list_all (is_image_of system.now) records.now) }
{
    for record in records {
        if !is_image_of(alloc, system, record)? {
            return Ok(false);
        }
    }
    Ok(true)
}

/// Whether the record is no change, or one of a slot that is there, both of whose images spell a record or none.
pub fn is_image_of(alloc: Global, system: &System, r: &Record) -> Result<bool, Memory>
    ensures { IfOk result (λ is. is ≡ is_image_of system.now r.now) }
{
    match r {
        Record::Change {
            database,
            slot,
            before,
            after,
            ..
        } => are_images(
            alloc,
            dbd_at(system, *database),
            *slot,
            before.as_slice(),
            after.as_slice(),
        ),
        _ => Ok(true),
    }
}

/// The database of this number, counted from 1.
fn dbd_at(system: &System, database: u8) -> Option<&Dbd>
    ensures { option_copied result ≡ dbd_at system.now database }
{
    if database == 0 {
        return None;
    }
    system.databases().get(database as usize - 1)
}

fn are_images(
    alloc: Global,
    dbd: Option<&Dbd>,
    slot: u16,
    before: &[u8],
    after: &[u8],
) -> Result<bool, Memory>
    ensures { IfOk result (λ are. are ≡ are_images slot before.now after.now (option_copied dbd.entry)) }
{
    let Some(dbd) = dbd else {
        return Ok(false);
    };
    if slot >= dbd.roots || !is_image(alloc, dbd, before)? {
        return Ok(false);
    }
    is_image(alloc, dbd, after)
}

fn is_image(alloc: Global, dbd: &Dbd, bytes: &[u8]) -> Result<bool, Memory>
    ensures { IfOk result (λ is. is ≡ is_image dbd.now bytes.now) }
{
    Ok(image_of(alloc, dbd, bytes)?.is_some())
}
