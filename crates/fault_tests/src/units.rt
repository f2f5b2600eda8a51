//! `unit_work`: what a unit keeps of touched slots.

use crate::databases::accounts;
use seg_rows::{RecordImage, decode_record};
use std::alloc::Global;
use std::test::Fail;
use tm_types::Key;
use unit_work::Unit;

fn key(bytes: &[u8]) -> Result<Key, Fail> {
    Ok(Key::read(bytes).ok_or("no key")?)
}

// What is lent of a slot: its database, number and root, and how many rows it had.
fn summary(unit: &Unit, place: u32) -> Option<(u8, u16, Key, usize)> {
    match unit.slot(place) {
        Some(slot) => Some((slot.db, slot.slot, slot.root, slot.before.len())),
        None => None,
    }
}

// Slots come by database and number, with the last root and the first image.
#[test]
fn touched_slots(rt: HostRuntime) -> Result<(), Fail> {
    let alloc = rt.alloc();
    let dbd = accounts(alloc, 3)?;
    let none = RecordImage::new(alloc);
    let one = decode_record(alloc, &dbd, b"\x01000100001000")?;
    let two = decode_record(alloc, &dbd, b"\x01000100001000\x020001 OPENING")?;
    let (first, other) = (key(b"0001")?, key(b"0002")?);
    let mut unit = Unit::new(alloc);
    assert_eq!(rt; unit.changes(), 0);
    assert!(rt; unit.slot(0).is_none());
    unit.touch(2, first, 4, two)?;
    unit.touch(2, first, 4, one.clone()?)?;
    unit.touch(1, other, 7, one)?;
    unit.touch(2, other, 4, none.clone()?)?;
    unit.touch(2, first, 3, none)?;
    assert_eq!(rt; unit.changes(), 3);
    assert_eq!(rt; summary(&unit, 0), Some((1, 7, other, 1)));
    assert_eq!(rt; summary(&unit, 1), Some((2, 3, first, 0)));
    assert_eq!(rt; summary(&unit, 2), Some((2, 4, other, 2)));
    assert!(rt; unit.slot(3).is_none());
    Ok(())
}
