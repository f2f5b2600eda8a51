//! A changed record and a touched slot, and how they are kept.
ghost use Rattle.std.specs.Prelude.{◌≡◌, ◌<◌, true, [], IfOk, OnOk, OnErr, if◌then◌else◌, slice_get, IfSome, not, ◌&&◌};
ghost use Rattle.std.specs.Option.{option_copied};
ghost use Rattle.std.specs.List.{prefix_len};
ghost use Rattle.std.specs.Vec.{vec_len, vec_capacity};
ghost use Rattle.unit_work.specs.Changes.{is_change_of_record, is_record_changed, is_slot_before, is_slot, is_seen, has_place, with_change, with_slot};
ghost use Rattle.unit_work.specs.ReadyTouch.{image_to_come, with_image};

use seg_rows::RecordImage;
use std::alloc::Global;
use tm_types::{Key, Memory};

/// A record or a slot that a unit changed: its database and slot, a root, and the image that was
/// there before, which has no rows where there was none.
#[derive(Debug, Drop)]
pub struct Change {
    /// The number of the database, counted from 1.
    pub db: u8,
    pub slot: u16,
    pub root: Key,
    pub before: RecordImage,
}

/// A slot that a unit touched, as it is lent.
#[derive(Debug, Drop)]
pub struct UnitSlot<'a> {
    /// The number of the database, counted from 1.
    pub db: u8,
    pub slot: u16,
    /// The root last touched in the slot.
    pub root: Key,
    /// The image in the slot before the unit, which has no rows where the slot was free.
    pub before: &'a RecordImage,
}

/// What a touch keeps of its record and of its slot: the image, or no rows where there is one already.
#[derive(Debug, Drop)]
pub struct Touch {
    pub record: Change,
    pub slot: Change,
    /// Whether the slot's image is still to come, which is that of the record.
    pub moves: bool,
}

/// Keeps a change among those of records and of slots; at an Err both stay.
pub fn keep(
    alloc: Global,
    records: &mut Vec<Change>,
    slots: &mut Vec<Change>,
    db: u8,
    slot: u16,
    root: Key,
    before: RecordImage,
) -> Result<(), Memory>
    ensures place { OnOk result (has_place db slot slots.old.items ≡ true) }
    ensures records { OnOk result (records.new.items ≡ with_change (record { db = db; slot = slot; root = root; before = before }) records.old.items) }
    ensures slots { OnOk result (slots.new.items ≡ with_slot (record { db = db; slot = slot; root = root; before = before }) slots.old.items) }
    ensures records_stay { OnErr result (records.new.items ≡ records.old.items) }
    ensures slots_stay { OnErr result (slots.new.items ≡ slots.old.items) }
{
    let touch = ready(alloc, records, slots, db, slot, root, &before)?;
    add_touch(records, slots, touch, before);
    Ok(())
}

/// Makes room for one change more of each kind, and what is kept of it. All changes stay. There is none for a 65th slot. The image is copied
/// once: where the record and the slot both take it, that of the slot is to come.
pub fn ready(
    alloc: Global,
    records: &mut Vec<Change>,
    slots: &mut Vec<Change>,
    db: u8,
    slot: u16,
    root: Key,
    before: &RecordImage,
) -> Result<Touch, Memory>
    ensures records_stay { records.new.items ≡ records.old.items }
    ensures slots_stay { slots.new.items ≡ slots.old.items }
    ensures record_room { OnOk result (vec_len records.new < vec_capacity records.new) }
    ensures slot_room { OnOk result (vec_len slots.new < vec_capacity slots.new) }
    ensures place { OnOk result (has_place db slot slots.old.items ≡ true) }
    ensures record { IfOk result (λ t. with_change t.record records.old.items ≡ with_change (record { db = db; slot = slot; root = root; before = before.now }) records.old.items) }
    ensures slot { IfOk result (λ t. with_slot (with_image t.moves t.record.before t.slot) slots.old.items ≡ with_slot (record { db = db; slot = slot; root = root; before = before.now }) slots.old.items) }
    ensures image { IfOk result (λ t. IfSome (image_to_come t.moves t.record) (λ image. image ≡ before.now)) }
{
    if !has_place(slots, db, slot) {
        return Err(Memory);
    }
    let known = is_changed(records, db, &root);
    let seen = is_seen(slots, db, slot);
    let first = image_unless(alloc, known, before)?;
    let touched = image_unless(alloc, !known, before)?;
    records.reserve(1)?;
    slots.reserve(1)?;
    let record = Change {
        db,
        slot,
        root,
        before: first,
    };
    let slot = Change {
        db,
        slot,
        root,
        before: touched,
    };
    Ok(Touch {
        record,
        slot,
        moves: are_both_new(known, seen),
    })
}

// Whether both the record and the slot take the image.
fn are_both_new(known: bool, seen: bool) -> bool
    ensures { result ≡ (not known && not seen) }
{
    !known && !seen
}

/// Keeps what was made ready, with the image that is to come.
pub fn add_touch(
    records: &mut Vec<Change>,
    slots: &mut Vec<Change>,
    touch: Touch,
    before: RecordImage,
)
    requires record_room { vec_len records.old < vec_capacity records.old }
    requires slot_room { vec_len slots.old < vec_capacity slots.old }
    requires image { IfSome (image_to_come touch.moves touch.record) (λ image. image ≡ before) }
    ensures records { records.new.items ≡ with_change touch.record records.old.items }
    ensures slots { slots.new.items ≡ with_slot (with_image touch.moves touch.record.before touch.slot) slots.old.items }
{
    let Touch {
        record,
        slot,
        moves,
    } = touch;
    add_change(records, record);
    add_slot(slots, with_image(moves, before, slot));
}

// What is kept of the slot, with this image where it was to come.
fn with_image(moves: bool, image: RecordImage, slot: Change) -> Change
    ensures { result ≡ with_image moves image slot }
{
    if moves {
        Change {
            db: slot.db,
            slot: slot.slot,
            root: slot.root,
            before: image,
        }
    } else {
        slot
    }
}

/// Whether a touched slot more has a place, or is there already.
fn has_place(slots: &[Change], db: u8, slot: u16) -> bool
    ensures { result ≡ has_place db slot slots.now }
{
    is_seen(slots, db, slot) || slots.len() < 64
}

/// Whether the record of this root is among the changes.
pub fn is_changed(records: &[Change], db: u8, root: &Key) -> bool
    ensures { result ≡ is_record_changed db root.now records.now }
{
    records.iter().any(|change| is_of(change, db, root))
}

fn is_of(change: &Change, db: u8, root: &Key) -> bool
    ensures { result ≡ is_change_of_record db root.now change.now }
{
    change.db == db && change.root.cmp(root).is_eq()
}

fn is_before(change: &Change, db: u8, slot: u16) -> bool
    ensures { result ≡ is_slot_before db slot change.now }
{
    change.db < db || (change.db == db && change.slot < slot)
}

fn is_slot(change: &Change, db: u8, slot: u16) -> bool
    ensures { result ≡ is_slot db slot change.now }
{
    change.db == db && change.slot == slot
}

// A copy of the image, or no rows where there is one already.
fn image_unless(alloc: Global, known: bool, before: &RecordImage) -> Result<RecordImage, Memory>
    ensures { IfOk result (λ image. image ≡ (if known then [] else before.now)) }
{
    if known {
        return Ok(RecordImage::new(alloc));
    }
    before.clone()
}

// How many slots go before this one.
fn place_among(slots: &[Change], db: u8, slot: u16) -> usize
    ensures { result ≡ prefix_len (is_slot_before db slot) slots.now }
{
    for (i, change) in slots.iter().enumerate() {
        if !is_before(change, db, slot) {
            return i;
        }
    }
    slots.len()
}

fn is_seen(slots: &[Change], db: u8, slot: u16) -> bool
    ensures { result ≡ is_seen db slot slots.now }
{
    match change_at(slots, place_among(slots, db, slot)) {
        Some(change) => is_slot(change, db, slot),
        None => false,
    }
}

fn change_at(slots: &[Change], place: usize) -> Option<&Change>
    ensures { option_copied result ≡ slice_get slots.now place }
{
    slots.get(place)
}

/// Adds a change of a record, where it isn't changed already.
pub fn add_change(records: &mut Vec<Change>, change: Change)
    requires { vec_len records.old < vec_capacity records.old }
    ensures { records.new.items ≡ with_change change records.old.items }
{
    if !is_changed(records, change.db, &change.root) {
        records.push_reserved(change);
    }
}

/// Adds a touched slot in its place, or sets its root.
pub fn add_slot(slots: &mut Vec<Change>, change: Change)
    requires { vec_len slots.old < vec_capacity slots.old }
    ensures { slots.new.items ≡ with_slot change slots.old.items }
{
    let place = place_among(slots, change.db, change.slot);
    if is_seen(slots, change.db, change.slot) {
        set_root(&mut slots[place], change.root);
    } else {
        match slots.insert(place, change) {
            Ok(()) => {}
            Err(_) => unreachable!(),
        }
    }
}

fn set_root(change: &mut Change, root: Key)
    ensures { change.new ≡ record change.old { root = root } }
{
    change.root = root;
}
