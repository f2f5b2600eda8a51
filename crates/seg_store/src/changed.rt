//! The numbers of the slots that were changed, rising.
ghost use Rattle.std.specs.Prelude.{◌≡◌, ◌≤◌, ◌↔◌, length, slice_get, Some, IsTrue};
ghost use Rattle.std.specs.List.Sorted.{IsStrictlySortedBy};
ghost use Rattle.std.specs.Ordering.{nat_cmp};
ghost use Rattle.std.specs.Vec.{vec_capacity};
ghost use Rattle.seg_store.specs.ChangedSlots.{with_number};
ghost use Rattle.seg_store.specs.OneSlot.{without_number};

use crate::free::place_among;

/// Adds a slot, where it isn't there and there is room. This takes no memory.
pub fn add_changed(changed: &mut Vec<u16>, slot: u16)
    requires ascending { IsStrictlySortedBy nat_cmp changed.old.items }
    requires room { length (with_number slot changed.old.items) ≤ vec_capacity changed.old }
    ensures items { changed.new.items ≡ with_number slot changed.old.items }
    ensures room { vec_capacity changed.old ≤ vec_capacity changed.new }
{
    let place = place_among(changed, slot);
    if is_at(changed, place, slot) {
        return;
    }
    match changed.insert(place, slot) {
        Ok(()) => {}
        Err(_) => unreachable!(),
    }
}

/// Takes a slot out, where it is there.
pub fn take_changed(changed: &mut Vec<u16>, slot: u16)
    requires ascending { IsStrictlySortedBy nat_cmp changed.old.items }
    ensures items { changed.new.items ≡ without_number slot changed.old.items }
    ensures room { vec_capacity changed.old ≤ vec_capacity changed.new }
{
    let place = place_among(changed, slot);
    if is_at(changed, place, slot) {
        changed.remove(place);
    }
}

fn is_at(changed: &[u16], place: usize, slot: u16) -> bool
    ensures { IsTrue result ↔ (slice_get changed.now place ≡ Some slot) }
{
    match changed.get(place) {
        Some(other) => *other == slot,
        None => false,
    }
}
