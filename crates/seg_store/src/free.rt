//! The free slots: their numbers, from the lowest on.
ghost use Rattle.std.specs.Prelude.{◌≡◌, ◌≤◌, ◌<◌, IfOk, slice_get, length};
ghost use Rattle.std.specs.List.{insert, remove};
ghost use Rattle.std.specs.List.Sorted.{IsStrictlySortedBy};
ghost use Rattle.std.specs.Ordering.{nat_cmp};
ghost use Rattle.std.specs.Option.{option_copied};
ghost use Rattle.std.specs.Vec.{vec_capacity};
ghost use Rattle.seg_store.specs.Slots.{free_slots};
ghost use Rattle.seg_store.specs.Store.{free_numbers, count_below};

use std::alloc::Global;
use tm_types::Memory;

/// All slots, with room for as many.
pub fn all_free(alloc: Global, roots: u16) -> Result<Vec<u16>, Memory>
    ensures items { IfOk result (λ free. free.items ≡ free_numbers 0 (free_slots roots)) }
    ensures room { IfOk result (λ free. roots ≤ vec_capacity free) }
{
    let mut free = Vec::with_capacity(alloc, roots as usize)?;
    for slot in 0..roots {
        free.push_reserved(slot);
    }
    Ok(free)
}

/// The lowest free slot.
pub fn lowest(free: &[u16]) -> Option<u16>
    ensures { result ≡ slice_get free.now 0 }
{
    free.first().copied()
}

/// Takes a free slot out.
pub fn take_slot(free: &mut Vec<u16>, slot: u16)
    requires ascending { IsStrictlySortedBy nat_cmp free.old.items }
    requires there { count_below slot free.old.items < length free.old.items }
    ensures items { free.new.items ≡ remove free.old.items (count_below slot free.old.items) }
    ensures room { vec_capacity free.old ≤ vec_capacity free.new }
{
    free.remove(place_among(free, slot));
}

/// Adds a slot that has become free, where there is room. This takes no memory.
pub fn add_slot(free: &mut Vec<u16>, slot: u16)
    requires ascending { IsStrictlySortedBy nat_cmp free.old.items }
    requires room { length free.old.items < vec_capacity free.old }
    ensures items { free.new.items ≡ insert free.old.items (count_below slot free.old.items) slot }
    ensures room { vec_capacity free.old ≤ vec_capacity free.new }
{
    match free.insert(place_among(free, slot), slot) {
        Ok(()) => {}
        Err(_) => unreachable!(),
    }
}

/// How many of these rising numbers are lower.
pub fn place_among(free: &[u16], slot: u16) -> usize
    requires { IsStrictlySortedBy nat_cmp free.now }
    ensures { result ≡ count_below slot free.now }
{
    let mut low = 0;
    let mut high = free.len();
    while low < high {
        let middle = low + (high - low) / 2;
        if free[middle] < slot {
            low = middle + 1;
        } else {
            high = middle;
        }
    }
    low
}
