//! An index of roots: pairs of a root and its slot, by roots.
ghost use Rattle.std.specs.Prelude.{◌≡◌, ◌≤◌, ◌<◌, length, None, Some, ℕ, slice_get};
ghost use Rattle.std.specs.List.{prefix_len};
ghost use Rattle.std.specs.List.Sorted.{IsStrictlySortedBy};
ghost use Rattle.std.specs.Ordering.{is_lt};
ghost use Rattle.std.specs.Option.{option_copied};
ghost use Rattle.std.specs.BTreeMap.{is_at, insert_entry};
ghost use Rattle.std.specs.Map.{keys_of, lookup, remove_entry};
ghost use Rattle.std.specs.Vec.{vec_capacity};
ghost use Rattle.model_data.specs.Path.{key_cmp};
ghost use Rattle.seg_store.specs.Store.{next_entry};

use tm_types::Key;

/// How many entries have lower roots; the place of this root.
pub fn place_among(index: &[(Key, u16)], root: &Key) -> usize
    requires { IsStrictlySortedBy key_cmp (keys_of index.now) }
    ensures { result ≡ prefix_len (λ entry. is_lt (key_cmp entry.0 root.now)) index.now }
{
    let mut low = 0;
    let mut high = index.len();
    while low < high {
        let middle = low + (high - low) / 2;
        if index[middle].0.cmp(root).is_lt() {
            low = middle + 1;
        } else {
            high = middle;
        }
    }
    low
}

/// The slot of this root, if it is there.
pub fn slot_of(index: &[(Key, u16)], root: &Key) -> Option<u16>
    requires { IsStrictlySortedBy key_cmp (keys_of index.now) }
    ensures { result ≡ lookup (is_at (key_cmp root.now)) index.now }
{
    let Some(entry) = entry_at(index, place_among(index, root)) else {
        return None;
    };
    if entry.0.cmp(root).is_eq() {
        Some(entry.1)
    } else {
        None
    }
}

fn entry_at(index: &[(Key, u16)], place: usize) -> Option<&(Key, u16)>
    ensures { option_copied result ≡ slice_get index.now place }
{
    index.get(place)
}

/// The first entry after this root, or of all.
pub fn next_entry<'a>(index: &'a [(Key, u16)], after: Option<&Key>) -> Option<&'a (Key, u16)>
    requires { IsStrictlySortedBy key_cmp (keys_of index.now) }
    ensures { option_copied result ≡ next_entry index.now (option_copied after.entry) }
{
    match after {
        None => entry_at(index, 0),
        Some(root) => entry_after(index, root),
    }
}

fn entry_after<'a>(index: &'a [(Key, u16)], root: &Key) -> Option<&'a (Key, u16)>
    requires { IsStrictlySortedBy key_cmp (keys_of index.now) }
    ensures { option_copied result ≡ next_entry index.now (Some root.now) }
{
    let place = place_among(index, root);
    let _count = index.len();
    let Some(entry) = entry_at(index, place) else {
        return None;
    };
    if entry.0.cmp(root).is_eq() {
        entry_at(index, place + 1)
    } else {
        Some(entry)
    }
}

/// Adds a root where there is room. This takes no memory.
pub fn add_root(index: &mut Vec<(Key, u16)>, root: &Key, slot: u16)
    requires ascending { IsStrictlySortedBy key_cmp (keys_of index.old.items) }
    requires room { length index.old.items < vec_capacity index.old }
    requires none { lookup (is_at (key_cmp root.now)) index.old.items ≡ None }
    ensures items { index.new.items ≡ insert_entry key_cmp index.old.items root.now slot }
    ensures room { vec_capacity index.old ≤ vec_capacity index.new }
{
    let place = place_among(index, root);
    match index.insert(place, (*root, slot)) {
        Ok(()) => {}
        Err(_) => unreachable!(),
    }
}

/// Takes a root out and answers its slot, if it is there.
pub fn take_root(index: &mut Vec<(Key, u16)>, root: &Key) -> Option<u16>
    requires { IsStrictlySortedBy key_cmp (keys_of index.old.items) }
    ensures value { result ≡ lookup (is_at (key_cmp root.now)) index.old.items }
    ensures items { index.new.items ≡ remove_entry (is_at (key_cmp root.now)) index.old.items }
    ensures room { vec_capacity index.old ≤ vec_capacity index.new }
{
    let slot = slot_of(index, root)?;
    index.remove(place_among(index, root));
    Some(slot)
}
