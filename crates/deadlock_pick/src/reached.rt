//! The regions that reach a region along the waits.
ghost use Rattle.std.specs.Prelude.{◌≡◌, ◌≤◌, ◌<◌, ◌∷◌, [], ◌++◌, true, false, length, not, ◌&&◌, nat_eq, slice_get};
ghost use Rattle.std.specs.List.{list_any};
ghost use Rattle.model_data.specs.Table.{waits_for};
ghost use Rattle.model_data.specs.Cycle.{IsTableRegion, HasNoCycle};
ghost use Rattle.deadlock_pick.specs.Way.{BeginsWith};
ghost use Rattle.deadlock_pick.specs.Reached.{AreRegions, IsWaitedForWithin, with_next};

use model_data::Cycle;
use pi_enqueue::Table;

/// Whether a region may be in a ring: whether it waits for one that reaches it. Nothing but what reaches it is looked at, since a region
/// that has just begun to wait has many before it and few behind it.
pub fn is_reached(table: &Table, region: u32) -> bool
    requires few { table.now.regions ≤ 8 }
    requires region { IsTableRegion table.now region }
    ensures { result ≡ false → HasNoCycle table.now region }
{
    let mut reaching = Cycle::new();
    add(&mut reaching, region);
    let mut place = 0;
    while let Some(from) = at(&reaching, place) {
        if table.waits_for(region, from) {
            return true;
        }
        go_back(table, from, &mut reaching);
        place += 1;
    }
    false
}

// The region at a place, if there are so many.
fn at(reaching: &Cycle, place: usize) -> Option<u32>
    ensures { result ≡ slice_get reaching.now place }
{
    match reaching.as_slice().get(place) {
        Some(region) => Some(u32::from(*region)),
        None => None,
    }
}

// Adds the regions that wait for a region, where they aren't there yet.
fn go_back(table: &Table, from: u32, reaching: &mut Cycle)
    requires few { table.now.regions ≤ 8 }
    requires regions { AreRegions table.now reaching.old }
    ensures regions { AreRegions table.now reaching.new }
    ensures more { BeginsWith reaching.old reaching.new }
    ensures all { IsWaitedForWithin table.now reaching.new from }
{
    for next in 1..table.regions() + 1 {
        add_next(table, from, next, reaching);
    }
}

// Adds the second region, where it waits for the first one and isn't there yet.
fn add_next(table: &Table, from: u32, next: u32, reaching: &mut Cycle)
    requires few { table.now.regions ≤ 8 }
    requires next { IsTableRegion table.now next }
    requires regions { AreRegions table.now reaching.old }
    ensures { reaching.new ≡ with_next table.now from next reaching.old }
{
    if comes(table, reaching, from, next) {
        add(reaching, next);
    }
}

// Whether a region waits for this one, and isn't among the others.
fn comes(table: &Table, others: &Cycle, from: u32, next: u32) -> bool
    ensures { result ≡ (not (list_any (nat_eq next) others.now) && waits_for next from table.now) }
{
    !is_on(others, next) && table.waits_for(next, from)
}

/// Whether the last region waits for this one, which isn't among the others.
pub fn goes_on(table: &Table, others: &Cycle, last: u32, next: u32) -> bool
    ensures { result ≡ (not (list_any (nat_eq next) others.now) && waits_for last next table.now) }
{
    !is_on(others, next) && table.waits_for(last, next)
}

fn is_on(others: &Cycle, region: u32) -> bool
    ensures { result ≡ list_any (nat_eq region) others.now }
{
    others
        .as_slice()
        .iter()
        .any(|other| region == u32::from(*other))
}

/// Adds a region at the end.
pub fn add(regions: &mut Cycle, region: u32)
    requires room { length regions.old < 8 }
    requires small { region < 256 }
    ensures { regions.new ≡ regions.old ++ region ∷ [] }
{
    regions.push(region as u8);
}
