//! The search for rings.
ghost use Rattle.std.specs.Prelude.{◌≡◌, ◌≤◌, ◌<◌, ◌∷◌, [], ◌++◌, length, IfSome, IfNone, IfOk, IsOk, MatchOption, not, ◌&&◌, nat_eq};
ghost use Rattle.std.specs.List.{list_any};
ghost use Rattle.model_data.specs.Table.{waits_for};
ghost use Rattle.model_data.specs.Cycle.{IsTableRegion, IsLeastCycle, HasNoCycle};
ghost use Rattle.deadlock_pick.specs.Way.{IsWayOf, IsLeastOf, HasNoneOf};

use crate::reached::{add, goes_on, is_reached};
use model_data::Cycle;
use pi_enqueue::Table;
use tm_types::Memory;

/// The least of the rings through a region, compared number by number; None exactly where no ring
/// goes through it. This takes no memory, and it looks for rings only where the region reaches itself.
///
/// The table has at most 8 regions.
pub fn least_cycle(table: &Table, region: u32) -> Option<Cycle>
    requires few { table.now.regions ≤ 8 }
    requires region { IsTableRegion table.now region }
    ensures some { IfSome result (IsLeastCycle table.now region) }
    ensures none { IfNone result (HasNoCycle table.now region) }
{
    if !is_reached(table, region) {
        return None;
    }
    let mut way = Cycle::new();
    add(&mut way, region);
    search(table, region, way, region)
}

/// The least of the rings through a region, as `least_cycle` gives it. It wants no memory.
pub fn cycle_through(table: &Table, region: u32) -> Result<Option<Cycle>, Memory>
    requires few { table.now.regions ≤ 8 }
    requires region { IsTableRegion table.now region }
    ensures ok { IsOk result }
    ensures cycle { IfOk result (λ found. MatchOption found (HasNoCycle table.now region) (IsLeastCycle table.now region)) }
{
    Ok(least_cycle(table, region))
}

// The least of the rings that begin with a way from the region to the last one.
fn search(table: &Table, region: u32, way: Cycle, last: u32) -> Option<Cycle>
    requires few { table.now.regions ≤ 8 }
    requires way { IsWayOf table.now region way last }
    ensures some { IfSome result (IsLeastOf table.now region way) }
    ensures none { IfNone result (HasNoneOf table.now region way) }
{
    if table.waits_for(last, region) {
        return Some(way);
    }
    for next in 1..table.regions() + 1 {
        if goes_on(table, &way, last, next) {
            match search(table, region, longer(way, next), next) {
                Some(cycle) => return Some(cycle),
                None => {}
            }
        }
    }
    None
}

// The way with one region more.
fn longer(way: Cycle, next: u32) -> Cycle
    requires room { length way < 8 }
    requires small { next < 256 }
    ensures { result ≡ way ++ next ∷ [] }
{
    let mut longer = way;
    add(&mut longer, next);
    longer
}
