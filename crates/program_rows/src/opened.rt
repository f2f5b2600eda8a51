//! The stores with what the regions have open.
ghost use Rattle.std.specs.Prelude.{◌≡◌, ◌≤◌, ◌-◌, IfOk, length, replicate, slice_get, slice_set, Some};
ghost use Rattle.unit_work.specs.Changes.{no_changes};

use pi_enqueue::Table;
use seg_store::Stores;
use std::alloc::Global;
use std::mem;
use tm_types::Memory;
use unit_work::Unit;

/// The stores, the unit that each region has open, and what the regions hold and wait for.
#[derive(Debug, Drop)]
pub struct Opened {
    /// The first is that of region 1.
    pub units: Vec<Unit>,
    pub stores: Stores,
    pub table: Table,
}

/// A unit for each of so many regions, of which none has changed anything.
pub fn units_of(alloc: Global, regions: u32) -> Result<Vec<Unit>, Memory>
    ensures { IfOk result (λ units. units.items ≡ replicate regions no_changes) }
{
    let mut units = Vec::with_capacity(alloc, regions as usize)?;
    for _ in 0..regions {
        units.push(Unit::new(alloc))?;
    }
    Ok(units)
}

/// The unit of a region.
pub fn unit_of(units: &[Unit], region: u32) -> &Unit
    requires least { 1 ≤ region }
    requires most { region ≤ length units.now }
    ensures { slice_get units.now (region - 1) ≡ Some result.now }
{
    &units[region as usize - 1]
}

/// Takes the unit of a region out; one without changes stands in its place.
pub fn take_unit(alloc: Global, units: &mut Vec<Unit>, region: u32) -> Unit
    requires least { 1 ≤ region }
    requires most { region ≤ length units.old.items }
    ensures taken { slice_get units.old.items (region - 1) ≡ Some result }
    ensures left { units.new.items ≡ slice_set units.old.items (region - 1) no_changes }
{
    mem::replace(&mut units[region as usize - 1], Unit::new(alloc))
}

/// Puts a unit in the place of a region's.
pub fn put_unit(units: &mut Vec<Unit>, region: u32, unit: Unit)
    requires least { 1 ≤ region }
    requires most { region ≤ length units.old.items }
    ensures { units.new.items ≡ slice_set units.old.items (region - 1) unit }
{
    units[region as usize - 1] = unit;
}

/// No unit has changed anything any more.
pub fn clear_units(alloc: Global, units: &mut Vec<Unit>)
    ensures { units.new.items ≡ replicate (length units.old.items) no_changes }
{
    for place in 0..units.len() {
        units[place] = Unit::new(alloc);
    }
}
