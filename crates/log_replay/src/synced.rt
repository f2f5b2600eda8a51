//! The units that reached their sync points.
ghost use Rattle.std.specs.Prelude.{◌≡◌, ◌==◌, ℕ, ◌||◌, IfOk, OnOk};
ghost use Rattle.std.specs.BTreeSet.{contains};
ghost use Rattle.std.specs.List.{list_any};
ghost use Rattle.std.specs.Ordering.{nat_cmp};
ghost use Rattle.model_image.specs.Slots.{is_sync_point_of};

use log_records::Record;
use std::alloc::Global;
use std::collections::BTreeSet;
use tm_types::Memory;

/// The units that have a sync point in these records.
pub fn synced_units(alloc: Global, records: &[Record]) -> Result<BTreeSet<u64>, Memory>
    ensures { IfOk result (λ units. (unit : ℕ) → contains nat_cmp units unit ≡ list_any (is_sync_point_of unit) records.now) }
{
    let mut units = BTreeSet::new(alloc);
    for record in records {
        add_unit(&mut units, record)?;
    }
    Ok(units)
}

// The unit of a sync point is one more.
fn add_unit(units: &mut BTreeSet<u64>, r: &Record) -> Result<(), Memory>
    ensures { OnOk result ((unit : ℕ) → contains nat_cmp units.new unit ≡ (contains nat_cmp units.old unit || is_sync_point_of unit r.now)) }
{
    match r {
        Record::SyncPoint { unit, .. } => insert(units, *unit),
        _ => Ok(()),
    }
}

fn insert(units: &mut BTreeSet<u64>, unit: u64) -> Result<(), Memory>
    ensures { OnOk result ((other : ℕ) → contains nat_cmp units.new other ≡ (contains nat_cmp units.old other || unit == other)) }
{
    match units.insert(unit) {
        Ok(_) => Ok(()),
        Err(_) => Err(Memory),
    }
}
