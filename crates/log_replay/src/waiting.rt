//! The records of units that have no sync point yet.
ghost use Rattle.std.specs.Prelude.{◌≡◌, ◌∷◌, [], ◌++◌, None, IfOk, OnOk, slice_get, drop};
ghost use Rattle.std.specs.BTreeMap.{get};
ghost use Rattle.std.specs.Ordering.{nat_cmp};
ghost use Rattle.log_replay.specs.WaitingRecords.{of_unit, ChangesUnit};

use log_records::Record;
use std::alloc::Global;
use std::collections::{BTreeMap, VecDeque};
use std::marker::Model;
use tm_types::Memory;

/// The records of a unit, in their order.
#[derive(Debug, Drop)]
pub struct UnitRecords {
    pub records: VecDeque<Record>,
}

impl Model for UnitRecords {
    ghost use Rattle.std.specs.Prelude.{List};
    ghost use Rattle.log_records.specs.declared.record.Record.{Record};

    ghost Value = { List Record };

    ghost view = { λ u. u.records.items };
}

impl UnitRecords {
    fn new(alloc: Global) -> UnitRecords
        ensures { result ≡ [] }
    {
        UnitRecords {
            records: VecDeque::new(alloc),
        }
    }

    fn push(&mut self, r: Record) -> Result<(), Memory>
        ensures { OnOk result (self.new ≡ self.old ++ r ∷ []) }
    {
        self.records.push_back(r)?;
        Ok(())
    }

    /// The first record, which waits no longer.
    pub fn pop(&mut self) -> Option<Record>
        ensures first { result ≡ slice_get self.old 0 }
        ensures rest { self.new ≡ drop 1 self.old }
    {
        self.records.pop_front()
    }
}

/// The unit has one record more.
pub fn push(
    alloc: Global,
    units: &mut BTreeMap<u64, UnitRecords>,
    unit: u64,
    r: Record,
) -> Result<(), Memory>
    ensures { OnOk result (ChangesUnit unit (λ records. records ++ r ∷ []) units.old.entries units.new.entries) }
{
    match units.get_mut(&unit) {
        Some(records) => records.push(r),
        None => add_unit(alloc, units, unit, r),
    }
}

fn add_unit(
    alloc: Global,
    units: &mut BTreeMap<u64, UnitRecords>,
    unit: u64,
    r: Record,
) -> Result<(), Memory>
    requires { get nat_cmp units.old unit ≡ None }
    ensures { OnOk result (ChangesUnit unit (λ records. records ++ r ∷ []) units.old.entries units.new.entries) }
{
    let mut records = UnitRecords::new(alloc);
    records.push(r)?;
    match units.insert(unit, records) {
        Ok(_) => Ok(()),
        Err(_) => Err(Memory),
    }
}

/// The records of the unit, which waits no longer.
pub fn take(alloc: Global, units: &mut BTreeMap<u64, UnitRecords>, unit: u64) -> UnitRecords
    ensures value { result ≡ of_unit unit units.old.entries }
    ensures rest { ChangesUnit unit (λ _. []) units.old.entries units.new.entries }
{
    let _count = units.len();
    match units.remove(&unit) {
        Some(records) => records,
        None => UnitRecords::new(alloc),
    }
}
