//! What a call of a region comes to, by the rows in the store.
ghost use Rattle.std.specs.Prelude.{◌≡◌, ◌≤◌, ◌-◌, Some, All, IfOk, IfSome, length, map, slice_get};
ghost use Rattle.tm_types.specs.Segment.{IsSegmentText};
ghost use Rattle.model_data.specs.Conditions.{IsDbCall, IsPosition};
ghost use Rattle.program_rows.specs.StoredPlan.{IsPlannedIn};

use dli_calls::{NeededPlan, plan_needed};
use model_data::{DbCall, Position};
use seg_rows::RowsRefused;
use seg_store::Stores;
use std::alloc::Global;
use tm_types::{Dbd, Memory};

/// What a call on the database of this number, counted from 1, comes to by the rows in its store, and what it needs.
/// The stores stay. `Memory` is the only refusal, as a store has all its records in memory.
pub fn plan_in(
    alloc: Global,
    dbd: &Dbd,
    number: u8,
    at: &Position,
    call: &DbCall,
    stores: &mut Stores,
) -> Result<NeededPlan, Memory>
    requires number { 1 ≤ number }
    requires database { slice_get (map (λ s. s.dbd) stores.old.stores) (number - 1) ≡ Some dbd.now }
    requires few { length dbd.now.types ≤ 255 }
    requires position { IsPosition dbd.now.types at.now }
    requires call { IsDbCall dbd.now.types call.now }
    ensures planned { IfOk result (IsPlannedIn number dbd.now call.now at.now stores.old.stores) }
    ensures position { IfOk result (λ p. IsPosition dbd.now.types p.planned.position) }
    ensures text { All (λ type. type.bytes ≤ 1996) dbd.now.types → IfOk result (λ p. IfSome p.planned.area IsSegmentText) }
    ensures stays { stores.new ≡ stores.old }
{
    match plan_needed(alloc, dbd, call, at, stores.store_mut(number)) {
        Ok(needed) => Ok(needed),
        Err(RowsRefused::Memory) => Err(Memory),
        Err(RowsRefused::RootLimit) => unreachable!(),
        Err(RowsRefused::RecordTooLong) => unreachable!(),
        Err(RowsRefused::Disk) => unreachable!(),
        Err(RowsRefused::Damaged(_)) => unreachable!(),
    }
}
