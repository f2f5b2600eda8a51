//! A call of a region on a database.
ghost use Rattle.std.specs.Prelude.{◌≡◌, ◌≤◌, ◌-◌, Some, All, IfOk, IfErr, OnOk, OnErr, length, map, slice_get};
ghost use Rattle.model_data.specs.Conditions.{IsDbCall, IsPosition};
ghost use Rattle.program_rows.specs.MadeCall.{IsCallDone};
ghost use Rattle.model_data.specs.DatabaseCalls.{dli};
ghost use Rattle.program_rows.specs.SlotsState.{slots_state_of, CallsSo};
ghost use Rattle.program_rows.specs.DatabasesState.{rows_numbered};
ghost use Rattle.program_rows.specs.OpenUnits.{unit_slots_of};
ghost use Rattle.log_records.specs.ToldRecords.{TellsInRoom, AreRecordsUntold};
ghost use Rattle.program_rows.specs.ToldChanges.{call_told, touched_after};
ghost use Rattle.program_rows.specs.PlannedChanges.{databases_opened, IsOpenedWhole, HasTouched, IsSame};

use crate::DataAnswer;
use crate::asked::{asked_for, read, wait};
use crate::making::make;
use crate::opened::Opened;
use crate::planning::plan_in;
use crate::telling::Telling;
use log_records::Untold;
use model_data::{DbCall, Position};
use std::alloc::Global;
use tm_types::Dbd;

/// Makes a call of a region on the database of this number, counted from 1; where what it needs is
/// blocked, the region waits and no call is made.
///
/// What is needed is told by the rows in the store: up to the first need that is blocked they are as
/// the region sees them. The record that the call changes is told of first, by its unit's number in the log.
pub fn call(
    alloc: Global,
    region: u32,
    dbd: &Dbd,
    number: u8,
    at: &Position,
    call: &DbCall,
    opened: &mut Opened,
    telling: &mut Telling,
) -> Result<DataAnswer, Untold>
    requires open { IsOpenedWhole opened.old }
    requires touched { HasTouched opened.old }
    requires first { 1 ≤ region }
    requires last { region ≤ length opened.old.units.items }
    requires number { 1 ≤ number }
    requires database { slice_get (map (λ s. s.dbd) opened.old.stores.stores) (number - 1) ≡ Some dbd.now }
    requires few { length dbd.now.types ≤ 255 }
    requires short { All (λ type. type.bytes ≤ 1996) dbd.now.types }
    requires sectors { dbd.now.sectors ≤ 8 }
    requires position { IsPosition dbd.now.types at.now }
    requires call { IsDbCall dbd.now.types call.now }
    ensures done { IfOk result (IsCallDone region number dbd.now call.now at.now opened.old opened.new) }
    ensures tells { OnOk result (TellsInRoom (call_told telling.old.unit region number dbd.now call.now at.now (databases_opened opened.old)) telling.old.room telling.old.told.items telling.new.told.items) }
    ensures slots { OnOk result (CallsSo telling.old.unit region (slots_state_of (databases_opened opened.old)) (slots_state_of (databases_opened opened.new)) (call_told telling.old.unit region number dbd.now call.now at.now (databases_opened opened.old))) }
    ensures touched { IfOk result (λ a. unit_slots_of opened.new.units.items ≡ touched_after region number (dli dbd.now call.now at.now (rows_numbered region number (databases_opened opened.old))) (databases_opened opened.old) a) }
    ensures touch { OnOk result (HasTouched opened.new) }
    ensures kept { OnErr result (IsSame opened.old opened.new) }
    ensures untold { OnErr result (telling.new.told.items ≡ telling.old.told.items) }
    ensures place { telling.new ≡ record telling.old { told = telling.new.told } }
    ensures full { IfErr result (AreRecordsUntold (call_told telling.old.unit region number dbd.now call.now at.now (databases_opened opened.old)) telling.old.room) }
{
    let needed = plan_in(alloc, dbd, number, at, call, &mut opened.stores)?;
    let asked = asked_for(alloc, region, number, needed.needs.as_slice())?;
    let planned = needed.planned;
    if planned.edit.is_none() {
        return read(&asked, planned, &mut opened.table);
    }
    if opened
        .table
        .first_blocked(region, &asked.requests)
        .is_some()
    {
        return wait(&asked, &mut opened.table);
    }
    make(alloc, dbd, &asked, planned, opened, telling)
}
