//! The databases, and the calls on them.
ghost use Rattle.std.specs.Prelude.{◌≡◌, ◌≤◌, ◌-◌, ℕ, [], Some, All, IfOk, IfErr, OnOk, OnErr, length, map, replicate, slice_get, slice_set};
ghost use Rattle.model_data.specs.Conditions.{IsDbCall, IsPosition};
ghost use Rattle.model_data.specs.Data.{data_abend};
ghost use Rattle.model_data.specs.DatabaseCalls.{dli};
ghost use Rattle.model_data.specs.Table.{empty_table};
ghost use Rattle.model_data.specs.EnqueueRequests.{first_blocked, released, waits_for_nothing};
ghost use Rattle.std.specs.List.{AllByRecursion};
ghost use Rattle.tm_types.specs.SegTypes.{IsHierarchy};
ghost use Rattle.model_data.specs.Cycle.{IsTableRegion};
ghost use Rattle.pi_enqueue.specs.KeptTable.{IsTableKept};
ghost use Rattle.unit_work.specs.BackOut.{CanBackOut, backed_out, backs};
ghost use Rattle.program_rows.specs.OpenUnits.{unit_records_of, unit_slots_of};
ghost use Rattle.unit_work.specs.Images.{image_at};
ghost use Rattle.unit_work.specs.Marks.{AreMarked, AreAllMarked};
ghost use Rattle.program_rows.specs.SlotsState.{slots_state_of, slots_stores, AreOnSlots, CallsSo};
ghost use Rattle.log_records.specs.ToldRecords.{TellsInRoom, AreRecordsUntold};
ghost use Rattle.program_rows.specs.ToldChanges.{back_told, call_told, touched_after};
ghost use Rattle.program_rows.specs.PlannedChanges.{changed_in, AreThere};
ghost use Rattle.seg_store.specs.Stores.{empty_stores, no_changed};
ghost use Rattle.program_rows.specs.DatabasesState.{clean_region, committed_rows, data_of, dbds_of, region_at, rows_numbered, rows_of_stores, with_all_settled, touched_by, with_marks, AreRowsOf, IsClean, IsRegionOf};
ghost use Rattle.program_rows.specs.Isolation.{requests_of_call};
ghost use Rattle.program_rows.specs.CallAnswers.{blocked_of, told_blocked, regions_after, regions_backed, GivesAnswer, IsCommitted, IsGivenUp, LeadsToAbend, StandsInDatabase, StaysUnlessMade, table_left};

use crate::opened::{Opened, clear_units, put_unit, take_unit, unit_of, units_of};
use crate::telling::{Telling, tell_slots};
use crate::{DataAnswer, calling};
use log_records::Untold;
use model_data::{DbCall, Position};
use pi_enqueue::Table;
use seg_store::Stores;
use std::alloc::Global;
use std::marker::Model;
use tm_types::{Dbd, Memory};
use unit_work::Unit;

/// The databases of a system, with the changes of the work on a message in each region.
///
/// Calls change the rows in their stores; of each record that is changed the image before the work
/// is kept, so that the work can be backed out. What a region's calls look at or change it holds until its
/// work ends, and a call that needs what another region holds is blocked.
#[derive(Debug, Drop)]
pub struct Databases {
    alloc: Global,
    opened: Opened,
}

impl Model for Databases {
    ghost use Rattle.program_rows.specs.DatabasesState.{DatabasesState};
    ghost use Rattle.program_rows.specs.PlannedChanges.{databases_opened, IsUnitWhole};

    ghost Value = { DatabasesState };

    ghost view = { λ d. databases_opened d.opened };

    ghost invariant = { λ d. IsUnitWhole d.opened };
}

impl Databases {
    /// These databases without rows, for so many regions; no slot counts as changed. This takes all the room that
    /// their roots will need.
    pub fn empty(alloc: Global, dbds: &[Dbd], regions: u32) -> Result<Databases, Memory>
        ensures stores { IfOk result (λ d. d.stores ≡ empty_stores dbds.now) }
        ensures changed { IfOk result (λ d. d.changed ≡ no_changed dbds.now) }
        ensures committed { IfOk result (λ d. d.committed ≡ empty_stores dbds.now) }
        ensures regions { IfOk result (λ d. d.regions ≡ replicate regions (clean_region (rows_of_stores (empty_stores dbds.now)))) }
        ensures touched { IfOk result (λ d. d.touched ≡ replicate regions []) }
        ensures table { IfOk result (λ d. d.table ≡ empty_table regions) }
        ensures rows { IfOk result (λ d. AreRowsOf (dbds_of d) (committed_rows d)) }
    {
        types_of(dbds);
        let units = units_of(alloc, regions)?;
        let stores = Stores::empty(alloc, dbds)?;
        let table = Table::new(alloc, regions)?;
        Ok(Databases {
            alloc,
            opened: Opened {
                units,
                stores,
                table,
            },
        })
    }

    /// The stores, as they are, with the slots that were changed since they were written.
    pub fn stores(&self) -> &Stores
        ensures value { result.now ≡ slots_stores (slots_state_of self.now) }
        ensures on_slots { AreOnSlots self.now }
    {
        &self.opened.stores
    }

    /// No slot counts as changed any more: what stands in the sectors is the caller's.
    pub fn settle(&mut self)
        ensures { self.new ≡ with_all_settled self.old }
    {
        self.opened.stores.settle();
    }

    /// The stores are these, which have the same slots; what counts as changed among them is told by them. This takes no memory.
    pub fn put_stores(&mut self, stores: Stores)
        requires same { stores.stores ≡ self.old.stores }
        requires there { AreThere stores }
        ensures { self.new ≡ with_marks stores.changed self.old }
    {
        self.opened.stores = stores;
    }

    /// The databases have these stores, and no region has changed anything. What the regions hold and wait for stays. This
    /// takes no memory.
    pub fn open(&mut self, stores: Stores)
        requires { stores.changed ≡ no_changed (map (λ s. s.dbd) stores.stores) }
        ensures slots { slots_state_of self.new ≡ record { stores = stores.stores; changed = stores.changed; committed = stores.stores; touched = replicate (length self.old.regions) [] } }
        ensures regions { self.new.regions ≡ replicate (length self.old.regions) (clean_region (rows_of_stores stores.stores)) }
        ensures table { self.new.table ≡ self.old.table }
        ensures rows { AreRowsOf (dbds_of self.new) (committed_rows self.new) }
    {
        stores.slots_valid();
        clear_units(self.alloc, &mut self.opened.units);
        self.opened.stores = stores;
    }

    /// What the regions hold and wait for.
    pub fn table(&self) -> &Table
        ensures { result.now ≡ self.now.table }
    {
        &self.opened.table
    }

    /// The unit that a region has open.
    pub fn unit(&self, region: u32) -> &Unit
        requires { IsRegionOf self.now region }
        ensures { result.now.slots ≡ touched_by region self.now }
    {
        unit_of(&self.opened.units, region)
    }

    /// How many records a region has changed since its last commit.
    pub fn changes(&self, region: u32) -> u32
        requires { IsRegionOf self.now region }
        ensures count { result ≡ length (region_at region self.now).changed }
        ensures clean { result ≡ 0 → IsClean region self.now }
    {
        unit_of(&self.opened.units, region).changes()
    }

    /// Makes a call of a region on the database of this number, counted from 1, by a PCB that stands at
    /// `at`; where what it needs is blocked, the region waits and no call is made.
    ///
    /// What the region sees and has changed is then as the call leaves it; where the PCB stands after the
    /// call is told. What was committed stays, and so does what other regions see. An abend changes nothing
    /// of this. Want of memory changes nothing at all, and any call may answer it.
    ///
    /// The record that the call changes is told of by the unit's number in the log: what stood in its slot, and what stands
    /// there then. Where that is longer than `room`, the call answers `Full` and changes nothing.
    pub fn call(
        &mut self,
        region: u32,
        dbd: &Dbd,
        number: u8,
        at: &Position,
        call: &DbCall,
        telling: &mut Telling,
    ) -> Result<DataAnswer, Untold>
        requires region { IsRegionOf self.old region }
        requires number { 1 ≤ number }
        requires database { slice_get (dbds_of self.old) (number - 1) ≡ Some dbd.now }
        requires few { length dbd.now.types ≤ 255 }
        requires short { All (λ type. type.bytes ≤ 1996) dbd.now.types }
        requires sectors { dbd.now.sectors ≤ 8 }
        requires position { IsPosition dbd.now.types at.now }
        requires call { IsDbCall dbd.now.types call.now }
        ensures blocked { IfOk result (λ a. blocked_of a ≡ told_blocked (first_blocked (requests_of_call region number dbd.now call.now at.now self.old) self.old.table)) }
        ensures abend { let d = dli dbd.now call.now at.now (rows_numbered region number self.old) in IfOk result (LeadsToAbend (data_abend number (data_of region self.old []) d)) }
        ensures gives { IfOk result (GivesAnswer (dli dbd.now call.now at.now (rows_numbered region number self.old))) }
        ensures stands { IfOk result (StandsInDatabase dbd.now.types) }
        ensures leaves { IfOk result (λ a. self.new.regions ≡ regions_after region number (dli dbd.now call.now at.now (rows_numbered region number self.old)) self.old a) }
        ensures asks { IfOk result (λ a. self.new.table ≡ table_left region (requests_of_call region number dbd.now call.now at.now self.old) self.old.table a) }
        ensures stays { IfOk result (StaysUnlessMade self.old self.new) }
        ensures committed { self.new.committed ≡ self.old.committed }
        ensures databases { dbds_of self.new ≡ dbds_of self.old }
        ensures tells { OnOk result (TellsInRoom (call_told telling.old.unit region number dbd.now call.now at.now self.old) telling.old.room telling.old.told.items telling.new.told.items) }
        ensures slots { OnOk result (CallsSo telling.old.unit region (slots_state_of self.old) (slots_state_of self.new) (call_told telling.old.unit region number dbd.now call.now at.now self.old)) }
        ensures touched { IfOk result (λ a. self.new.touched ≡ touched_after region number (dli dbd.now call.now at.now (rows_numbered region number self.old)) self.old a) }
        ensures kept { OnErr result (self.new ≡ self.old) }
        ensures untold { OnErr result (telling.new.told.items ≡ telling.old.told.items) }
        ensures place { telling.new ≡ record telling.old { told = telling.new.told } }
        ensures full { IfErr result (AreRecordsUntold (call_told telling.old.unit region number dbd.now call.now at.now self.old) telling.old.room) }
    {
        calling::call(
            self.alloc,
            region,
            dbd,
            number,
            at,
            call,
            &mut self.opened,
            telling,
        )
    }

    /// The region waits for nothing any more. This takes no memory.
    pub fn stop_waiting(&mut self, region: u32)
        requires { IsRegionOf self.old region }
        ensures { self.new ≡ record self.old { table = waits_for_nothing region self.old.table } }
    {
        self.opened.table.stop_waiting(region);
        let _regions = self.opened.table.regions();
    }

    /// Tells by the unit's number in the log what `back_out` makes of each slot that the region has touched: what stands there,
    /// and what stood there first, also where both are equal. Where that is longer than `room`, the answer is `Full`. An Err
    /// leaves what was told before.
    pub fn tell_back(&self, region: u32, telling: &mut Telling) -> Result<(), Untold>
        requires region { IsRegionOf self.now region }
        requires sectors { AllByRecursion (λ s. s.dbd.sectors ≤ 8) self.now.stores }
        ensures tells { OnOk result (TellsInRoom (back_told telling.old.unit region self.now) telling.old.room telling.old.told.items telling.new.told.items) }
        ensures untold { OnErr result (telling.new.told.items ≡ telling.old.told.items) }
        ensures place { telling.new ≡ record telling.old { told = telling.new.told } }
        ensures full { IfErr result (AreRecordsUntold (back_told telling.old.unit region self.now) telling.old.room) }
    {
        tell_slots(
            unit_of(&self.opened.units, region).touched(),
            &self.opened.stores,
            telling,
        )
    }

    /// Takes back all changes of a region since its last commit, each record to the slot that it had; what it
    /// holds it keeps. This takes no memory.
    pub fn back_out(&mut self, region: u32)
        requires { IsRegionOf self.old region }
        ensures regions { self.new.regions ≡ regions_backed region self.old }
        ensures committed { self.new.committed ≡ self.old.committed }
        ensures table { self.new.table ≡ self.old.table }
        ensures databases { dbds_of self.new ≡ dbds_of self.old }
        ensures touched { self.new.touched ≡ slice_set self.old.touched (region - 1) [] }
        // `tell_back` tells what this makes of the slots.
        ensures slots { (unit : ℕ) → CallsSo unit region (slots_state_of self.old) (slots_state_of self.new) (back_told unit region self.old) }
    {
        take_back(self.alloc, region, &mut self.opened);
    }

    /// Makes the changes of a region since its last commit stay, and gives up all that it holds. This takes no
    /// memory.
    pub fn commit(&mut self, region: u32)
        requires { IsRegionOf self.old region }
        ensures value { IsCommitted region self.old self.new }
        ensures rows { AreRowsOf (dbds_of self.new) (committed_rows self.new) }
        ensures databases { dbds_of self.new ≡ dbds_of self.old }
    {
        put_unit(&mut self.opened.units, region, Unit::new(self.alloc));
        release(region, &mut self.opened.table);
    }

    /// Takes back all changes of a region since its last commit, and gives up all that it holds and waits for.
    /// This takes no memory.
    pub fn give_up(&mut self, region: u32)
        requires { IsRegionOf self.old region }
        ensures value { IsGivenUp region self.old self.new }
        ensures databases { dbds_of self.new ≡ dbds_of self.old }
    {
        let opened = &mut self.opened;
        take_back(self.alloc, region, opened);
        release(region, &mut opened.table);
    }
}

// The types of each of these databases are a hierarchy.
fn types_of(dbds: &[Dbd])
    ensures { AllByRecursion (λ dbd. IsHierarchy dbd.types) dbds.now }
{
    for dbd in dbds {
        let _types = dbd.types.as_slice();
    }
}

// Takes back the changes of a region's unit.
fn take_back(alloc: Global, region: u32, opened: &mut Opened)
    requires least { 1 ≤ region }
    requires most { region ≤ length opened.old.units.items }
    requires can { CanBackOut (changed_in region opened.old) opened.old.stores.stores }
    ensures units { unit_records_of opened.new.units.items ≡ slice_set (unit_records_of opened.old.units.items) (region - 1) [] }
    ensures slots { unit_slots_of opened.new.units.items ≡ slice_set (unit_slots_of opened.old.units.items) (region - 1) [] }
    ensures stores { opened.new.stores.stores ≡ backed_out (changed_in region opened.old) opened.old.stores.stores }
    ensures marks { AreMarked (λ db slot. backs (changed_in region opened.old) db slot (image_at db slot opened.old.stores.stores)) opened.old.stores opened.new.stores }
    ensures all_marked { AreAllMarked (λ db slot. backs (changed_in region opened.old) db slot (image_at db slot opened.old.stores.stores)) opened.new.stores }
    ensures table { opened.new.table ≡ opened.old.table }
{
    let mut unit = take_unit(alloc, &mut opened.units, region);
    unit.back_out(&mut opened.stores);
}

// The region gives up all that it holds and waits for.
fn release(region: u32, table: &mut Table)
    requires { IsTableRegion table.old region }
    ensures table { table.new ≡ released region table.old }
    ensures kept { IsTableKept table.new }
{
    table.release_all(region);
    let _regions = table.regions();
}
