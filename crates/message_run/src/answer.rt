//! How the calls of a script are answered.
ghost use Rattle.program_rows.specs.SlotsState.{slots_state_of, CallsSo};
ghost use Rattle.std.specs.Prelude.{◌≡◌, ◌≤◌, ◌-◌, ℕ, false, Some, IfOk, IfErr, IfSome, IsOk, IsSome, OnOk, OnErr, length, replicate, slice_get};
ghost use Rattle.std.specs.Option.{option_copied};
ghost use Rattle.tm_types.specs.Segment.{IsSegmentText};
ghost use Rattle.model_system.specs.declared.pcb.Pcb.TheVariants.{Database};
ghost use Rattle.model_messages.specs.MessageCalls.{given, status_alone, unique_answer, unique_work, next_answer, next_work, insert_status, insert_work, purge_status, purge_work, change_status, change_work};
ghost use Rattle.io_pcb.specs.Pads.{gives_wrong};
ghost use Rattle.model_data.specs.Data.{nowhere};
ghost use Rattle.system_types.specs.ValidSystem.{IsDatabase};
ghost use Rattle.model_machine.specs.Trial.{pcb_reached, reached_by};
ghost use Rattle.model_machine.specs.Trial.Reached.{Messages};
ghost use Rattle.model_data.specs.EnqueueRequests.{waits_for_nothing};
ghost use Rattle.program_rows.specs.CallAnswers.{regions_backed};
ghost use Rattle.program_rows.specs.DatabasesState.{data_of, dbds_of, IsRegionOf};
ghost use Rattle.message_run.specs.WorkAhead.{StayOthers};
ghost use Rattle.message_run.specs.MessageChanges.{reach_told, TellsNext};
ghost use Rattle.log_records.specs.ToldRecords.{AreRecordsUntold};
ghost use Rattle.program_rows.specs.ToldChanges.{back_told};
ghost use Rattle.std.specs.List.{AllByRecursion};
ghost use Rattle.message_run.specs.CallOutcomes.{CallComesTo, IsRolled, ServesCall, RollsBack, StaysUnlessAnswered, IsQuietUnlessAnswered, told_run, outcome_of, requests_by_run};
ghost use Rattle.message_run.specs.declared.answer.CallEnd.TheVariants.{Answered as AnsweredWith};
ghost use Rattle.script_run.specs.RunningScript.{answered_machine};
ghost use Rattle.message_run.specs.RunState.{AreStanding, IsCallBy, IsCallOf};

use crate::progress::Progress;
use log_records::Untold;
use model_data::DbCall;
use model_messages::abends::{ROLLED_BACK, WRONG_PAD};
use model_system::{CallText, Pcb, Pcbs};
use program_rows::{Answered, DataAnswer, Databases, Position, Telling};
use script_run::Machine;
use system_types::System;
use tm_types::{AbendCode, Dbd, Function, Memory, Resource, Segment, Status};

/// What comes of a call.
#[derive(Clone, Copy, Debug)]
pub enum CallEnd {
    /// It was answered with this status.
    Answered(Status),
    /// It leads to this abend.
    Abended(AbendCode),
    /// It wasn't made: a resource that it needs is blocked by this region.
    Waits(Resource, u32),
}

impl Progress {
    /// Does a call of the script in this region, and answers it, unless what it needs is blocked. What it changes
    /// in the databases is told of. An Err changes nothing.
    pub(crate) fn answer(
        &mut self,
        system: &System,
        pcbs: &Pcbs,
        region: u32,
        databases: &mut Databases,
        call: CallText,
        telling: &mut Telling,
    ) -> Result<CallEnd, Untold>
        requires waits { IsSome self.old.machine.waiting }
        requires text { IsSegmentText call.area }
        requires region { IsRegionOf databases.old region }
        requires call { IsCallOf system.now.databases pcbs.now call }
        requires databases { dbds_of databases.old ≡ system.now.databases }
        requires standing { AreStanding system.now.databases pcbs.now self.old.positions }
        ensures ok { IfOk result (CallComesTo region (requests_by_run (pcb_reached system.now.databases pcbs.now call.pcb) region databases.old self.old call) (outcome_of system.now (pcb_reached system.now.databases pcbs.now call.pcb) region databases.old self.old call) databases.old databases.new self.old self.new) }
        ensures standing { AreStanding system.now.databases pcbs.now self.new.positions }
        ensures stays { IfOk result (StaysUnlessAnswered databases.old databases.new) }
        ensures others { StayOthers region databases.old databases.new }
        ensures err { OnErr result (self.new ≡ self.old) }
        ensures kept { OnErr result (databases.new ≡ databases.old) }
        ensures tells { OnOk result (TellsNext telling.old.unit telling.old.room region databases.old databases.new telling.old.told.items telling.new.told.items (reach_told telling.old.unit region databases.old (pcb_reached system.now.databases pcbs.now call.pcb) (data_of region databases.old self.old.positions) call)) }
        ensures quiet { IfOk result (IsQuietUnlessAnswered telling.old.told.items telling.new.told.items) }
        ensures untold { OnErr result (telling.new.told.items ≡ telling.old.told.items) }
        ensures place { telling.new ≡ record telling.old { told = telling.new.told } }
        ensures full { IfErr result (AreRecordsUntold (reach_told telling.old.unit region databases.old (pcb_reached system.now.databases pcbs.now call.pcb) (data_of region databases.old self.old.positions) call) telling.old.room) }
    {
        if call.pcb == 0 {
            return self.answer_message(system, pcbs, region, databases, &call, telling);
        }
        match pcbs.numbered(call.pcb) {
            Some(Pcb::Database(number, options)) => self.answer_database(
                system, pcbs, region, databases, *number, *options, call, telling,
            ),
            Some(Pcb::Destination(_)) => self.answer_message(
                system, pcbs, region, databases, &call, telling,
            ),
            Some(Pcb::Modifiable) => self.answer_message(
                system, pcbs, region, databases, &call, telling,
            ),
            None => unreachable!(),
        }
    }

    /// Does a call on PCB 0 or on an output PCB, and answers it.
    #[tactic(auto, using(crate::proofs::NextTold::tells_nothing))]
    fn answer_message(
        &mut self,
        system: &System,
        _pcbs: &Pcbs,
        region: u32,
        databases: &mut Databases,
        call: &CallText,
        telling: &mut Telling,
    ) -> Result<CallEnd, Untold>
        requires waits { IsSome self.old.machine.waiting }
        requires text { IsSegmentText call.now.area }
        requires region { IsRegionOf databases.old region }
        requires databases { dbds_of databases.old ≡ system.now.databases }
        requires standing { AreStanding system.now.databases _pcbs.now self.old.positions }
        ensures ok { IfOk result (CallComesTo region (requests_by_run Messages region databases.old self.old call.now) (outcome_of system.now Messages region databases.old self.old call.now) databases.old databases.new self.old self.new) }
        ensures standing { AreStanding system.now.databases _pcbs.now self.new.positions }
        ensures stays { IfOk result (StaysUnlessAnswered databases.old databases.new) }
        ensures others { StayOthers region databases.old databases.new }
        ensures err { OnErr result (self.new ≡ self.old) }
        ensures kept { OnErr result (databases.new ≡ databases.old) }
        ensures tells { OnOk result (TellsNext telling.old.unit telling.old.room region databases.old databases.new telling.old.told.items telling.new.told.items (reach_told telling.old.unit region databases.old (Messages) (data_of region databases.old self.old.positions) call.now)) }
        ensures quiet { IfOk result (IsQuietUnlessAnswered telling.old.told.items telling.new.told.items) }
        ensures untold { OnErr result (telling.new.told.items ≡ telling.old.told.items) }
        ensures place { telling.new ≡ record telling.old { told = telling.new.told } }
        ensures full { IfErr result (AreRecordsUntold (reach_told telling.old.unit region databases.old (Messages) (data_of region databases.old self.old.positions) call.now) telling.old.room) }
    {
        let (pcb, area) = (call.pcb, call.area.as_slice());
        match call.function {
            Function::GU => Ok(answered(self.get_unique()?, region, databases)),
            Function::GN => Ok(answered(self.get_next()?, region, databases)),
            Function::ISRT => {
                if self.work.is_wrong_pad(pcb, area) {
                    return Ok(CallEnd::Abended(AbendCode { number: WRONG_PAD }));
                }
                Ok(answered(self.insert(pcb, area)?, region, databases))
            }
            Function::PURG => Ok(answered(self.purge(pcb)?, region, databases)),
            Function::CHNG => Ok(answered(self.change(system, pcb, area)?, region, databases)),
            Function::ROLB => {
                let _databases = system.databases();
                self.answer_rolb(region, databases, telling)
            }
            Function::ROLL => Ok(CallEnd::Abended(AbendCode {
                number: ROLLED_BACK,
            })),
            _ => Ok(answered(self.tell(Status::AM)?, region, databases)),
        }
    }

    /// Does a ROLB, which tells of each slot that the region has touched. An Err changes nothing.
    fn answer_rolb(
        &mut self,
        region: u32,
        databases: &mut Databases,
        telling: &mut Telling,
    ) -> Result<CallEnd, Untold>
        requires waits { IsSome self.old.machine.waiting }
        requires region { IsRegionOf databases.old region }
        requires sectors { AllByRecursion (λ s. s.dbd.sectors ≤ 8) databases.old.stores }
        ensures ok { IfOk result (IsRolled region databases.old databases.new self.old self.new) }
        ensures tells { OnOk result (TellsNext telling.old.unit telling.old.room region databases.old databases.new telling.old.told.items telling.new.told.items (back_told telling.old.unit region databases.old)) }
        ensures dbds { dbds_of databases.new ≡ dbds_of databases.old }
        ensures committed { databases.new.committed ≡ databases.old.committed }
        ensures err { OnErr result (self.new ≡ self.old) }
        ensures kept { OnErr result (databases.new ≡ databases.old) }
        ensures quiet { IfOk result (IsQuietUnlessAnswered telling.old.told.items telling.new.told.items) }
        ensures untold { OnErr result (telling.new.told.items ≡ telling.old.told.items) }
        ensures place { telling.new ≡ record telling.old { told = telling.new.told } }
        ensures full { IfErr result (AreRecordsUntold (back_told telling.old.unit region databases.old) telling.old.room) }
    {
        let length = telling.told.len();
        match databases.tell_back(region, telling) {
            Ok(()) => match self.roll_back() {
                Ok(status) => Ok(rolled_back(status, region, databases)),
                Err(_) => {
                    telling.told.truncate(length);
                    Err(Untold::Memory)
                }
            },
            Err(error) => Err(error),
        }
    }

    fn get_unique(&mut self) -> Result<Status, Memory>
        requires { IsSome self.old.machine.waiting }
        ensures ok { IfOk result (ServesCall (unique_answer self.old.work) (unique_work self.old.work) self.old self.new) }
        ensures err { OnErr result (self.new ≡ self.old) }
    {
        let status = give(&mut self.machine, self.work.first())?;
        self.work.begin();
        Ok(status)
    }

    fn get_next(&mut self) -> Result<Status, Memory>
        requires { IsSome self.old.machine.waiting }
        ensures ok { IfOk result (ServesCall (next_answer self.old.work) (next_work self.old.work) self.old self.new) }
        ensures err { OnErr result (self.new ≡ self.old) }
    {
        let status = give(&mut self.machine, self.work.next())?;
        self.work.go_on();
        Ok(status)
    }

    fn insert(&mut self, pcb: u8, text: &[u8]) -> Result<Status, Memory>
        requires waits { IsSome self.old.machine.waiting }
        requires text { IsSegmentText text.now }
        requires pad { gives_wrong self.old.work pcb text.now ≡ false }
        ensures ok { IfOk result (ServesCall (status_alone (insert_status self.old.work pcb text.now)) (insert_work self.old.work pcb text.now) self.old self.new) }
        ensures err { OnErr result (self.new ≡ self.old) }
    {
        let status = self.work.insert(pcb, text)?;
        self.tell(status)
    }

    fn purge(&mut self, pcb: u8) -> Result<Status, Memory>
        requires { IsSome self.old.machine.waiting }
        ensures ok { IfOk result (ServesCall (status_alone (purge_status self.old.work pcb)) (purge_work self.old.work pcb) self.old self.new) }
        ensures err { OnErr result (self.new ≡ self.old) }
    {
        let status = self.work.purge(pcb)?;
        self.tell(status)
    }

    fn change(&mut self, system: &System, pcb: u8, name: &[u8]) -> Result<Status, Memory>
        requires { IsSome self.old.machine.waiting }
        ensures ok { IfOk result (ServesCall (status_alone (change_status system.now self.old.work pcb name.now)) (change_work system.now self.old.work pcb name.now) self.old self.new) }
        ensures always { IsOk result }
    {
        let status = self.work.change(pcb, name, system);
        self.tell(status)
    }

    /// Gives the first text again, and takes back all else but what was done in the databases.
    fn roll_back(&mut self) -> Result<Status, Memory>
        requires { IsSome self.old.machine.waiting }
        ensures ok { IfOk result (RollsBack self.old self.new) }
        ensures err { OnErr result (self.new ≡ self.old) }
    {
        let status = give(&mut self.machine, self.work.first())?;
        self.work.reset();
        leave_each(&mut self.positions);
        Ok(status)
    }

    /// Answers the script's call with a status alone. This takes no memory.
    fn tell(&mut self, status: Status) -> Result<Status, Memory>
        requires { IsSome self.old.machine.waiting }
        ensures ok { IfOk result (ServesCall (status_alone status) self.old.work self.old self.new) }
        ensures always { IsOk result }
    {
        tell(&mut self.machine, status)
    }

    /// Does a call on the database of this number by a PCB with these options, and answers it.
    fn answer_database(
        &mut self,
        system: &System,
        _pcbs: &Pcbs,
        region: u32,
        databases: &mut Databases,
        number: u8,
        options: u8,
        call: CallText,
        telling: &mut Telling,
    ) -> Result<CallEnd, Untold>
        requires waits { IsSome self.old.machine.waiting }
        requires text { IsSegmentText call.area }
        requires region { IsRegionOf databases.old region }
        requires some { 1 ≤ call.pcb }
        requires pcb { slice_get _pcbs.now (call.pcb - 1) ≡ Some (Database number options) }
        requires call { IsCallBy system.now.databases call (Some (Database number options)) }
        requires databases { dbds_of databases.old ≡ system.now.databases }
        requires standing { AreStanding system.now.databases _pcbs.now self.old.positions }
        ensures ok { IfOk result (CallComesTo region (requests_by_run (reached_by system.now.databases (Some (Database number options))) region databases.old self.old call) (outcome_of system.now (reached_by system.now.databases (Some (Database number options))) region databases.old self.old call) databases.old databases.new self.old self.new) }
        ensures standing { AreStanding system.now.databases _pcbs.now self.new.positions }
        ensures stays { IfOk result (StaysUnlessAnswered databases.old databases.new) }
        ensures others { StayOthers region databases.old databases.new }
        ensures err { OnErr result (self.new ≡ self.old) }
        ensures kept { OnErr result (databases.new ≡ databases.old) }
        ensures tells { OnOk result (TellsNext telling.old.unit telling.old.room region databases.old databases.new telling.old.told.items telling.new.told.items (reach_told telling.old.unit region databases.old (reached_by system.now.databases (Some (Database number options))) (data_of region databases.old self.old.positions) call)) }
        ensures quiet { IfOk result (IsQuietUnlessAnswered telling.old.told.items telling.new.told.items) }
        ensures untold { OnErr result (telling.new.told.items ≡ telling.old.told.items) }
        ensures place { telling.new ≡ record telling.old { told = telling.new.told } }
        ensures full { IfErr result (AreRecordsUntold (reach_told telling.old.unit region databases.old (reached_by system.now.databases (Some (Database number options))) (data_of region databases.old self.old.positions) call) telling.old.room) }
    {
        let dbd = database_numbered(system, number);
        let CallText {
            function,
            pcb,
            area,
            ssas,
        } = call;
        let call = DbCall {
            function,
            options,
            area,
            ssas,
        };
        let at = position_of(&self.positions, pcb);
        match databases.call(region, dbd, number, at, &call, telling) {
            Ok(DataAnswer::Abend(abend)) => Ok(CallEnd::Abended(abend)),
            Ok(DataAnswer::Blocked(blocked)) => Ok(CallEnd::Waits(blocked.resource, blocked.by)),
            Ok(DataAnswer::Answered(answered)) => Ok(self.tell_answer(pcb, answered)),
            Err(error) => Err(error),
        }
    }

    /// Answers the script's call with what a call on a database gave, and puts the PCB of this number
    /// where it then stands. This takes no memory.
    fn tell_answer(&mut self, pcb: u8, answered: Answered) -> CallEnd
        requires waits { IsSome self.old.machine.waiting }
        requires text { IfSome answered.area IsSegmentText }
        requires some { 1 ≤ pcb }
        requires pcbs { pcb ≤ length self.old.positions }
        ensures told { result ≡ AnsweredWith answered.status }
        ensures state { self.new ≡ told_run pcb answered self.old }
    {
        let Answered {
            status,
            area,
            position,
        } = answered;
        self.machine.answer_taking(status, area);
        self.positions[usize::from(pcb) - 1] = position;
        CallEnd::Answered(status)
    }
}

/// A call that needs nothing of the databases was answered with this status, and its region waits for
/// nothing any more.
fn answered(status: Status, region: u32, databases: &mut Databases) -> CallEnd
    requires { IsRegionOf databases.old region }
    ensures told { result ≡ AnsweredWith status }
    ensures databases { databases.new ≡ record databases.old { table = waits_for_nothing region databases.old.table } }
{
    databases.stop_waiting(region);
    CallEnd::Answered(status)
}

/// The same of a ROLB, at which the region takes back what it changed in the databases.
fn rolled_back(status: Status, region: u32, databases: &mut Databases) -> CallEnd
    requires { IsRegionOf databases.old region }
    ensures told { result ≡ AnsweredWith status }
    ensures regions { databases.new.regions ≡ regions_backed region databases.old }
    ensures committed { databases.new.committed ≡ databases.old.committed }
    ensures dbds { dbds_of databases.new ≡ dbds_of databases.old }
    ensures table { databases.new.table ≡ waits_for_nothing region databases.old.table }
    ensures slots { (unit : ℕ) → CallsSo unit region (slots_state_of databases.old) (slots_state_of databases.new) (back_told unit region databases.old) }
{
    databases.back_out(region);
    answered(status, region, databases)
}

/// The database of this number, counted from 1.
fn database_numbered(system: &System, number: u8) -> &Dbd
    requires least { 1 ≤ number }
    requires most { IsSome (slice_get system.now.databases (number - 1)) }
    ensures value { slice_get system.now.databases (number - 1) ≡ Some result.now }
    ensures valid { IsDatabase result.now }
{
    &system.databases()[usize::from(number) - 1]
}

/// Where the PCB of this number stands.
fn position_of(positions: &[Position], pcb: u8) -> &Position
    requires least { 1 ≤ pcb }
    requires most { pcb ≤ length positions.now }
    ensures { slice_get positions.now (pcb - 1) ≡ Some result.now }
{
    &positions[usize::from(pcb) - 1]
}

/// Answers the script's call with a status alone. This takes no memory.
fn tell(machine: &mut Machine, status: Status) -> Result<Status, Memory>
    requires { IsSome machine.old.waiting }
    ensures told { IfOk result (λ told. told ≡ status) }
    ensures ok { OnOk result (machine.new ≡ answered_machine machine.old (status_alone status)) }
    ensures always { IsOk result }
{
    machine.answer(status, None)?;
    Ok(status)
}

/// Answers the script's call with the text, or with QD where there is none.
fn give(machine: &mut Machine, segment: Option<&Segment>) -> Result<Status, Memory>
    requires { IsSome machine.old.waiting }
    ensures told { IfOk result (λ told. told ≡ (given (option_copied segment.entry)).status) }
    ensures ok { OnOk result (machine.new ≡ answered_machine machine.old (given (option_copied segment.entry))) }
    ensures err { OnErr result (machine.new ≡ machine.old) }
{
    match segment {
        Some(segment) => {
            machine.answer(Status::Blank, Some(segment.text()))?;
            Ok(Status::Blank)
        }
        None => tell(machine, Status::QD),
    }
}

/// Puts each PCB nowhere. This takes no memory.
fn leave_each(positions: &mut Vec<Position>)
    ensures { positions.new.items ≡ replicate (length positions.old.items) nowhere }
{
    for position in positions.iter_mut() {
        *position = Position::new();
    }
}
