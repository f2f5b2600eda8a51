//! A call of which a step may last.
ghost use Rattle.std.specs.Prelude.{◌≡◌, ◌<◌, ◌≤◌, ◌*◌, length, true, None, IfErr, IfOk, OnErr, OnOk};
ghost use Rattle.model_machine.specs.History.{IsCall};
ghost use Rattle.openings.specs.Faults.{fault_in};
ghost use Rattle.lasting_state.specs.UntoldSteps.{WhereFull};
ghost use Rattle.journal.specs.CountRanges.{AreCountsInRange};
ghost use Rattle.logged_machine.specs.ToldCalls.{IsCallWithin, own_bytes};
ghost use Rattle.logged_machine.specs.RecordsBehindLog.{HasRoomInArea};
ghost use Rattle.logged_machine.specs.LoggedState.{LastsNow, machine_spent_now};
ghost use Rattle.logged_machine.specs.CallOutcome.{CrashesIntoPending, KeepsMachine, MachineGoesBy, PendsBy};
ghost use Rattle.logged_machine.specs.Attempts.{CountsSince, Done, DoneFrugally, Tried};
ghost use Rattle.logged_machine.specs.CheckpointDue.{TakesCheckpointWhereDue, Raises};

use crate::due::DueCall;
use crate::logged::LoggedMachine;
use crate::refreshing::is_memory;
use crate::rooms::room_left;
use crate::telling::tell;
use log_records::Untold;
use model_machine::ControlFault;
use tm_disk::Disk;

impl<D: Disk> LoggedMachine<D> {
    /// Does a call, and appends what lasts of it; nothing is forced but by a checkpoint, which is taken before it where one is due. A
    /// fault in the answer's place is the disk's, or want of memory, which has changed nothing and written nothing.
    pub fn serve<C: DueCall>(&mut self, call: &C) -> C::Answer
        requires call { IsCall self.old.machine.system (C.call call.now) }
        requires served { self.old.served ≡ true }
        requires unspent { machine_spent_now self.old ≡ None }
        ensures goes { MachineGoesBy D.state (fault_in (C.entry call.now result)) self.old self.new (C.entry call.now result) }
        ensures crash { CrashesIntoPending D.state self.old self.new }
        ensures pends { PendsBy D.state (fault_in (C.entry call.now result)) (C.call call.now) self.old self.new }
        ensures lasts { LastsNow D.state self.new }
        ensures keeps { KeepsMachine D.state self.old self.new }
        ensures counts { CountsSince D.state (2 * self.old.machine.system.logs) self.old self.new }
        ensures frugal { TakesCheckpointWhereDue D.state (fault_in (C.entry call.now result)) self.old.machine self.old.units (C.call call.now) self.old.journal self.new.journal self.old.disk self.new.disk }
        ensures raises { self.new.served ≡ true → Raises (2 * self.old.machine.system.logs) self.old.journal self.new.journal self.old.next_unit self.new.next_unit }
    {
        let _before = self.is_served();
        let answer = self.serve_any(call);
        let _behind = self.is_served();
        answer
    }

    /// The same, by what it does.
    fn serve_any<C: DueCall>(&mut self, call: &C) -> C::Answer
        requires call { IsCall self.old.machine.system (C.call call.now) }
        requires served { self.old.served ≡ true }
        requires counted { AreCountsInRange 0 self.old.machine.moment.lasting self.old.next_unit self.old.journal }
        ensures did { DoneFrugally D.state (fault_in (C.entry call.now result)) self.old self.new (C.entry call.now result) }
    {
        if !call.is_within() {
            return call.fault(ControlFault::Memory);
        }
        let room = room_left(&self.journal);
        match self.serve_once(call, room) {
            Ok(answer) => answer,
            Err(Untold::Memory) => call.fault(ControlFault::Memory),
            Err(Untold::Full) => self.serve_behind(call),
        }
    }

    /// The same behind a checkpoint.
    fn serve_behind<C: DueCall>(&mut self, call: &C) -> C::Answer
        requires call { IsCall self.old.machine.system (C.call call.now) }
        requires within { IsCallWithin (C.call call.now) }
        requires served { self.old.served ≡ true }
        requires counted { AreCountsInRange 0 self.old.machine.moment.lasting self.old.next_unit self.old.journal }
        ensures did { Done D.state (fault_in (C.entry call.now result)) self.old self.new (C.entry call.now result) }
    {
        let steps = self.parts.steps();
        let done = call.due(
            self.alloc,
            &mut self.parts,
            &mut self.journal,
            &mut self.disk,
            self.units.as_slice(),
            self.next_unit,
        );
        let answer = match done {
            Ok(answer) => answer,
            Err(fault) => {
                self.served = is_memory(&fault);
                return call.fault(fault);
            }
        };
        self.forced = steps;
        call.note(&mut self.units, &mut self.next_unit, &answer);
        answer
    }

    /// One attempt, with so much room for records. Nothing is written.
    fn serve_once<C: DueCall>(&mut self, call: &C, room: usize) -> Result<C::Answer, Untold>
        requires call { IsCall self.old.machine.system (C.call call.now) }
        requires within { IsCallWithin (C.call call.now) }
        requires served { self.old.served ≡ true }
        requires counted { AreCountsInRange 0 self.old.machine.moment.lasting self.old.next_unit self.old.journal }
        requires room { HasRoomInArea room self.old.journal.log }
        ensures did { IfOk result (λ answer. Tried D.state self.old self.new (C.entry call.now answer)) }
        ensures same { OnErr result (self.new ≡ self.old) }
        ensures fits { OnOk result (length (own_bytes self.old.machine self.old.units (C.call call.now)) ≤ room) }
        ensures full { IfErr result (WhereFull (room < length (own_bytes self.old.machine self.old.units (C.call call.now)))) }
    {
        let answer = tell(
            self.alloc,
            &mut self.parts,
            &mut self.journal,
            self.units.as_slice(),
            call,
            room,
        )?;
        call.note(&mut self.units, &mut self.next_unit, &answer);
        Ok(answer)
    }
}
