//! The turns of the regions.
ghost use Rattle.std.specs.Prelude.{◌≡◌, ◌<◌, ℕ, length, false, Ok, IfOk, IfErr, IfSome, OnOk, OnErr, None};
ghost use Rattle.model_machine.specs.declared.entry.Entry.TheVariants.{Turn as TurnEntry};
ghost use Rattle.model_machine.specs.Machine.{IsRegion, slot_at};
ghost use Rattle.model_machine.specs.MachineCalls.{need_now};
ghost use Rattle.lasting_state.specs.UntoldSteps.{WhereFull};
ghost use Rattle.tm_machine.specs.Answers.{Answers};
ghost use Rattle.message_run.specs.MessageChanges.{TellsNext, IsQuietUnlessCalled};
ghost use Rattle.log_records.specs.ToldRecords.{spelled_records};
ghost use Rattle.tm_machine.specs.SlotChanges.{changes_told, IsTurnLonger, TellByCall, TurnTells, TurnsSo};
ghost use Rattle.tm_machine.specs.ToldByCall.{ends_work};
ghost use Rattle.tm_machine.specs.Turns.{RegionGoes, IsRegionTurned, waited};

use crate::parts::Parts;
use lasting_state::Untold;
use message_run::Advanced;
use model_data::Victims;
use model_machine::Turned;
use msg_queues::SLOT_ROOM;
use program_rows::Telling;
use region_work::{Busy, advance, count_busy, follow, take};
use tm_types::Resource;
use tran_pick::pick;

impl Parts {
    /// Lets a region do its next step. The records of what it changes in the databases or of what lasts of it, in this unit
    /// and of at most `room` bytes, are appended. A refusal changes nothing; `Memory` is answered too where a count would
    /// pass its limit.
    pub fn turn(&mut self, region: u32, telling: &mut Telling) -> Result<Turned, Untold>
        requires { IsRegion self.old.system region }
        ensures answer { IfOk result (λ turned. Answers self.old self.new (TurnEntry region (Ok turned))) }
        ensures told { OnOk result (TurnTells self.old telling.old.unit telling.old.room region telling.old.told.items telling.new.told.items) }
        ensures slots { IfOk result (TurnsSo self.old self.new telling.old.unit region) }
        ensures calls { IfOk result (TellByCall (changes_told self.old telling.old.unit region)) }
        ensures err { OnErr result (self.new ≡ self.old) }
        ensures untold { OnErr result (telling.new.told.items ≡ telling.old.told.items) }
        ensures place { telling.new ≡ record telling.old { told = telling.new.told } }
        ensures full { IfErr result (WhereFull (IsTurnLonger self.old telling.old.unit telling.old.room region)) }
    {
        match self.step(region, telling) {
            Ok(turned) => Ok(turned),
            Err(untold) => Err(untold),
        }
    }

    /// The same by the region's own steps.
    fn step(&mut self, region: u32, telling: &mut Telling) -> Result<Turned, Untold>
        requires { IsRegion self.old.system region }
        ensures turned { IfOk result (IsRegionTurned self.old self.new region) }
        ensures told { OnOk result (TurnTells self.old telling.old.unit telling.old.room region telling.old.told.items telling.new.told.items) }
        ensures slots { IfOk result (TurnsSo self.old self.new telling.old.unit region) }
        ensures calls { IfOk result (TellByCall (changes_told self.old telling.old.unit region)) }
        ensures err { OnErr result (self.new ≡ self.old) }
        ensures untold { OnErr result (telling.new.told.items ≡ telling.old.told.items) }
        ensures place { telling.new ≡ record telling.old { told = telling.new.told } }
        ensures full { IfErr result (WhereFull (IsTurnLonger self.old telling.old.unit telling.old.room region)) }
    {
        match self.advance(region, telling) {
            Ok(None) => Ok(self.schedule(region)),
            Ok(Some(Advanced::Called(function, pcb, status))) => {
                Ok(Turned::Called(function, pcb, status))
            }
            Ok(Some(Advanced::Ended(ending))) => self.finish(region, ending, telling),
            Ok(Some(Advanced::Waits(resource, by))) => {
                let victims = self.break_rings(region);
                Ok(waited(resource, by, victims))
            }
            Err(untold) => Err(untold),
        }
    }

    /// Lets the script of a region go on to its next call, and answers that; nothing where the region
    /// is empty. What the call changes in the databases is told.
    fn advance(&mut self, region: u32, telling: &mut Telling) -> Result<Option<Advanced>, Untold>
        requires { IsRegion self.old.system region }
        ensures ok { IfOk result (RegionGoes self.old self.new region) }
        ensures tells { OnOk result (TellsNext telling.old.unit telling.old.room region self.old.databases self.new.databases telling.old.told.items telling.new.told.items (changes_told self.old telling.old.unit region)) }
        ensures quiet { IfOk result (λ advanced. IfSome advanced (IsQuietUnlessCalled telling.old.told.items telling.new.told.items)) }
        ensures err { OnErr result (self.new ≡ self.old) }
        ensures untold { OnErr result (telling.new.told.items ≡ telling.old.told.items) }
        ensures place { telling.new ≡ record telling.old { told = telling.new.told } }
        ensures full { IfErr result (WhereFull (telling.old.room < length (spelled_records (changes_told self.old telling.old.unit region)))) }
    {
        advance(
            self.alloc,
            &self.system,
            region,
            &mut self.tables,
            &mut self.regions[region as usize - 1],
            telling,
        )
    }

    /// What the queues need for one more region at work.
    pub(crate) fn slot_need(&self) -> u64
        ensures { result ≡ need_now self.now.moment }
    {
        let busy = u64::from(count_busy(&self.regions));
        self.tables.content() + SLOT_ROOM * (busy + 1)
    }

    /// Takes the message that is picked, if the region is empty. This takes no memory.
    fn schedule(&mut self, region: u32) -> Turned
        requires region { IsRegion self.old.system region }
        requires empty { slot_at self.old.moment region ≡ None }
        ensures turned { IsRegionTurned self.old self.new region result }
        ensures quiet { ends_work result ≡ false }
        ensures slots { (unit : ℕ) → TurnsSo self.old self.new unit region result }
    {
        let Some(picked) = pick(&self.system, region, &self.codes, self.tables.queues()) else {
            return Turned::Idle;
        };
        let need = self.slot_need();
        let limit = u64::from(self.tables.queues().limit());
        if need > limit {
            return Turned::Held(need, limit);
        }
        let (code, id) = (picked.code, picked.id);
        let busy = Busy {
            code,
            taken: 1,
            id,
            unit: None,
        };
        take(&mut self.tables, &mut self.regions, region, busy);
        let waiting = self.tables.queues().waiting(&code);
        follow(&mut self.codes, &self.system, &code, waiting);
        Turned::Scheduled(code, id)
    }
}

/// What a region that waits is answered, where these regions gave way.
fn waited(resource: Resource, by: u32, victims: Victims) -> Turned
    ensures value { result ≡ waited resource by victims }
    ensures quiet { ends_work result ≡ false }
{
    if victims.as_slice().is_empty() {
        Turned::Waits(resource, by)
    } else {
        Turned::Backed(victims)
    }
}
