//! How a region's work on a message ends.
ghost use Rattle.std.specs.Prelude.{◌≡◌, ◌≤◌, ◌-◌, ◌∷◌, None, IfOk, IfErr, IfSome, OnOk, OnErr, IsSome, IsSomeAnd, IsTrue, slice_set};
ghost use Rattle.std.specs.List.{list_all};
ghost use Rattle.model_system.specs.Programs.{is_statement};
ghost use Rattle.model_system.specs.Jobs.{job_of};
ghost use Rattle.model_messages.specs.Queue.{queued_message};
ghost use Rattle.model_machine.specs.declared.entry.ControlCall.TheVariants.{Turn};
ghost use Rattle.model_machine.specs.Machine.{IsRegion};
ghost use Rattle.model_machine.specs.Trial.WorkEnd.{Ends, Syncs, Abends};
ghost use Rattle.message_run.specs.WorkAhead.{end_of};
ghost use Rattle.lasting_state.specs.ToldSteps.{AreRecordsLonger as IsLongerStep, TellsStep as TablesTell};
ghost use Rattle.region_work.specs.WorkEnds.{destinations};
ghost use Rattle.region_work.specs.RegionWork.{outputs_by};
ghost use Rattle.tm_machine.specs.WorkEnds.{EndsSo, IsCompleted, MayCompleteWork, OfWork, completion_of};
ghost use Rattle.lasting_state.specs.UntoldSteps.{WhereFull};
ghost use Rattle.tm_machine.specs.SlotChanges.{TurnsSo};
ghost use Rattle.tm_machine.specs.ToldByCall.{IsCallLonger, TellsLastingStep};
ghost use Rattle.tm_machine.specs.Turns.{IsRegionTurned};

use crate::parts::Parts;
use lasting_state::{COUNT_LIMIT, Tables, Untold};
use message_run::Ending;
use model_machine::Turned;
use program_rows::Telling;
use region_work::{
    Busy, busy_at, complete, count_busy, discard, follow, follow_all, names_moved, next_message,
    outputs_by, pad_by, take,
};
use std::alloc::Global;
use system_types::System;
use tm_types::{AbendCode, Name};

impl Parts {
    /// Ends a region's work on its message, which has come to this end. The records of the step in
    /// this unit, of at most `room` bytes, are appended. A refusal changes nothing.
    pub fn finish(
        &mut self,
        region: u32,
        ending: Ending,
        telling: &mut Telling,
    ) -> Result<Turned, Untold>
        requires region { IsRegion self.old.system region }
        requires ends { EndsSo self.old region (end_of ending) }
        ensures turned { IfOk result (IsRegionTurned self.old self.new region) }
        ensures slots { IfOk result (TurnsSo self.old self.new telling.old.unit region) }
        ensures told { OnOk result (TellsLastingStep self.old.system self.old.moment telling.old.unit telling.old.room (Turn region) telling.old.told.items telling.new.told.items) }
        ensures err { OnErr result (self.new ≡ self.old) }
        ensures untold { OnErr result (telling.new.told.items ≡ telling.old.told.items) }
        ensures place { telling.new ≡ record telling.old { told = telling.new.told } }
        ensures full { IfErr result (WhereFull (IsCallLonger self.old.system self.old.moment telling.old.unit telling.old.room (Turn region))) }
    {
        match ending {
            Ending::End => self.complete(region, telling),
            Ending::Sync => self.go_on(region, telling),
            Ending::Abend(abend) => self.abend(region, abend, telling),
        }
    }

    /// Completes a message whose script has ended.
    fn complete(&mut self, region: u32, telling: &mut Telling) -> Result<Turned, Untold>
        requires region { IsRegion self.old.system region }
        requires ends { EndsSo self.old region Ends }
        ensures turned { IfOk result (IsRegionTurned self.old self.new region) }
        ensures slots { IfOk result (TurnsSo self.old self.new telling.old.unit region) }
        ensures told { OnOk result (TellsLastingStep self.old.system self.old.moment telling.old.unit telling.old.room (Turn region) telling.old.told.items telling.new.told.items) }
        ensures err { OnErr result (self.new ≡ self.old) }
        ensures untold { OnErr result (telling.new.told.items ≡ telling.old.told.items) }
        ensures place { telling.new ≡ record telling.old { told = telling.new.told } }
        ensures full { IfErr result (WhereFull (IsCallLonger self.old.system self.old.moment telling.old.unit telling.old.room (Turn region))) }
    {
        let busy = busy_at(&self.regions, region);
        let code = busy.code;
        let id = busy.id;
        let names = end_work(
            self.alloc,
            &mut self.regions,
            region,
            &mut self.tables,
            telling,
        )?;
        follow_all(&mut self.codes, &self.system, self.tables.queues(), &names);
        Ok(Turned::Done(code, id))
    }

    /// Completes a message whose script asks for a further one, and goes on with that, on the rows
    /// that the work on the first one leaves.
    fn go_on(&mut self, region: u32, telling: &mut Telling) -> Result<Turned, Untold>
        requires region { IsRegion self.old.system region }
        requires ends { EndsSo self.old region Syncs }
        ensures turned { IfOk result (IsRegionTurned self.old self.new region) }
        ensures slots { IfOk result (TurnsSo self.old self.new telling.old.unit region) }
        ensures told { OnOk result (TellsLastingStep self.old.system self.old.moment telling.old.unit telling.old.room (Turn region) telling.old.told.items telling.new.told.items) }
        ensures err { OnErr result (self.new ≡ self.old) }
        ensures untold { OnErr result (telling.new.told.items ≡ telling.old.told.items) }
        ensures place { telling.new ≡ record telling.old { told = telling.new.told } }
        ensures full { IfErr result (WhereFull (IsCallLonger self.old.system self.old.moment telling.old.unit telling.old.room (Turn region))) }
    {
        let busy = busy_at(&self.regions, region);
        let code = busy.code;
        let taken = busy.taken;
        let id = busy.id;
        if taken >= COUNT_LIMIT {
            return Err(Untold::Memory);
        }
        let count = count_busy(&self.regions);
        let names = end_work(
            self.alloc,
            &mut self.regions,
            region,
            &mut self.tables,
            telling,
        )?;
        let Some(next) = next_message(&self.system, &self.codes, &self.tables, &code, taken, count)
        else {
            follow_all(&mut self.codes, &self.system, self.tables.queues(), &names);
            return Ok(Turned::QC(code, id));
        };
        let busy = Busy {
            code,
            taken: taken + 1,
            id: next,
            unit: None,
        };
        take(&mut self.tables, &mut self.regions, region, busy);
        follow_all(&mut self.codes, &self.system, self.tables.queues(), &names);
        Ok(Turned::Next(code, id, next))
    }

    /// Discards a message whose script has ended abnormally; its origin is told so.
    fn abend(
        &mut self,
        region: u32,
        abend: AbendCode,
        telling: &mut Telling,
    ) -> Result<Turned, Untold>
        requires region { IsRegion self.old.system region }
        requires ends { EndsSo self.old region (Abends abend) }
        ensures turned { IfOk result (IsRegionTurned self.old self.new region) }
        ensures slots { IfOk result (TurnsSo self.old self.new telling.old.unit region) }
        ensures told { OnOk result (TellsLastingStep self.old.system self.old.moment telling.old.unit telling.old.room (Turn region) telling.old.told.items telling.new.told.items) }
        ensures err { OnErr result (self.new ≡ self.old) }
        ensures untold { OnErr result (telling.new.told.items ≡ telling.old.told.items) }
        ensures place { telling.new ≡ record telling.old { told = telling.new.told } }
        ensures full { IfErr result (WhereFull (IsCallLonger self.old.system self.old.moment telling.old.unit telling.old.room (Turn region))) }
    {
        let busy = busy_at(&self.regions, region);
        let code = busy.code;
        let id = busy.id;
        see_program(&self.system, &code);
        let origin = origin_of(&self.tables, id);
        discard(
            self.alloc,
            &mut self.regions,
            region,
            &mut self.tables,
            id,
            abend,
            telling,
        )?;
        // Where no terminal has the name of the origin, it is told as a code would be.
        let waiting = self.tables.queues().waiting(&origin);
        follow(&mut self.codes, &self.system, &origin, waiting);
        Ok(Turned::Abended(code, id, abend))
    }
}

/// Completes a region's work, and empties the region. The names are answered whose flags are to follow: that of the code, and those
/// to which outputs go.
fn end_work(
    alloc: Global,
    regions: &mut Vec<Option<Busy>>,
    region: u32,
    tables: &mut Tables,
    telling: &mut Telling,
) -> Result<Vec<Name>, Untold>
    requires positive { 1 ≤ region }
    requires may { MayCompleteWork tables.old regions.old.items region }
    ensures names { IfOk result (λ names. OfWork regions.old.items region (λ busy. names.items ≡ busy.code ∷ destinations (outputs_by busy.unit))) }
    ensures completed { OnOk result (OfWork regions.old.items region (λ busy. IsCompleted region busy tables.old tables.new)) }
    ensures told { OnOk result (OfWork regions.old.items region (λ busy. TablesTell telling.old.unit telling.old.room (completion_of region tables.old busy) tables.old telling.old.told.items telling.new.told.items)) }
    ensures full { IfErr result (WhereFull (OfWork regions.old.items region (λ busy. IsLongerStep telling.old.unit telling.old.room (completion_of region tables.old busy) tables.old))) }
    ensures regions { OnOk result (regions.new.items ≡ slice_set regions.old.items (region - 1) None) }
    ensures same { OnErr result (regions.new ≡ regions.old) }
    ensures err { OnErr result (tables.new ≡ tables.old) }
    ensures untold { OnErr result (telling.new.told.items ≡ telling.old.told.items) }
    ensures place { telling.new ≡ record telling.old { told = telling.new.told } }
{
    let busy = busy_at(regions.as_slice(), region);
    let id = busy.id;
    let outputs = outputs_by(alloc, busy)?;
    let pad = pad_by(alloc, busy)?;
    let names = names_moved(alloc, &busy.code, &outputs)?;
    complete(regions, region, tables, id, outputs, pad, telling)?;
    Ok(names)
}

/// The terminal from which the message of this id comes.
fn origin_of(tables: &Tables, id: u64) -> Name
    requires { IsSome (queued_message id tables.now.queues.queued) }
    ensures { IsSomeAnd (queued_message id tables.now.queues.queued) (λ message. result ≡ message.origin) }
{
    let Some(message) = tables.queues().find(id) else {
        unreachable!()
    };
    message.origin
}

/// The statements of the program that serves a code are ones that there are; so the number of an abend is one too.
fn see_program(system: &System, code: &Name)
    ensures { IfSome (job_of system.now code.now) (λ job. IsTrue (list_all (λ line. is_statement line.statement) job.lines)) }
{
    match system.job(code) {
        Some(job) => {
            let _lines = job.program.lines();
        }
        None => {}
    }
}
