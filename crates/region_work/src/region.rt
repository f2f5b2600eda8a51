//! What a region works on.
ghost use Rattle.std.specs.Prelude.{◌≡◌, ◌≤◌, ◌-◌, ℕ, None, slice_set, ◌<◌, ◌^◌, length, count_by, is_some, IfOk, IfErr, OnErr, OnOk, IfSome, Some, IsSome, IsSomeAnd};
ghost use Rattle.std.specs.Option.{option_copied};
ghost use Rattle.io_pcb.specs.Pads.{lent_pad};
ghost use Rattle.model_messages.specs.Queue.{messages_of, queued_at};
ghost use Rattle.model_system.specs.Jobs.{job_of};
ghost use Rattle.system_types.specs.Jobs.{lent_job};
ghost use Rattle.system_types.specs.ValidSystem.{IsServable};
ghost use Rattle.lasting_state.specs.Tables.{message_held};
ghost use Rattle.program_rows.specs.DatabasesState.{dbds_of, IsRegionOf};
ghost use Rattle.message_run.specs.RunState.{AreStanding};
ghost use Rattle.message_run.specs.WorkAhead.{IsStart, StaysUnlessCalled, StayOthers};
ghost use Rattle.message_run.specs.MessageChanges.{TellsNext, IsQuietUnlessCalled};
ghost use Rattle.log_records.specs.ToldRecords.{spelled_records};
ghost use Rattle.lasting_state.specs.UntoldSteps.{WhereFull};
ghost use Rattle.region_work.specs.RegionWork.{given_in, HasPad, HavePads, IsQueuedWork, IsStarted, GoesSo, TellsSo, IsLongerSo, NextTells, RegionSteps, SameWork, SuitsUnit, outputs_by, pad_by, pad_in};

use io_pcb::LentPad;
use lasting_state::{Tables, Untold};
use message_run::{Advanced, Run};
use model_messages::{EndedMessage, PadChange};
use program_rows::{Databases, Telling};
use std::alloc::Global;
use std::collections::VecDeque;
use system_types::{Job, System};
use tm_types::{Bytes, Memory, Message, Name};

/// The work of a region on a message.
#[derive(Debug, Drop)]
pub struct Busy {
    pub code: Name,
    /// How many messages the region has taken in a row, this one among them.
    pub taken: u64,
    /// The message's id.
    pub id: u64,
    /// The work as it has come so far. It is started by the first turn, so that taking a message needs
    /// no memory.
    pub unit: Option<Run>,
}

/// What serves the messages of a code of the system.
fn job_of<'a>(system: &'a System, code: &Name) -> Job<'a>
    requires { IsSome (job_of system.now code.now) }
    ensures value { job_of system.now code.now ≡ Some (lent_job system.now result) }
    ensures servable { IsServable system.now.databases result.pcbs.now result.program.now }
{
    let Some(job) = system.job(code) else {
        unreachable!()
    };
    job
}

/// The work on a message of a code, whose script has made no call yet.
fn start_unit(
    alloc: Global,
    system: &System,
    tables: &Tables,
    code: &Name,
    message: &Message,
) -> Result<Run, Memory>
    requires job { IsSome (job_of system.now code.now) }
    requires pad { HasPad tables.now.conversations message.now }
    ensures { IfOk result (λ unit. IsSomeAnd (job_of system.now code.now) (λ job. IsStart job (given_in tables.now.conversations message.now) unit)) }
{
    let pad = pad_of(tables, message);
    Run::start(alloc, &job_of(system, code), message, pad)
}

/// The pad of the conversation that a message belongs to, where it belongs to one.
fn pad_of<'a>(tables: &'a Tables, message: &Message) -> Option<&'a [u8]>
    ensures { option_copied result ≡ pad_in tables.now.conversations message.now }
{
    if message.conversation {
        tables.conversations().pad(&message.origin)
    } else {
        None
    }
}

/// Starts the work of a region on its message, where it wasn't started. Want of memory leaves it so.
fn start(alloc: Global, system: &System, tables: &Tables, busy: &mut Busy) -> Result<(), Memory>
    requires work { (region : ℕ) × IsQueuedWork system.now tables.now region busy.old }
    requires pads { HavePads tables.now.conversations (messages_of tables.now.queues.queued) }
    requires databases { dbds_of tables.now.databases ≡ system.now.databases }
    ensures started { OnOk result (IsSomeAnd busy.new.unit (IsStarted system.now tables.now busy.old)) }
    ensures same { busy.new ≡ record busy.old { unit = busy.new.unit } }
    ensures err { OnErr result (busy.new ≡ busy.old) }
{
    if busy.unit.is_some() {
        return Ok(());
    }
    let Some(message) = tables.queues().find(busy.id) else {
        unreachable!()
    };
    busy.unit = Some(start_unit(alloc, system, tables, &busy.code, message)?);
    Ok(())
}

/// Lets the script of a code go on to its next call, and answers that. An Err changes nothing. What the call changes in the
/// databases is told of by the unit's number in the log; where that is longer than `room`, the answer is `Full`.
fn advance_unit(
    system: &System,
    region: u32,
    code: &Name,
    databases: &mut Databases,
    run: &mut Run,
    telling: &mut Telling,
) -> Result<Advanced, Untold>
    requires region { IsRegionOf databases.old region }
    requires databases { dbds_of databases.old ≡ system.now.databases }
    requires code { IsSomeAnd (job_of system.now code.now) (λ job. AreStanding system.now.databases job.pcbs run.old.positions) }
    ensures advances { IfOk result (GoesSo system.now region code.now databases.old databases.new run.old run.new) }
    ensures stays { IfOk result (StaysUnlessCalled databases.old databases.new) }
    ensures unchanged { OnErr result (run.new ≡ run.old) }
    ensures kept { OnErr result (databases.new ≡ databases.old) }
    ensures others { StayOthers region databases.old databases.new }
    ensures tells { OnOk result (TellsSo system.now region code.now databases.old databases.new run.old telling.old.unit telling.old.room telling.old.told.items telling.new.told.items) }
    ensures quiet { IfOk result (IsQuietUnlessCalled telling.old.told.items telling.new.told.items) }
    ensures untold { OnErr result (telling.new.told.items ≡ telling.old.told.items) }
    ensures place { telling.new ≡ record telling.old { told = telling.new.told } }
    ensures full { IfErr result (WhereFull (IsLongerSo system.now region code.now databases.old run.old telling.old.unit telling.old.room)) }
{
    let job = job_of(system, code);
    match run.advance(system, &job, region, databases, telling) {
        Ok(advanced) => Ok(advanced),
        Err(untold) => Err(untold),
    }
}

/// Lets the script of a region that has a message go on, as `advance`.
fn advance_busy(
    alloc: Global,
    system: &System,
    region: u32,
    tables: &mut Tables,
    busy: &mut Busy,
    telling: &mut Telling,
) -> Result<Advanced, Untold>
    requires region { IsRegionOf tables.old.databases region }
    requires work { IsQueuedWork system.now tables.old region busy.old }
    requires pads { HavePads tables.old.conversations (messages_of tables.old.queues.queued) }
    requires databases { dbds_of tables.old.databases ≡ system.now.databases }
    ensures steps { IfOk result (λ advanced. RegionSteps system.now region tables.old tables.new.databases (Some busy.old) (Some busy.new) (Some advanced)) }
    ensures tables { tables.new ≡ record tables.old { databases = tables.new.databases } }
    ensures stays { IfOk result (StaysUnlessCalled tables.old.databases tables.new.databases) }
    ensures others { StayOthers region tables.old.databases tables.new.databases }
    ensures err { OnErr result (SameWork system.now region tables.old (Some busy.old) (Some busy.new)) }
    ensures kept { OnErr result (tables.new ≡ tables.old) }
    ensures tells { OnOk result (NextTells system.now region telling.old.unit tables.old (TellsNext telling.old.unit telling.old.room region tables.old.databases tables.new.databases telling.old.told.items telling.new.told.items) (Some busy.old)) }
    ensures quiet { IfOk result (IsQuietUnlessCalled telling.old.told.items telling.new.told.items) }
    ensures untold { OnErr result (telling.new.told.items ≡ telling.old.told.items) }
    ensures place { telling.new ≡ record telling.old { told = telling.new.told } }
    ensures full { IfErr result (WhereFull (NextTells system.now region telling.old.unit tables.old (λ records. telling.old.room < length (spelled_records records)) (Some busy.old))) }
{
    start(alloc, system, tables, busy)?;
    match &mut busy.unit {
        Some(run) => advance_unit(
            system,
            region,
            &busy.code,
            tables.databases_mut(),
            run,
            telling,
        ),
        None => unreachable!(),
    }
}

/// Lets the script of a region go on to its next call, and answers that; nothing where the region
/// is empty. After an Err the work is as far as before. What the call changes in the databases is told of by the unit's
/// number in the log; where that is longer than `room`, the answer is `Full`.
pub fn advance(
    alloc: Global,
    system: &System,
    region: u32,
    tables: &mut Tables,
    work: &mut Option<Busy>,
    telling: &mut Telling,
) -> Result<Option<Advanced>, Untold>
    requires region { IsRegionOf tables.old.databases region }
    requires work { IfSome work.old (IsQueuedWork system.now tables.old region) }
    requires pads { HavePads tables.old.conversations (messages_of tables.old.queues.queued) }
    requires databases { dbds_of tables.old.databases ≡ system.now.databases }
    ensures steps { IfOk result (RegionSteps system.now region tables.old tables.new.databases work.old work.new) }
    ensures tables { tables.new ≡ record tables.old { databases = tables.new.databases } }
    ensures stays { IfOk result (λ advanced. IfSome advanced (StaysUnlessCalled tables.old.databases tables.new.databases)) }
    ensures others { StayOthers region tables.old.databases tables.new.databases }
    ensures err { OnErr result (SameWork system.now region tables.old work.old work.new) }
    ensures kept { OnErr result (tables.new ≡ tables.old) }
    ensures tells { OnOk result (NextTells system.now region telling.old.unit tables.old (TellsNext telling.old.unit telling.old.room region tables.old.databases tables.new.databases telling.old.told.items telling.new.told.items) work.old) }
    ensures quiet { IfOk result (λ advanced. IfSome advanced (IsQuietUnlessCalled telling.old.told.items telling.new.told.items)) }
    ensures untold { OnErr result (telling.new.told.items ≡ telling.old.told.items) }
    ensures place { telling.new ≡ record telling.old { told = telling.new.told } }
    ensures full { IfErr result (WhereFull (NextTells system.now region telling.old.unit tables.old (λ records. telling.old.room < length (spelled_records records)) work.old)) }
{
    let Some(busy) = work else {
        return Ok(None);
    };
    match advance_busy(alloc, system, region, tables, busy, telling) {
        Ok(advanced) => Ok(Some(advanced)),
        Err(error) => Err(error),
    }
}

/// What a region's work sends at its end; one that wasn't started sends nothing.
pub fn outputs_by(alloc: Global, busy: &Busy) -> Result<VecDeque<EndedMessage>, Memory>
    ensures { IfOk result (λ outputs. outputs.items ≡ outputs_by busy.now.unit) }
{
    match &busy.unit {
        Some(unit) => unit.outputs(),
        None => Ok(VecDeque::new(alloc)),
    }
}

/// What a region's work leaves of the pad at its end; one that wasn't started leaves it as it was.
pub fn pad_by(alloc: Global, busy: &Busy) -> Result<PadChange, Memory>
    ensures value { IfOk result (λ pad. pad ≡ pad_by busy.now.unit) }
    ensures suits { SuitsUnit busy.now.unit (pad_by busy.now.unit) }
{
    match &busy.unit {
        Some(unit) => copied(alloc, unit.pad_change()),
        None => Ok(PadChange::Stays),
    }
}

/// A copy of what is lent.
fn copied(alloc: Global, lent: LentPad<'_>) -> Result<PadChange, Memory>
    ensures { IfOk result (λ pad. pad ≡ lent_pad lent.entry) }
{
    match lent {
        LentPad::Stays => Ok(PadChange::Stays),
        LentPad::New(text) => Ok(PadChange::New(Bytes::copied(alloc, text)?)),
        LentPad::Ends => Ok(PadChange::Ends),
    }
}

/// How many regions have a message.
#[tactic(auto, using(crate::proofs::Counting::counted_steps))]
pub fn count_busy(regions: &[Option<Busy>]) -> u32
    requires { length regions.now < 2 ^ 32 }
    ensures { result ≡ count_by is_some regions.now }
{
    let mut busy = 0;
    for region in regions {
        if region.is_some() {
            busy += 1;
        }
    }
    busy
}

/// Gives a message that no region has to the region of this number, which is to work on it. This takes
/// no memory.
pub fn take(tables: &mut Tables, regions: &mut Vec<Option<Busy>>, region: u32, busy: Busy)
    requires free { IsSomeAnd (queued_at busy.id tables.old.queues.queued) (λ q. q.holder ≡ None) }
    requires positive { 1 ≤ region }
    requires defined { region ≤ length regions.old.items }
    ensures tables { tables.new ≡ message_held tables.old busy.id region }
    ensures regions { regions.new.items ≡ slice_set regions.old.items (region - 1) (Some busy) }
{
    tables.hold(busy.id, region);
    put(&mut regions[region as usize - 1], busy);
}

fn put(region: &mut Option<Busy>, busy: Busy)
    ensures { region.new ≡ Some busy }
{
    *region = Some(busy);
}
