//! The end of a region's work on a message.
ghost use Rattle.std.specs.Prelude.{◌≡◌, ◌≤◌, ◌-◌, ◌∷◌, None, Some, length, slice_get, slice_set, IfOk, IfErr, OnOk, OnErr, IsSome, IsSomeAnd};
ghost use Rattle.model_messages.specs.Queue.{AreInOrder, IsNewId, queued_message, queued_at};
ghost use Rattle.model_machine.specs.LastingSteps.{abend_outputs, discarded_pad};
ghost use Rattle.model_machine.specs.LastingSteps.LastingStep.{Completes, Discards};
ghost use Rattle.log_records.specs.RecordSpelling.{IsAbend};
ghost use Rattle.lasting_state.specs.RecordRanges.{HaveCounts, HasShortPad};
ghost use Rattle.lasting_state.specs.UntoldSteps.{WhereFull};
ghost use Rattle.program_rows.specs.DatabasesState.{committed_rows, dbds_of, region_at, AreRowsOf, IsRegionOf};
ghost use Rattle.program_rows.specs.CallAnswers.{IsCommitted, IsGivenUp};
ghost use Rattle.lasting_state.specs.Tables.{given_back, with_databases, Applies, IsMessageClosed};
ghost use Rattle.lasting_state.specs.ToldSteps.{AreRecordsLonger, TellsStep};
ghost use Rattle.region_work.specs.WorkEnds.{destinations};

use crate::region::Busy;
use lasting_state::{Tables, Untold};
use model_messages::{EndedMessage, PadChange};
use program_rows::Telling;
use std::alloc::Global;
use std::collections::VecDeque;
use tm_types::{AbendCode, Memory, Name};

/// The code of a message, and the names to which outputs go.
pub fn names_moved(
    alloc: Global,
    code: &Name,
    outputs: &VecDeque<EndedMessage>,
) -> Result<Vec<Name>, Memory>
    ensures { IfOk result (λ names. names.items ≡ code.now ∷ destinations outputs.now.items) }
{
    let mut names = Vec::new(alloc);
    names.push(*code)?;
    for place in 0..outputs.len() {
        names.push(outputs[place].to)?;
    }
    Ok(names)
}

/// Completes the message of this id, and empties its region; this becomes of the pad of its origin. The records of
/// this unit, of at most `room` bytes, are appended. A refusal changes nothing.
pub fn complete(
    regions: &mut Vec<Option<Busy>>,
    region: u32,
    tables: &mut Tables,
    id: u64,
    outputs: VecDeque<EndedMessage>,
    pad: PadChange,
    telling: &mut Telling,
) -> Result<(), Untold>
    requires positive { 1 ≤ region }
    requires defined { region ≤ length regions.old.items }
    requires works { IsRegionOf tables.old.databases region }
    requires found { IsSome (queued_at id tables.old.queues.queued) }
    requires counts { HaveCounts outputs.items }
    requires pad { HasShortPad pad }
    ensures regions { OnOk result (regions.new.items ≡ slice_set regions.old.items (region - 1) None) }
    ensures told { OnOk result (TellsStep telling.old.unit telling.old.room (Completes id (region_at region tables.old.databases).rows outputs.items pad) tables.old telling.old.told.items telling.new.told.items) }
    ensures untold { OnErr result (telling.new.told.items ≡ telling.old.told.items) }
    ensures place { telling.new ≡ record telling.old { told = telling.new.told } }
    ensures full { IfErr result (WhereFull (AreRecordsLonger telling.old.unit telling.old.room (Completes id (region_at region tables.old.databases).rows outputs.items pad) tables.old)) }
    ensures step { OnOk result (Applies (Completes id (region_at region tables.old.databases).rows outputs.items pad) tables.old tables.new) }
    ensures closed { OnOk result (IsMessageClosed tables.new.databases (λ _. pad) (λ _. outputs.items) tables.old tables.new id) }
    ensures databases { OnOk result (IsCommitted region tables.old.databases tables.new.databases) }
    ensures rows { OnOk result (AreRowsOf (dbds_of tables.new.databases) (committed_rows tables.new.databases)) }
    ensures dbds { dbds_of tables.new.databases ≡ dbds_of tables.old.databases }
    ensures same { OnErr result (regions.new ≡ regions.old) }
    ensures err { OnErr result (tables.new ≡ tables.old) }
    ensures above { OnOk result (IsNewId tables.old.next_id tables.old.queues.queued) }
{
    tables.complete(region, id, outputs, pad, telling)?;
    empty(&mut regions[region as usize - 1]);
    Ok(())
}

/// Discards the message of this id, the work on which ended abnormally, and empties its region. The record of this
/// unit, of at most `room` bytes, is appended. A refusal changes nothing.
pub fn discard(
    alloc: Global,
    regions: &mut Vec<Option<Busy>>,
    region: u32,
    tables: &mut Tables,
    id: u64,
    abend: AbendCode,
    telling: &mut Telling,
) -> Result<(), Untold>
    requires positive { 1 ≤ region }
    requires defined { region ≤ length regions.old.items }
    requires works { IsRegionOf tables.old.databases region }
    requires found { IsSome (queued_at id tables.old.queues.queued) }
    requires abend { IsAbend abend.number }
    ensures regions { OnOk result (regions.new.items ≡ slice_set regions.old.items (region - 1) None) }
    ensures told { OnOk result (TellsStep telling.old.unit telling.old.room (Discards id abend) tables.old telling.old.told.items telling.new.told.items) }
    ensures untold { OnErr result (telling.new.told.items ≡ telling.old.told.items) }
    ensures place { telling.new ≡ record telling.old { told = telling.new.told } }
    ensures full { IfErr result (WhereFull (AreRecordsLonger telling.old.unit telling.old.room (Discards id abend) tables.old)) }
    ensures step { OnOk result (Applies (Discards id abend) tables.old tables.new) }
    ensures closed { OnOk result (IsMessageClosed tables.new.databases discarded_pad (λ message. abend_outputs message abend) tables.old tables.new id) }
    ensures databases { OnOk result (IsGivenUp region tables.old.databases tables.new.databases) }
    ensures dbds { dbds_of tables.new.databases ≡ dbds_of tables.old.databases }
    ensures same { OnErr result (regions.new ≡ regions.old) }
    ensures err { OnErr result (tables.new ≡ tables.old) }
    ensures above { OnOk result (IsNewId tables.old.next_id tables.old.queues.queued) }
{
    tables.discard(alloc, region, id, abend, telling)?;
    empty(&mut regions[region as usize - 1]);
    Ok(())
}

/// Takes the message of this id back from its region, which gives way. This takes no memory.
pub fn give_up(regions: &mut Vec<Option<Busy>>, region: u32, tables: &mut Tables, id: u64)
    requires positive { 1 ≤ region }
    requires defined { region ≤ length regions.old.items }
    requires works { IsRegionOf tables.old.databases region }
    requires held { IsSomeAnd (queued_at id tables.old.queues.queued) (λ q. IsSome q.holder) }
    ensures regions { regions.new.items ≡ slice_set regions.old.items (region - 1) None }
    ensures tables { tables.new ≡ with_databases (given_back tables.old id) tables.new.databases }
    ensures databases { IsGivenUp region tables.old.databases tables.new.databases }
    ensures dbds { dbds_of tables.new.databases ≡ dbds_of tables.old.databases }
    ensures ordered { AreInOrder tables.old.queues.queued }
{
    tables.give_up(region, id);
    empty(&mut regions[region as usize - 1]);
}

fn empty(region: &mut Option<Busy>)
    ensures { region.new ≡ None }
{
    *region = None;
}

/// The code of the message of this id.
pub fn code_of(tables: &Tables, id: u64) -> Name
    requires { IsSome (queued_message id tables.now.queues.queued) }
    ensures { IsSomeAnd (queued_message id tables.now.queues.queued) (λ message. result ≡ message.code) }
{
    let Some(message) = tables.queues().find(id) else {
        unreachable!()
    };
    message.code
}

/// The work of the region of this number.
pub fn busy_at(regions: &[Option<Busy>], region: u32) -> &Busy
    requires positive { 1 ≤ region }
    requires busy { IsSomeAnd (slice_get regions.now (region - 1)) IsSome }
    ensures { slice_get regions.now (region - 1) ≡ Some (Some result.now) }
{
    let Some(Some(busy)) = regions.get(region as usize - 1) else {
        unreachable!()
    };
    busy
}
