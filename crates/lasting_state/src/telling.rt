//! Lasting steps that are told in records.
//!
//! What a step does is told before anything is changed, where it fits; a step that fails is told no more.
ghost use Rattle.std.specs.Prelude.{◌≡◌, ◌<◌, ◌≤◌, ◌^◌, [], ◌∷◌, true, IfOk, IfErr, IfSome, OnOk, OnErr, IsSome, Some, length, slice_get};
ghost use Rattle.std.specs.Option.{option_copied};
ghost use Rattle.model_messages.specs.Queue.{IsNewId, queued_at};
ghost use Rattle.model_messages.specs.Outputs.{next_of};
ghost use Rattle.model_machine.specs.Machine.{output_at, terminal_place};
ghost use Rattle.model_machine.specs.LastingSteps.{abend_outputs, discarded_pad};
ghost use Rattle.model_machine.specs.LastingSteps.LastingStep.{Completes, Discards};
ghost use Rattle.log_records.specs.declared.record.Record.TheVariants.{Input};
ghost use Rattle.log_records.specs.RecordSpelling.{IsAbend, IsCount};
ghost use Rattle.log_records.specs.ToldRecords.{AreRecordsUntold, TellsInRoom as RecordsTell};
ghost use Rattle.program_rows.specs.DatabasesState.{committed_rows, dbds_of, region_at, AreRowsOf, IsRegionOf};
ghost use Rattle.program_rows.specs.CallAnswers.{IsCommitted, IsGivenUp};
ghost use Rattle.lasting_state.specs.RecordRanges.{HaveCounts, HasShortPad};
ghost use Rattle.lasting_state.specs.UntoldSteps.{WhereFull};
ghost use Rattle.lasting_state.specs.Tables.{tables_input_needs, Applies, IsAcknowledged, IsEnqueued, IsMessageClosed};
ghost use Rattle.lasting_state.specs.ToldSteps.{AreRecordsLonger, IsInputRefused, TellsStep, TellsAcknowledged, TellsInput, WouldAcknowledge, WouldTell, is_first_of, removes_by};

use crate::conversing::KeptInput;
use crate::limits::COUNT_LIMIT;
use crate::step_records::{tell_acknowledged, tell_completion, tell_discarded, tell_input};
use crate::tables::{Enqueued, Tables};
use lasting_changes::bytes_of;
use log_records::Untold;
use model_machine::{AckRefused, Acked};
use model_messages::{EndedMessage, PadChange, TerminalReplies};
use msg_queues::SLOT_ROOM;
use out_queues::Outputs;
use program_rows::Telling;
use std::alloc::Global;
use std::collections::VecDeque;
use tm_types::{AbendCode, Memory, Name};

impl Tables {
    /// Accepts an input of the terminal at this place, as it is to be kept, if the queues have the room
    /// beside so many busy regions; the conversation that it begins, if it begins one, stands at the terminal
    /// then. Its record, of at most so many bytes, is appended. A refusal changes nothing; `Memory` is answered too where a
    /// count would pass its limit.
    pub fn enqueue(
        &mut self,
        place: usize,
        terminal: &Name,
        number: u64,
        kept: KeptInput,
        busy: u32,
        telling: &mut Telling,
    ) -> Result<Enqueued, Untold>
        requires place { terminal_place self.old.terminals terminal.now ≡ Some place }
        requires within { place < length self.old.terminals }
        requires count { IsCount kept.segments }
        ensures ok { IfOk result (IsEnqueued self.old self.new terminal.now number kept busy) }
        ensures told { IfOk result (TellsInput self.old terminal.now number kept telling.old.room telling.old.told.items telling.new.told.items) }
        ensures err { OnErr result (self.new ≡ self.old) }
        ensures untold { OnErr result (telling.new.told.items ≡ telling.old.told.items) }
        ensures place { telling.new ≡ record telling.old { told = telling.new.told } }
        ensures full { IfErr result (WhereFull (WouldTell self.old terminal.now number kept busy telling.old.room)) }
        ensures above { OnOk result (IsNewId self.old.next_id self.old.queues.queued) }
    {
        let Some(bytes) = self.needed(&kept, busy) else {
            return Err(Untold::Memory);
        };
        if bytes > u64::from(self.queues.limit()) {
            return match self.refuse(place, terminal, number, kept, busy) {
                Ok(full) => Ok(full),
                Err(_) => Err(Untold::Memory),
            };
        }
        self.keep_told(place, terminal, number, kept, busy, telling)
    }

    /// The bytes that an input needs beside so many busy regions, or None where they pass the limit of all counts.
    fn needed(&self, kept: &KeptInput, busy: u32) -> Option<u64>
        ensures { IfSome result (λ bytes. bytes ≡ tables_input_needs self.now kept.now.segments busy) }
    {
        let bytes = bytes_of(&kept.segments)?;
        Some(self.content() + bytes + SLOT_ROOM * u64::from(busy.max(1)))
    }

    /// Refuses an input for which the queues have no room.
    fn refuse(
        &mut self,
        place: usize,
        terminal: &Name,
        number: u64,
        kept: KeptInput,
        busy: u32,
    ) -> Result<Enqueued, Memory>
        requires place { terminal_place self.old.terminals terminal.now ≡ Some place }
        requires within { place < length self.old.terminals }
        requires full { self.old.queues.limit < tables_input_needs self.old kept.segments busy }
        ensures ok { IfOk result (IsEnqueued self.old self.new terminal.now number kept busy) }
        ensures full { IfOk result IsInputRefused }
        ensures err { OnErr result (self.new ≡ self.old) }
        ensures above { OnOk result (IsNewId self.old.next_id self.old.queues.queued) }
    {
        match self.keep(place, terminal, number, kept, busy) {
            Ok(Enqueued::New(_id)) => unreachable!(),
            Ok(Enqueued::Full(needed, limit)) => Ok(Enqueued::Full(needed, limit)),
            Err(error) => Err(error),
        }
    }

    /// Keeps an input for which the queues have the room, and tells it.
    fn keep_told(
        &mut self,
        place: usize,
        terminal: &Name,
        number: u64,
        kept: KeptInput,
        busy: u32,
        telling: &mut Telling,
    ) -> Result<Enqueued, Untold>
        requires place { terminal_place self.old.terminals terminal.now ≡ Some place }
        requires within { place < length self.old.terminals }
        requires count { IsCount kept.segments }
        requires fits { tables_input_needs self.old kept.segments busy ≤ self.old.queues.limit }
        ensures ok { IfOk result (IsEnqueued self.old self.new terminal.now number kept busy) }
        ensures told { IfOk result (TellsInput self.old terminal.now number kept telling.old.room telling.old.told.items telling.new.told.items) }
        ensures err { OnErr result (self.new ≡ self.old) }
        ensures untold { OnErr result (telling.new.told.items ≡ telling.old.told.items) }
        ensures place { telling.new ≡ record telling.old { told = telling.new.told } }
        ensures full { IfErr result (WhereFull (WouldTell self.old terminal.now number kept busy telling.old.room)) }
        ensures above { OnOk result (IsNewId self.old.next_id self.old.queues.queued) }
    {
        let start = telling.told.len();
        tell_kept(self.next_id, terminal, number, &kept, telling)?;
        match self.keep(place, terminal, number, kept, busy) {
            Ok(Enqueued::New(id)) => Ok(Enqueued::New(id)),
            Ok(Enqueued::Full(_needed, _limit)) => unreachable!(),
            Err(_) => {
                telling.told.truncate(start);
                Err(Untold::Memory)
            }
        }
    }

    /// Takes an acknowledgement, or says why not. The record of a reply that is removed, of at most `room` bytes, is appended.
    /// After an Err nothing has changed; `Memory` is answered too where the count of steps would pass its limit.
    pub fn acknowledge(
        &mut self,
        terminal: &Name,
        number: u64,
        telling: &mut Telling,
    ) -> Result<Result<Acked, AckRefused>, Untold>
        ensures state { IfOk result (IsAcknowledged self.old self.new terminal.now number) }
        ensures told { IfOk result (TellsAcknowledged self.old terminal.now telling.old.room telling.old.told.items telling.new.told.items) }
        ensures err { OnErr result (self.new ≡ self.old) }
        ensures untold { OnErr result (telling.new.told.items ≡ telling.old.told.items) }
        ensures place { telling.new ≡ record telling.old { told = telling.new.told } }
        ensures full { IfErr result (WhereFull (WouldAcknowledge self.old terminal.now number telling.old.room)) }
    {
        if self.steps >= COUNT_LIMIT {
            return Err(Untold::Memory);
        }
        if removes(self.outputs.terminal(terminal), number) {
            return self.remove(terminal, number, telling);
        }
        Ok(self.take_acknowledgement(terminal, number))
    }

    /// Takes the acknowledgement of the first reply that is kept, and tells it.
    fn remove(
        &mut self,
        terminal: &Name,
        number: u64,
        telling: &mut Telling,
    ) -> Result<Result<Acked, AckRefused>, Untold>
        requires steps { self.old.steps < 2 ^ 60 }
        requires removes { removes_by (output_at self.old.outputs terminal.now) number ≡ true }
        ensures state { IfOk result (IsAcknowledged self.old self.new terminal.now number) }
        ensures told { IfOk result (TellsAcknowledged self.old terminal.now telling.old.room telling.old.told.items telling.new.told.items) }
        ensures err { OnErr result (self.new ≡ self.old) }
        ensures untold { OnErr result (telling.new.told.items ≡ telling.old.told.items) }
        ensures place { telling.new ≡ record telling.old { told = telling.new.told } }
        ensures full { IfErr result (WhereFull (WouldAcknowledge self.old terminal.now number telling.old.room)) }
    {
        tell_acknowledged(terminal, number, telling)?;
        Ok(self.take_acknowledgement(terminal, number))
    }

    /// Completes the message of this id in a region: it goes, its outputs are sent in their order, this
    /// becomes of the pad of its origin, what the region has changed in the databases stays, and it holds
    /// nothing any more. The records, of at most `room` bytes, are appended. A refusal changes nothing; `Memory` is answered
    /// too where a count would pass its limit.
    pub fn complete(
        &mut self,
        region: u32,
        id: u64,
        outputs: VecDeque<EndedMessage>,
        pad: PadChange,
        telling: &mut Telling,
    ) -> Result<(), Untold>
        requires region { IsRegionOf self.old.databases region }
        requires found { IsSome (queued_at id self.old.queues.queued) }
        requires counts { HaveCounts outputs.items }
        requires pad { HasShortPad pad }
        ensures step { OnOk result (Applies (Completes id (region_at region self.old.databases).rows outputs.items pad) self.old self.new) }
        ensures told { OnOk result (TellsStep telling.old.unit telling.old.room (Completes id (region_at region self.old.databases).rows outputs.items pad) self.old telling.old.told.items telling.new.told.items) }
        ensures closed { OnOk result (IsMessageClosed self.new.databases (λ _. pad) (λ _. outputs.items) self.old self.new id) }
        ensures databases { OnOk result (IsCommitted region self.old.databases self.new.databases) }
        ensures rows { OnOk result (AreRowsOf (dbds_of self.new.databases) (committed_rows self.new.databases)) }
        ensures dbds { dbds_of self.new.databases ≡ dbds_of self.old.databases }
        ensures err { OnErr result (self.new ≡ self.old) }
        ensures untold { OnErr result (telling.new.told.items ≡ telling.old.told.items) }
        ensures place { telling.new ≡ record telling.old { told = telling.new.told } }
        ensures full { IfErr result (WhereFull (AreRecordsLonger telling.old.unit telling.old.room (Completes id (region_at region self.old.databases).rows outputs.items pad) self.old)) }
        ensures above { OnOk result (IsNewId self.old.next_id self.old.queues.queued) }
    {
        let Some(message) = self.queues.find(id) else {
            unreachable!()
        };
        let start = telling.told.len();
        tell_completion(
            &self.outputs,
            self.next_id,
            &message.origin,
            id,
            &outputs,
            &pad,
            telling,
        )?;
        match self.commit(region, id, outputs, pad) {
            Ok(()) => Ok(()),
            Err(_) => {
                telling.told.truncate(start);
                Err(Untold::Memory)
            }
        }
    }

    /// Discards the message of this id, the work on which ended abnormally in a region: it goes, its origin
    /// is told so, its conversation ends if it belongs to one, what the region has changed in the databases
    /// is taken back, and it holds nothing any more. The record, of at most `room` bytes, is appended. A refusal changes
    /// nothing; `Memory` is answered too where a count would pass its limit.
    pub fn discard(
        &mut self,
        alloc: Global,
        region: u32,
        id: u64,
        abend: AbendCode,
        telling: &mut Telling,
    ) -> Result<(), Untold>
        requires region { IsRegionOf self.old.databases region }
        requires found { IsSome (queued_at id self.old.queues.queued) }
        requires abend { IsAbend abend.number }
        ensures step { OnOk result (Applies (Discards id abend) self.old self.new) }
        ensures told { OnOk result (TellsStep telling.old.unit telling.old.room (Discards id abend) self.old telling.old.told.items telling.new.told.items) }
        ensures closed { OnOk result (IsMessageClosed self.new.databases discarded_pad (λ message. abend_outputs message abend) self.old self.new id) }
        ensures databases { OnOk result (IsGivenUp region self.old.databases self.new.databases) }
        ensures dbds { dbds_of self.new.databases ≡ dbds_of self.old.databases }
        ensures err { OnErr result (self.new ≡ self.old) }
        ensures untold { OnErr result (telling.new.told.items ≡ telling.old.told.items) }
        ensures place { telling.new ≡ record telling.old { told = telling.new.told } }
        ensures full { IfErr result (WhereFull (AreRecordsLonger telling.old.unit telling.old.room (Discards id abend) self.old)) }
        ensures above { OnOk result (IsNewId self.old.next_id self.old.queues.queued) }
    {
        let Some(message) = self.queues.find(id) else {
            unreachable!()
        };
        let number = next_number(&self.outputs, &message.origin);
        let start = telling.told.len();
        tell_discarded(id, abend, number, telling)?;
        match self.back_out(alloc, region, id, abend) {
            Ok(()) => Ok(()),
            Err(_) => {
                telling.told.truncate(start);
                Err(Untold::Memory)
            }
        }
    }
}

/// Tells an input as it is kept under this id.
fn tell_kept(
    id: u64,
    terminal: &Name,
    number: u64,
    kept: &KeptInput,
    telling: &mut Telling,
) -> Result<(), Untold>
    requires { IsCount kept.now.segments }
    ensures told { OnOk result (RecordsTell (Input 0 id terminal.now kept.now.code number kept.now.conversation kept.now.segments ∷ []) telling.old.room telling.old.told.items telling.new.told.items) }
    ensures untold { OnErr result (telling.new.told.items ≡ telling.old.told.items) }
    ensures place { telling.new ≡ record telling.old { told = telling.new.told } }
    ensures full { IfErr result (AreRecordsUntold (Input 0 id terminal.now kept.now.code number kept.now.conversation kept.now.segments ∷ []) telling.old.room) }
{
    tell_input(
        id,
        terminal,
        &kept.code,
        number,
        kept.conversation,
        &kept.segments,
        telling,
    )
}

/// The number that the next reply to this name gets, which is 1 where no terminal has it.
fn next_number(outputs: &Outputs, name: &Name) -> u64
    ensures { result ≡ next_of name.now outputs.now }
{
    match outputs.terminal(name) {
        Some(kept) => kept.next,
        None => 1,
    }
}

/// Whether this number is that of the first reply that is kept.
fn removes(kept: Option<&TerminalReplies>, number: u64) -> bool
    ensures { result ≡ removes_by (option_copied kept.entry) number }
{
    match kept {
        Some(kept) => is_first(kept, number),
        None => false,
    }
}

fn is_first(kept: &TerminalReplies, number: u64) -> bool
    ensures { result ≡ is_first_of number (slice_get kept.now.replies 0) }
{
    match kept.replies.items.front() {
        Some(reply) => reply.number == number,
        None => false,
    }
}
