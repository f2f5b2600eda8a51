//! What lasts of a control region: databases, messages, replies and numbers.
ghost use Rattle.std.specs.Prelude.{◌≡◌, ◌<◌, ◌^◌, [], IfOk, OnOk, OnErr, IsSome, IsSomeAnd, None, Some, length, map, replicate, slice_get};
ghost use Rattle.std.specs.Borrow.{sem};
ghost use Rattle.model_messages.specs.Queue.{AreInOrder, IsNewId, queued_message, queued_at};
ghost use Rattle.model_machine.specs.Machine.{output_at, empty_state, first_setting, terminal_place};
ghost use Rattle.model_machine.specs.MachineCalls.{ack_by};
ghost use Rattle.model_machine.specs.LastingSteps.{abend_outputs, discarded_pad};
ghost use Rattle.model_machine.specs.LastingSteps.LastingStep.{Completes, Discards};
ghost use Rattle.model_data.specs.Table.{empty_table};
ghost use Rattle.program_rows.specs.DatabasesState.{clean_region, committed_rows, dbds_of, region_at, AreRowsOf, IsRegionOf};
ghost use Rattle.program_rows.specs.CallAnswers.{IsCommitted, IsGivenUp};
ghost use Rattle.lasting_state.specs.Tables.{lasting_of, tables_content, with_databases, message_held, given_back, Applies, IsEnqueued, IsMessageFinished, IsMessageClosed, IsAcknowledged};
ghost use Rattle.lasting_state.specs.ShownTerminal.{IsShown};

use crate::Shown;
use crate::abend::abend_outputs;
use crate::conversing::KeptInput;
use crate::limits::COUNT_LIMIT;
use crate::sending::send_all;
use conversation::{Conversations, without_conversations};
use lasting_changes::{begin, bytes_of, change_pad, discarded_pad, fresh_states, note_input};
use model_machine::{AckRefused, Acked, TerminalState};
use model_messages::{EndedMessage, PadChange};
use msg_queues::{QueueRefused, Queues};
use out_queues::{AckAhead, Acked as OutputAcked, Outputs, fresh_terminals};
use program_rows::Databases;
use std::alloc::Global;
use std::collections::VecDeque;
use std::marker::Model;
use system_types::System;
use tm_types::{AbendCode, Memory, Message, Name, Segments};

/// What an input came to.
#[derive(Clone, Copy, Debug)]
pub enum Enqueued {
    /// It is kept under this id.
    New(u64),
    /// So many bytes are needed, and so many may be used. Nothing changed.
    Full(u64, u64),
}

/// The databases, the messages, the replies, and the numbers of inputs and lasting steps.
#[derive(Debug, Drop)]
pub struct Tables {
    /// The databases, with what each region has changed, holds and waits for.
    pub(crate) databases: Databases,
    /// The messages, each with the region that works on it.
    pub(crate) queues: Queues,
    pub(crate) next_id: u64,
    /// The terminals, in the order of the definition.
    pub(crate) terminals: Vec<TerminalState>,
    /// The replies of each terminal.
    pub(crate) outputs: Outputs,
    /// The conversation of each terminal, if it has one.
    pub(crate) conversations: Conversations,
    /// How many lasting steps were done.
    pub(crate) steps: u64,
}

impl Model for Tables {
    ghost use Rattle.lasting_state.specs.Tables.{TablesState};
    ghost use Rattle.model_messages.specs.Queue.{IsNewId};

    ghost Value = { TablesState };

    ghost view = { λ t. record { databases = t.databases; queues = t.queues; next_id = t.next_id; terminals = t.terminals.items; outputs = t.outputs; conversations = t.conversations; steps = t.steps } };

    ghost invariant = { λ t. IsNewId t.next_id t.queues.queued };
}

impl Tables {
    ghost use Rattle.lasting_state.specs.LentDatabases.{LendsDatabases};

    /// The tables of an empty control region of this system.
    pub fn new(alloc: Global, system: &System) -> Result<Tables, Memory>
        ensures lasting { IfOk result (λ tables. lasting_of (map first_setting system.now.codes) tables ≡ empty_state system.now) }
        ensures queues { IfOk result (λ tables. tables.queues ≡ record { limit = system.now.qbytes; queued = [] }) }
        ensures databases { IfOk result (λ tables. dbds_of tables.databases ≡ system.now.databases) }
        ensures regions { IfOk result (λ tables. tables.databases.regions ≡ replicate (length system.now.regions) (clean_region (committed_rows tables.databases))) }
        ensures table { IfOk result (λ tables. tables.databases.table ≡ empty_table (length system.now.regions)) }
        ensures rows { IfOk result (λ tables. AreRowsOf (dbds_of tables.databases) (committed_rows tables.databases)) }
    {
        let regions = system.regions().len() as u32;
        Ok(Tables {
            databases: Databases::empty(alloc, system.databases(), regions)?,
            queues: Queues::new(alloc, system.qbytes()),
            next_id: 1,
            terminals: fresh_states(alloc, system.terminals())?,
            outputs: Outputs::new(alloc, system.terminals())?,
            conversations: Conversations::none(alloc, system.terminals())?,
            steps: 0,
        })
    }

    /// The bytes of all messages and replies.
    pub fn content(&self) -> u64
        ensures value { result ≡ tables_content self.now }
        ensures small { result < 2 ^ 63 }
    {
        self.queues.content() + self.outputs.content()
    }

    /// Whether the terminal at a place is stopped.
    pub fn is_stopped(&self, place: usize) -> bool
        requires { place < length self.now.terminals }
        ensures { IsSomeAnd (slice_get self.now.terminals place) (λ terminal. result ≡ terminal.stopped) }
    {
        self.terminals[place].stopped
    }

    /// The number of the last input of the terminal at this place; 0 before the first.
    pub fn last_input(&self, place: usize) -> u64
        requires { place < length self.now.terminals }
        ensures { IsSomeAnd (slice_get self.now.terminals place) (λ terminal. result ≡ terminal.last) }
    {
        self.terminals[place].last
    }

    /// The databases, to change them.
    pub fn databases_mut(&mut self) -> &mut Databases
        ensures value { result.now ≡ self.old.databases }
        ensures* writes_back { sem 𝓛 (LendsDatabases self.entry result) }
    {
        &mut self.databases
    }

    /// The databases.
    pub fn databases(&self) -> &Databases
        ensures { result.now ≡ self.now.databases }
    {
        &self.databases
    }

    /// The messages, each with the region that works on it.
    pub fn queues(&self) -> &Queues
        ensures { result.now ≡ self.now.queues }
    {
        &self.queues
    }

    /// The conversations of the terminals.
    pub fn conversations(&self) -> &Conversations
        ensures { result.now ≡ self.now.conversations }
    {
        &self.conversations
    }

    /// How many lasting steps were done.
    pub fn steps(&self) -> u64
        ensures { result ≡ self.now.steps }
    {
        self.steps
    }

    /// Keeps an input as `enqueue`, and tells nothing.
    pub(crate) fn keep(
        &mut self,
        place: usize,
        terminal: &Name,
        number: u64,
        kept: KeptInput,
        busy: u32,
    ) -> Result<Enqueued, Memory>
        requires place { terminal_place self.old.terminals terminal.now ≡ Some place }
        requires within { place < length self.old.terminals }
        ensures ok { IfOk result (IsEnqueued self.old self.new terminal.now number kept busy) }
        ensures err { OnErr result (self.new ≡ self.old) }
        ensures above { IsNewId self.old.next_id self.old.queues.queued }
    {
        let id = self.next_id;
        let Some(bytes) = bytes_of(&kept.segments) else {
            return Err(Memory);
        };
        if id >= COUNT_LIMIT || self.steps >= COUNT_LIMIT || self.content() + bytes >= 1 << 62 {
            return Err(Memory);
        }
        let message = Message {
            id,
            origin: *terminal,
            code: kept.code,
            conversation: kept.conversation,
            segments: kept.segments,
        };
        let replies = self.outputs.content();
        match self.queues.accept(message, busy, replies) {
            Ok(()) => {
                note_input(&mut self.terminals, place, number);
                begin(&mut self.conversations, terminal, kept.begins);
                self.next_id += 1;
                self.steps += 1;
                Ok(Enqueued::New(id))
            }
            Err(QueueRefused::Full(needed, limit, _)) => Ok(Enqueued::Full(needed, limit)),
            Err(QueueRefused::Memory(_)) => Err(Memory),
        }
    }

    /// Gives a message that no region has to a region. This takes no memory.
    pub fn hold(&mut self, id: u64, region: u32)
        requires { IsSomeAnd (queued_at id self.old.queues.queued) (λ q. q.holder ≡ None) }
        ensures { self.new ≡ message_held self.old id region }
    {
        self.queues.hold(id, region);
    }

    /// Takes a message back from a region that gives way: it keeps its place, what the region has changed
    /// in the databases is taken back, and it holds and waits for nothing any more. This takes no memory.
    pub fn give_up(&mut self, region: u32, id: u64)
        requires region { IsRegionOf self.old.databases region }
        requires held { IsSomeAnd (queued_at id self.old.queues.queued) (λ q. IsSome q.holder) }
        ensures tables { self.new ≡ with_databases (given_back self.old id) self.new.databases }
        ensures databases { IsGivenUp region self.old.databases self.new.databases }
        ensures dbds { dbds_of self.new.databases ≡ dbds_of self.old.databases }
        ensures ordered { AreInOrder self.old.queues.queued }
    {
        self.databases.give_up(region);
        self.queues.give_back(id);
    }

    /// Completes a message as `complete`, and tells nothing.
    pub(crate) fn commit(
        &mut self,
        region: u32,
        id: u64,
        outputs: VecDeque<EndedMessage>,
        pad: PadChange,
    ) -> Result<(), Memory>
        requires region { IsRegionOf self.old.databases region }
        requires found { IsSome (queued_at id self.old.queues.queued) }
        ensures step { OnOk result (Applies (Completes id (region_at region self.old.databases).rows outputs.items pad) self.old self.new) }
        ensures closed { OnOk result (IsMessageClosed self.new.databases (λ _. pad) (λ _. outputs.items) self.old self.new id) }
        ensures databases { OnOk result (IsCommitted region self.old.databases self.new.databases) }
        ensures rows { OnOk result (AreRowsOf (dbds_of self.new.databases) (committed_rows self.new.databases)) }
        ensures dbds { dbds_of self.new.databases ≡ dbds_of self.old.databases }
        ensures err { OnErr result (self.new ≡ self.old) }
        ensures above { IsNewId self.old.next_id self.old.queues.queued }
    {
        let origin = self.finish(id, outputs)?;
        change_pad(&mut self.conversations, &origin, pad);
        self.databases.commit(region);
        Ok(())
    }

    /// Discards a message as `discard`, and tells nothing.
    pub(crate) fn back_out(
        &mut self,
        alloc: Global,
        region: u32,
        id: u64,
        abend: AbendCode,
    ) -> Result<(), Memory>
        requires region { IsRegionOf self.old.databases region }
        requires found { IsSome (queued_at id self.old.queues.queued) }
        ensures step { OnOk result (Applies (Discards id abend) self.old self.new) }
        ensures closed { OnOk result (IsMessageClosed self.new.databases discarded_pad (λ message. abend_outputs message abend) self.old self.new id) }
        ensures databases { OnOk result (IsGivenUp region self.old.databases self.new.databases) }
        ensures dbds { dbds_of self.new.databases ≡ dbds_of self.old.databases }
        ensures err { OnErr result (self.new ≡ self.old) }
        ensures above { IsNewId self.old.next_id self.old.queues.queued }
    {
        let Some(message) = self.queues.find(id) else {
            unreachable!()
        };
        let pad = discarded_pad(message);
        let outputs = abend_outputs(alloc, message, abend)?;
        let origin = self.finish(id, outputs)?;
        change_pad(&mut self.conversations, &origin, pad);
        self.databases.give_up(region);
        Ok(())
    }

    /// Removes a message, sends its outputs in their order, and tells its origin; databases and
    /// conversations stay.
    fn finish(&mut self, id: u64, outputs: VecDeque<EndedMessage>) -> Result<Name, Memory>
        requires { IsSome (queued_at id self.old.queues.queued) }
        ensures ok { OnOk result (IsMessageFinished self.old self.new id outputs.items) }
        ensures origin { IfOk result (λ origin. IsSomeAnd (queued_message id self.old.queues.queued) (λ message. origin ≡ message.origin)) }
        ensures databases { self.new.databases ≡ self.old.databases }
        ensures err { OnErr result (self.new ≡ self.old) }
        ensures above { IsNewId self.old.next_id self.old.queues.queued }
    {
        if self.steps >= COUNT_LIMIT {
            return Err(Memory);
        }
        let Some(message) = self.queues.find(id) else {
            unreachable!()
        };
        let origin = message.origin;
        let next = send_all(
            &mut self.queues,
            &mut self.outputs,
            self.next_id,
            &origin,
            outputs,
        )?;
        self.queues.remove(id);
        self.next_id = next;
        self.steps += 1;
        Ok(origin)
    }

    /// What the terminal is to be shown.
    pub fn showing(&self, terminal: &Name) -> Shown<'_>
        ensures { IsShown (output_at self.now.outputs terminal.now) result }
    {
        match self.outputs.terminal(terminal) {
            None => Shown::Unknown,
            Some(kept) => match kept.replies.items.front() {
                Some(reply) => Shown::Reply(reply),
                None => Shown::Empty,
            },
        }
    }

    /// Takes an acknowledgement, or says why not, and tells nothing.
    pub(crate) fn take_acknowledgement(
        &mut self,
        terminal: &Name,
        number: u64,
    ) -> Result<Acked, AckRefused>
        requires { self.old.steps < 2 ^ 60 }
        ensures answer { result ≡ ack_by (output_at self.old.outputs terminal.now) number }
        ensures state { IsAcknowledged self.old self.new terminal.now number result }
    {
        if self.outputs.terminal(terminal).is_none() {
            return Err(AckRefused::Unknown);
        }
        match self.outputs.acknowledge(terminal, number) {
            Ok(OutputAcked::Removed) => {
                self.steps += 1;
                Ok(Acked::Removed)
            }
            Ok(OutputAcked::Already) => Ok(Acked::Already),
            Err(AckAhead { first }) => Err(AckRefused::Ahead(first)),
        }
    }
}
