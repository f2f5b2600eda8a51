//! The lasting steps of a log, done on the tables.
ghost use Rattle.std.specs.Prelude.{◌≡◌, ◌+◌, ◌<◌, ◌==◌, ◌^◌, ◌∷◌, [], true, not, ◌&&◌, Some, IfOk, OnOk, IsSome, length};
ghost use Rattle.std.specs.List.{list_all};
ghost use Rattle.std.specs.Option.{option_copied, option_map};
ghost use Rattle.model_image.specs.States.{is_small};
ghost use Rattle.model_image.specs.Replay.{completed_id};
ghost use Rattle.model_messages.specs.Queue.{queued_message, messages_of};
ghost use Rattle.model_messages.specs.Outputs.{next_of};
ghost use Rattle.model_system.specs.Lists.{change_at};
ghost use Rattle.model_machine.specs.LastingSteps.{with_begun, with_last_number};
ghost use Rattle.log_replay.specs.ReplayRules.{AreSmall, DoesStep, IsOrderly};
ghost use Rattle.log_replay.specs.ConversationTally.{Discards, TallyFollows, IsDiscardTallied, TallyTells};
ghost use Rattle.log_replay.specs.ReplaySteps.{step_accepts, step_acknowledges, step_discards, step_syncs, with_gone, with_told, with_pad_at, message_completed_by, first_completed, message_done};

use crate::doing::{add_message, add_reply, do_all, is_small_after, next_at};
use crate::judging::is_known;
use crate::places::{begins_with, input_place};
use crate::tally::Tally;
use crate::waiting::UnitRecords;
use image_records::Kept;
use lasting_changes::{abend_segments, begin, change_pad, discarded_pad, note_input};
use log_records::Record;
use model_messages::{Conversation, PadChange};
use out_queues::Acked;
use std::alloc::Global;
use system_types::System;
use tm_types::{AbendCode, Memory, Message, Name, Segments};

/// An input is accepted, if its number and its id are the next ones.
pub fn accept(
    alloc: Global,
    system: &System,
    kept: &mut Kept,
    number: u64,
    message: Message,
) -> Result<bool, Memory>
    requires orderly { IsOrderly kept.old }
    requires inputs { list_all (λ t. is_small t.last) kept.old.terminals ≡ true }
    requires steps { kept.old.steps < 2 ^ 62 }
    ensures { IfOk result (DoesStep (step_accepts system.now message.id message.origin message.code number message.conversation message.segments kept.old) kept.new) }
{
    let origin = message.origin;
    let Some(place) = input_place(kept, &origin, number) else {
        return Ok(false);
    };
    let next = is_next_id(kept, message.id);
    if !next {
        return Ok(false);
    }
    let begins = begins_with(
        alloc,
        system,
        kept,
        &origin,
        &message.code,
        message.conversation,
    )?;
    add_message(kept, message)?;
    note_accepted(kept, place, number, &origin, begins);
    Ok(true)
}

fn is_next_id(kept: &Kept, id: u64) -> bool
    ensures { result ≡ kept.now.next_id == id }
{
    kept.next_id == id
}

/// The number is that of the last input of the terminal at this place, and a conversation begins there, if one does.
fn note_accepted(
    kept: &mut Kept,
    place: usize,
    number: u64,
    origin: &Name,
    begins: Option<Conversation>,
)
    requires within { place < length kept.old.terminals }
    requires steps { kept.old.steps < 2 ^ 62 }
    ensures { kept.new ≡ record kept.old { terminals = change_at kept.old.terminals (Some place) (with_last_number number); conversations = with_begun origin.now begins kept.old.conversations; steps = kept.old.steps + 1 } }
{
    note_input(&mut kept.terminals, place, number);
    begin(&mut kept.conversations, origin, begins);
    kept.steps += 1;
}

/// A reply is acknowledged, if it is the first that is kept.
pub fn acknowledge(kept: &mut Kept, terminal: &Name, number: u64) -> bool
    requires { kept.old.steps < 2 ^ 62 }
    ensures { DoesStep (step_acknowledges terminal.now number kept.old) kept.new result }
{
    if kept.outputs.terminal(terminal).is_none() {
        return false;
    }
    match kept.outputs.acknowledge(terminal, number) {
        Ok(Acked::Removed) => {
            kept.steps += 1;
            true
        }
        Ok(Acked::Already) => false,
        Err(_) => false,
    }
}

/// A message is discarded, if it is there and its origin's next reply has this number.
pub fn discard(
    alloc: Global,
    kept: &mut Kept,
    id: u64,
    abend: AbendCode,
    number: u64,
) -> Result<bool, Memory>
    requires orderly { IsOrderly kept.old }
    requires steps { kept.old.steps < 2 ^ 62 }
    ensures done { IfOk result (DoesStep (step_discards id abend number kept.old) kept.new) }
    ensures small { OnOk result (AreSmall kept.new) }
{
    let Some(message) = found(kept, id) else {
        return Ok(false);
    };
    let origin = message.origin;
    let pad = discarded_pad(message);
    let segments = abend_segments(alloc, &message.code, abend)?;
    let next = next_of(kept, &origin);
    if next != number {
        return Ok(false);
    }
    if !is_small_after(number) {
        return Ok(false);
    }
    let steps = steps_after(kept);
    put_away(kept, id, &origin, pad);
    tell(kept, &origin, segments)?;
    count_to(kept, steps);
    Ok(true)
}

/// Counts what a discarded message leaves.
pub fn count_discarded(
    system: &System,
    kept: &Kept,
    tally: &mut Tally,
    message: &Message,
) -> Result<(), Memory>
    ensures { OnOk result (Discards system.now kept.now message.now tally.old tally.new) }
{
    tally.remove(&message.origin, message.conversation, true)?;
    let told = kept.outputs.has_terminal(&message.origin);
    count_told(system, kept, tally, &message.origin, told)
}

fn count_told(
    system: &System,
    kept: &Kept,
    tally: &mut Tally,
    origin: &Name,
    told: bool,
) -> Result<(), Memory>
    ensures { OnOk result (IsDiscardTallied system.now kept.now origin.now told tally.old tally.new) }
{
    if told {
        return Ok(());
    }
    let known = is_known(system, kept, origin, origin, false);
    tally.add(origin, false, known)
}

pub fn found(kept: &Kept, id: u64) -> Option<&Message>
    ensures { option_copied result ≡ queued_message id kept.now.queues.queued }
{
    kept.queues.find(id)
}

fn next_of(kept: &Kept, terminal: &Name) -> u64
    ensures { result ≡ next_of terminal.now kept.now.outputs }
{
    match next_at(&kept.outputs, terminal) {
        Some(next) => next,
        None => 1,
    }
}

fn steps_after(kept: &Kept) -> u64
    requires { kept.now.steps < 2 ^ 62 }
    ensures { result ≡ kept.now.steps + 1 }
{
    kept.steps + 1
}

fn count_to(kept: &mut Kept, steps: u64)
    ensures { kept.new ≡ record kept.old { steps = steps } }
{
    kept.steps = steps;
}

/// The message of this id goes, and this becomes of its origin's pad.
fn put_away(kept: &mut Kept, id: u64, origin: &Name, pad: PadChange)
    requires { IsSome (queued_message id kept.old.queues.queued) }
    ensures { kept.new ≡ with_gone id (with_pad_at (Some origin.now) pad kept.old) }
{
    change_pad(&mut kept.conversations, origin, pad);
    kept.queues.remove(id);
}

/// The origin is told so: as a reply where it is a terminal that is kept.
#[tactic(auto, using(crate::proofs::Orders::number_small, crate::proofs::Orders::id_above, crate::proofs::Orders::id_small))]
fn tell(kept: &mut Kept, origin: &Name, segments: Segments) -> Result<(), Memory>
    requires { IsOrderly kept.old }
    ensures { OnOk result (kept.new ≡ with_told origin.now segments kept.old) }
{
    let is_kept = kept.outputs.has_terminal(origin);
    if is_kept {
        return add_reply(kept, origin, segments);
    }
    let id = kept.next_id;
    add_message(
        kept,
        Message {
            id,
            origin: *origin,
            code: *origin,
            conversation: false,
            segments,
        },
    )
}

/// A unit reaches its sync point: its records are done, and this becomes of the pad of the message that they complete.
pub fn sync(
    system: &System,
    kept: &mut Kept,
    tally: &mut Tally,
    records: UnitRecords,
    pad: PadChange,
) -> Result<bool, Memory>
    requires orderly { IsOrderly kept.old }
    requires steps { kept.old.steps < 2 ^ 62 }
    requires follows { TallyFollows system.now kept.old tally.old }
    ensures done { IfOk result (DoesStep (step_syncs pad records kept.old) kept.new) }
    ensures small { OnOk result (AreSmall kept.new) }
    ensures tells { IfOk result (λ fine. fine ≡ true → TallyTells system.now kept.old.conversations (messages_of kept.new.queues.queued) tally.new) }
{
    let origin = origin_done(kept, &records);
    let steps = steps_after(kept);
    let fine = do_all(system, kept, tally, records)?;
    if !fine {
        return Ok(false);
    }
    change_pad_at(kept, origin, pad);
    count_to(kept, steps);
    Ok(true)
}

fn change_pad_at(kept: &mut Kept, origin: Option<Name>, pad: PadChange)
    ensures { kept.new ≡ with_pad_at origin pad kept.old }
{
    match origin {
        Some(origin) => change_pad(&mut kept.conversations, &origin, pad),
        None => {}
    }
}

/// The origin of the message that these records complete.
pub fn origin_done(kept: &Kept, records: &UnitRecords) -> Option<Name>
    ensures { result ≡ option_map (λ message. message.origin) (message_done records.now kept.now) }
{
    let id = completed_id(records)?;
    match kept.queues.find(id) {
        Some(message) => Some(message.origin),
        None => None,
    }
}

#[tactic(auto, using(crate::proofs::Stepped::completed_is))]
fn completed_id(records: &UnitRecords) -> Option<u64>
    ensures { result ≡ completed_id records.now }
{
    first_completed(records)
}

fn first_completed(records: &UnitRecords) -> Option<u64>
    ensures { result ≡ first_completed records.now }
{
    let count = records.records.len();
    for place in 0..count {
        let Some(r) = records.records.get(place) else {
            unreachable!()
        };
        let completed = completed_by(r);
        if completed.is_some() {
            return completed;
        }
    }
    None
}

fn completed_by(r: &Record) -> Option<u64>
    ensures { result ≡ message_completed_by r.now }
{
    match r {
        Record::Completed { id, .. } => Some(*id),
        _ => None,
    }
}
