//! The records of a unit, done at its sync point.
ghost use Rattle.std.specs.Option.{option_map};
ghost use Rattle.std.specs.Prelude.{◌≡◌, ◌+◌, ◌<◌, ◌^◌, true, IfOk, OnOk, IsSomeAnd};
ghost use Rattle.model_image.specs.States.{is_small};
ghost use Rattle.model_messages.specs.Queue.{IsNewId, queued_message};
ghost use Rattle.model_messages.specs.Outputs.{replies_at};
ghost use Rattle.log_replay.specs.ReplayRules.{DoesStep, IsOrderly, knows};
ghost use Rattle.log_replay.specs.ConversationTally.{AddsMessage, TallyFollows, Removes};
ghost use Rattle.log_replay.specs.ReplaySteps.{with_added, with_replied, with_gone, does, does_all, kept_replies, kept_switch};

use crate::judging::is_known;
use crate::tally::Tally;
use crate::waiting::UnitRecords;
use image_records::{Kept, is_small};
use lasting_changes::bytes_of;
use log_records::Record;
use out_queues::Outputs;
use system_types::System;
use tm_types::{Memory, Message, Name, Segments};

/// Whether the number behind this one may be counted on.
#[tactic(auto, using(crate::proofs::Orders::small_after))]
pub fn is_small_after(number: u64) -> bool
    ensures { result ≡ is_small (number + 1) }
{
    is_small(number) && is_small(number + 1)
}

/// Adds a message behind all others, under the next id. Want of memory is answered too where its bytes pass the limit of
/// all counts.
pub fn add_message(kept: &mut Kept, message: Message) -> Result<(), Memory>
    requires above { IsNewId message.id kept.old.queues.queued }
    requires small { kept.old.next_id < 2 ^ 62 }
    ensures { OnOk result (kept.new ≡ with_added message kept.old) }
{
    let Some(bytes) = bytes_of(&message.segments) else {
        return Err(Memory);
    };
    if kept.queues.content() + bytes >= 1 << 62 {
        return Err(Memory);
    }
    match kept.queues.add(message) {
        Ok(()) => {
            kept.next_id += 1;
            Ok(())
        }
        Err(_) => Err(Memory),
    }
}

/// Adds a reply at a terminal, under its next number. Want of memory is answered too where its bytes pass the limit of all
/// counts.
pub fn add_reply(kept: &mut Kept, terminal: &Name, segments: Segments) -> Result<(), Memory>
    requires { IsSomeAnd (replies_at terminal.now kept.old.outputs) (λ t. t.next < 2 ^ 62) }
    ensures { OnOk result (kept.new ≡ with_replied terminal.now segments kept.old) }
{
    let Some(bytes) = bytes_of(&segments) else {
        return Err(Memory);
    };
    if kept.outputs.content() + bytes >= 1 << 62 {
        return Err(Memory);
    }
    match kept.outputs.add(terminal, segments) {
        Ok(_) => Ok(()),
        Err(_) => Err(Memory),
    }
}

/// The number that the terminal's next reply gets; None where the terminal isn't there.
pub fn next_at(outputs: &Outputs, terminal: &Name) -> Option<u64>
    ensures { result ≡ option_map (λ t. t.next) (replies_at terminal.now outputs.now) }
{
    match outputs.terminal(terminal) {
        Some(kept) => Some(kept.next),
        None => None,
    }
}

/// Does the records of a unit, in their order. False: a number isn't the next one, what a record is about isn't there, or a
/// number may not be counted on.
pub fn do_all(
    system: &System,
    kept: &mut Kept,
    tally: &mut Tally,
    mut records: UnitRecords,
) -> Result<bool, Memory>
    requires orderly { IsOrderly kept.old }
    requires follows { TallyFollows system.now kept.old tally.old }
    ensures done { IfOk result (DoesStep (does_all records kept.old) kept.new) }
    ensures orderly { OnOk result (IsOrderly kept.new) }
    ensures follows { IfOk result (λ fine. fine ≡ true → TallyFollows system.now kept.new tally.new) }
{
    while let Some(r) = records.pop() {
        let fine = do_record(system, kept, tally, r)?;
        if !fine {
            return Ok(false);
        }
    }
    Ok(true)
}

fn do_record(system: &System, kept: &mut Kept, tally: &mut Tally, r: Record) -> Result<bool, Memory>
    requires orderly { IsOrderly kept.old }
    requires follows { TallyFollows system.now kept.old tally.old }
    ensures done { IfOk result (DoesStep (does r kept.old) kept.new) }
    ensures orderly { OnOk result (IsOrderly kept.new) }
    ensures follows { IfOk result (λ fine. fine ≡ true → TallyFollows system.now kept.new tally.new) }
{
    match r {
        Record::Reply {
            terminal,
            number,
            segments,
            ..
        } => reply(kept, &terminal, number, segments),
        Record::Input {
            id,
            origin,
            code,
            number,
            conversation,
            segments,
            ..
        } => switch(
            system,
            kept,
            tally,
            number,
            Message {
                id,
                origin,
                code,
                conversation,
                segments,
            },
        ),
        Record::Completed { id, .. } => complete(system, kept, tally, id),
        _ => Ok(true),
    }
}

/// A reply waits at its terminal, if its number is the next one there.
#[tactic(auto, using(crate::proofs::Orders::reply_to_none, crate::proofs::Orders::reply_left, crate::proofs::Orders::reply_refused, crate::proofs::Orders::reply_done, crate::proofs::Orders::reply_not_next, crate::proofs::Orders::reply_there, crate::proofs::Orders::number_small))]
fn reply(kept: &mut Kept, terminal: &Name, number: u64, segments: Segments) -> Result<bool, Memory>
    requires { IsOrderly kept.old }
    ensures done { IfOk result (DoesStep (kept_replies terminal.now number segments kept.old) kept.new) }
    ensures orderly { OnOk result (IsOrderly kept.new) }
    ensures queues { OnOk result (kept.new.queues ≡ kept.old.queues) }
    ensures conversations { OnOk result (kept.new.conversations ≡ kept.old.conversations) }
{
    let Some(next) = next_at(&kept.outputs, terminal) else {
        return Ok(number == 1);
    };
    if next != number {
        return Ok(false);
    }
    if !is_small_after(number) {
        return Ok(false);
    }
    add_reply(kept, terminal, segments)?;
    Ok(true)
}

/// A switched message stands behind all others, if its id is the next one.
#[tactic(auto, using(crate::proofs::Orders::switch_over, crate::proofs::Orders::orderly_added, crate::proofs::Orders::id_above, crate::proofs::Orders::id_small))]
fn switch(
    system: &System,
    kept: &mut Kept,
    tally: &mut Tally,
    number: u64,
    message: Message,
) -> Result<bool, Memory>
    requires orderly { IsOrderly kept.old }
    requires follows { TallyFollows system.now kept.old tally.old }
    ensures done { IfOk result (DoesStep (kept_switch number message kept.old) kept.new) }
    ensures orderly { OnOk result (IsOrderly kept.new) }
    ensures follows { IfOk result (λ fine. fine ≡ true → TallyFollows system.now kept.new tally.new) }
{
    if kept.next_id != message.id {
        return Ok(false);
    }
    if number != 0 {
        return Ok(false);
    }
    if !is_small_after(message.id) {
        return Ok(false);
    }
    count_added(system, kept, tally, &message)?;
    add_message(kept, message)?;
    Ok(true)
}

fn count_added(
    system: &System,
    kept: &Kept,
    tally: &mut Tally,
    message: &Message,
) -> Result<(), Memory>
    ensures { OnOk result (AddsMessage message.now.origin message.now.conversation (knows system.now kept.now.conversations message.now) tally.old tally.new) }
{
    let known = is_of_known(system, kept, message);
    tally.add(&message.origin, message.conversation, known)
}

/// A completed message goes, if it is there.
#[tactic(auto, using(crate::proofs::Orders::orderly_gone))]
fn complete(system: &System, kept: &mut Kept, tally: &mut Tally, id: u64) -> Result<bool, Memory>
    requires orderly { IsOrderly kept.old }
    requires follows { TallyFollows system.now kept.old tally.old }
    ensures done { IfOk result (DoesStep (option_map (λ _. with_gone id kept.old) (queued_message id kept.old.queues.queued)) kept.new) }
    ensures orderly { OnOk result (IsOrderly kept.new) }
    ensures follows { IfOk result (λ fine. fine ≡ true → TallyFollows system.now kept.new tally.new) }
{
    let Some(message) = kept.queues.find(id) else {
        return Ok(false);
    };
    count_removed(system, kept, tally, message)?;
    kept.queues.remove(id);
    Ok(true)
}

/// Whether the names of a message are known, and its conversation is.
fn is_of_known(system: &System, kept: &Kept, message: &Message) -> bool
    ensures { result ≡ knows system.now kept.now.conversations message.now }
{
    let conversation = message.conversation;
    is_known(system, kept, &message.origin, &message.code, conversation)
}

fn count_removed(
    system: &System,
    kept: &Kept,
    tally: &mut Tally,
    message: &Message,
) -> Result<(), Memory>
    ensures { OnOk result (Removes message.now.origin message.now.conversation (knows system.now kept.now.conversations message.now) tally.old tally.new) }
{
    let known = is_of_known(system, kept, message);
    tally.remove(&message.origin, message.conversation, known)
}
