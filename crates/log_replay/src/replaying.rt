//! One record of a log, done again.
ghost use Rattle.std.specs.Prelude.{◌≡◌, None, Some, true, false, IfOk};
ghost use Rattle.std.specs.Option.{option_map_or};
ghost use Rattle.tm_types.specs.Commands.{IsAssigned, command_in};
ghost use Rattle.model_image.specs.Replay.{Replay, replay_accepts, replay_acknowledges, commands, discards, syncs, is_record_known, names_known, replay_one};
ghost use Rattle.model_machine.specs.LastingSteps.{applied};
ghost use Rattle.model_machine.specs.LastingSteps.LastingStep.{Commands};
ghost use Rattle.log_replay.specs.ReplayRules.{lasting_in, AreSound, RecordLeaves};
ghost use Rattle.log_replay.specs.ConversationTally.{TallyFollows};
ghost use Rattle.log_replay.specs.WorkState.{IsAt, RecordComesTo, ReplayComesTo, IsRecordDone, RecordWaits, waits_for_unit};

use crate::commanding::{command, ended_by};
use crate::judging::{ends_pad, has_pad_at, has_pad_of, is_known, is_sound};
use crate::steps::{accept, acknowledge, count_discarded, discard, found, origin_done, sync};
use crate::tally::Tally;
use crate::waiting::{UnitRecords, push, take};
use crate::working::Working;
use image_records::{Kept, is_code, is_image_of, is_small, is_terminal};
use log_records::Record;
use model_messages::PadChange;
use std::alloc::Global;
use system_types::System;
use tm_types::{AbendCode, LastingCommand, Memory, Message, Name};

/// Does a record of the log again, and gives the tables back with what it did. None: it breaks the rule on such records.
pub fn replay_record(
    alloc: Global,
    system: &System,
    mut working: Working,
    r: Record,
) -> Result<Option<Working>, Memory>
    requires sound { AreSound system.now working.kept }
    requires follows { TallyFollows system.now working.kept working.tally }
    ensures { IfOk result (λ done. (replay : Replay) → IsAt system.now replay working → ReplayComesTo system.now (replay_one system.now r replay) done) }
{
    let fine = do_again(alloc, system, &mut working, r)?;
    if !fine {
        return Ok(None);
    }
    Ok(Some(working))
}

// The same in place: false, or without memory, the tables aren't to be used any more.
fn do_again(
    alloc: Global,
    system: &System,
    working: &mut Working,
    r: Record,
) -> Result<bool, Memory>
    requires sound { AreSound system.now working.old.kept }
    requires follows { TallyFollows system.now working.old.kept working.old.tally }
    ensures { IfOk result (λ fine. (replay : Replay) → IsAt system.now replay working.old → RecordComesTo system.now (replay_one system.now r replay) working.new fine) }
{
    let known = names_are_known(alloc, system, &r)?;
    if !known {
        return Ok(false);
    }
    match waits_for(&r) {
        Some(unit) => wait(alloc, working, unit, r),
        None => do_now(alloc, system, working, r),
    }
}

fn wait(alloc: Global, working: &mut Working, unit: u64, r: Record) -> Result<bool, Memory>
    ensures { IfOk result (RecordWaits unit r working.old working.new) }
{
    push(alloc, &mut working.units, unit, r)?;
    Ok(true)
}

/// The unit at whose sync point the record is done.
fn waits_for(r: &Record) -> Option<u64>
    ensures { result ≡ waits_for_unit r.now }
{
    match r {
        Record::Input { unit, .. } => {
            if *unit == 0 {
                return None;
            }
            Some(*unit)
        }
        Record::Reply { unit, .. } => Some(*unit),
        Record::Completed { unit, .. } => Some(*unit),
        _ => None,
    }
}

/// Does a record that is no unit's, or that is its sync point.
fn do_now(alloc: Global, system: &System, working: &mut Working, r: Record) -> Result<bool, Memory>
    requires sound { AreSound system.now working.old.kept }
    requires follows { TallyFollows system.now working.old.kept working.old.tally }
    requires now { waits_for_unit r ≡ None }
    ensures { IfOk result (IsRecordDone system.now r working.old working.new) }
{
    match r {
        Record::Input {
            id,
            origin,
            code,
            number,
            conversation,
            segments,
            ..
        } => replay_input(
            alloc,
            system,
            &mut working.kept,
            &mut working.tally,
            number,
            Message {
                id,
                origin,
                code,
                conversation,
                segments,
            },
        ),
        Record::Acknowledged { terminal, number } => {
            replay_acknowledged(system, &mut working.kept, &working.tally, &terminal, number)
        }
        Record::Discarded {
            id,
            abend,
            number,
            ..
        } => replay_discarded(
            alloc,
            system,
            &mut working.kept,
            &mut working.tally,
            id,
            abend,
            number,
        ),
        Record::SyncPoint { unit, pad } => {
            let records = take(alloc, &mut working.units, unit);
            replay_sync_point(system, &mut working.kept, &mut working.tally, records, pad)
        }
        Record::Change { .. } => Ok(true),
        Record::Command { text } => {
            replay_command(system, &mut working.kept, &working.tally, text.as_slice())
        }
        _ => Ok(false),
    }
}

fn replay_input(
    alloc: Global,
    system: &System,
    kept: &mut Kept,
    tally: &mut Tally,
    number: u64,
    message: Message,
) -> Result<bool, Memory>
    requires sound { AreSound system.now kept.old }
    requires follows { TallyFollows system.now kept.old tally.old }
    ensures leaves { IfOk result (RecordLeaves system.now (replay_accepts system.now message.id message.origin message.code number message.conversation message.segments (lasting_in system.now kept.old)) kept.new) }
    ensures follows { IfOk result (λ fine. fine ≡ true → TallyFollows system.now kept.new tally.new) }
{
    let origin = message.origin;
    let code = message.code;
    let conversation = message.conversation;
    let fine = accept(alloc, system, kept, number, message)?;
    if !fine {
        return Ok(false);
    }
    let known = is_known(system, kept, &origin, &code, conversation);
    tally.add(&origin, conversation, known)?;
    let pads = has_pad_at(system, kept, &origin);
    let right = tally.is_right(false, &None);
    Ok(is_sound(system, kept, is_small(number), pads, right))
}

fn replay_acknowledged(
    system: &System,
    kept: &mut Kept,
    tally: &Tally,
    terminal: &Name,
    number: u64,
) -> Result<bool, Memory>
    requires sound { AreSound system.now kept.old }
    requires follows { TallyFollows system.now kept.old tally.now }
    ensures leaves { IfOk result (RecordLeaves system.now (replay_acknowledges terminal.now number (lasting_in system.now kept.old)) kept.new) }
    ensures follows { IfOk result (λ fine. fine ≡ true → TallyFollows system.now kept.new tally.now) }
{
    let fine = acknowledge(kept, terminal, number);
    if !fine {
        return Ok(false);
    }
    Ok(is_sound(system, kept, true, true, true))
}

fn replay_command(
    system: &System,
    kept: &mut Kept,
    tally: &Tally,
    text: &[u8],
) -> Result<bool, Memory>
    requires sound { AreSound system.now kept.old }
    requires follows { TallyFollows system.now kept.old tally.now }
    ensures leaves { IfOk result (RecordLeaves system.now (commands text.now (lasting_in system.now kept.old)) kept.new) }
    ensures follows { IfOk result (λ fine. fine ≡ true → TallyFollows system.now kept.new tally.now) }
{
    match LastingCommand::read(text) {
        Some(spelled) => Ok(do_spelled(system, kept, tally, &spelled)),
        None => Ok(false),
    }
}

fn do_spelled(system: &System, kept: &mut Kept, tally: &Tally, spelled: &LastingCommand) -> bool
    requires sound { AreSound system.now kept.old }
    requires follows { TallyFollows system.now kept.old tally.now }
    requires assigned { IsAssigned spelled.now }
    ensures leaves { RecordLeaves system.now (Some (applied (Commands spelled.now) (lasting_in system.now kept.old))) kept.new result }
    ensures follows { result ≡ true → TallyFollows system.now kept.new tally.now }
{
    let ended = ended_by(spelled);
    command(kept, spelled);
    let right = tally.is_right(true, &ended);
    is_sound(system, kept, true, true, right)
}

fn replay_discarded(
    alloc: Global,
    system: &System,
    kept: &mut Kept,
    tally: &mut Tally,
    id: u64,
    abend: AbendCode,
    number: u64,
) -> Result<bool, Memory>
    requires sound { AreSound system.now kept.old }
    requires follows { TallyFollows system.now kept.old tally.old }
    ensures leaves { IfOk result (RecordLeaves system.now (discards id abend number (lasting_in system.now kept.old)) kept.new) }
    ensures follows { IfOk result (λ fine. fine ≡ true → TallyFollows system.now kept.new tally.new) }
{
    let Some(message) = found(kept, id) else {
        return Ok(false);
    };
    count_discarded(system, kept, tally, message)?;
    let ends = message.conversation;
    let origin = Some(message.origin);
    let fine = discard(alloc, kept, id, abend, number)?;
    if !fine {
        return Ok(false);
    }
    let right = tally.is_right(ends, &origin);
    Ok(is_sound(system, kept, true, true, right))
}

fn replay_sync_point(
    system: &System,
    kept: &mut Kept,
    tally: &mut Tally,
    records: UnitRecords,
    pad: PadChange,
) -> Result<bool, Memory>
    requires sound { AreSound system.now kept.old }
    requires follows { TallyFollows system.now kept.old tally.old }
    ensures leaves { IfOk result (RecordLeaves system.now (syncs pad records (lasting_in system.now kept.old)) kept.new) }
    ensures follows { IfOk result (λ fine. fine ≡ true → TallyFollows system.now kept.new tally.new) }
{
    let origin = origin_done(kept, &records);
    let ends = ends_pad(&pad);
    let fine = sync(system, kept, tally, records, pad)?;
    if !fine {
        return Ok(false);
    }
    let pads = has_pad_of(system, kept, &origin);
    let right = tally.is_right(ends, &origin);
    Ok(is_sound(system, kept, true, pads, right))
}

fn names_are_known(alloc: Global, system: &System, r: &Record) -> Result<bool, Memory>
    ensures { IfOk result (λ is. is ≡ is_record_known system.now r.now) }
{
    match r {
        Record::Input { origin, code, .. } => {
            Ok(is_terminal(system, origin) && is_code(system, code))
        }
        Record::Reply { terminal, .. } => Ok(is_terminal(system, terminal)),
        Record::Acknowledged { terminal, .. } => Ok(is_terminal(system, terminal)),
        Record::Command { text } => Ok(names_known(system, text.as_slice())),
        _ => is_image_of(alloc, system, r),
    }
}

/// Whether a text spells a command that lasts and names a code of the system, or a terminal.
fn names_known(system: &System, text: &[u8]) -> bool
    ensures { result ≡ option_map_or (names_known system.now) (command_in text.now) false }
{
    match LastingCommand::read(text) {
        Some(command) => is_named(system, &command),
        None => false,
    }
}

fn is_named(system: &System, command: &LastingCommand) -> bool
    ensures { result ≡ names_known system.now command.now }
{
    match command {
        LastingCommand::StartTransaction(code) => is_code(system, code),
        LastingCommand::StopTransaction(code) => is_code(system, code),
        LastingCommand::StartTerminal(terminal) => is_terminal(system, terminal),
        LastingCommand::StopTerminal(terminal) => is_terminal(system, terminal),
        LastingCommand::DequeueFirst(terminal) => is_terminal(system, terminal),
        LastingCommand::DequeueAll(terminal) => is_terminal(system, terminal),
        LastingCommand::Exit(terminal) => is_terminal(system, terminal),
        LastingCommand::AssignClass(code, _) => is_code(system, code),
        LastingCommand::AssignPriority(code, _) => is_code(system, code),
    }
}
