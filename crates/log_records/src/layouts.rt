//! The fields of each record, read.
ghost use Rattle.std.specs.Prelude.{◌≡◌};
ghost use Rattle.log_records.specs.RecordReader.{GivesRead, input_at, command_at, read_reply, discarded_at, completed_at, acknowledged_at, sync_point_at, checkpoint_at, read_terminal, read_code, read_change, answered_of_kind_at, answered_at, snapshot_of_kind_at, snapshot_at, content_of_code_at, content_at, record_at};

use crate::fault::{LENGTH, ReadFault, UNKNOWN};
use crate::fields::{
    byte, conversation, flag, name_of, name_text, number_within, number2, number8, pad_change,
    segments, text,
};
use crate::record::Record;
use std::alloc::Global;
use tm_types::AbendCode;

#[tactic(auto, unfolding(crate::specs::RecordReader::input_at))]
fn input(alloc: Global, bytes: &[u8]) -> Result<(Record, &[u8]), ReadFault>
    ensures { GivesRead (λ x. (x.0, x.1.now)) result (input_at bytes.now) }
{
    let (unit, rest) = number8(bytes)?;
    let (id, rest) = number8(rest)?;
    let (origin, rest) = name_text(rest)?;
    let (code, rest) = name_text(rest)?;
    let (number, rest) = number8(rest)?;
    let (conversation, rest) = flag(rest)?;
    let (segments, rest) = segments(alloc, rest)?;
    Ok((
        Record::Input {
            unit,
            id,
            origin: name_of(origin),
            code: name_of(code),
            number,
            conversation,
            segments,
        },
        rest,
    ))
}

#[tactic(auto, unfolding(crate::specs::RecordReader::command_at))]
fn command(alloc: Global, bytes: &[u8]) -> Result<(Record, &[u8]), ReadFault>
    ensures { GivesRead (λ x. (x.0, x.1.now)) result (command_at bytes.now) }
{
    let (text, rest) = text(alloc, 80, bytes)?;
    Ok((Record::Command { text }, rest))
}

#[tactic(auto, unfolding(crate::specs::RecordReader::read_reply))]
fn reply(alloc: Global, bytes: &[u8]) -> Result<(Record, &[u8]), ReadFault>
    ensures { GivesRead (λ x. (x.0, x.1.now)) result (read_reply bytes.now) }
{
    let (unit, rest) = number8(bytes)?;
    let (terminal, rest) = name_text(rest)?;
    let (number, rest) = number8(rest)?;
    let (segments, rest) = segments(alloc, rest)?;
    Ok((
        Record::Reply {
            unit,
            terminal: name_of(terminal),
            number,
            segments,
        },
        rest,
    ))
}

#[tactic(auto, unfolding(crate::specs::RecordReader::discarded_at))]
fn discarded(bytes: &[u8]) -> Result<(Record, &[u8]), ReadFault>
    ensures { GivesRead (λ x. (x.0, x.1.now)) result (discarded_at bytes.now) }
{
    let (unit, rest) = number8(bytes)?;
    let (id, rest) = number8(rest)?;
    let (abend, rest) = number_within(1, 4095, rest)?;
    let (number, rest) = number8(rest)?;
    Ok((
        Record::Discarded {
            unit,
            id,
            abend: AbendCode { number: abend },
            number,
        },
        rest,
    ))
}

#[tactic(auto, unfolding(crate::specs::RecordReader::completed_at))]
fn completed(bytes: &[u8]) -> Result<(Record, &[u8]), ReadFault>
    ensures { GivesRead (λ x. (x.0, x.1.now)) result (completed_at bytes.now) }
{
    let (unit, rest) = number8(bytes)?;
    let (id, rest) = number8(rest)?;
    Ok((Record::Completed { unit, id }, rest))
}

#[tactic(auto, unfolding(crate::specs::RecordReader::acknowledged_at))]
fn acknowledged(bytes: &[u8]) -> Result<(Record, &[u8]), ReadFault>
    ensures { GivesRead (λ x. (x.0, x.1.now)) result (acknowledged_at bytes.now) }
{
    let (terminal, rest) = name_text(bytes)?;
    let (number, rest) = number8(rest)?;
    Ok((
        Record::Acknowledged {
            terminal: name_of(terminal),
            number,
        },
        rest,
    ))
}

#[tactic(auto, unfolding(crate::specs::RecordReader::sync_point_at))]
fn sync_point(alloc: Global, bytes: &[u8]) -> Result<(Record, &[u8]), ReadFault>
    ensures { GivesRead (λ x. (x.0, x.1.now)) result (sync_point_at bytes.now) }
{
    let (unit, rest) = number8(bytes)?;
    let (pad, rest) = pad_change(alloc, rest)?;
    Ok((Record::SyncPoint { unit, pad }, rest))
}

#[tactic(auto, unfolding(crate::specs::RecordReader::checkpoint_at))]
fn checkpoint(bytes: &[u8]) -> Result<(Record, &[u8]), ReadFault>
    ensures { GivesRead (λ x. (x.0, x.1.now)) result (checkpoint_at bytes.now) }
{
    let (checkpoint, rest) = number8(bytes)?;
    let (next_id, rest) = number8(rest)?;
    let (next_unit, rest) = number8(rest)?;
    let (lasting_steps, rest) = number8(rest)?;
    Ok((
        Record::Checkpoint {
            checkpoint,
            next_id,
            next_unit,
            lasting_steps,
        },
        rest,
    ))
}

#[tactic(auto, unfolding(crate::specs::RecordReader::read_terminal))]
fn terminal(alloc: Global, bytes: &[u8]) -> Result<(Record, &[u8]), ReadFault>
    ensures { GivesRead (λ x. (x.0, x.1.now)) result (read_terminal bytes.now) }
{
    let (terminal, rest) = name_text(bytes)?;
    let (last_input, rest) = number8(rest)?;
    let (next_output, rest) = number8(rest)?;
    let (stopped, rest) = flag(rest)?;
    let (conversation, rest) = conversation(alloc, rest)?;
    Ok((
        Record::Terminal {
            terminal: name_of(terminal),
            last_input,
            next_output,
            stopped,
            conversation,
        },
        rest,
    ))
}

#[tactic(auto, unfolding(crate::specs::RecordReader::read_code))]
fn code(bytes: &[u8]) -> Result<(Record, &[u8]), ReadFault>
    ensures { GivesRead (λ x. (x.0, x.1.now)) result (read_code bytes.now) }
{
    let (code, rest) = name_text(bytes)?;
    let (stopped, rest) = flag(rest)?;
    let (class, rest) = byte(rest)?;
    let (priority, rest) = byte(rest)?;
    Ok((
        Record::Code {
            code: name_of(code),
            stopped,
            class,
            priority,
        },
        rest,
    ))
}

#[tactic(auto, unfolding(crate::specs::RecordReader::read_change))]
fn change(alloc: Global, bytes: &[u8]) -> Result<(Record, &[u8]), ReadFault>
    ensures { GivesRead (λ x. (x.0, x.1.now)) result (read_change bytes.now) }
{
    let (unit, rest) = number8(bytes)?;
    let (database, rest) = byte(rest)?;
    let (slot, rest) = number2(rest)?;
    let (before, rest) = text(alloc, 32000, rest)?;
    let (after, rest) = text(alloc, 32000, rest)?;
    Ok((
        Record::Change {
            unit,
            database,
            slot,
            before,
            after,
        },
        rest,
    ))
}

#[tactic(auto, unfolding(crate::specs::RecordReader::answered_of_kind_at))]
fn answered_of_kind(kind: u8, rest: &[u8]) -> Result<(Record, &[u8]), ReadFault>
    ensures { GivesRead (λ x. (x.0, x.1.now)) result (answered_of_kind_at kind rest.now) }
{
    match kind {
        0 => completed(rest),
        1 => acknowledged(rest),
        _ => Err(ReadFault::Broken(UNKNOWN, rest.len() + 1)),
    }
}

#[tactic(auto, unfolding(crate::specs::RecordReader::answered_at))]
fn answered(bytes: &[u8]) -> Result<(Record, &[u8]), ReadFault>
    ensures { GivesRead (λ x. (x.0, x.1.now)) result (answered_at bytes.now) }
{
    let (kind, rest) = byte(bytes)?;
    answered_of_kind(kind, rest)
}

#[tactic(auto, unfolding(crate::specs::RecordReader::snapshot_of_kind_at))]
fn snapshot_of_kind(alloc: Global, kind: u8, rest: &[u8]) -> Result<(Record, &[u8]), ReadFault>
    ensures { GivesRead (λ x. (x.0, x.1.now)) result (snapshot_of_kind_at kind rest.now) }
{
    match kind {
        0 => checkpoint(rest),
        1 => terminal(alloc, rest),
        2 => code(rest),
        _ => Err(ReadFault::Broken(UNKNOWN, rest.len() + 1)),
    }
}

#[tactic(auto, unfolding(crate::specs::RecordReader::snapshot_at))]
fn snapshot(alloc: Global, bytes: &[u8]) -> Result<(Record, &[u8]), ReadFault>
    ensures { GivesRead (λ x. (x.0, x.1.now)) result (snapshot_at bytes.now) }
{
    let (kind, rest) = byte(bytes)?;
    snapshot_of_kind(alloc, kind, rest)
}

#[tactic(auto, unfolding(crate::specs::RecordReader::content_of_code_at))]
fn content_of_code(alloc: Global, code: u8, rest: &[u8]) -> Result<(Record, &[u8]), ReadFault>
    ensures { GivesRead (λ x. (x.0, x.1.now)) result (content_of_code_at code rest.now) }
{
    match code {
        0x01 => input(alloc, rest),
        0x02 => command(alloc, rest),
        0x03 => reply(alloc, rest),
        0x07 => discarded(rest),
        0x36 => answered(rest),
        0x37 => sync_point(alloc, rest),
        0x40 => snapshot(alloc, rest),
        0x50 => change(alloc, rest),
        _ => Err(ReadFault::Broken(UNKNOWN, rest.len() + 1)),
    }
}

#[tactic(auto, unfolding(crate::specs::RecordReader::content_at))]
fn content(alloc: Global, bytes: &[u8]) -> Result<(Record, &[u8]), ReadFault>
    ensures { GivesRead (λ x. (x.0, x.1.now)) result (content_at bytes.now) }
{
    let (code, rest) = byte(bytes)?;
    content_of_code(alloc, code, rest)
}

/// The record at the front of the bytes, and its length.
#[tactic(auto, unfolding(crate::specs::RecordReader::record_at))]
pub(crate) fn record(alloc: Global, bytes: &[u8]) -> Result<(Record, usize), ReadFault>
    ensures { GivesRead (λ x. x) result (record_at bytes.now) }
{
    let (length, after_length) = number2(bytes)?;
    let (record, rest) = content(alloc, after_length)?;
    if length as usize + rest.len() == bytes.len() {
        Ok((record, length as usize))
    } else {
        Err(ReadFault::Broken(LENGTH, rest.len()))
    }
}
