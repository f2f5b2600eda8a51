//! Records, spelled.
ghost use Rattle.std.specs.Prelude.{◌≡◌, ◌<◌, ◌≤◌, ◌^◌, ◌++◌, ◌∷◌, [], length, take, OnOk, OnErr};
ghost use Rattle.log_records.specs.declared.record.Record.TheVariants.{Input, Command, Reply, Discarded, Completed, Acknowledged, SyncPoint, Checkpoint, Terminal, Code, Change};
ghost use Rattle.std.specs.List.{AllByRecursion, flat_map};
ghost use Rattle.tm_types.specs.Name.{IsName};
ghost use Rattle.tm_types.specs.Segment.{IsSegmentText};
ghost use Rattle.log_records.specs.RecordSpelling.{number2, number8, flag, name, text, segs, spelled_pad_change, conversation_field, record_content, record_spelling, IsText, IsCount, AreSegments, IsAbend, IsPadChange, IsShortPad, IsConversationSpelled, KeepsLimits, AreInRange, IsEncodable, IsLogRecord};

use crate::record::Record;
use model_messages::{Conversation, PadChange};
use std::alloc::Global;
use tm_types::{AbendCode, Memory, Name, Segments};

#[tactic(auto, unfolding(crate::specs::RecordSpelling::number2))]
pub(crate) fn put_number2(out: &mut Vec<u8>, number: u16) -> Result<(), Memory>
    ensures ok { OnOk result (out.new.items ≡ out.old.items ++ number2 number) }
    ensures kept { OnErr result (take (length out.old.items) out.new.items ≡ out.old.items) }
{
    out.extend_from_slice(&number.to_be_bytes())
}

#[tactic(auto, unfolding(crate::specs::RecordSpelling::number8))]
fn put_number8(out: &mut Vec<u8>, number: u64) -> Result<(), Memory>
    ensures ok { OnOk result (out.new.items ≡ out.old.items ++ number8 number) }
    ensures kept { OnErr result (take (length out.old.items) out.new.items ≡ out.old.items) }
{
    out.extend_from_slice(&number.to_be_bytes())
}

fn put_flag(out: &mut Vec<u8>, is_set: bool) -> Result<(), Memory>
    ensures ok { OnOk result (out.new.items ≡ out.old.items ++ flag is_set) }
    ensures kept { OnErr result (take (length out.old.items) out.new.items ≡ out.old.items) }
{
    out.push(if is_set { 1 } else { 0 })?;
    Ok(())
}

fn put_name(out: &mut Vec<u8>, value: &Name) -> Result<(), Memory>
    ensures ok { OnOk result (out.new.items ≡ out.old.items ++ name value.now) }
    ensures valid { OnOk result (IsName value.now) }
    ensures kept { OnErr result (take (length out.old.items) out.new.items ≡ out.old.items) }
{
    let bytes = value.as_bytes();
    out.push(bytes.len() as u8)?;
    out.extend_from_slice(bytes)
}

fn put_ids(out: &mut Vec<u8>, unit: u64, id: u64) -> Result<(), Memory>
    ensures ok { OnOk result (out.new.items ≡ out.old.items ++ (number8 unit ++ number8 id)) }
    ensures kept { OnErr result (take (length out.old.items) out.new.items ≡ out.old.items) }
{
    put_number8(out, unit)?;
    put_number8(out, id)
}

fn put_names(out: &mut Vec<u8>, origin: &Name, code: &Name) -> Result<(), Memory>
    ensures ok { OnOk result (out.new.items ≡ out.old.items ++ (name origin.now ++ name code.now)) }
    ensures origin_valid { OnOk result (IsName origin.now) }
    ensures code_valid { OnOk result (IsName code.now) }
    ensures kept { OnErr result (take (length out.old.items) out.new.items ≡ out.old.items) }
{
    put_name(out, origin)?;
    put_name(out, code)
}

fn put_text(out: &mut Vec<u8>, bytes: &[u8]) -> Result<(), Memory>
    requires { length bytes.now < 2 ^ 16 }
    ensures ok { OnOk result (out.new.items ≡ out.old.items ++ text bytes.now) }
    ensures kept { OnErr result (take (length out.old.items) out.new.items ≡ out.old.items) }
{
    put_number2(out, bytes.len() as u16)?;
    out.extend_from_slice(bytes)
}

fn put_texts(out: &mut Vec<u8>, segments: &Segments) -> Result<(), Memory>
    ensures ok { OnOk result (out.new.items ≡ out.old.items ++ flat_map text segments.now) }
    ensures valid { OnOk result (AllByRecursion IsSegmentText segments.now) }
    ensures kept { OnErr result (take (length out.old.items) out.new.items ≡ out.old.items) }
{
    for index in 0..segments.len() {
        let Some(segment) = segments.get(index) else {
            unreachable!()
        };
        put_text(out, segment.text())?;
    }
    Ok(())
}

fn put_segments(out: &mut Vec<u8>, segments: &Segments) -> Result<(), Memory>
    requires { IsCount segments.now }
    ensures ok { OnOk result (out.new.items ≡ out.old.items ++ segs segments.now) }
    ensures valid { OnOk result (AreSegments segments.now) }
    ensures kept { OnErr result (take (length out.old.items) out.new.items ≡ out.old.items) }
{
    out.push(segments.len() as u8)?;
    put_texts(out, segments)
}

fn put_pad_change(out: &mut Vec<u8>, change: &PadChange) -> Result<(), Memory>
    requires { IsPadChange change.now }
    ensures ok { OnOk result (out.new.items ≡ out.old.items ++ spelled_pad_change change.now) }
    ensures kept { OnErr result (take (length out.old.items) out.new.items ≡ out.old.items) }
{
    match change {
        PadChange::Stays => {
            out.push(0)?;
            put_text(out, &[])
        }
        PadChange::New(pad) => {
            out.push(1)?;
            put_text(out, pad.as_slice())
        }
        PadChange::Ends => {
            out.push(2)?;
            put_text(out, &[])
        }
    }
}

fn put_conversation(out: &mut Vec<u8>, conversation: &Option<Conversation>) -> Result<(), Memory>
    requires { IsShortPad conversation.now }
    ensures ok { OnOk result (out.new.items ≡ out.old.items ++ conversation_field conversation.now) }
    ensures valid { OnOk result (IsConversationSpelled conversation.now) }
    ensures kept { OnErr result (take (length out.old.items) out.new.items ≡ out.old.items) }
{
    match conversation {
        None => {
            out.push(0)?;
            put_text(out, &[])
        }
        Some(found) => {
            out.push(1)?;
            put_name(out, &found.code)?;
            put_text(out, found.pad.as_slice())
        }
    }
}

pub(crate) fn put_input(
    out: &mut Vec<u8>,
    unit: u64,
    id: u64,
    origin: &Name,
    code: &Name,
    number: u64,
    conversation: bool,
    segments: &Segments,
) -> Result<(), Memory>
    requires { IsCount segments.now }
    ensures ok { OnOk result (out.new.items ≡ out.old.items ++ record_content (Input unit id origin.now code.now number conversation segments.now)) }
    ensures valid { OnOk result (AreInRange (Input unit id origin.now code.now number conversation segments.now)) }
    ensures kept { OnErr result (take (length out.old.items) out.new.items ≡ out.old.items) }
{
    out.push(0x01)?;
    put_ids(out, unit, id)?;
    put_names(out, origin, code)?;
    put_number8(out, number)?;
    put_flag(out, conversation)?;
    put_segments(out, segments)
}

pub(crate) fn put_command(out: &mut Vec<u8>, text: &[u8]) -> Result<(), Memory>
    requires { length text.now ≤ 80 }
    ensures ok { OnOk result (out.new.items ≡ out.old.items ++ record_content (Command text.now)) }
    ensures valid { OnOk result (AreInRange (Command text.now)) }
    ensures kept { OnErr result (take (length out.old.items) out.new.items ≡ out.old.items) }
{
    out.push(0x02)?;
    put_text(out, text)
}

pub(crate) fn put_reply(
    out: &mut Vec<u8>,
    unit: u64,
    terminal: &Name,
    number: u64,
    segments: &Segments,
) -> Result<(), Memory>
    requires { IsCount segments.now }
    ensures ok { OnOk result (out.new.items ≡ out.old.items ++ record_content (Reply unit terminal.now number segments.now)) }
    ensures valid { OnOk result (AreInRange (Reply unit terminal.now number segments.now)) }
    ensures kept { OnErr result (take (length out.old.items) out.new.items ≡ out.old.items) }
{
    out.push(0x03)?;
    put_number8(out, unit)?;
    put_name(out, terminal)?;
    put_number8(out, number)?;
    put_segments(out, segments)
}

pub(crate) fn put_discarded(
    out: &mut Vec<u8>,
    unit: u64,
    id: u64,
    abend: AbendCode,
    number: u64,
) -> Result<(), Memory>
    requires { IsAbend abend.number }
    ensures ok { OnOk result (out.new.items ≡ out.old.items ++ record_content (Discarded unit id abend number)) }
    ensures valid { OnOk result (AreInRange (Discarded unit id abend number)) }
    ensures kept { OnErr result (take (length out.old.items) out.new.items ≡ out.old.items) }
{
    out.push(0x07)?;
    put_ids(out, unit, id)?;
    put_number2(out, abend.number)?;
    put_number8(out, number)
}

pub(crate) fn put_completed(out: &mut Vec<u8>, unit: u64, id: u64) -> Result<(), Memory>
    ensures ok { OnOk result (out.new.items ≡ out.old.items ++ record_content (Completed unit id)) }
    ensures valid { OnOk result (AreInRange (Completed unit id)) }
    ensures kept { OnErr result (take (length out.old.items) out.new.items ≡ out.old.items) }
{
    out.extend_from_slice(&[0x36, 0])?;
    put_ids(out, unit, id)
}

pub(crate) fn put_acknowledged(
    out: &mut Vec<u8>,
    terminal: &Name,
    number: u64,
) -> Result<(), Memory>
    ensures ok { OnOk result (out.new.items ≡ out.old.items ++ record_content (Acknowledged terminal.now number)) }
    ensures valid { OnOk result (AreInRange (Acknowledged terminal.now number)) }
    ensures kept { OnErr result (take (length out.old.items) out.new.items ≡ out.old.items) }
{
    out.extend_from_slice(&[0x36, 1])?;
    put_name(out, terminal)?;
    put_number8(out, number)
}

pub(crate) fn put_sync_point(out: &mut Vec<u8>, unit: u64, pad: &PadChange) -> Result<(), Memory>
    requires { IsPadChange pad.now }
    ensures ok { OnOk result (out.new.items ≡ out.old.items ++ record_content (SyncPoint unit pad.now)) }
    ensures valid { OnOk result (AreInRange (SyncPoint unit pad.now)) }
    ensures kept { OnErr result (take (length out.old.items) out.new.items ≡ out.old.items) }
{
    out.push(0x37)?;
    put_number8(out, unit)?;
    put_pad_change(out, pad)
}

pub(crate) fn put_checkpoint(
    out: &mut Vec<u8>,
    checkpoint: u64,
    next_id: u64,
    next_unit: u64,
    lasting_steps: u64,
) -> Result<(), Memory>
    ensures ok { OnOk result (out.new.items ≡ out.old.items ++ record_content (Checkpoint checkpoint next_id next_unit lasting_steps)) }
    ensures valid { OnOk result (AreInRange (Checkpoint checkpoint next_id next_unit lasting_steps)) }
    ensures kept { OnErr result (take (length out.old.items) out.new.items ≡ out.old.items) }
{
    out.extend_from_slice(&[0x40, 0])?;
    put_number8(out, checkpoint)?;
    put_number8(out, next_id)?;
    put_number8(out, next_unit)?;
    put_number8(out, lasting_steps)
}

pub(crate) fn put_terminal(
    out: &mut Vec<u8>,
    terminal: &Name,
    last_input: u64,
    next_output: u64,
    stopped: bool,
    conversation: &Option<Conversation>,
) -> Result<(), Memory>
    requires { IsShortPad conversation.now }
    ensures ok { OnOk result (out.new.items ≡ out.old.items ++ record_content (Terminal terminal.now last_input next_output stopped conversation.now)) }
    ensures valid { OnOk result (AreInRange (Terminal terminal.now last_input next_output stopped conversation.now)) }
    ensures kept { OnErr result (take (length out.old.items) out.new.items ≡ out.old.items) }
{
    out.extend_from_slice(&[0x40, 1])?;
    put_name(out, terminal)?;
    put_number8(out, last_input)?;
    put_number8(out, next_output)?;
    put_flag(out, stopped)?;
    put_conversation(out, conversation)
}

pub(crate) fn put_code(
    out: &mut Vec<u8>,
    code: &Name,
    stopped: bool,
    class: u8,
    priority: u8,
) -> Result<(), Memory>
    ensures ok { OnOk result (out.new.items ≡ out.old.items ++ record_content (Code code.now stopped class priority)) }
    ensures valid { OnOk result (AreInRange (Code code.now stopped class priority)) }
    ensures kept { OnErr result (take (length out.old.items) out.new.items ≡ out.old.items) }
{
    out.extend_from_slice(&[0x40, 2])?;
    put_name(out, code)?;
    put_flag(out, stopped)?;
    out.push(class)?;
    out.push(priority)?;
    Ok(())
}

/// Appends the front of a slot's change, to which its images belong.
pub(crate) fn put_slot(out: &mut Vec<u8>, unit: u64, database: u8, slot: u16) -> Result<(), Memory>
    ensures ok { OnOk result (out.new.items ≡ out.old.items ++ 0x50 ∷ (number8 unit ++ database ∷ number2 slot)) }
    ensures kept { OnErr result (take (length out.old.items) out.new.items ≡ out.old.items) }
{
    out.push(0x50)?;
    put_number8(out, unit)?;
    out.push(database)?;
    put_number2(out, slot)
}

fn put_change(
    out: &mut Vec<u8>,
    unit: u64,
    database: u8,
    slot: u16,
    before: &[u8],
    after: &[u8],
) -> Result<(), Memory>
    requires before { length before.now ≤ 32000 }
    requires after { length after.now ≤ 32000 }
    ensures ok { OnOk result (out.new.items ≡ out.old.items ++ record_content (Change unit database slot before.now after.now)) }
    ensures valid { OnOk result (AreInRange (Change unit database slot before.now after.now)) }
    ensures kept { OnErr result (take (length out.old.items) out.new.items ≡ out.old.items) }
{
    put_slot(out, unit, database, slot)?;
    put_text(out, before)?;
    put_text(out, after)
}

fn put_content(out: &mut Vec<u8>, value: &Record) -> Result<(), Memory>
    requires { KeepsLimits value.now }
    ensures ok { OnOk result (out.new.items ≡ out.old.items ++ record_content value.now) }
    ensures valid { OnOk result (AreInRange value.now) }
    ensures kept { OnErr result (take (length out.old.items) out.new.items ≡ out.old.items) }
{
    match value {
        Record::Input {
            unit,
            id,
            origin,
            code,
            number,
            conversation,
            segments,
        } => put_input(
            out,
            *unit,
            *id,
            origin,
            code,
            *number,
            *conversation,
            segments,
        ),
        Record::Command { text } => put_command(out, text.as_slice()),
        Record::Reply {
            unit,
            terminal,
            number,
            segments,
        } => put_reply(out, *unit, terminal, *number, segments),
        Record::Discarded {
            unit,
            id,
            abend,
            number,
        } => put_discarded(out, *unit, *id, *abend, *number),
        Record::Completed { unit, id } => put_completed(out, *unit, *id),
        Record::Acknowledged { terminal, number } => put_acknowledged(out, terminal, *number),
        Record::SyncPoint { unit, pad } => put_sync_point(out, *unit, pad),
        Record::Checkpoint {
            checkpoint,
            next_id,
            next_unit,
            lasting_steps,
        } => put_checkpoint(out, *checkpoint, *next_id, *next_unit, *lasting_steps),
        Record::Terminal {
            terminal,
            last_input,
            next_output,
            stopped,
            conversation,
        } => put_terminal(
            out,
            terminal,
            *last_input,
            *next_output,
            *stopped,
            conversation,
        ),
        Record::Code {
            code,
            stopped,
            class,
            priority,
        } => put_code(out, code, *stopped, *class, *priority),
        Record::Change {
            unit,
            database,
            slot,
            before,
            after,
        } => put_change(
            out,
            *unit,
            *database,
            *slot,
            before.as_slice(),
            after.as_slice(),
        ),
    }
}

/// Appends the one spelling of the record. After `Memory` the vector is as it was before.
///
/// A message and a reply must have 1 to 32 segments, a command at most 80 bytes, an image at most
/// 32,000, and an abend a number from 1 to 4095. A record with a pad must have at most 65,535
/// bytes; no other is longer.
pub fn encode(alloc: Global, value: &Record, out: &mut Vec<u8>) -> Result<(), Memory>
    requires { IsEncodable value.now }
    ensures ok { OnOk result (out.new.items ≡ out.old.items ++ record_spelling value.now) }
    ensures valid { OnOk result (IsLogRecord value.now) }
    ensures err { OnErr result (out.new.items ≡ out.old.items) }
{
    let mut content = Vec::new(alloc);
    put_content(&mut content, value)?;
    let length = content.len() as u16 + 2;
    let mut spelled = Vec::new(alloc);
    put_number2(&mut spelled, length)?;
    spelled.extend_from_slice(&content)?;
    out.extend_from_slice(&spelled)
}
