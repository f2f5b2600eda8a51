//! The fields of records, read.
ghost use Rattle.std.specs.Prelude.{◌≡◌, ◌≤◌, length, IfOk, IsTrue};
ghost use Rattle.std.specs.List.{list_all};
ghost use Rattle.std.specs.Int.{w16, w64};
ghost use Rattle.tm_types.specs.Name.{IsName, is_name_byte};
ghost use Rattle.tm_types.specs.Segment.{is_printable};
ghost use Rattle.log_records.specs.RecordReader.{GivesRead, read_byte, read_number, flag_at, read_bytes, bytes_of_kind_at, number_within_at, byte_within_at, name_at, text_at, segment_at, read_segments, segs_at, pad_of_kind_at, pad_change_at, conversation_where_at, read_conversation};

use crate::fault::{ENDS, OUT_OF_RANGE, ReadFault};
use crate::wrong_bytes::{first_outside_names, front};
use model_messages::{Conversation, PadChange};
use std::alloc::Global;
use tm_types::{Bytes, Name, Segment, SegmentRefused, Segments, first_unprintable};

#[tactic(auto, unfolding(crate::specs::RecordReader::read_byte))]
pub(crate) fn byte(bytes: &[u8]) -> Result<(u8, &[u8]), ReadFault>
    ensures { GivesRead (λ x. (x.0, x.1.now)) result (read_byte bytes.now) }
{
    match bytes {
        [] => Err(ReadFault::Broken(ENDS, 0)),
        [first, rest @ ..] => Ok((*first, rest)),
    }
}

#[tactic(auto, unfolding(crate::specs::RecordReader::read_number))]
pub(crate) fn number2(bytes: &[u8]) -> Result<(u16, &[u8]), ReadFault>
    ensures { GivesRead (λ x. (x.0, x.1.now)) result (read_number w16 bytes.now) }
{
    if bytes.len() < 2 {
        return Err(ReadFault::Broken(ENDS, 0));
    }
    let (front, rest) = bytes.split_at(2);
    Ok((u16::from_be_bytes([front[0], front[1]]), rest))
}

#[tactic(auto, unfolding(crate::specs::RecordReader::read_number))]
pub(crate) fn number8(bytes: &[u8]) -> Result<(u64, &[u8]), ReadFault>
    ensures { GivesRead (λ x. (x.0, x.1.now)) result (read_number w64 bytes.now) }
{
    if bytes.len() < 8 {
        return Err(ReadFault::Broken(ENDS, 0));
    }
    let (front, rest) = bytes.split_at(8);
    let number = u64::from_be_bytes([
        front[0], front[1], front[2], front[3], front[4], front[5], front[6], front[7],
    ]);
    Ok((number, rest))
}

#[tactic(auto, unfolding(crate::specs::RecordReader::flag_at))]
pub(crate) fn flag(bytes: &[u8]) -> Result<(bool, &[u8]), ReadFault>
    ensures { GivesRead (λ x. (x.0, x.1.now)) result (flag_at bytes.now) }
{
    match bytes {
        [] => Err(ReadFault::Broken(ENDS, 0)),
        [0, rest @ ..] => Ok((false, rest)),
        [1, rest @ ..] => Ok((true, rest)),
        [_, ..] => Err(ReadFault::Broken(OUT_OF_RANGE, bytes.len())),
    }
}

#[tactic(auto, unfolding(crate::specs::RecordReader::byte_within_at))]
pub(crate) fn byte_within(low: u8, high: u8, bytes: &[u8]) -> Result<(u8, &[u8]), ReadFault>
    ensures gives { GivesRead (λ x. (x.0, x.1.now)) result (byte_within_at low high bytes.now) }
    ensures within { IfOk result (λ x. (low ≤ x.0) × (x.0 ≤ high)) }
{
    let (number, rest) = byte(bytes)?;
    if low <= number && number <= high {
        Ok((number, rest))
    } else {
        Err(ReadFault::Broken(OUT_OF_RANGE, bytes.len()))
    }
}

#[tactic(auto, unfolding(crate::specs::RecordReader::number_within_at))]
pub(crate) fn number_within(low: u16, high: u16, bytes: &[u8]) -> Result<(u16, &[u8]), ReadFault>
    ensures gives { GivesRead (λ x. (x.0, x.1.now)) result (number_within_at low high w16 bytes.now) }
    ensures within { IfOk result (λ x. (low ≤ x.0) × (x.0 ≤ high)) }
{
    let (number, rest) = number2(bytes)?;
    if low <= number && number <= high {
        Ok((number, rest))
    } else {
        Err(ReadFault::Broken(OUT_OF_RANGE, bytes.len()))
    }
}

#[tactic(auto, unfolding(crate::specs::RecordReader::read_bytes))]
fn bytes_of(count: usize, bytes: &[u8]) -> Result<(&[u8], &[u8]), ReadFault>
    ensures { GivesRead (λ x. (x.0.now, x.1.now)) result (read_bytes count bytes.now) }
{
    if bytes.len() < count {
        return Err(ReadFault::Broken(ENDS, 0));
    }
    Ok(bytes.split_at(count))
}

#[tactic(auto, unfolding(crate::specs::RecordReader::text_at))]
pub(crate) fn text(alloc: Global, limit: u16, bytes: &[u8]) -> Result<(Bytes, &[u8]), ReadFault>
    ensures { GivesRead (λ x. (x.0, x.1.now)) result (text_at limit bytes.now) }
{
    let (length, rest) = number_within(0, limit, bytes)?;
    let (text, rest) = bytes_of(length as usize, rest)?;
    Ok((Bytes::copied(alloc, text)?, rest))
}

#[tactic(auto, unfolding(crate::specs::RecordReader::bytes_of_kind_at))]
fn name_bytes(count: usize, bytes: &[u8]) -> Result<(&[u8], &[u8]), ReadFault>
    ensures gives { GivesRead (λ x. (x.0.now, x.1.now)) result (bytes_of_kind_at is_name_byte count bytes.now) }
    ensures each { IfOk result (λ x. (length x.0.now ≡ count) × IsTrue (list_all is_name_byte x.0.now)) }
{
    if let Some(wrong) = first_outside_names(front(bytes, count)) {
        return Err(ReadFault::Broken(OUT_OF_RANGE, bytes.len() - wrong));
    }
    bytes_of(count, bytes)
}

#[tactic(auto, unfolding(crate::specs::RecordReader::bytes_of_kind_at))]
fn printable_bytes(count: usize, bytes: &[u8]) -> Result<(&[u8], &[u8]), ReadFault>
    ensures gives { GivesRead (λ x. (x.0.now, x.1.now)) result (bytes_of_kind_at is_printable count bytes.now) }
    ensures each { IfOk result (λ x. (length x.0.now ≡ count) × IsTrue (list_all is_printable x.0.now)) }
{
    if let Some(wrong) = first_unprintable(front(bytes, count)) {
        return Err(ReadFault::Broken(OUT_OF_RANGE, bytes.len() - wrong));
    }
    bytes_of(count, bytes)
}

#[tactic(auto, unfolding(crate::specs::RecordReader::name_at))]
pub(crate) fn name_text(bytes: &[u8]) -> Result<(&[u8], &[u8]), ReadFault>
    ensures gives { GivesRead (λ x. (x.0.now, x.1.now)) result (name_at bytes.now) }
    ensures valid { IfOk result (λ x. IsName x.0.now) }
{
    let (length, rest) = byte_within(1, 8, bytes)?;
    name_bytes(length as usize, rest)
}

/// The name with these bytes.
pub(crate) fn name_of(text: &[u8]) -> Name
    requires { IsName text.now }
    ensures { result ≡ text.now }
{
    match Name::read(text) {
        Some(name) => name,
        None => unreachable!(),
    }
}

#[tactic(auto, unfolding(crate::specs::RecordReader::segment_at))]
fn segment(alloc: Global, bytes: &[u8]) -> Result<(Segment, &[u8]), ReadFault>
    ensures { GivesRead (λ x. (x.0, x.1.now)) result (segment_at bytes.now) }
{
    let (length, rest) = number_within(0, 1996, bytes)?;
    let (text, rest) = printable_bytes(length as usize, rest)?;
    match Segment::make(alloc, text) {
        Ok(segment) => Ok((segment, rest)),
        Err(SegmentRefused::Memory) => Err(ReadFault::Memory),
        Err(SegmentRefused::TooLong(_)) => unreachable!(),
        Err(SegmentRefused::BadByte(_)) => unreachable!(),
    }
}

fn segments_of(alloc: Global, count: u8, bytes: &[u8]) -> Result<(Segments, &[u8]), ReadFault>
    ensures { GivesRead (λ x. (x.0, x.1.now)) result (read_segments count bytes.now) }
{
    let mut segments = Segments::new(alloc);
    let mut rest = bytes;
    for _ in 0..count {
        let (segment, after) = segment(alloc, rest)?;
        segments.push(segment)?;
        rest = after;
    }
    Ok((segments, rest))
}

#[tactic(auto, unfolding(crate::specs::RecordReader::segs_at))]
pub(crate) fn segments(alloc: Global, bytes: &[u8]) -> Result<(Segments, &[u8]), ReadFault>
    ensures { GivesRead (λ x. (x.0, x.1.now)) result (segs_at bytes.now) }
{
    let (count, rest) = byte_within(1, 32, bytes)?;
    segments_of(alloc, count, rest)
}

#[tactic(auto, unfolding(crate::specs::RecordReader::pad_of_kind_at, crate::specs::RecordReader::text_at))]
fn pad_of_kind(alloc: Global, kind: u8, bytes: &[u8]) -> Result<(PadChange, &[u8]), ReadFault>
    ensures { GivesRead (λ x. (x.0, x.1.now)) result (pad_of_kind_at kind bytes.now) }
{
    match kind {
        0 => {
            let (_empty, rest) = text(alloc, 0, bytes)?;
            Ok((PadChange::Stays, rest))
        }
        1 => {
            let (pad, rest) = text(alloc, u16::MAX, bytes)?;
            Ok((PadChange::New(pad), rest))
        }
        _ => {
            let (_empty, rest) = text(alloc, 0, bytes)?;
            Ok((PadChange::Ends, rest))
        }
    }
}

#[tactic(auto, unfolding(crate::specs::RecordReader::pad_change_at))]
pub(crate) fn pad_change(alloc: Global, bytes: &[u8]) -> Result<(PadChange, &[u8]), ReadFault>
    ensures { GivesRead (λ x. (x.0, x.1.now)) result (pad_change_at bytes.now) }
{
    let (kind, rest) = byte_within(0, 2, bytes)?;
    pad_of_kind(alloc, kind, rest)
}

#[tactic(auto, unfolding(crate::specs::RecordReader::conversation_where_at))]
fn conversation_where(
    alloc: Global,
    there: bool,
    bytes: &[u8],
) -> Result<(Option<Conversation>, &[u8]), ReadFault>
    ensures { GivesRead (λ x. (x.0, x.1.now)) result (conversation_where_at there bytes.now) }
{
    if !there {
        let (_empty, rest) = text(alloc, 0, bytes)?;
        return Ok((None, rest));
    }
    let (code, rest) = name_text(bytes)?;
    let (pad, rest) = text(alloc, u16::MAX, rest)?;
    Ok((
        Some(Conversation {
            code: name_of(code),
            pad,
        }),
        rest,
    ))
}

#[tactic(auto, unfolding(crate::specs::RecordReader::read_conversation))]
pub(crate) fn conversation(
    alloc: Global,
    bytes: &[u8],
) -> Result<(Option<Conversation>, &[u8]), ReadFault>
    ensures { GivesRead (λ x. (x.0, x.1.now)) result (read_conversation bytes.now) }
{
    let (there, rest) = flag(bytes)?;
    conversation_where(alloc, there, rest)
}
