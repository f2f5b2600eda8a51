//! The parts of a record's layout, byte by byte.
ghost use Rattle.std.specs.Prelude.{◌≡◌, ◌+◌, ◌*◌, ◌==◌, if◌then◌else◌};
ghost use Rattle.image_reading.specs.declared.parts.Part.TheVariants.{Positive, Any, TextLow, SegmentLow};
ghost use Rattle.image_reading.specs.RecordParts.{any_left, names_left, segments_left, segment_left, if_so, part_step, least, most};

use tm_types::{is_name_byte, is_printable};

/// What may stand from a byte on.
#[derive(Clone, Copy, Drop)]
pub enum Part {
    /// This byte.
    Exactly(u8),
    /// 0 or 1.
    Flag,
    /// A byte from 1 on.
    Positive,
    /// Any byte, and so many more.
    Any(u16),
    /// A byte of a name, and so many more.
    Names(u16),
    /// A number from 1 to 4,095 in two bytes.
    Abend,
    /// A name with its length in front.
    Name,
    /// A text of at most so many bytes, with its length in front.
    Text(u16),
    /// The same behind the first byte of its length, which is this one.
    TextLow(u16, u8),
    /// Segments with their count in front.
    Segments,
    /// A segment with its length in front, and so many more.
    Segment(u16),
    /// The same behind the first byte of its length, which is the last number.
    SegmentLow(u16, u8),
    /// The bytes of a segment before so many more: one, and as many more as the last number says.
    SegmentBytes(u16, u16),
}

/// So many bytes more, if there are any.
fn any_left(more: u16) -> Option<Part>
    ensures { result ≡ any_left more }
{
    match more {
        0 => None,
        _ => Some(Part::Any(more - 1)),
    }
}

fn names_left(more: u16) -> Option<Part>
    ensures { result ≡ names_left more }
{
    match more {
        0 => None,
        _ => Some(Part::Names(more - 1)),
    }
}

/// So many segments more, if there are any.
fn segments_left(more: u16) -> Option<Part>
    ensures { result ≡ segments_left more }
{
    match more {
        0 => None,
        _ => Some(Part::Segment(more - 1)),
    }
}

/// So many bytes more of a segment, and then so many segments.
fn segment_left(more: u16, bytes: u16) -> Option<Part>
    ensures { result ≡ segment_left more bytes }
{
    match bytes {
        0 => segments_left(more),
        _ => Some(Part::SegmentBytes(more, bytes - 1)),
    }
}

fn if_so(test: bool, left: Option<Part>) -> Option<Option<Part>>
    ensures { result ≡ if_so test left }
{
    if test { Some(left) } else { None }
}

/// The other byte of an abend's number, behind this one.
fn abend_left(byte: u8) -> Option<Part>
    ensures { result ≡ (if byte == 0 then Some Positive else Some (Any 0)) }
{
    if byte == 0 {
        Some(Part::Positive)
    } else {
        Some(Part::Any(0))
    }
}

/// A number of two bytes.
fn number(high: u8, low: u8) -> u16
    ensures { result ≡ 256 * high + low }
{
    256 * high as u16 + low as u16
}

/// The bytes of a text behind its length.
fn text_left(limit: u16, high: u8, low: u8) -> Option<Option<Part>>
    ensures { result ≡ part_step (TextLow limit high) low }
{
    let length = number(high, low);
    if_so(low <= 255 && length <= limit, any_left(length))
}

/// The bytes of a segment behind its length, and then so many segments.
fn length_left(more: u16, high: u8, low: u8) -> Option<Option<Part>>
    ensures { result ≡ part_step (SegmentLow more high) low }
{
    let length = number(high, low);
    if_so(low <= 255 && length <= 1996, segment_left(more, length))
}

/// What is left of a part behind its first byte: None, where the byte isn't one of it.
pub fn step(part: Part, byte: u8) -> Option<Option<Part>>
    ensures { result ≡ part_step part byte }
{
    match part {
        Part::Exactly(wanted) => if_so(byte == wanted, None),
        Part::Flag => if_so(byte <= 1, None),
        Part::Positive => if_so(1 <= byte, None),
        Part::Any(more) => Some(any_left(more)),
        Part::Names(more) => if_so(is_name_byte(byte), names_left(more)),
        Part::Abend => if_so(byte <= 15, abend_left(byte)),
        Part::Name => if_so(1 <= byte && byte <= 8, names_left(byte as u16)),
        Part::Text(limit) => if_so(
            256 * byte as u32 <= limit as u32,
            Some(Part::TextLow(limit, byte)),
        ),
        Part::TextLow(limit, high) => text_left(limit, high, byte),
        Part::Segments => if_so(1 <= byte && byte <= 32, segments_left(byte as u16)),
        Part::Segment(more) => if_so(
            256 * byte as u16 <= 1996,
            Some(Part::SegmentLow(more, byte)),
        ),
        Part::SegmentLow(more, high) => length_left(more, high, byte),
        Part::SegmentBytes(more, bytes) => if_so(is_printable(byte), segment_left(more, bytes)),
    }
}

/// How few bytes a part has.
pub fn least(part: Part) -> usize
    ensures { result ≡ least part }
{
    match part {
        Part::Exactly(_byte) => 1,
        Part::Flag => 1,
        Part::Positive => 1,
        Part::Any(more) => more as usize + 1,
        Part::Names(more) => more as usize + 1,
        Part::Abend => 2,
        Part::Name => 2,
        Part::Text(_limit) => 2,
        Part::TextLow(_limit, high) => 1 + 256 * high as usize,
        Part::Segments => 3,
        Part::Segment(more) => 2 + 2 * more as usize,
        Part::SegmentLow(more, high) => 1 + 256 * high as usize + 2 * more as usize,
        Part::SegmentBytes(more, bytes) => bytes as usize + 1 + 2 * more as usize,
    }
}

/// How many bytes a part has at most.
pub fn most(part: Part) -> usize
    ensures { result ≡ most part }
{
    match part {
        Part::Exactly(_byte) => 1,
        Part::Flag => 1,
        Part::Positive => 1,
        Part::Any(more) => more as usize + 1,
        Part::Names(more) => more as usize + 1,
        Part::Abend => 2,
        Part::Name => 9,
        Part::Text(limit) => 2 + limit as usize,
        Part::TextLow(limit, high) => 1 + (256 * high as usize + 255).min(limit as usize),
        Part::Segments => 63937,
        Part::Segment(more) => 1998 + 1998 * more as usize,
        Part::SegmentLow(more, high) => {
            1 + (256 * high as usize + 255).min(1996) + 1998 * more as usize
        }
        Part::SegmentBytes(more, bytes) => bytes as usize + 1 + 1998 * more as usize,
    }
}
