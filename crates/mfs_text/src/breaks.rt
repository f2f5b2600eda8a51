//! The rule that a format keeps among its lines.
ghost use Rattle.std.specs.Prelude.{◌≡◌, ◌+◌, [], nat_lt, IfNone};
ghost use Rattle.std.specs.List.{list_any};
ghost use Rattle.std.specs.Option.{option_or};
ghost use Rattle.model_system.specs.FormatRule as spec;

use model_system::{DeviceField, Format, MessageField, MessageFieldLine, SegmentLine};
use tm_types::{Name, SEGMENT_LIMIT};

/// The lowest line of the format that breaks the rule, `line` being that of its FMT: None exactly
/// where the format keeps the rule.
///
/// Fields have different names and share no place, which the later one breaks. SRC names a field. No
/// SEG of the input has more than 1,996 bytes. A format without a SEG of the input breaks the rule
/// in the line of its FMT.
#[tactic(auto, using(crate::proofs::Kept::kept_by_all))]
pub fn broken_line(format: &Format, line: u32) -> Option<u32>
    ensures value { result ≡ spec.broken_format_line line format.now }
    ensures kept { IfNone result (spec.KeepsRule format.now) }
{
    first_broken(format, line)
}

#[tactic(auto, unfolding(model_system::specs::FormatRule::broken_format_line))]
fn first_broken(format: &Format, line: u32) -> Option<u32>
    ensures { result ≡ spec.broken_format_line line format.now }
{
    first_of(
        no_input(line, format.input()),
        first_of(
            clashing_field(format.fields()),
            first_of(
                broken_input(format.fields(), format.input()),
                broken_output(format.fields(), format.output()),
            ),
        ),
    )
}

fn first_of(first: Option<u32>, second: Option<u32>) -> Option<u32>
    ensures { result ≡ option_or first second }
{
    match first {
        Some(line) => Some(line),
        None => second,
    }
}

fn no_input(line: u32, segments: &[SegmentLine]) -> Option<u32>
    ensures { result ≡ spec.no_input line segments.now }
{
    match segments {
        [] => Some(line),
        [_, ..] => None,
    }
}

fn line_if(number: u32, broken: bool) -> Option<u32>
    ensures { result ≡ spec.line_if number broken }
{
    if broken { Some(number) } else { None }
}

fn overlap(one: &DeviceField, other: &DeviceField) -> bool
    ensures { result ≡ spec.overlap one.now other.now }
{
    one.row == other.row && (begins_within(one, other) && begins_within(other, one))
}

/// Whether a field begins before the other one ends.
fn begins_within(one: &DeviceField, other: &DeviceField) -> bool
    ensures { result ≡ nat_lt one.now.column (other.now.column + other.now.width) }
{
    u16::from(one.column) < u16::from(other.column) + u16::from(other.width)
}

fn clash(one: &DeviceField, other: &DeviceField) -> bool
    ensures { result ≡ spec.clash one.now other.now }
{
    one.name == other.name || overlap(one, other)
}

fn clashes(field: &DeviceField, before: &[DeviceField]) -> bool
    ensures { result ≡ list_any (spec.clash field.now) before.now }
{
    before.iter().any(|other| clash(field, other))
}

/// The first field that clashes with one before it. Fields that don't clash are 1,920 at most.
fn clashing_field(fields: &[DeviceField]) -> Option<u32>
    ensures { result ≡ spec.clashing_field [] fields.now }
{
    for (index, field) in fields.iter().enumerate() {
        if clashes(field, &fields[..index]) {
            return Some(field.number);
        }
    }
    None
}

fn has_field(name: &Name, fields: &[DeviceField]) -> bool
    ensures { result ≡ spec.has_field name.now fields.now }
{
    fields.iter().any(|field| field.name == *name)
}

fn is_known(fields: &[DeviceField], content: &MessageField) -> bool
    ensures { result ≡ spec.is_source_known fields.now content.now }
{
    match content {
        MessageField::Source(source) => has_field(&source.name, fields),
        MessageField::Literal(_) => true,
    }
}

/// The first MFLD whose SRC names no field.
fn unknown_source(fields: &[DeviceField], lines: &[MessageFieldLine]) -> Option<u32>
    ensures { result ≡ spec.unknown_source fields.now lines.now }
{
    for line in lines {
        if !is_known(fields, &line.content) {
            return Some(line.number);
        }
    }
    None
}

fn bytes_of(content: &MessageField) -> usize
    ensures { result ≡ spec.field_bytes content.now }
{
    match content {
        MessageField::Source(source) => source.width as usize,
        MessageField::Literal(text) => text.len(),
    }
}

/// Whether the MFLDs have more bytes together than a segment may have.
#[tactic(auto, using(crate::proofs::SegmentRoom::one_more))]
fn is_too_long(lines: &[MessageFieldLine]) -> bool
    ensures { result ≡ nat_lt 1996 (spec.segment_bytes_in lines.now) }
{
    let mut room = SEGMENT_LIMIT;
    for line in lines {
        let bytes = bytes_of(&line.content);
        if room < bytes {
            return true;
        }
        room -= bytes;
    }
    false
}

/// The first line of the segments that go in that breaks the rule.
fn broken_input(fields: &[DeviceField], segments: &[SegmentLine]) -> Option<u32>
    ensures { result ≡ spec.broken_input fields.now segments.now }
{
    for segment in segments {
        let lines = segment.fields.as_slice();
        let broken = first_of(
            line_if(segment.number, is_too_long(lines)),
            unknown_source(fields, lines),
        );
        if broken.is_some() {
            return broken;
        }
    }
    None
}

/// The first line of the segments that come out that breaks the rule.
fn broken_output(fields: &[DeviceField], segments: &[SegmentLine]) -> Option<u32>
    ensures { result ≡ spec.broken_output fields.now segments.now }
{
    for segment in segments {
        let broken = unknown_source(fields, segment.fields.as_slice());
        if broken.is_some() {
            return broken;
        }
    }
    None
}
