//! What stands where among the macros.
ghost use Rattle.std.specs.Prelude.{◌≡◌, ◌<◌, ◌≤◌, length, find, position, IsTrue, IfSome};
ghost use Rattle.std.specs.List.{list_all};
ghost use Rattle.std.specs.Option.{option_copied};
ghost use Rattle.sysdef_rules.specs.Lookups as spec;

use system_types::{Macro, MacroLine};
use tm_types::Name;

/// Which macros are of one kind.
#[derive(Clone, Copy, Debug)]
pub enum MacroKind {
    Databases,
    Segments,
    Pcbs,
    Codes,
    Terminals,
    Regions,
    Formats,
    Programs,
}

pub(crate) fn is_of(kind: MacroKind, content: &Macro) -> bool
    ensures { result ≡ spec.is_of_kind kind content.now }
{
    match kind {
        MacroKind::Databases => matches!(content, Macro::Database { .. }),
        MacroKind::Segments => matches!(content, Macro::Segment { .. }),
        MacroKind::Pcbs => is_pcb(content),
        MacroKind::Codes => matches!(content, Macro::Transaction(_)),
        MacroKind::Terminals => matches!(content, Macro::Terminal { .. }),
        MacroKind::Regions => matches!(content, Macro::Region { .. }),
        MacroKind::Formats => matches!(content, Macro::Format { .. }),
        MacroKind::Programs => matches!(content, Macro::Program { .. }),
    }
}

fn is_pcb(content: &Macro) -> bool
    ensures { result ≡ spec.is_pcb content.now }
{
    matches!(
        content,
        Macro::DatabasePcb { .. } | Macro::DestinationPcb { .. } | Macro::ModifiablePcb
    )
}

/// How many of the lines are of this kind.
#[tactic(auto, using(crate::proofs::Counted::counted_steps))]
pub(crate) fn count(kind: MacroKind, lines: &[MacroLine]) -> usize
    ensures { result ≡ spec.count kind lines.now }
{
    let mut count = 0;
    for line in lines {
        if is_of(kind, &line.content) {
            count += 1;
        }
    }
    count
}

/// The lines at the front that are of this kind.
pub fn front(kind: MacroKind, lines: &[MacroLine]) -> &[MacroLine]
    ensures value { result.now ≡ spec.front kind lines.now }
    ensures all { IsTrue (list_all (λ line. spec.is_of_kind kind line.content) result.now) }
{
    front_of(kind, lines)
}

fn front_of(kind: MacroKind, lines: &[MacroLine]) -> &[MacroLine]
    ensures { result.now ≡ spec.front kind lines.now }
{
    for (index, line) in lines.iter().enumerate() {
        if !is_of(kind, &line.content) {
            return &lines[..index];
        }
    }
    lines
}

fn behind_database<'a>(name: &Name, lines: &'a [MacroLine]) -> &'a [MacroLine]
    ensures { result.now ≡ spec.lines_behind_first (spec.is_database name.now) lines.now }
{
    for (index, line) in lines.iter().enumerate() {
        if is_database(name, &line.content) {
            return &lines[index + 1..];
        }
    }
    &lines[lines.len()..]
}

fn behind_application<'a>(psb: &Name, lines: &'a [MacroLine]) -> &'a [MacroLine]
    ensures { result.now ≡ spec.lines_behind_first (spec.is_application_named psb.now) lines.now }
{
    for (index, line) in lines.iter().enumerate() {
        if is_application(psb, &line.content) {
            return &lines[index + 1..];
        }
    }
    &lines[lines.len()..]
}

/// The segments of a database.
#[tactic(auto, unfolding(crate::specs::Lookups::segments_of))]
pub(crate) fn segments_of<'a>(name: &Name, lines: &'a [MacroLine]) -> &'a [MacroLine]
    ensures { result.now ≡ spec.segments_of name.now lines.now }
{
    front(MacroKind::Segments, behind_database(name, lines))
}

/// The PCBs of a PSB.
#[tactic(auto, unfolding(crate::specs::Lookups::pcbs_of))]
pub fn pcbs_of<'a>(psb: &Name, lines: &'a [MacroLine]) -> &'a [MacroLine]
    ensures { result.now ≡ spec.pcbs_of psb.now lines.now }
{
    front(MacroKind::Pcbs, behind_application(psb, lines))
}

/// The line of this number, counted from 1.
pub(crate) fn numbered(lines: &[MacroLine], number: u8) -> Option<&MacroLine>
    ensures { option_copied result ≡ spec.macro_line_numbered lines.now number }
{
    if number == 0 {
        return None;
    }
    lines.get(number as usize - 1)
}

/// The number of the segment with this name, counted from 1, or 0 where there is none.
pub fn segment_number(name: &Name, segments: &[MacroLine]) -> u8
    requires { length segments.now < 256 }
    ensures { result ≡ spec.line_number_of (spec.is_segment_named name.now) segments.now }
{
    match segment_place(name, segments) {
        Some(place) => place as u8 + 1,
        None => 0,
    }
}

fn segment_place(name: &Name, segments: &[MacroLine]) -> Option<usize>
    ensures value { result ≡ position (λ line. spec.is_segment_named name.now line.content) segments.now }
    ensures within { IfSome result (λ place. place < length segments.now) }
{
    segments
        .iter()
        .position(|line| is_segment(name, &line.content))
}

fn segment_named<'a>(name: &Name, segments: &'a [MacroLine]) -> Option<&'a MacroLine>
    ensures { option_copied result ≡ find (λ line. spec.is_segment_named name.now line.content) segments.now }
{
    for line in segments {
        if is_segment(name, &line.content) {
            return Some(line);
        }
    }
    None
}

/// The parent of a segment.
pub(crate) fn parent_in(content: &Macro) -> Option<Name>
    ensures { result ≡ spec.parent_in content.now }
{
    match content {
        Macro::Segment { parent, .. } => *parent,
        _ => None,
    }
}

/// The parent of the segment with this name.
#[tactic(auto, unfolding(crate::specs::Lookups::parent_named))]
pub(crate) fn parent_named(segments: &[MacroLine], name: &Name) -> Option<Name>
    ensures { result ≡ spec.parent_named segments.now name.now }
{
    match segment_named(name, segments) {
        Some(line) => parent_in(&line.content),
        None => None,
    }
}

fn is_database(name: &Name, content: &Macro) -> bool
    ensures { result ≡ spec.is_database name.now content.now }
{
    match content {
        Macro::Database { name: database, .. } => database == name,
        _ => false,
    }
}

pub(crate) fn has_segment(name: &Name, lines: &[MacroLine]) -> bool
    ensures { result ≡ spec.has (spec.is_segment_named name.now) lines.now }
{
    lines.iter().any(|line| is_segment(name, &line.content))
}

pub(crate) fn is_segment(name: &Name, content: &Macro) -> bool
    ensures { result ≡ spec.is_segment_named name.now content.now }
{
    match content {
        Macro::Segment { name: segment, .. } => segment == name,
        _ => false,
    }
}

fn is_application(name: &Name, content: &Macro) -> bool
    ensures { result ≡ spec.is_application_named name.now content.now }
{
    match content {
        Macro::Application { psb } => psb == name,
        _ => false,
    }
}
