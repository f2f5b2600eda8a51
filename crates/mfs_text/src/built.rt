//! A format as far as its lines have been read.
ghost use Rattle.std.specs.Prelude.{◌≡◌, [], ◌∷◌, OnOk, IsTrue};
ghost use Rattle.model_system.specs.ValidFormat.{IsFormat};
ghost use Rattle.mfs_text.specs.BuiltFormat as spec;
ghost use Rattle.mfs_text.specs.GoodLine.{is_good};

use crate::lines::{Direction, FormatLine, Section};
use model_system::{DeviceField, MessageFieldLine, MessageFields, SegmentLine};
use std::alloc::Global;
use tm_types::Memory;

/// The lines of a format so far.
#[derive(Drop)]
pub struct Built {
    pub fields: Vec<DeviceField>,
    pub input: Vec<SegmentLine>,
    pub output: Vec<SegmentLine>,
}

impl Built {
    /// No lines. This takes no memory.
    pub(crate) fn new(alloc: Global) -> Built
        ensures { spec.lines_in result ≡ record { fields = []; input = []; output = [] } }
    {
        Built {
            fields: Vec::new(alloc),
            input: Vec::new(alloc),
            output: Vec::new(alloc),
        }
    }
}

/// Adds a line that may stand there.
pub(crate) fn add(
    alloc: Global,
    built: &mut Built,
    section: Section,
    line: FormatLine,
) -> Result<(), Memory>
    requires line { IsTrue (is_good line) }
    requires lines { IsFormat (spec.lines_in built.old) }
    ensures value { OnOk result (spec.lines_in built.new ≡ spec.added section line (spec.lines_in built.old)) }
    ensures valid { OnOk result (IsFormat (spec.lines_in built.new)) }
{
    add_line(alloc, built, section, line)
}

fn add_line(
    alloc: Global,
    built: &mut Built,
    section: Section,
    line: FormatLine,
) -> Result<(), Memory>
    ensures { OnOk result (spec.lines_in built.new ≡ spec.added section line (spec.lines_in built.old)) }
{
    match line {
        FormatLine::Field(field) => {
            built.fields.push(field)?;
            Ok(())
        }
        FormatLine::Segment(number) => add_segment(alloc, built, section, number),
        FormatLine::MessageField(line) => add_field(built, section, line),
        FormatLine::Nothing | FormatLine::Message(_) | FormatLine::End => Ok(()),
    }
}

fn add_segment(
    alloc: Global,
    built: &mut Built,
    section: Section,
    number: u32,
) -> Result<(), Memory>
    ensures { OnOk result (spec.lines_in built.new ≡ spec.segment_added section (record { number = number; fields = [] }) (spec.lines_in built.old)) }
{
    let segment = SegmentLine {
        number,
        fields: MessageFields::new(alloc),
    };
    match section {
        Section::Fields => Ok(()),
        Section::Message(Direction::Input) | Section::Segment(Direction::Input) => {
            built.input.push(segment)?;
            Ok(())
        }
        Section::Message(Direction::Output) | Section::Segment(Direction::Output) => {
            built.output.push(segment)?;
            Ok(())
        }
    }
}

fn add_field(built: &mut Built, section: Section, line: MessageFieldLine) -> Result<(), Memory>
    ensures { OnOk result (spec.lines_in built.new ≡ spec.field_added section line (spec.lines_in built.old)) }
{
    match section {
        Section::Fields => Ok(()),
        Section::Message(Direction::Input) | Section::Segment(Direction::Input) => {
            add_to_last(&mut built.input, line)
        }
        Section::Message(Direction::Output) | Section::Segment(Direction::Output) => {
            add_to_last(&mut built.output, line)
        }
    }
}

/// Adds an MFLD to the last segment, if there is one.
#[tactic(auto, using(crate::proofs::Joining::last_of))]
fn add_to_last(segments: &mut Vec<SegmentLine>, line: MessageFieldLine) -> Result<(), Memory>
    ensures { OnOk result (segments.new.items ≡ spec.with_last_fields segments.old.items (line ∷ [])) }
{
    match segments.pop() {
        None => Ok(()),
        Some(mut segment) => {
            segment.fields.push(line)?;
            segments.push(segment)?;
            Ok(())
        }
    }
}
