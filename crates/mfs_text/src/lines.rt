//! What the lines of a format are, and where each may stand.
ghost use Rattle.std.specs.Prelude.{◌≡◌, IfOk, OnOk, IsTrue};
ghost use Rattle.mfs_text.specs.Lines as spec;
ghost use Rattle.mfs_text.specs.GoodLine.{is_good};

use crate::kinds::{Kind, kind_of, known};
use crate::rows::row;
use crate::rules::OUT_OF_PLACE;
use model_system::{DeviceField, MessageFieldLine};
use std::alloc::Global;
use text_rows::{also, is_passed_over, printable_line, split_macro};
use tm_types::Memory;

/// Which way a message goes.
#[derive(Clone, Copy, Debug, PartialEq, Eq)]
pub enum Direction {
    /// MSG TYPE=INPUT.
    Input,
    /// MSG TYPE=OUTPUT.
    Output,
}

/// What has come before a line of a format.
#[derive(Clone, Copy, Debug)]
pub enum Section {
    /// No MSG.
    Fields,
    /// A MSG, and no SEG behind it.
    Message(Direction),
    /// A MSG and a SEG.
    Segment(Direction),
}

/// A line of a format.
#[derive(Debug, Drop)]
pub enum FormatLine {
    /// One that is passed over.
    Nothing,
    /// DFLD.
    Field(DeviceField),
    /// MSG.
    Message(Direction),
    /// SEG, with the number of its line.
    Segment(u32),
    /// MFLD.
    MessageField(MessageFieldLine),
    /// FMTEND.
    End,
}

fn is_allowed(section: Section, line: &FormatLine) -> bool
    ensures { result ≡ spec.is_line_allowed section line.now }
{
    match line {
        FormatLine::Nothing | FormatLine::End => true,
        FormatLine::Field(_) => is_in_fields(section),
        FormatLine::Message(direction) => may_begin(section, *direction),
        FormatLine::Segment(_) => !is_in_fields(section),
        FormatLine::MessageField(_) => is_in_segment(section),
    }
}

fn is_in_fields(section: Section) -> bool
    ensures { result ≡ spec.is_in_fields section }
{
    match section {
        Section::Fields => true,
        Section::Message(_) | Section::Segment(_) => false,
    }
}

fn is_in_segment(section: Section) -> bool
    ensures { result ≡ spec.is_in_segment section }
{
    match section {
        Section::Segment(_) => true,
        Section::Fields | Section::Message(_) => false,
    }
}

fn may_begin(section: Section, direction: Direction) -> bool
    ensures { result ≡ spec.may_begin section direction }
{
    match (section, direction) {
        (Section::Fields, Direction::Input) => true,
        (Section::Message(Direction::Input), Direction::Output) => true,
        (Section::Segment(Direction::Input), Direction::Output) => true,
        _ => false,
    }
}

/// Whether a macro of this kind may stand there, whatever its operands are.
fn may_stand(section: Section, kind: Kind) -> bool
    ensures { result ≡ spec.may_stand_in_format section kind }
{
    match kind {
        Kind::Field => is_in_fields(section),
        Kind::Message => {
            may_begin(section, Direction::Input) || may_begin(section, Direction::Output)
        }
        Kind::Segment => !is_in_fields(section),
        Kind::MessageField => is_in_segment(section),
        Kind::End => true,
    }
}

/// Rule 10 where the line may not stand there, unless its operands break a lower one.
#[tactic(auto, unfolding(crate::specs::Lines::placed_line))]
fn placed(section: Section, kind: Kind, read: Result<FormatLine, u8>) -> Result<FormatLine, u8>
    requires { IfOk read (λ line. IsTrue (is_good line)) }
    ensures value { result ≡ spec.placed_line section kind read }
    ensures valid { IfOk result (λ line. IsTrue (is_good line)) }
    ensures allowed { IfOk result (λ line. IsTrue (spec.is_line_allowed section line)) }
{
    match read {
        Ok(line) if is_allowed(section, &line) => Ok(line),
        Ok(_) => Err(OUT_OF_PLACE),
        Err(rule) if may_stand(section, kind) => Err(rule),
        Err(rule) => Err(rule.min(OUT_OF_PLACE)),
    }
}

/// What has come before the line behind this one.
pub(crate) fn section_after(section: Section, line: &FormatLine) -> Section
    ensures { result ≡ spec.section_after section line.now }
{
    match (section, line) {
        (_, FormatLine::Message(direction)) => Section::Message(*direction),
        (Section::Message(direction), FormatLine::Segment(_)) => Section::Segment(direction),
        _ => section,
    }
}

/// The line of this number, or the lowest rule that it breaks.
#[tactic(auto, unfolding(crate::specs::Lines::line_of_format))]
pub(crate) fn format_line(
    alloc: Global,
    section: Section,
    number: u32,
    line: &[u8],
) -> Result<Result<FormatLine, u8>, Memory>
    ensures value { IfOk result (λ read. read ≡ spec.line_of_format section number line.now) }
    ensures allowed { IfOk result (λ read. IfOk read (λ line. IsTrue (spec.is_line_allowed section line))) }
    ensures valid { IfOk result (λ read. IfOk read (λ line. IsTrue (is_good line))) }
{
    if is_passed_over(line) {
        return Ok(Ok(FormatLine::Nothing));
    }
    let (name, operands) = split_macro(line);
    let kind = match kind_of(name) {
        Ok(kind) => kind,
        Err(rule) => return Ok(Err(rule)),
    };
    let content = row(alloc, kind, number, &operands)?;
    let stands = placed(section, kind, content);
    Ok(also(also(stands, known(kind, &operands)), printable_line(line)))
}

/// The lower of a rule and what else is broken.
pub fn or_lower<A: Drop>(read: Result<A, u8>, rule: u8) -> u8
    ensures { result ≡ spec.or_lower read rule }
{
    match read {
        Ok(_) => rule,
        Err(other) => other.min(rule),
    }
}

/// The rule that the line of a format's macro breaks where it stands in no format: 10, or a lower one
/// that its operands break. None where the line has no such macro, or FMTEND.
#[tactic(auto, unfolding(crate::specs::Lines::stray_rule))]
pub fn stray_rule(alloc: Global, line: &[u8]) -> Result<Option<u8>, Memory>
    ensures { IfOk result (λ rule. rule ≡ spec.stray_rule line.now) }
{
    let (name, operands) = split_macro(line);
    match kind_of(name) {
        Ok(Kind::End) => Ok(None),
        Ok(kind) => {
            let content = row(alloc, kind, 0, &operands)?;
            let rule = or_lower(content, OUT_OF_PLACE);
            Ok(Some(or_lower(known(kind, &operands), rule)))
        }
        Err(_) => Ok(None),
    }
}
