//! The lines of a message format within a definition.
ghost use Rattle.std.specs.Prelude.{◌≡◌, ◌+◌, ◌<◌, ◌^◌, length};
ghost use Rattle.text_rows.specs.Refusals.{AnswersLines};
ghost use Rattle.sysdef_text.specs.Formats as spec;

use crate::places::{is_format, is_program, within};
use crate::programs::lower;
use crate::rules::OUT_OF_PLACE;
use mfs_text::{Format, or_lower, read_format};
use std::alloc::Global;
use sysdef_rows::{format_name, kind_of, known, program_name, row};
use text_rows::{LineRefused, also, is_passed_over, is_word, split_macro};
use tm_edge::Line;

/// The format that stands in the lines, the first of which has this number.
#[tactic(auto, unfolding(crate::specs::Formats::format_block))]
pub(crate) fn format_block(
    alloc: Global,
    over: bool,
    number: u32,
    lines: &[Line],
) -> Result<Format, LineRefused>
    requires { number + length lines.now < 2 ^ 32 }
    ensures { AnswersLines result (spec.format_block over number lines.now) }
{
    let apart = format_apart(over, number, lines);
    match (read_format(alloc, lines, number), apart) {
        (Ok(format), Ok(())) => Ok(format),
        (Ok(_), Err((line, rule))) => Err(LineRefused::BadLine(line, rule)),
        (Err(LineRefused::BadLine(line, rule)), Ok(())) => Err(LineRefused::BadLine(line, rule)),
        (Err(LineRefused::BadLine(line, rule)), Err(other)) => {
            let (line, rule) = lower((line, rule), other);
            Err(LineRefused::BadLine(line, rule))
        }
        (Err(LineRefused::Memory), _) => Err(LineRefused::Memory),
    }
}

/// Rule 10, or a lower one, where the line has a macro of a definition that stands in no format.
#[tactic(auto, unfolding(crate::specs::Formats::foreign))]
fn foreign(line: &[u8]) -> Result<(), u8>
    ensures { result ≡ spec.foreign line.now }
{
    let (name, operands) = split_macro(line);
    if is_program(line) {
        return Err(or_lower(program_name(line), OUT_OF_PLACE));
    }
    if is_format(line) {
        return Err(or_lower(format_name(&operands), OUT_OF_PLACE));
    }
    match kind_of(name) {
        Ok(kind) => {
            let rule = or_lower(row(kind, &operands), OUT_OF_PLACE);
            Err(or_lower(known(kind, &operands), rule))
        }
        Err(_) => Ok(()),
    }
}

#[tactic(auto, unfolding(crate::specs::Formats::line_apart))]
fn line_apart(over: bool, line: &[u8], behind: &[Line]) -> Result<(), u8>
    ensures { result ≡ spec.line_apart over line.now behind.now }
{
    if is_passed_over(line) {
        within(over, behind)
    } else {
        also(foreign(line), within(over, behind))
    }
}

/// The first line up to FMTEND that has a macro of a definition, or that passes the limit.
fn format_apart(over: bool, number: u32, lines: &[Line]) -> Result<(), (u32, u8)>
    requires { number + length lines.now < 2 ^ 32 }
    ensures { result ≡ spec.format_apart over number lines.now }
{
    for (index, line) in lines.iter().enumerate() {
        if let Err(rule) = line_apart(over, line.bytes(), &lines[index + 1..]) {
            return Err((number + index as u32, rule));
        }
        if is_format_end(line.bytes()) {
            return Ok(());
        }
    }
    Ok(())
}

/// Whether the line is FMTEND.
pub(crate) fn is_format_end(line: &[u8]) -> bool
    ensures { result ≡ spec.is_format_end line.now }
{
    let (name, _) = split_macro(line);
    is_word(name, b"FMTEND")
}
