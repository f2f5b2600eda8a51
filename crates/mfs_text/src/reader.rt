//! The lines of a format, one after another.
ghost use Rattle.std.specs.Prelude.{◌≡◌, ◌+◌, ◌<◌, ◌^◌, IfOk, IsTrue, length};
ghost use Rattle.text_rows.specs.Refusals.{AnswersLines, at_line};
ghost use Rattle.model_system.specs.ValidFormat.{IsFormat};
ghost use Rattle.mfs_text.specs.BuiltFormat.{lines_in};
ghost use Rattle.mfs_text.specs.Formats as spec;
ghost use Rattle.mfs_text.specs.GoodLine.{is_good};
ghost use Rattle.mfs_text.specs.Lines as lines;

use crate::built::{Built, add};
use crate::lines::{FormatLine, Section, format_line, section_after};
use crate::rules::END_MISSING;
use model_system::Format;
use std::alloc::Global;
use text_rows::LineRefused;
use tm_edge::Line;

/// Reads the lines behind an FMT line, up to and with FMTEND; the first of them has the number
/// `first`.
///
/// The answer is the format exactly where no line breaks a rule, else the lowest line that breaks
/// one with the lowest rule that it breaks, or want of memory. A missing FMTEND is named one past
/// the last line. Lines behind FMTEND are not read.
#[tactic(auto, unfolding(crate::specs::Formats::read_format))]
pub fn read_format(alloc: Global, lines: &[Line], first: u32) -> Result<Format, LineRefused>
    requires { first + length lines.now < 2 ^ 32 }
    ensures { AnswersLines result (spec.read_format first lines.now) }
{
    let mut built = Built::new(alloc);
    let mut section = Section::Fields;
    for (index, line) in lines.iter().enumerate() {
        let content = read_line(alloc, section, first + index as u32, line)?;
        if is_last(&content) {
            return Ok(format_of(built));
        }
        let next = section_after(section, &content);
        add(alloc, &mut built, section, content)?;
        section = next;
    }
    Err(LineRefused::BadLine(first + lines.len() as u32, END_MISSING))
}

fn is_last(content: &FormatLine) -> bool
    ensures { result ≡ spec.is_format_last content.now }
{
    match content {
        FormatLine::End => true,
        _ => false,
    }
}

/// The line of this number, where it breaks no rule.
fn read_line(
    alloc: Global,
    section: Section,
    number: u32,
    line: &Line,
) -> Result<FormatLine, LineRefused>
    ensures value { AnswersLines result (at_line number (lines.line_of_format section number line.now)) }
    ensures allowed { IfOk result (λ content. IsTrue (lines.is_line_allowed section content)) }
    ensures valid { IfOk result (λ content. IsTrue (is_good content)) }
{
    match format_line(alloc, section, number, line.bytes())? {
        Ok(content) => Ok(content),
        Err(rule) => Err(LineRefused::BadLine(number, rule)),
    }
}

/// The format of the lines.
fn format_of(built: Built) -> Format
    requires { IsFormat (lines_in built) }
    ensures { result ≡ lines_in built }
{
    let Built {
        fields,
        input,
        output,
    } = built;
    Format::new(fields, input, output)
}
