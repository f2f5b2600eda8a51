//! The reader of definitions.
ghost use Rattle.std.specs.Prelude.{◌≡◌, ◌+◌, ◌<◌, ◌^◌, length, Ok};
ghost use Rattle.text_rows.specs.Refusals.{AnswersLines};
ghost use Rattle.sysdef_text.specs.declared.modes.Mode.TheVariants.{Start};
ghost use Rattle.text_rows.specs.Operands as operands;
ghost use Rattle.sysdef_rows.specs.Kinds as kinds;
ghost use Rattle.sysdef_text.specs.LineSteps as steps;
ghost use Rattle.sysdef_text.specs.Definitions as spec;

use crate::Mode;
use crate::formats::{format_block, is_format_end};
use crate::modes::Step;
use crate::places::{
    format_line, is_format, is_program, macro_line, mode_after, program_line, within,
};
use crate::programs::program_block;
use crate::rules::END_MISSING;
use crate::source::{TEXT_LIMIT, kept, lines_of};
use mfs_text::stray_rule;
use script_text::is_last;
use std::alloc::Global;
use sysdef_rows::{Kind, kind_of};
use system_types::{Definition, Macro, MacroLine};
use text_rows::{LineRefused, is_passed_over, split_macro};
use tm_edge::Line;

/// Reads the definition that stands in the text, up to and with its END.
///
/// The answer is the definition exactly where no line breaks a rule, else the lowest line that
/// breaks one with the lowest rule that it breaks, or want of memory.
#[tactic(auto, unfolding(crate::specs::Definitions::definition_of))]
pub fn read_definition(alloc: Global, text: &[u8]) -> Result<Definition, LineRefused>
    ensures { AnswersLines result (spec.definition_of text.now) }
{
    let lines = lines_of(alloc, kept(text))?;
    definition(alloc, TEXT_LIMIT < text.len(), &lines)
}

/// Reads the definition that stands in these lines, up to and with its END.
///
/// The lines are those of a text, up to the one with which it passes 262,144 bytes, if one does; each
/// line counts with an LF. The answer is the definition exactly where no line breaks a rule, else the
/// lowest line that breaks one with the lowest rule that it breaks, or want of memory.
#[tactic(auto, unfolding(crate::specs::Definitions::definition_in))]
pub fn read_definition_lines(alloc: Global, lines: &[Line]) -> Result<Definition, LineRefused>
    requires { 1 + length lines.now < 2 ^ 32 }
    ensures { AnswersLines result (spec.definition_in lines.now) }
{
    definition(alloc, passes_limit(lines), lines)
}

/// Whether the lines have more bytes than a text may have, each with its LF.
fn passes_limit(lines: &[Line]) -> bool
    ensures { result ≡ spec.passes TEXT_LIMIT lines.now }
{
    let mut room = TEXT_LIMIT;
    for line in lines {
        let size = line.bytes().len() + 1;
        if room < size {
            return true;
        }
        room -= size;
    }
    false
}

fn definition(alloc: Global, over: bool, lines: &[Line]) -> Result<Definition, LineRefused>
    requires { 1 + length lines.now < 2 ^ 32 }
    ensures { AnswersLines result (spec.definition Start over 1 lines.now) }
{
    let mut items = Vec::new(alloc);
    let mut mode = Mode::Start;
    for (index, line) in lines.iter().enumerate() {
        let number = 1 + index as u32;
        match step(alloc, mode, over, number, line.bytes(), &lines[index + 1..])? {
            Step::Pass(next) => mode = next,
            Step::Item(content, next) => {
                items.push(MacroLine { number, content })?;
                mode = next;
            }
            Step::Last(content) => {
                items.push(MacroLine { number, content })?;
                return Ok(Definition::of(items));
            }
        }
    }
    Err(LineRefused::BadLine(1 + lines.len() as u32, END_MISSING))
}

/// What the line of this number does, before the lines behind it.
#[tactic(auto, unfolding(crate::specs::LineSteps::definition_step))]
fn step(
    alloc: Global,
    mode: Mode,
    over: bool,
    number: u32,
    line: &[u8],
    behind: &[Line],
) -> Result<Step, LineRefused>
    requires { number + 1 + length behind.now < 2 ^ 32 }
    ensures { AnswersLines result (steps.definition_step mode over number line.now behind.now) }
{
    match mode {
        Mode::InProgram if is_last(line) => Ok(Step::Pass(Mode::Elsewhere)),
        Mode::InProgram => Ok(Step::Pass(mode)),
        Mode::InFormat if is_format_end(line) => Ok(Step::Pass(Mode::Elsewhere)),
        Mode::InFormat => Ok(Step::Pass(mode)),
        _ => outside_step(alloc, mode, over, number, line, behind),
    }
}

fn outside_step(
    alloc: Global,
    mode: Mode,
    over: bool,
    number: u32,
    line: &[u8],
    behind: &[Line],
) -> Result<Step, LineRefused>
    requires { number + 1 + length behind.now < 2 ^ 32 }
    ensures { AnswersLines result (steps.outside_step mode over number line.now behind.now) }
{
    if is_passed_over(line) {
        return match within(over, behind) {
            Ok(()) => Ok(Step::Pass(mode)),
            Err(rule) => Err(LineRefused::BadLine(number, rule)),
        };
    }
    if is_program(line) {
        return program_step(alloc, mode, over, number, line, behind);
    }
    if is_format(line) {
        return format_step(alloc, mode, over, number, line, behind);
    }
    macro_step(alloc, mode, over, number, line, behind)
}

fn program_step(
    alloc: Global,
    mode: Mode,
    over: bool,
    number: u32,
    line: &[u8],
    behind: &[Line],
) -> Result<Step, LineRefused>
    requires { number + 1 + length behind.now < 2 ^ 32 }
    ensures { AnswersLines result (steps.program_step mode over number line.now behind.now) }
{
    match program_line(mode, over, line, behind) {
        Ok(name) => {
            let program = program_block(alloc, over, number + 1, behind)?;
            Ok(Step::Item(Macro::Program { name, program }, Mode::InProgram))
        }
        Err(rule) => Err(LineRefused::BadLine(number, rule)),
    }
}

fn format_step(
    alloc: Global,
    mode: Mode,
    over: bool,
    number: u32,
    line: &[u8],
    behind: &[Line],
) -> Result<Step, LineRefused>
    requires { number + 1 + length behind.now < 2 ^ 32 }
    ensures { AnswersLines result (steps.format_step mode over number line.now behind.now) }
{
    match format_line(mode, over, line, behind) {
        Ok(name) => {
            let format = format_block(alloc, over, number + 1, behind)?;
            Ok(Step::Item(Macro::Format { name, format }, Mode::InFormat))
        }
        Err(rule) => Err(LineRefused::BadLine(number, rule)),
    }
}

fn macro_step(
    alloc: Global,
    mode: Mode,
    over: bool,
    number: u32,
    line: &[u8],
    behind: &[Line],
) -> Result<Step, LineRefused>
    ensures { AnswersLines result (steps.macro_step (kinds.kind_of (operands.macro_name line.now)) mode over number line.now behind.now) }
{
    let (name, _) = split_macro(line);
    let kind = match kind_of(name) {
        Ok(kind) => kind,
        Err(rule) => {
            let rule = stray_rule(alloc, line)?.unwrap_or(rule);
            return Err(LineRefused::BadLine(number, rule));
        }
    };
    match macro_line(kind, mode, over, line, behind) {
        Ok(content) => Ok(placed(kind, content)),
        Err(rule) => Err(LineRefused::BadLine(number, rule)),
    }
}

fn placed(kind: Kind, content: Macro) -> Step
    ensures { Ok result ≡ steps.macro_read kind (Ok content) }
{
    match kind {
        Kind::End => Step::Last(content),
        _ => Step::Item(content, mode_after(kind)),
    }
}
