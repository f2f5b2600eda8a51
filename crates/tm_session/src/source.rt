//! The definition that a source begins with, and the system that it defines.
ghost use Rattle.std.specs.Prelude.{◌≡◌, ◌++◌, Ok, Err, false, IfOk, IfErr, OnOk};
ghost use Rattle.tm_edge.specs.Lines.{unread};
ghost use Rattle.tm_session.specs.DefinedSystem as spec;
ghost use Rattle.tm_session.specs.ReadDefinition.{ReadsDefinition, StopsBefore, IsDefinitionJudged};
ghost use Rattle.tm_session.specs.Outcome.{HasCause, IsTextBack};

use crate::outcome::Ended;
use crate::reader::read_line;
use std::alloc::Global;
use sysdef_check::{CrossRefused, check};
use sysdef_text::DefinitionReader;
use system_types::System;
use text_rows::LineRefused;
use tm_edge::{Line, Lines, Source};
use tm_types::{Bytes, Memory};

/// Reads the lines of a definition, up to its end or to the end of the source.
pub(crate) fn read_definition<S: Source>(
    alloc: Global,
    lines: &mut Lines,
    source: &mut S,
) -> Result<DefinitionReader, Ended>
    ensures read { IfOk result (λ read. ReadsDefinition (unread lines.old (S.left source.old)) read.lines (unread lines.new (S.left source.new))) }
    ensures calm { OnOk result (S.faults source.new ≡ S.faults source.old) }
    ensures stops { IfErr result (λ ended. StopsBefore ended (unread lines.old (S.left source.old))) }
    ensures back { IsTextBack (unread lines.old (S.left source.old)) (unread lines.new (S.left source.new)) }
    ensures cause { IfErr result (λ ended. HasCause ended (S.faults source.old) (S.faults source.new) 0 0) }
{
    let mut reader = DefinitionReader::new(alloc);
    loop {
        let line = match read_line(lines, source) {
            Ok(Some(line)) => line,
            Ok(None) => return Ok(reader),
            Err(ended) => return Err(ended),
        };
        if reader.add(line).is_err() {
            return Err(Ended::Memory);
        }
        if reader.has_ended() {
            return Ok(reader);
        }
    }
}

/// The system that the lines of a definition define, or the rule that they break.
#[tactic(auto, unfolding(crate::specs::DefinedSystem::judged_definition))]
pub(crate) fn judge(alloc: Global, definition: &DefinitionReader) -> Result<System, Ended>
    ensures { IsDefinitionJudged (spec.judged_definition definition.now.lines) result }
{
    let definition = match definition.read() {
        Ok(definition) => definition,
        Err(LineRefused::BadLine(line, rule)) => return Err(Ended::BadLine(line, rule)),
        Err(LineRefused::Memory) => return Err(Ended::Memory),
    };
    match check(alloc, definition) {
        Ok(system) => Ok(system),
        Err(CrossRefused::BadCross(line, rule)) => Err(Ended::BadCross(line, rule)),
        Err(CrossRefused::Memory) => Err(Ended::Memory),
    }
}

/// The text that the lines of a definition make, each of them ended by LF.
pub(crate) fn text_of(alloc: Global, lines: &[Line]) -> Result<Bytes, Memory>
    ensures { IfOk result (λ text. text ≡ spec.text_of_definition lines.now) }
{
    let mut text = Bytes::new(alloc);
    for line in lines {
        add_line(&mut text, line)?;
    }
    Ok(text)
}

/// Adds a line, ended by LF.
fn add_line(text: &mut Bytes, line: &Line) -> Result<(), Memory>
    ensures { OnOk result (text.new ≡ text.old ++ spec.ended_line line.now) }
{
    text.append(line.bytes())?;
    text.append(b"\n")
}
