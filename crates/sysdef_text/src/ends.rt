//! The reader of a definition whose lines come one after another.
ghost use Rattle.std.specs.Prelude.{◌≡◌, ◌≤◌, false, length, OnOk, OnErr};
ghost use Rattle.text_rows.specs.Refusals.{AnswersLines};
ghost use Rattle.sysdef_text.specs.Definitions.{definition_in};
ghost use Rattle.sysdef_text.specs.DefinitionEnd as spec;

use crate::places::is_program;
use crate::reader::read_definition_lines;
use crate::source::TEXT_LIMIT;
use script_text::is_last;
use std::alloc::{AllocError, Global};
use std::marker::Model;
use system_types::Definition;
use text_rows::{LineRefused, is_word, split_macro};
use tm_edge::Line;

/// The lines of a definition, as they come. It ends with the macro END, which is no line of a
/// program, or with the line that passes 262,144 bytes, each line counting with its LF.
#[derive(Debug, Drop)]
pub struct DefinitionReader {
    alloc: Global,
    lines: Vec<Line>,
    inside: bool,
    room: usize,
    ended: bool,
}

impl Model for DefinitionReader {
    ghost use Rattle.sysdef_text.specs.DefinitionEnd.{IsReading, Reading};

    ghost Value = { Reading };

    ghost view = { λ r. record { lines = r.lines.items; inside = r.inside; room = r.room; ended = r.ended } };

    ghost invariant = { λ r. IsReading (record { lines = r.lines.items; inside = r.inside; room = r.room; ended = r.ended }) };
}

impl DefinitionReader {
    /// A reader to which no line has come. This takes no memory.
    pub fn new(alloc: Global) -> DefinitionReader
        ensures { result ≡ spec.no_lines }
    {
        DefinitionReader {
            alloc,
            lines: Vec::new(alloc),
            inside: false,
            room: TEXT_LIMIT,
            ended: false,
        }
    }

    /// Takes the next line of the definition. Where there is no memory nothing has changed.
    #[tactic(auto, unfolding(crate::specs::DefinitionEnd::ends_definition))]
    pub fn add(&mut self, line: Line) -> Result<(), AllocError>
        requires { self.old.ended ≡ false }
        ensures added { OnOk result (self.new ≡ spec.with_read_line line self.old) }
        ensures err { OnErr result (self.new ≡ self.old) }
    {
        let size = line.bytes().len() + 1;
        let ended = is_end(self.inside, line.bytes()) || self.room < size;
        let inside = stays_inside(self.inside, line.bytes());
        self.lines.push(line)?;
        self.ended = ended;
        self.inside = inside;
        self.room = self.room.saturating_sub(size);
        Ok(())
    }

    /// Whether the definition has ended: the lines behind it are no part of it.
    pub fn has_ended(&self) -> bool
        ensures { result ≡ self.now.ended }
    {
        self.ended
    }

    /// The lines that have come.
    pub fn lines(&self) -> &[Line]
        ensures value { result.now ≡ self.now.lines }
        ensures few { length self.now.lines ≤ 262145 }
    {
        &self.lines
    }

    /// Reads the definition that stands in the lines.
    ///
    /// The answer is the definition exactly where no line breaks a rule, else the lowest line that
    /// breaks one with the lowest rule that it breaks, or want of memory.
    pub fn read(&self) -> Result<Definition, LineRefused>
        ensures { AnswersLines result (definition_in self.now.lines) }
    {
        read_definition_lines(self.alloc, &self.lines)
    }
}

/// Whether the lines behind this one are those of a program.
fn stays_inside(inside: bool, line: &[u8]) -> bool
    ensures { result ≡ spec.stays_inside inside line.now }
{
    if inside {
        !is_last(line)
    } else {
        is_program(line)
    }
}

/// Whether the line is the macro END.
fn is_end(inside: bool, line: &[u8]) -> bool
    ensures { result ≡ spec.is_end_line inside line.now }
{
    let (name, _) = split_macro(line);
    !inside && is_word(name, b"END")
}
