//! Programs, as lists of lines that break no rule of scripts.
ghost use Rattle.std.specs.Prelude.{◌≡◌, ◌+◌, ◌<◌, ◌^◌, OnSome, slice_get};
ghost use Rattle.std.specs.Option.{option_copied};
ghost use Rattle.model_system.specs.Programs.{IsProgram};

use crate::Statement;
use std::marker::Model;

/// A line of a script with its number in the text.
#[derive(Debug, Drop)]
pub struct ScriptLine {
    pub number: u32,
    pub statement: Statement,
}

/// A program that breaks no rule of scripts, seen as the list of its lines.
#[derive(Debug, Drop)]
pub struct Program {
    lines: Vec<ScriptLine>,
}

impl Model for Program {
    ghost use Rattle.std.specs.Prelude.{List};
    ghost use Rattle.model_system.specs.declared.program.ScriptLine.{ScriptLine};
    ghost use Rattle.model_system.specs.Programs.{IsProgram};

    ghost Value = { List ScriptLine };

    ghost view = { λ p. p.lines.items };

    ghost invariant = { λ p. IsProgram p.lines.items };
}

impl Program {
    /// The program of these lines.
    pub fn new(lines: Vec<ScriptLine>) -> Program
        requires { IsProgram lines.items }
        ensures { result ≡ lines.items }
    {
        Program { lines }
    }

    /// The lines of the program, in order.
    pub fn lines(&self) -> &[ScriptLine]
        ensures lines { result.now ≡ self.now }
        ensures valid { IsProgram self.now }
    {
        &self.lines
    }

    /// The line at this place, counted from 0.
    pub fn line(&self, place: usize) -> Option<&ScriptLine>
        ensures value { option_copied result ≡ slice_get self.now place }
        ensures room { OnSome result (place + 1 < 2 ^ 64) }
        ensures valid { IsProgram self.now }
    {
        if place >= self.lines.len() {
            return None;
        }
        self.lines.get(place)
    }
}
