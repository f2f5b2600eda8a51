//! The reader of programs.
ghost use Rattle.std.specs.Prelude.{◌≡◌, ◌+◌, ◌<◌, ◌^◌, ℕ, List, length};
ghost use Rattle.text_rows.specs.Refusals.{AnswersLines};
ghost use Rattle.script_text.specs.GoodStatement.{places_in};
ghost use Rattle.script_text.specs.LowRules.{HasScriptRule};
ghost use Rattle.script_text.specs.Scripts as spec;

use crate::labels::labels_of;
use crate::lines::{is_label_line, is_last, last_line, statement_line};
use crate::rules::ENDPROG_MISSING;
use model_system::{Program, ScriptLine};
use std::alloc::Global;
use std::collections::BTreeMap;
use text_rows::{LineRefused, is_passed_over};
use tm_edge::Line;
use tm_types::Name;

/// Reads the lines behind a PROGRAM line, up to and with ENDPROG; the first of them has the number
/// `first`.
///
/// The answer is the program exactly where no line breaks a rule, else the lowest line that breaks
/// one with the lowest rule that it breaks, or want of memory. A missing ENDPROG is named one past
/// the last line. Lines behind ENDPROG are not read.
pub fn read_program(alloc: Global, lines: &[Line], first: u32) -> Result<Program, LineRefused>
    requires { first + length lines.now < 2 ^ 32 }
    ensures exact { AnswersLines result (spec.program_of first lines.now) }
    ensures rules { HasScriptRule result }
{
    let labels = labels_of(alloc, lines)?;
    script(alloc, &labels, lines, first)
}

fn script(
    alloc: Global,
    labels: &BTreeMap<Name, u32>,
    lines: &[Line],
    first: u32,
) -> Result<Program, LineRefused>
    requires numbers { first + length lines.now < 2 ^ 32 }
    requires labels { (name : List ℕ) → places_in labels.now name ≡ spec.label_in_lines 0 lines.now name }
    ensures { AnswersLines result (spec.script (places_in labels.now) first 0 0 lines.now) }
{
    let mut items = Vec::new(alloc);
    let mut statements: usize = 0;
    for (index, line) in lines.iter().enumerate() {
        let number = first + index as u32;
        let text = line.bytes();
        if is_passed_over(text) {
            continue;
        }
        if is_last(text) {
            return match last_line(text) {
                Ok(()) => Ok(Program::new(items)),
                Err(rule) => Err(LineRefused::BadLine(number, rule)),
            };
        }
        match statement_line(alloc, labels, items.len() as u32, statements, text)? {
            Ok(statement) => {
                items.push(ScriptLine { number, statement })?;
                statements = count_line(statements, text);
            }
            Err(rule) => return Err(LineRefused::BadLine(number, rule)),
        }
    }
    Err(LineRefused::BadLine(first + lines.len() as u32, ENDPROG_MISSING))
}

/// How many statements stand before the line behind this one.
fn count_line(before: usize, line: &[u8]) -> usize
    requires { spec.statements_before before line.now < 2 ^ 64 }
    ensures { result ≡ spec.statements_before before line.now }
{
    if is_label_line(line) {
        before
    } else {
        before + 1
    }
}
