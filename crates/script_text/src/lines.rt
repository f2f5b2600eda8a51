//! The lines of a script.
ghost use Rattle.std.specs.Prelude.{◌≡◌, ◌<◌, ◌≤◌, Ok, IfOk, OnOk, IsTrue};
ghost use Rattle.std.specs.List.{list_all};
ghost use Rattle.tm_types.specs.Segment.{is_printable};
ghost use Rattle.script_text.specs.GoodStatement.{places_in, IsStatementKept};
ghost use Rattle.script_text.specs.Scripts as spec;
ghost use Rattle.script_text.specs.Statements as statements;

use crate::rules::TOO_MANY_STATEMENTS;
use crate::statements::{has_label_word, nothing_behind, statement_of};
use model_system::Statement;
use std::alloc::Global;
use std::collections::BTreeMap;
use text_rows::{Pieces, Place, also, is_word, printable_line};
use tm_types::{Memory, Name};

/// What a line reads as, or the lowest rule that it breaks. It stands at a place among the lines of
/// the program, so many statements stand before it, and the labels have their places.
#[tactic(auto, using(crate::proofs::KeptLines::kept_line), unfolding(crate::specs::Scripts::statement_line))]
pub(crate) fn statement_line(
    alloc: Global,
    labels: &BTreeMap<Name, u32>,
    here: u32,
    before: usize,
    line: &[u8],
) -> Result<Result<Statement, u8>, Memory>
    requires { before ≤ 500 }
    ensures value { IfOk result (λ read. read ≡ spec.statement_line (places_in labels.now) here before line.now) }
    ensures kept { IfOk result (λ read. IfOk read (IsStatementKept (places_in labels.now) here before line.now)) }
{
    let words = Pieces::of(Place::WordStart, line);
    let statement = statement_of(alloc, labels, here, words)?;
    let printable = printable_line(line);
    let room = room_before(before, line);
    Ok(also(also(statement, printable), room))
}

fn room_before(before: usize, line: &[u8]) -> Result<(), u8>
    requires { before ≤ 500 }
    ensures value { result ≡ spec.room_before before line.now }
    ensures room { OnOk result (spec.statements_before before line.now ≤ 500) }
{
    if is_label_line(line) {
        Ok(())
    } else {
        room_for(before)
    }
}

/// Whether the line has the word LABEL, and so is no statement.
pub(crate) fn is_label_line(line: &[u8]) -> bool
    ensures { result ≡ statements.has_label_word (spec.script_words line.now) }
{
    has_label_word(Pieces::of(Place::WordStart, line))
}

#[tactic(auto, unfolding(crate::specs::Scripts::room_for))]
fn room_for(before: usize) -> Result<(), u8>
    ensures value { result ≡ spec.room_for before }
    ensures room { OnOk result (before < 500) }
{
    if before < 500 {
        Ok(())
    } else {
        Err(TOO_MANY_STATEMENTS)
    }
}

/// Whether the line ends the program.
#[tactic(auto, unfolding(crate::specs::Scripts::is_script_last))]
pub fn is_last(line: &[u8]) -> bool
    ensures { result ≡ spec.is_script_last line.now }
{
    match Pieces::of(Place::WordStart, line).next() {
        Some(word) => is_word(word, b"ENDPROG"),
        None => false,
    }
}

/// The lowest rule that the last line breaks.
#[tactic(auto, unfolding(crate::specs::Scripts::program_end_line))]
pub(crate) fn last_line(line: &[u8]) -> Result<(), u8>
    ensures { result ≡ spec.program_end_line line.now }
{
    let mut words = Pieces::of(Place::WordStart, line);
    let _ = words.next();
    also(nothing_behind(words), printable_line(line))
}
