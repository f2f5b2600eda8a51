//! A line, with the `+` lines that belong to it.
ghost use Rattle.std.specs.Prelude.{◌≡◌, ◌+◌, ◌<◌, ◌≤◌, ◌^◌, false, IfOk, IfNone, IfSome, Err, OnOk, OnErr, IsTrue, length, nat_lt};
ghost use Rattle.model_session.specs.Blocks as spec;
ghost use Rattle.text_rows.specs.LowestRule.{also};
ghost use Rattle.mfs_edit.specs.Texts.{values_printable};
ghost use Rattle.session_lines.specs.LastValues.{IsForKept};

use crate::fields::field_of;
use crate::values::LastValues;
use crate::words::has_operand;
use model_session::Others;
use model_system::Fields;
use std::alloc::Global;
use std::marker::Model;
use text_rows::also;
use tm_edge::Line;
use tm_types::{Memory, SEGMENT_LIMIT, are_printable, first_word, operands};

/// How many `+` lines of an input are kept.
const KEPT_LINES: usize = 16;

/// A session line, with what is kept of the `+` lines that belong to it.
///
/// Of those of an input the first 16 are kept, and the others are counted. Of those of a screen the last
/// value is kept for each of the first 1,921 names, and the lowest rule that one breaks. So it takes no
/// more memory for many of them.
#[derive(Debug, Drop)]
pub struct Block {
    line: Line,
    further: Vec<Line>,
    values: LastValues,
    others: Others,
}

impl Model for Block {
    ghost use Rattle.model_session.specs.Blocks.{Block as Lines};

    ghost Value = { Lines };

    ghost view = { λ b. record { line = b.line; further = b.further.items; values = b.values; others = b.others } };
}

impl Block {
    /// A line without a `+` line. This takes no memory.
    pub fn alone(alloc: Global, line: Line) -> Block
        ensures { result ≡ spec.block_alone line }
    {
        Block {
            line,
            further: Vec::new(alloc),
            values: LastValues::new(alloc),
            others: Others {
                count: 0,
                complete: true,
                printable: true,
                long: None,
                fields: Ok(()),
            },
        }
    }

    /// Adds a `+` line: a field line behind SCREEN, and else a text.
    ///
    /// Want of memory leaves the block as it was. It comes for a text that is kept, or where no more
    /// texts can be counted; and for a field line that breaks no rule, whose name has a value or is one
    /// of the first 1,921.
    pub fn push(&mut self, alloc: Global, line: Line) -> Result<(), Memory>
        ensures ok { OnOk result (self.new ≡ spec.and_line self.old line) }
        ensures err { OnErr result (self.new ≡ self.old) }
        ensures full { OnErr result (spec.is_screen self.old.line ≡ false → spec.keeps_further self.old ≡ false → 2 ^ 64 ≤ self.old.others.count + 1) }
        ensures field { OnErr result (IsTrue (spec.is_screen self.old.line) → IsForKept (spec.field_of line) self.old.values) }
    {
        if is_screen(self.line()) {
            return self.push_field(alloc, line.bytes());
        }
        self.push_text(line)
    }

    /// Adds a field line of a screen.
    fn push_field(&mut self, alloc: Global, line: &[u8]) -> Result<(), Memory>
        ensures ok { OnOk result (self.new ≡ spec.and_field self.old line.now) }
        ensures err { OnErr result (self.new ≡ self.old) }
        ensures field { OnErr result (IsForKept (spec.field_of line.now) self.old.values) }
    {
        match field_of(line) {
            Ok((name, text)) => self.values.put(alloc, name, text),
            Err(rule) => {
                self.others = and_broken(&self.others, rule);
                Ok(())
            }
        }
    }

    /// Adds a text of an input, which is kept or counted. One that is counted takes no memory.
    fn push_text(&mut self, line: Line) -> Result<(), Memory>
        ensures ok { OnOk result (self.new ≡ spec.and_text self.old line) }
        ensures err { OnErr result (self.new ≡ self.old) }
        ensures full { OnErr result (spec.keeps_further self.old ≡ false → 2 ^ 64 ≤ self.old.others.count + 1) }
    {
        if keeps_further(self) {
            self.further.push(line)?;
            return Ok(());
        }
        self.others = and_other(&self.others, line.bytes())?;
        Ok(())
    }

    /// The line.
    pub fn line(&self) -> &[u8]
        ensures { result.now ≡ self.now.line }
    {
        self.line.bytes()
    }

    /// The texts of an input that are kept.
    pub fn further(&self) -> &[Line]
        ensures { result.now ≡ self.now.further }
    {
        &self.further
    }

    /// A copy of the values of a screen that are kept, whose bytes are printable.
    pub fn values(&self, alloc: Global) -> Result<Fields, Memory>
        ensures values { IfOk result (λ values. values ≡ self.now.values) }
        ensures printable { IfOk result (λ values. IsTrue (values_printable values)) }
    {
        self.values.copied(alloc)
    }

    /// What is remembered of the other `+` lines.
    pub fn others(&self) -> &Others
        ensures { result.now ≡ self.now.others }
    {
        &self.others
    }
}

/// Whether one more text of an input is kept.
fn keeps_further(block: &Block) -> bool
    ensures { result ≡ spec.keeps_further block.now }
{
    block.further().len() < KEPT_LINES
}

/// What is remembered with a field line that breaks this rule.
fn and_broken(others: &Others, rule: u8) -> Others
    ensures { result ≡ record others.now { fields = also {B = Unit {0}} others.now.fields (Err rule) } }
{
    Others {
        count: others.count,
        complete: others.complete,
        printable: others.printable,
        long: others.long,
        fields: also(others.fields, Err::<(), u8>(rule)),
    }
}

/// What is remembered with one more line. It is refused only where no more can be counted.
fn and_other(others: &Others, line: &[u8]) -> Result<Others, Memory>
    ensures after { IfOk result (λ after. after ≡ spec.and_other others.now line.now) }
    ensures full { OnErr result (2 ^ 64 ≤ others.now.count + 1) }
{
    let Some(count) = others.count.checked_add(1) else {
        return Err(Memory);
    };
    Ok(Others {
        count,
        complete: others.complete && has_operand(line),
        printable: others.printable && are_printable(line),
        long: others.long.or(long_of(operands(line))),
        fields: others.fields,
    })
}

/// The length of a text that is too long for a segment.
fn long_of(text: &[u8]) -> Option<u64>
    ensures { result ≡ spec.long_of text.now }
{
    if text.len() > SEGMENT_LIMIT {
        Some(text.len() as u64)
    } else {
        None
    }
}

/// Whether the line is a `+` line.
pub fn is_further(line: &[u8]) -> bool
    ensures { result ≡ spec.is_further line.now }
{
    first_word(line) == b"+".as_slice()
}

/// Whether the line takes `+` lines.
pub fn takes_further(line: &[u8]) -> bool
    ensures { result ≡ spec.takes_further line.now }
{
    first_word(line) == b"IN".as_slice() || is_screen(line)
}

/// Whether the line is one of SCREEN, well formed or not.
pub(crate) fn is_screen(line: &[u8]) -> bool
    ensures { result ≡ spec.is_screen line.now }
{
    first_word(line) == b"SCREEN".as_slice()
}
