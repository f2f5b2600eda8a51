//! Lines: where a byte stands, and which lines are passed over.
ghost use Rattle.std.specs.Prelude.{◌≡◌, ◌==◌, ◌<◌, length, position, IfSome};
ghost use Rattle.std.specs.Option.{option_map};
ghost use Rattle.text_rows.specs.Lines as spec;

use crate::rules::NOT_PRINTABLE;
use tm_types::are_printable;

/// What stands before the first such byte, and what stands behind it.
pub fn split_at(byte: u8, text: &[u8]) -> Option<(&[u8], &[u8])>
    ensures { option_map (λ parts. (parts.0.now, parts.1.now)) result ≡ spec.split_at byte text.now }
{
    let index = position_of(byte, text)?;
    Some((&text[..index], &text[index + 1..]))
}

fn position_of(byte: u8, text: &[u8]) -> Option<usize>
    ensures value { result ≡ position (λ b. b == byte) text.now }
    ensures within { IfSome result (λ index. index < length text.now) }
{
    text.iter().position(|&b| b == byte)
}

/// Whether the line is empty or begins with `*`.
pub fn is_passed_over(line: &[u8]) -> bool
    ensures { result ≡ spec.is_passed_over line.now }
{
    match line {
        [] => true,
        [first, ..] => *first == b'*',
    }
}

/// Rule 11 where a byte of the line isn't printable.
#[tactic(auto, unfolding(crate::specs::Lines::printable_line))]
pub fn printable_line(line: &[u8]) -> Result<(), u8>
    ensures { result ≡ spec.printable_line line.now }
{
    if are_printable(line) {
        Ok(())
    } else {
        Err(NOT_PRINTABLE)
    }
}
