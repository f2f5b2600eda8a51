//! A text cut into lines.
ghost use Rattle.std.specs.Prelude.{◌≡◌, ◌≤◌, ◌+◌, ◌==◌, length, IfOk, count_by};
ghost use Rattle.std.specs.Str.Lines.{strip_carriage_return};
ghost use Rattle.sysdef_text.specs.Definitions as spec;

use std::alloc::{AllocError, Global};
use text_rows::split_at;
use tm_edge::Line;

/// The most bytes that the text of a definition has.
pub const TEXT_LIMIT: usize = 262_144;

/// The text up to the line that passes the limit. It has few lines.
#[tactic(auto, using(crate::proofs::LineCounts::kept_breaks))]
pub(crate) fn kept(text: &[u8]) -> &[u8]
    ensures value { result.now ≡ spec.kept text.now }
    ensures few_lines { count_by (λ b. b == 10) result.now ≤ TEXT_LIMIT + 1 }
{
    front_of(text)
}

#[tactic(auto, unfolding(crate::specs::Definitions::kept))]
fn front_of(text: &[u8]) -> &[u8]
    ensures { result.now ≡ spec.kept text.now }
{
    if text.len() <= TEXT_LIMIT {
        return text;
    }
    let (_, tail) = text.split_at(TEXT_LIMIT);
    let end = TEXT_LIMIT + through_line(tail);
    &text[..end]
}

/// How many bytes the text has through its first LF.
fn through_line(text: &[u8]) -> usize
    ensures value { result ≡ spec.through_line text.now }
    ensures within { result ≤ length text.now }
{
    for (index, &byte) in text.iter().enumerate() {
        if byte == b'\n' {
            return index + 1;
        }
    }
    text.len()
}

/// The lines of a text. Each ends by LF, and a CR before that isn't of the line; the last may lack
/// its LF.
#[tactic(auto, using(crate::proofs::LineCounts::lines_le_breaks))]
pub(crate) fn lines_of(alloc: Global, text: &[u8]) -> Result<Vec<Line>, AllocError>
    ensures value { IfOk result (λ made. made.items ≡ spec.text_lines text.now) }
    ensures count { IfOk result (λ made. length made.items ≤ count_by (λ b. b == 10) text.now + 1) }
{
    let lines = cut_lines(alloc, text)?;
    Ok(lines)
}

fn cut_lines(alloc: Global, text: &[u8]) -> Result<Vec<Line>, AllocError>
    ensures { IfOk result (λ made. made.items ≡ spec.text_lines text.now) }
{
    let mut lines = Vec::new(alloc);
    let mut rest = text;
    while let Some((line, behind)) = split_at(b'\n', rest) {
        lines.push(Line::make(alloc, without_return(line))?)?;
        rest = behind;
    }
    if !rest.is_empty() {
        lines.push(Line::make(alloc, rest)?)?;
    }
    Ok(lines)
}

/// The line without the CR at its end.
fn without_return(line: &[u8]) -> &[u8]
    ensures { result.now ≡ strip_carriage_return line.now }
{
    if line.is_empty() {
        return line;
    }
    let last = line.len() - 1;
    if line[last] == b'\r' {
        &line[..last]
    } else {
        line
    }
}
