//! Lines, cut from the bytes of a source.
ghost use Rattle.std.specs.Prelude.{◌≡◌, ◌<◌, ◌≤◌, ◌+◌, [], List, length, vec_len, vec_capacity, IfOk, IfSome, OnOk, OnErr, IsErrOf, MatchOption, ◌==◌, position};
ghost use Rattle.std.specs.Io.KnownBytes.{prepend_known, IsAtEnd};
ghost use Rattle.std.specs.Str.Lines.{strip_carriage_return};
ghost use Rattle.tm_edge.specs.Fault.{HasRisen};
ghost use Rattle.tm_edge.specs.Buffer.{held_bytes};
ghost use Rattle.tm_edge.specs.Lines.{line_size, line_text, unread, IsLineTooLong, ServesNextLine, ServesTold};

use crate::Source;
use crate::buffer::Buffer;
use std::alloc::{AllocError, Global};
use std::marker::Model;
use thiserror::Error;

/// The most bytes that a line has before its LF, a CR among them.
pub const LINE_LIMIT: usize = 4096;

/// Why no line was served. The bytes that lie before the reader are those that lay there before.
#[derive(Debug, Drop, Error)]
pub enum LineFault {
    /// The source failed. The next call goes on from there.
    #[error("the source failed")]
    Read,
    /// The next line has 4,097 bytes or more without its LF. Each later call answers the same.
    #[error("a line has more than 4096 bytes")]
    TooLong,
    /// There was no memory. No byte was taken.
    #[error("no memory")]
    Memory,
}

/// A line without its LF, and without a CR before that.
#[derive(Debug, Drop)]
pub struct Line {
    bytes: Vec<u8>,
}

impl Model for Line {
    ghost use Rattle.std.specs.Prelude.{ℕ, List};

    ghost Value = { List ℕ };

    ghost view = { λ l. l.bytes.items };
}

impl Line {
    /// A line with these bytes.
    pub fn make(alloc: Global, bytes: &[u8]) -> Result<Line, AllocError>
        ensures { IfOk result (λ line. line ≡ bytes.now) }
    {
        Ok(Line {
            bytes: Vec::from_slice(alloc, bytes)?,
        })
    }

    /// The bytes of the line.
    pub fn bytes(&self) -> &[u8]
        ensures { result.now ≡ self.now }
    {
        &self.bytes
    }
}

/// A reader of lines. It is seen as the bytes that it has taken from its source and not served.
///
/// Bytes are cut at LF. One CR before an LF goes with it; a last line without LF is a line, and a
/// CR at its end stays.
#[derive(Debug, Drop)]
pub struct Lines {
    alloc: Global,
    buffer: Buffer,
}

impl Model for Lines {
    ghost use Rattle.std.specs.Prelude.{ℕ, List};
    ghost use Rattle.tm_edge.specs.Buffer.{held_bytes};

    ghost Value = { List ℕ };

    ghost view = { λ l. held_bytes l.buffer };
}

impl Lines {
    /// A reader that has taken no byte. This takes no memory.
    pub fn new(alloc: Global) -> Lines
        ensures { result ≡ [] }
    {
        Lines {
            alloc,
            buffer: Buffer::new(alloc),
        }
    }

    /// Serves the next line, or None at the end of the input. Use one source for all lines.
    ///
    /// After an error the bytes that lie before the reader are those that lay there before: none
    /// is lost, and `Memory` has taken none.
    pub fn next_line<S: Source>(&mut self, source: &mut S) -> Result<Option<Line>, LineFault>
        ensures line { IfOk result (λ line. ServesTold (unread self.old (S.left source.old)) line (unread self.new (S.left source.new))) }
        ensures none_lost { OnErr result (unread self.new (S.left source.new) ≡ unread self.old (S.left source.old)) }

        // A line that is too long is told from the bytes that are held.
        ensures too_long { IsErrOf result LineFault.TooLong → IfSome (unread self.old (S.left source.old)) IsLineTooLong }
        ensures too_long_held { IsErrOf result LineFault.TooLong → IsLineTooLong self.new }

        // The source failed in the call exactly where that is told.
        ensures read { IsErrOf result LineFault.Read → HasRisen (S.faults source.old) (S.faults source.new) }
        ensures count { S.faults source.old ≤ S.faults source.new }
        ensures no_fault { OnOk result (S.faults source.new ≡ S.faults source.old) }
        ensures too_long_count { IsErrOf result LineFault.TooLong → S.faults source.new ≡ S.faults source.old }
        ensures memory_count { IsErrOf result LineFault.Memory → S.faults source.new ≡ S.faults source.old }

        // Want of memory passes over nothing: no byte, and no line that is too long.
        ensures memory { IsErrOf result LineFault.Memory → self.new ≡ self.old }
        ensures memory_source { IsErrOf result LineFault.Memory → source.new ≡ source.old }
        ensures memory_held { IsErrOf result LineFault.Memory → line_size self.old ≤ 4096 }
    {
        let whole = match whole_line(self.buffer.held(), 0) {
            Ok(whole) => whole,
            Err(_) => return Err(LineFault::TooLong),
        };
        if self.buffer.reserve().is_err() {
            return Err(LineFault::Memory);
        }
        // Room is made before a byte is taken: for the line where it is held whole, and else for any.
        let room = whole.unwrap_or(LINE_LIMIT);
        let text = match Vec::with_capacity(self.alloc, room) {
            Ok(text) => text,
            Err(_) => return Err(LineFault::Memory),
        };
        if let Some(size) = whole {
            return Ok(serve(&mut self.buffer, size, text));
        }
        match read_line(&mut self.buffer, source) {
            Ok(size) => Ok(serve(&mut self.buffer, size, text)),
            Err(Stop::Read) => Err(LineFault::Read),
            Err(Stop::TooLong) => Err(LineFault::TooLong),
        }
    }
}

// Why the bytes that are held have no whole line.
#[derive(Debug, Drop)]
enum Stop {
    Read,
    TooLong,
}

// A line has more bytes than it may have.
#[derive(Debug, Drop)]
struct TooLong;

// Where the first LF stands, if there is one.
fn lf_place(bytes: &[u8]) -> Option<usize>
    ensures { result ≡ position (λ b. b == 10) bytes.now }
{
    bytes.iter().position(|&b| b == b'\n')
}

// Where the first LF stands, if there is one. None stands in the first `seen` bytes.
fn line_end(held: &[u8], seen: usize) -> Option<usize>
    requires within { seen ≤ length held.now }
    requires clear { seen ≤ line_size held.now }
    ensures { MatchOption result (line_size held.now ≡ length held.now) (λ n. (n ≡ line_size held.now) × (n < length held.now)) }
{
    match lf_place(&held[seen..]) {
        Some(n) => Some(seen + n),
        None => None,
    }
}

// How many bytes stand before the first LF, if there is one. None stands in the first `seen` bytes.
fn whole_line(held: &[u8], seen: usize) -> Result<Option<usize>, TooLong>
    requires within { seen ≤ length held.now }
    requires clear { seen ≤ line_size held.now }
    ensures size { IfOk result (λ end. MatchOption end (line_size held.now ≡ length held.now) (λ n. (n ≡ line_size held.now) × (n < length held.now))) }
    ensures short { OnOk result (line_size held.now ≤ 4096) }
    ensures too_long { OnErr result (IsLineTooLong held.now) }
{
    let end = line_end(held, seen);
    if end.unwrap_or(held.len()) > LINE_LIMIT {
        Err(TooLong)
    } else {
        Ok(end)
    }
}

fn without_cr(line: &[u8]) -> &[u8]
    ensures { result.now ≡ strip_carriage_return line.now }
{
    if !line.is_empty() && line[line.len() - 1] == b'\r' {
        &line[..line.len() - 1]
    } else {
        line
    }
}

// The text of the first line, whose LF stands at `size` or which has none.
fn text_of(held: &[u8], size: usize) -> &[u8]
    requires { size ≡ line_size held.now }
    ensures text { result.now ≡ line_text held.now }
    ensures within { length result.now ≤ size }
{
    if size < held.len() {
        without_cr(&held[..size])
    } else {
        held
    }
}

// Takes bytes until the first line is whole, and answers how many bytes stand before its LF.
fn read_line<S: Source>(buffer: &mut Buffer, source: &mut S) -> Result<usize, Stop>
    requires room { 4096 < vec_len buffer.old.bytes }
    requires open { line_size (held_bytes buffer.old) ≡ length (held_bytes buffer.old) }
    requires held { length (held_bytes buffer.old) ≤ 4096 }
    ensures told { prepend_known (held_bytes buffer.new) (S.left source.new) ≡ prepend_known (held_bytes buffer.old) (S.left source.old) }
    ensures size { IfOk result (λ n. n ≡ line_size (held_bytes buffer.new)) }
    ensures short { IfOk result (λ n. n ≤ 4096) }
    ensures whole { IfOk result (λ n. n ≡ length (held_bytes buffer.new) → IsAtEnd (S.left source.new)) }
    ensures too_long { IsErrOf result Stop.TooLong → IsLineTooLong (held_bytes buffer.new) }
    ensures read { IsErrOf result Stop.Read → HasRisen (S.faults source.old) (S.faults source.new) }
    ensures count { S.faults source.old ≤ S.faults source.new }
    ensures no_fault { OnOk result (S.faults source.new ≡ S.faults source.old) }
    ensures too_long_count { IsErrOf result Stop.TooLong → S.faults source.new ≡ S.faults source.old }
{
    loop {
        let seen = buffer.held().len();
        match buffer.fill(source) {
            Err(_) => return Err(Stop::Read),
            Ok(0) => return Ok(seen),
            Ok(_) => {}
        }
        match whole_line(buffer.held(), seen) {
            Err(_) => return Err(Stop::TooLong),
            Ok(Some(size)) => return Ok(size),
            Ok(None) => {}
        }
    }
}

// Serves the first line of the bytes that are held, whose LF stands at `size` or which has none.
fn serve(buffer: &mut Buffer, size: usize, text: Vec<u8>) -> Option<Line>
    requires size { size ≡ line_size (held_bytes buffer.old) }
    requires short { size ≤ 4096 }
    requires room { size ≤ vec_capacity text }
    requires empty { text.items ≡ [] }
    ensures { ServesNextLine (held_bytes buffer.old) result (held_bytes buffer.new) }
{
    if buffer.held().is_empty() {
        return None;
    }
    let mut text = text;
    text.extend_from_slice(text_of(buffer.held(), size))
        .unwrap();
    text.shrink_to_fit();
    let past = (size + 1).min(buffer.held().len());
    buffer.skip(past);
    Some(Line { bytes: text })
}
