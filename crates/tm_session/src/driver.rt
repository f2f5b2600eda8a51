//! A session, driven line by line.
ghost use Rattle.std.specs.Prelude.{◌≡◌, ◌<◌, ◌≤◌, ℕ, [], ◌∷◌, Some, None, true, false, MatchOption, IfSome, IsNone, IsTrue};
ghost use Rattle.text_rows.specs.Lines.{is_passed_over};
ghost use Rattle.tm_edge.specs.Lines.{unread};
ghost use Rattle.model_session.specs.Blocks as spec;
ghost use Rattle.session_lives.specs.RunningSession.{IsSessionReady, Leads};
ghost use Rattle.tm_session.specs.DrivenSession.{ServesBlocks, FailsAt, SessionGoes, SessionEnds, EndsWhole, SessionSteps, StopsHere, StopsLast, HasDriven, IsBlockOpen, IsSessionBroken, behind_last};
ghost use Rattle.tm_session.specs.Outcome.{HasCause, IsTextBack, IsReadToEnd};
ghost use Rattle.tm_session.specs.DrivenSession.{session_ended_by, end_by, IsTextWritten, IsBlockFinished};

use crate::outcome::Ended;
use crate::reader::read_line;
use session_lines::{Block, is_further, takes_further};
use session_lives::{Ending, Served, Session, Undone, end_source, serve_block};
use session_text::Printed;
use std::alloc::Global;
use text_rows::is_passed_over;
use tm_disk::Disk;
use tm_edge::{Line, Lines, Sink, Source};

/// The most lines that a source has.
const LINE_COUNT: u32 = 1_000_000;

/// The number of the first line past them.
const LINE_PAST: u64 = 1_000_001;

/// Serves a block, and writes its text.
fn serve_whole<K: Sink, D: Disk>(
    alloc: Global,
    session: &mut Session<D>,
    printed: &mut Printed,
    sink: &mut K,
    block: &Block,
) -> Option<Ended>
    requires ready { IsSessionReady D.state session.old }
    ensures step { Leads D.state (λ setting a b. MatchOption result
        (ServesBlocks setting (block.now ∷ []) (K.written sink.old) (K.written sink.new) a b)
        (λ ended. FailsAt setting ended block.now (K.written sink.old) (K.written sink.new) a b)) session.old session.new }
    ensures ready { IsSessionReady D.state session.new }
    ensures broken { IfSome result IsSessionBroken }
    ensures calm { IsNone result → K.faults sink.new ≡ K.faults sink.old }
    ensures cause { IfSome result (λ ended. HasCause ended 0 0 (K.faults sink.old) (K.faults sink.new)) }
{
    let served = serve_block(alloc, session, printed, block);
    finish(printed, sink, served)
}

/// Writes the text of a block that was served so.
fn finish<K: Sink>(printed: &Printed, sink: &mut K, served: Served) -> Option<Ended>
    ensures finished { IsBlockFinished printed.now.text served (K.written sink.old) (K.written sink.new) result }
    ensures broken { IfSome result IsSessionBroken }
    ensures calm { IsNone result → K.faults sink.new ≡ K.faults sink.old }
    ensures cause { IfSome result (λ ended. HasCause ended 0 0 (K.faults sink.old) (K.faults sink.new)) }
{
    match served {
        Served::Printed => write(sink, printed.as_slice()),
        Served::Broke => write(sink, b"STOPPED\n"),
        Served::Undone(undone) => Some(ended_by(undone)),
    }
}

/// Writes a text, or says how the session ended.
fn write<K: Sink>(sink: &mut K, text: &[u8]) -> Option<Ended>
    ensures written { IsTextWritten (K.written sink.old) (K.written sink.new) text.now result }
    ensures broken { IfSome result IsSessionBroken }
    ensures calm { IsNone result → K.faults sink.new ≡ K.faults sink.old }
    ensures cause { IfSome result (λ ended. HasCause ended 0 0 (K.faults sink.old) (K.faults sink.new)) }
{
    match sink.put(text) {
        Ok(()) => None,
        Err(_) => Some(Ended::Write),
    }
}

/// How a session ends at a block that could not be served.
fn ended_by(undone: Undone) -> Ended
    ensures { result ≡ session_ended_by undone }
{
    match undone {
        Undone::Memory => Ended::Memory,
        Undone::Spent => Ended::Spent,
        Undone::Image(refusal) => Ended::Image(refusal),
    }
}

/// Serves a line that belongs to no line before it, or keeps it where it may take `+` lines.
fn begin_block<K: Sink, D: Disk>(
    alloc: Global,
    session: &mut Session<D>,
    printed: &mut Printed,
    sink: &mut K,
    pending: &mut Option<Block>,
    line: Line,
) -> Option<Ended>
    requires ready { IsSessionReady D.state session.old }
    requires none { pending.old ≡ None }
    requires seen { is_passed_over line ≡ false }
    ensures step { Leads D.state (λ setting a b. MatchOption result
        (SessionGoes setting None line pending.new (K.written sink.old) (K.written sink.new) a b)
        (λ ended. SessionEnds setting ended None line (K.written sink.old) (K.written sink.new) a b)) session.old session.new }
    ensures ready { IsSessionReady D.state session.new }
    ensures begun { IfSome pending.new IsBlockOpen }
    ensures broken { IfSome result IsSessionBroken }
    ensures calm { IsNone result → K.faults sink.new ≡ K.faults sink.old }
    ensures cause { IfSome result (λ ended. HasCause ended 0 0 (K.faults sink.old) (K.faults sink.new)) }
{
    let block = Block::alone(alloc, line);
    if takes_further(block.line()) {
        *pending = Some(block);
        return None;
    }
    serve_whole(alloc, session, printed, sink, &block)
}

/// Adds a `+` line to the line that it belongs to.
#[tactic(auto, using(crate::proofs::Steps::stays_open))]
fn lengthen(alloc: Global, pending: &mut Option<Block>, block: Block, line: Line) -> bool
    requires { IsBlockOpen block }
    ensures added { IsTrue result → pending.new ≡ Some (spec.and_line block line) }
    ensures begun { IfSome pending.new IsBlockOpen }
{
    let mut block = block;
    let added = block.push(alloc, line).is_ok();
    *pending = Some(block);
    added
}

/// Serves the line that was kept, and then the next one, which doesn't belong to it.
fn serve_both<K: Sink, D: Disk>(
    alloc: Global,
    session: &mut Session<D>,
    printed: &mut Printed,
    sink: &mut K,
    pending: &mut Option<Block>,
    block: Block,
    line: Line,
) -> Option<Ended>
    requires ready { IsSessionReady D.state session.old }
    requires none { pending.old ≡ None }
    requires seen { is_passed_over line ≡ false }
    requires plain { spec.is_further line ≡ false }
    ensures step { Leads D.state (λ setting a b. MatchOption result
        (SessionGoes setting (Some block) line pending.new (K.written sink.old) (K.written sink.new) a b)
        (λ ended. SessionEnds setting ended (Some block) line (K.written sink.old) (K.written sink.new) a b)) session.old session.new }
    ensures ready { IsSessionReady D.state session.new }
    ensures begun { IfSome pending.new IsBlockOpen }
    ensures broken { IfSome result IsSessionBroken }
    ensures calm { IsNone result → K.faults sink.new ≡ K.faults sink.old }
    ensures cause { IfSome result (λ ended. HasCause ended 0 0 (K.faults sink.old) (K.faults sink.new)) }
{
    let failed = serve_whole(alloc, session, printed, sink, &block);
    match failed {
        None => begin_block(alloc, session, printed, sink, pending, line),
        Some(ended) => Some(ended),
    }
}

/// Does what a line asks for that was read.
fn serve_read<K: Sink, D: Disk>(
    alloc: Global,
    session: &mut Session<D>,
    printed: &mut Printed,
    sink: &mut K,
    pending: &mut Option<Block>,
    line: Line,
) -> Option<Ended>
    requires ready { IsSessionReady D.state session.old }
    requires begun { IfSome pending.old IsBlockOpen }
    ensures step { Leads D.state (λ setting a b. MatchOption result
        (SessionGoes setting pending.old line pending.new (K.written sink.old) (K.written sink.new) a b)
        (λ ended. SessionEnds setting ended pending.old line (K.written sink.old) (K.written sink.new) a b)) session.old session.new }
    ensures ready { IsSessionReady D.state session.new }
    ensures begun { IfSome pending.new IsBlockOpen }
    ensures broken { IfSome result IsSessionBroken }
    ensures calm { IsNone result → K.faults sink.new ≡ K.faults sink.old }
    ensures cause { IfSome result (λ ended. HasCause ended 0 0 (K.faults sink.old) (K.faults sink.new)) }
{
    if is_passed_over(line.bytes()) {
        return None;
    }
    let Some(block) = pending.take() else {
        return begin_block(alloc, session, printed, sink, pending, line);
    };
    if is_further(line.bytes()) {
        if lengthen(alloc, pending, block, line) {
            return None;
        }
        return Some(Ended::Memory);
    }
    serve_both(alloc, session, printed, sink, pending, block, line)
}

/// Serves the last block of a source, and forces all that lasts.
fn serve_last<K: Sink, D: Disk>(
    alloc: Global,
    session: &mut Session<D>,
    printed: &mut Printed,
    sink: &mut K,
    block: &Block,
) -> Ended
    requires ready { IsSessionReady D.state session.old }
    ensures step { Leads D.state (λ setting a b. EndsWhole setting result (Some block.now) (K.written sink.old) (K.written sink.new) a b) session.old session.new }
    ensures ready { IsSessionReady D.state session.new }
    ensures cause { HasCause result 0 0 (K.faults sink.old) (K.faults sink.new) }
{
    let failed = serve_whole(alloc, session, printed, sink, block);
    match failed {
        None => force_end(session, sink),
        Some(ended) => ended,
    }
}

/// Forces all that lasts, at the end of the source. Where the disk fails in that, so it is told as of any stop.
fn force_end<K: Sink, D: Disk>(session: &mut Session<D>, sink: &mut K) -> Ended
    requires ready { IsSessionReady D.state session.old }
    ensures step { Leads D.state (λ setting a b. EndsWhole setting result None (K.written sink.old) (K.written sink.new) a b) session.old session.new }
    ensures ready { IsSessionReady D.state session.new }
    ensures cause { HasCause result 0 0 (K.faults sink.old) (K.faults sink.new) }
{
    match end_source(session) {
        Ending::Forced => Ended::Done,
        Ending::Broke => {
            let failed = write(sink, b"STOPPED\n");
            end_by(failed)
        }
    }
}

/// How a session ends whose source was read to its end and whose last text could be written so.
fn end_by(failed: Option<Ended>) -> Ended
    ensures { result ≡ end_by failed }
{
    match failed {
        None => Ended::Done,
        Some(ended) => ended,
    }
}

/// Serves the line that was kept, at the end of the source, and forces all that lasts.
fn serve_end<K: Sink, D: Disk>(
    alloc: Global,
    session: &mut Session<D>,
    printed: &mut Printed,
    sink: &mut K,
    pending: &mut Option<Block>,
) -> Ended
    requires ready { IsSessionReady D.state session.old }
    ensures step { Leads D.state (λ setting a b. EndsWhole setting result pending.old (K.written sink.old) (K.written sink.new) a b) session.old session.new }
    ensures ready { IsSessionReady D.state session.new }
    ensures none { pending.new ≡ None }
    ensures cause { HasCause result 0 0 (K.faults sink.old) (K.faults sink.new) }
{
    match pending.take() {
        None => force_end(session, sink),
        Some(block) => serve_last(alloc, session, printed, sink, &block),
    }
}

/// Reads the next line and does what it asks for, or says how the session ended.
fn serve_next<S: Source, K: Sink, D: Disk>(
    alloc: Global,
    lines: &mut Lines,
    source: &mut S,
    sink: &mut K,
    session: &mut Session<D>,
    printed: &mut Printed,
    pending: &mut Option<Block>,
) -> Option<Ended>
    requires ready { IsSessionReady D.state session.old }
    requires begun { IfSome pending.old IsBlockOpen }
    ensures step { Leads D.state (λ setting a b. MatchOption result
        (SessionSteps setting (unread lines.old (S.left source.old)) (unread lines.new (S.left source.new)) pending.old pending.new (K.written sink.old) (K.written sink.new) a b)
        (λ ended. (count : ℕ) → count < 1000000 → StopsHere setting count ended (unread lines.old (S.left source.old)) (unread lines.new (S.left source.new)) pending.old (K.written sink.old) (K.written sink.new) a b)) session.old session.new }
    ensures ready { IsSessionReady D.state session.new }
    ensures begun { IfSome pending.new IsBlockOpen }
    ensures reads { IsNone result → S.faults source.new ≡ S.faults source.old }
    ensures writes { IsNone result → K.faults sink.new ≡ K.faults sink.old }
    ensures back { IsTextBack (unread lines.old (S.left source.old)) (unread lines.new (S.left source.new)) }
    ensures whole { IfSome result (λ ended. IsReadToEnd ended (unread lines.new (S.left source.new))) }
    ensures cause { IfSome result (λ ended. HasCause ended (S.faults source.old) (S.faults source.new) (K.faults sink.old) (K.faults sink.new)) }
{
    match read_line(lines, source) {
        Ok(Some(line)) => serve_read(alloc, session, printed, sink, pending, line),
        Ok(None) => {
            let ended = serve_end(alloc, session, printed, sink, pending);
            Some(ended)
        }
        Err(stopped) => Some(stopped),
    }
}

/// How a session ends behind the last line that it may have.
fn end_of<S: Source, K: Sink, D: Disk>(
    alloc: Global,
    lines: &mut Lines,
    source: &mut S,
    sink: &mut K,
    session: &mut Session<D>,
    printed: &mut Printed,
    pending: &mut Option<Block>,
) -> Ended
    requires ready { IsSessionReady D.state session.old }
    ensures step { Leads D.state (λ setting a b. StopsLast setting 1000000 result (unread lines.old (S.left source.old)) (unread lines.new (S.left source.new)) pending.old (K.written sink.old) (K.written sink.new) a b) session.old session.new }
    ensures ready { IsSessionReady D.state session.new }
    ensures back { IsTextBack (unread lines.old (S.left source.old)) (unread lines.new (S.left source.new)) }
    ensures whole { IsReadToEnd result (unread lines.new (S.left source.new)) }
    ensures cause { HasCause result (S.faults source.old) (S.faults source.new) (K.faults sink.old) (K.faults sink.new) }
{
    match read_line(lines, source) {
        Ok(Some(_)) => Ended::Limit(LINE_PAST),
        Ok(None) => serve_end(alloc, session, printed, sink, pending),
        Err(ended) => behind_last(ended),
    }
}

/// A limit that is met behind the last line that there may be is the one of lines.
fn behind_last(ended: Ended) -> Ended
    ensures { result ≡ behind_last ended }
{
    match ended {
        Ended::Limit(_) => Ended::Limit(LINE_PAST),
        _ => ended,
    }
}

/// Serves the lines of the source until it ends, a limit is met, or something fails. So many lines
/// were read before.
pub fn serve_lines<S: Source, K: Sink, D: Disk>(
    alloc: Global,
    lines: &mut Lines,
    before: u32,
    source: &mut S,
    sink: &mut K,
    session: &mut Session<D>,
) -> Ended
    requires few { before ≤ 1000000 }
    requires ready { IsSessionReady D.state session.old }
    ensures driven { Leads D.state (λ setting a b. HasDriven setting before (unread lines.old (S.left source.old)) (unread lines.new (S.left source.new)) (K.written sink.old) (K.written sink.new) a b result) session.old session.new }
    ensures ready { IsSessionReady D.state session.new }
    ensures taken { IsTextBack (unread lines.old (S.left source.old)) (S.left source.new) }
    ensures whole { IsReadToEnd result (S.left source.new) }
    ensures cause { HasCause result (S.faults source.old) (S.faults source.new) (K.faults sink.old) (K.faults sink.new) }
{
    let mut printed = Printed::new(alloc);
    let mut pending = None;
    for _count in before..LINE_COUNT {
        let ended = serve_next(
            alloc,
            lines,
            source,
            sink,
            session,
            &mut printed,
            &mut pending,
        );
        match ended {
            Some(ended) => return ended,
            None => {}
        }
    }
    end_of(
        alloc,
        lines,
        source,
        sink,
        session,
        &mut printed,
        &mut pending,
    )
}
