//! A whole session.
ghost use Rattle.std.specs.Prelude.{◌≡◌, ◌≤◌, length, IfOk, IfErr, OnOk};
ghost use Rattle.tm_disk.specs.Disk.{Only};
ghost use Rattle.tm_edge.specs.Lines.{unread};
ghost use Rattle.model_session.specs.SessionState.{is_session_stopped};
ghost use Rattle.tm_session.specs.BegunSession as spec;
ghost use Rattle.tm_session.specs.BegunSession.{IsDefinitionRead, HasBegun, IsNothing};
ghost use Rattle.tm_session.specs.Outcome.{HasCause, IsTextBack, IsReadToEnd};
ghost use Rattle.session_lives.specs.RunningSession.{IsSessionReady, standing_of};
ghost use Rattle.session_lives.specs.ClosedSession.{IsSessionClosed, SessionLeaves};
ghost use Rattle.tm_session.specs.Headline.{IsSession, IsUnbegun};

use crate::driver::serve_lines;
use crate::outcome::{Ended, Lives, Outcome, Stops};
use crate::source::{judge, read_definition, text_of};
use session_lives::{Idle, Kept, Opening, Over, Session, close, open};
use std::alloc::Global;
use system_types::System;
use tm_disk::Disk;
use tm_edge::{Lines, Sink, Source};
use tm_types::Bytes;

/// The most bytes of a definition's text.
const TEXT_LIMIT: usize = 262_144;

/// Reads a definition from the source, opens the disk for its system, serves the lines behind the definition, over stops
/// and restarts, and prints the answers to the sink.
///
/// The status is that of the first cause met: a rule that the definition breaks, a disk that can't be opened, the source's
/// end, its failure, the sink's, want of memory, a limit, or a spent counter. At the source's end, while the system is down by
/// a stop, it is `Down`.
pub fn drill_session<S: Source, K: Sink, D: Disk>(
    alloc: Global,
    source: &mut S,
    sink: &mut K,
    disk: D,
) -> Outcome<D>
    requires only { Only (D.state disk).shown (D.state disk) }
    ensures session { IsSession D.state (S.left source.old) (S.left source.new) (K.written sink.old) (K.written sink.new) disk result.disk result.status result.lives result.stops }
    ensures taken { IsTextBack (S.left source.old) (S.left source.new) }
    ensures whole { IsReadToEnd result.status (S.left source.new) }
    ensures cause { HasCause result.status (S.faults source.old) (S.faults source.new) (K.faults sink.old) (K.faults sink.new) }
{
    let mut lines = Lines::new(alloc);
    let (count, system, text) = match read_system(alloc, &mut lines, source) {
        Ok(read) => read,
        Err(status) => return nothing(alloc, disk, status),
    };
    let (session, refused) = begin(alloc, disk, system, text);
    match refused {
        Some(status) => finish(session, status),
        None => {
            let mut session = session;
            let status = serve_lines(alloc, &mut lines, count, source, sink, &mut session);
            finish(session, status)
        }
    }
}

/// What a session comes to that has not begun.
fn nothing<D: Disk>(alloc: Global, disk: D, status: Ended) -> Outcome<D>
    ensures { IsNothing disk status result.status result.disk result.lives result.stops }
{
    Outcome {
        status,
        disk,
        lives: Lives {
            items: Vec::new(alloc),
        },
        stops: Stops {
            items: Vec::new(alloc),
        },
    }
}

/// Reads the definition: how many lines were read, its system, and its text. Or says how the run ended.
fn read_system<S: Source>(
    alloc: Global,
    lines: &mut Lines,
    source: &mut S,
) -> Result<(u32, System, Bytes), Ended>
    ensures read { IfOk result (λ read. IsDefinitionRead (unread lines.old (S.left source.old)) (unread lines.new (S.left source.new)) read.0 read.1 read.2) }
    ensures few { IfOk result (λ read. read.0 ≤ 1000000) }
    ensures short { IfOk result (λ read. length read.2 ≤ 262144) }
    ensures unbegun { IfErr result (IsUnbegun (unread lines.old (S.left source.old))) }
    ensures back { IsTextBack (unread lines.old (S.left source.old)) (unread lines.new (S.left source.new)) }
    ensures cause { IfErr result (λ ended. HasCause ended (S.faults source.old) (S.faults source.new) 0 0) }
    ensures calm { OnOk result (S.faults source.new ≡ S.faults source.old) }
{
    let definition = match read_definition(alloc, lines, source) {
        Ok(definition) => definition,
        Err(ended) => return Err(ended),
    };
    let system = match judge(alloc, &definition) {
        Ok(system) => system,
        Err(ended) => return Err(ended),
    };
    let Ok(text) = text_of(alloc, definition.lines()) else {
        return Err(Ended::Memory);
    };
    if TEXT_LIMIT < text.len() {
        return Err(Ended::Memory);
    }
    Ok((definition.lines().len() as u32, system, text))
}

/// Opens the disk that was handed in. It says how the session ended where that is refused; where the disk failed, the
/// system is down.
fn begin<D: Disk>(
    alloc: Global,
    disk: D,
    system: System,
    text: Bytes,
) -> (Session<D>, Option<Ended>)
    requires text { length text ≤ 262144 }
    requires only { Only (D.state disk).shown (D.state disk) }
    ensures begun { HasBegun D.state system text disk result.0 result.1 }
    ensures ready { IsSessionReady D.state result.0 }
{
    let _ = system.logs();
    let idle = Idle {
        disk,
        system,
        text,
        last: None,
        emptied: false,
        stopped: false,
    };
    let (session, opening) = open(alloc, idle, Kept::new(alloc), false);
    (session, refusal(opening))
}

/// How a session ends whose first opening went so.
fn refusal(opening: Opening) -> Option<Ended>
    ensures { result ≡ spec.refusal opening }
{
    match opening {
        Opening::Opened => None,
        Opening::Broke => None,
        Opening::Refused(refusal) => Some(Ended::Image(refusal)),
        Opening::Memory => Some(Ended::Memory),
        Opening::Spent => Some(Ended::Spent),
    }
}

/// What a session came to.
fn finish<D: Disk>(session: Session<D>, status: Ended) -> Outcome<D>
    requires ready { IsSessionReady D.state session }
    ensures closed { IsSessionClosed D.state session result.disk result.lives result.stops }
    ensures leaves { SessionLeaves D.state session result.disk result.lives result.stops }
    ensures status { result.status ≡ spec.by_standing (is_session_stopped (standing_of session.place)) status }
{
    let Over {
        disk,
        lives,
        stops,
        stopped,
    } = close(session);
    Outcome {
        status: by_standing(status, stopped),
        disk,
        lives: Lives { items: lives },
        stops: Stops { items: stops },
    }
}

/// A session whose source was read to its end while the system was down by a stop ends so.
fn by_standing(status: Ended, stopped: bool) -> Ended
    ensures { result ≡ spec.by_standing stopped status }
{
    if stopped { down_at_end(status) } else { status }
}

fn down_at_end(status: Ended) -> Ended
    ensures { result ≡ spec.down_at_end status }
{
    match status {
        Ended::Done => Ended::Down,
        _ => status,
    }
}
