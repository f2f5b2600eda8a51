//! A workload, served as a session and summed up.
ghost use Rattle.std.specs.Prelude.{◌≡◌, ◌≤◌, ◌⊎◌, [], ◌++◌, length};
ghost use Rattle.std.specs.Io.KnownBytes.{append_known};
ghost use Rattle.tm_disk.specs.Disk.{Only};
ghost use Rattle.tm_edge.specs.Fault.{AppendsFront};
ghost use Rattle.tm_session.specs.Outcome.{HasCause};
ghost use Rattle.tm_session.specs.declared.outcome.Ended.TheVariants.{Done, Write, Memory};
ghost use Rattle.tm_prog.specs.Workload.{IsWorkload, IsDrilled, IsWorkloadTold, IsFaultedBy};
ghost use Rattle.tm_prog.specs.Workload as spec;

use crate::run::{LAST_ROOM, unbegun};
use crate::words::Workload;
use session_text::Printed;
use std::alloc::Global;
use tm_disk::Disk;
use tm_edge::{Sink, TextSink, TextSource};
use tm_session::{Ended, Outcome, drill_session};
use tm_types::Bytes;
use workload::{make, summary};

/// Serves the session of a workload over the disk, and tells its summary in place of what the session prints.
///
/// Where the session was run to its end the summary is written to the sink, and else it is kept in the text, to be written
/// with the line of the status. Where the sink fails the status is that of a sink that failed. Want of memory, also for
/// the transcript that is kept until it is summed up, is the status of a run without memory.
pub(crate) fn run_workload<K: Sink, D: Disk>(
    alloc: Global,
    workload: Workload,
    sink: &mut K,
    line: &mut Printed,
    disk: D,
) -> Outcome<D>
    requires only { Only (D.state disk).shown (D.state disk) }
    requires few { workload.transfers ≤ 10000 }
    requires room { LAST_ROOM ≤ line.old.room }
    requires fresh { line.old.text ≡ [] }
    ensures session { IsWorkload D.state workload (K.written sink.old) (K.written sink.new) line.new.text disk result.disk result.status result.lives result.stops }
    ensures cause { HasCause result.status 0 0 (K.faults sink.old) (K.faults sink.new) }
    ensures room { LAST_ROOM ≤ line.new.room }
{
    let Ok(text) = make(alloc, workload.seed, workload.transfers) else {
        return unbegun(alloc, disk, Ended::Memory);
    };
    let (outcome, transcript) = drilled(alloc, text, disk);
    sum_up(alloc, workload, outcome, &transcript, sink, line)
}

/// Serves the session of a text over the disk, and keeps its transcript.
fn drilled<D: Disk>(alloc: Global, text: Bytes, disk: D) -> (Outcome<D>, TextSink)
    requires only { Only (D.state disk).shown (D.state disk) }
    ensures { IsDrilled D.state text disk result.0.disk result.0.status result.0.lives result.0.stops result.1.text }
{
    let mut source = TextSource::new(text);
    let mut transcript = TextSink::new(alloc);
    let outcome = drill_session(alloc, &mut source, &mut transcript, disk);
    (outcome, transcript)
}

/// Sums up what a session came to, and tells the summary.
fn sum_up<K: Sink, D: Disk>(
    alloc: Global,
    workload: Workload,
    outcome: Outcome<D>,
    transcript: &TextSink,
    sink: &mut K,
    line: &mut Printed,
) -> Outcome<D>
    requires room { LAST_ROOM ≤ line.old.room }
    requires fresh { line.old.text ≡ [] }
    ensures told { IsWorkloadTold outcome.status (spec.summary_of workload outcome.lives transcript.now.text) result.status (K.written sink.old) (K.written sink.new) line.new.text }
    ensures disk { result.disk ≡ outcome.disk }
    ensures lives { result.lives ≡ outcome.lives }
    ensures stops { result.stops ≡ outcome.stops }
    ensures faults { IsFaultedBy result.status (K.faults sink.old) (K.faults sink.new) }
    ensures room { LAST_ROOM ≤ line.new.room }
{
    let text = summary(
        alloc,
        workload.seed,
        workload.transfers,
        outcome.lives.as_slice(),
        transcript.text(),
    );
    match text {
        Ok(text) => {
            let status = tell(outcome.status, text.as_slice(), sink, line);
            with_status(outcome, status)
        }
        Err(_) => with_status(outcome, Ended::Memory),
    }
}

/// Tells a summary by how its session ended, and answers the status.
fn tell<K: Sink>(ended: Ended, text: &[u8], sink: &mut K, line: &mut Printed) -> Ended
    requires room { LAST_ROOM ≤ line.old.room }
    requires fresh { line.old.text ≡ [] }
    ensures told { IsWorkloadTold ended text.now result (K.written sink.old) (K.written sink.new) line.new.text }
    ensures faults { IsFaultedBy result (K.faults sink.old) (K.faults sink.new) }
    ensures room { LAST_ROOM ≤ line.new.room }
{
    match ended {
        Ended::Done => write_summary(text, sink),
        Ended::Write => keep_summary(Ended::Memory, text, line),
        _ => keep_summary(ended, text, line),
    }
}

/// Writes a summary: status 0, or that of a sink that failed.
fn write_summary<K: Sink>(text: &[u8], sink: &mut K) -> Ended
    ensures written { ((result ≡ Done) × (K.written sink.new ≡ append_known (K.written sink.old) text.now)) ⊎ ((result ≡ Write) × AppendsFront (K.written sink.old) (K.written sink.new) text.now) }
    ensures faults { IsFaultedBy result (K.faults sink.old) (K.faults sink.new) }
{
    match sink.put(text) {
        Ok(()) => Ended::Done,
        Err(_) => Ended::Write,
    }
}

/// Keeps a summary, to be written with the line of the status; or says that there is no memory for it.
fn keep_summary(status: Ended, text: &[u8], line: &mut Printed) -> Ended
    requires room { LAST_ROOM ≤ line.old.room }
    requires fresh { line.old.text ≡ [] }
    ensures kept { ((result ≡ status) × (line.new.text ≡ text.now)) ⊎ ((result ≡ Memory) × (line.new.text ≡ [])) }
    ensures room { LAST_ROOM ≤ line.new.room }
{
    let Some(room) = text.len().checked_add(LAST_ROOM) else {
        return Ended::Memory;
    };
    match line.make_room(room) {
        Ok(()) => {
            line.push(text);
            status
        }
        Err(_) => Ended::Memory,
    }
}

/// The outcome with another status.
fn with_status<D: Disk>(outcome: Outcome<D>, status: Ended) -> Outcome<D>
    ensures status { result.status ≡ status }
    ensures disk { result.disk ≡ outcome.disk }
    ensures lives { result.lives ≡ outcome.lives }
    ensures stops { result.stops ≡ outcome.stops }
{
    let Outcome {
        disk,
        lives,
        stops,
        ..
    } = outcome;
    Outcome {
        status,
        disk,
        lives,
        stops,
    }
}
