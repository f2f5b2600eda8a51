//! The top call.
ghost use Rattle.std.specs.Prelude.{◌≡◌, ◌≤◌, ◌++◌, ◌∷◌, decimal, [], length, map, string_bytes, IsNone, IsSome};
ghost use Rattle.tm_disk.specs.Disk.{Only};
ghost use Rattle.tm_edge.specs.Fault.{HasRisen};
ghost use Rattle.tm_session.specs.Outcome.{HasCause, IsTextBack, IsReadToEnd};
ghost use Rattle.tm_session.specs.SentAgain.{AnswersAsKept};
ghost use Rattle.tm_prog.specs.Words.{word_fault, workload_of};
ghost use Rattle.tm_prog.specs.Workload.{bytes_served_by};
ghost use Rattle.tm_prog.specs.Status.{session_status_text, IsLastLine, IsByWords, IsRun, IsWithinLimits, IsComplete, IsNear};

use crate::summed::run_workload;
use crate::words::{find_word_fault, workload_of};
use model_session::ImageRefused;
use session_text::Printed;
use std::alloc::Global;
use tm_disk::Disk;
use tm_edge::{Sink, Source};
use tm_session::{Ended, Lives, Outcome, Stops, drill_session};

/// The room that the last line needs at most.
pub(crate) const LAST_ROOM: usize = 128;

/// Serves a session by the words that the program is called with, which are `drill` and the disk's, or `workload`, a seed and how
/// many transfers it has.
///
/// The source of a drill holds a definition and then the lines of the session, whose answers are printed to the
/// sink; and then the line of the status, where it has one. A status line that can't be written
/// leaves the status as it is. The disk is opened behind the definition, and handed back in the end.
/// A workload is served so too, over its own text: the source isn't touched, and the summary is printed in place of the answers.
///
/// Status 1 comes only where the words break a rule, and 2 only where the definition breaks one; where they do, nothing fails and
/// no limit is met, it is this status or 7. 3 comes exactly where the source ended while the system was down by a stop, which is
/// told; 4 and 5 only where the source or the sink failed in this call; 6 where no life has begun and the disk, as it was handed
/// in, can't be opened; 9 where a line has 4,097 bytes or more or is past the millionth, or a counter is spent; 7 for want of
/// memory. Status 0 says that the source was read to its end. With every status but 4 and 5 no call over the source or the sink
/// failed, the writing of the status line apart.
pub fn run<S: Source, K: Sink, D: Disk>(
    alloc: Global,
    words: &[String],
    source: &mut S,
    sink: &mut K,
    disk: D,
) -> Outcome<D>
    requires only { Only (D.state disk).shown (D.state disk) }
    ensures headline { IsRun D.state (map (λ word. string_bytes word) words.now) (S.left source.old) (S.left source.new) (K.written sink.old) (K.written sink.new) disk result.disk result.status result.lives result.stops
        (S.faults source.old) (S.faults source.new) (K.faults sink.old) (K.faults sink.new) }
    ensures taken { IsTextBack (S.left source.old) (S.left source.new) }
    // The source of a drill is read to its end where the status says so; that of a workload isn't touched.
    ensures whole { IsNone (workload_of (map (λ word. string_bytes word) words.now)) → IsReadToEnd result.status (S.left source.new) }
    ensures untouched { IsSome (workload_of (map (λ word. string_bytes word) words.now)) → source.new ≡ source.old }
    // Where the words break a rule nothing of the source is read.
    ensures unread { IsSome (word_fault (map (λ word. string_bytes word) words.now)) → source.new ≡ source.old }

    // Where the words are valid, no count of the source or the sink rose and no limit is met, the status is that of the
    // definition, or memory was wanting, or the disk decides it: not where it can be opened as it is handed in and doesn't fail,
    // but by a spent counter.
    ensures complete { IsNone (word_fault (map (λ word. string_bytes word) words.now)) →
        ¬ HasRisen (S.faults source.old) (S.faults source.new) → ¬ HasRisen (K.faults sink.old) (K.faults sink.new) →
        IsWithinLimits (bytes_served_by (workload_of (map (λ word. string_bytes word) words.now)) (S.left source.old)) →
        IsComplete (bytes_served_by (workload_of (map (λ word. string_bytes word) words.now)) (S.left source.old)) (D.state disk) (D.state result.disk) result.status result.stops }
    // Behind any stops and restarts what is sent again is answered by what was kept, between one cold start and the next, where the
    // disk tells its contents.
    ensures resends { AnswersAsKept D.state disk result.disk result.lives result.stops }
    // That a counter is spent is told of a disk alone that was near it as it was handed in, where that tells its contents.
    ensures near { IsNear (bytes_served_by (workload_of (map (λ word. string_bytes word) words.now)) (S.left source.old)) (D.state disk) result.status }
{
    let mut line = Printed::new(alloc);
    if line.make_room(LAST_ROOM).is_err() {
        print_last(sink, b"STATUS 7 MEMORY\n");
        return unbegun(alloc, disk, Ended::Memory);
    }
    let outcome = serve(alloc, words, source, sink, &mut line, disk);
    status_line(&mut line, outcome.status);
    print_last(sink, line.as_slice());
    outcome
}

/// Serves a session, where the words break no rule. The summary of a workload whose session wasn't run to its end is left in the
/// text of the last line.
fn serve<S: Source, K: Sink, D: Disk>(
    alloc: Global,
    words: &[String],
    source: &mut S,
    sink: &mut K,
    line: &mut Printed,
    disk: D,
) -> Outcome<D>
    requires only { Only (D.state disk).shown (D.state disk) }
    requires room { LAST_ROOM ≤ line.old.room }
    requires fresh { line.old.text ≡ [] }
    ensures session { IsByWords D.state (word_fault (map (λ word. string_bytes word) words.now)) (workload_of (map (λ word. string_bytes word) words.now)) (S.left source.old) (S.left source.new) (K.written sink.old) (K.written sink.new) line.new.text disk result.disk result.status result.lives result.stops }
    ensures cause { HasCause result.status (S.faults source.old) (S.faults source.new) (K.faults sink.old) (K.faults sink.new) }
    ensures taken { IsTextBack (S.left source.old) (S.left source.new) }
    ensures whole { IsNone (workload_of (map (λ word. string_bytes word) words.now)) → IsReadToEnd result.status (S.left source.new) }
    ensures untouched { IsSome (workload_of (map (λ word. string_bytes word) words.now)) → source.new ≡ source.old }
    ensures unread { IsSome (word_fault (map (λ word. string_bytes word) words.now)) → source.new ≡ source.old }
    ensures room { LAST_ROOM ≤ line.new.room }
{
    if let Some((word, rule)) = find_word_fault(words) {
        return unbegun(alloc, disk, Ended::Words(word, rule));
    }
    match workload_of(words) {
        Some(workload) => run_workload(alloc, workload, sink, line, disk),
        None => drill_session(alloc, source, sink, disk),
    }
}

/// An outcome without a life.
pub(crate) fn unbegun<D: Disk>(alloc: Global, disk: D, status: Ended) -> Outcome<D>
    ensures status { result.status ≡ status }
    ensures lives { result.lives ≡ [] }
    ensures stops { result.stops ≡ [] }
    ensures disk { result.disk ≡ disk }
{
    Outcome {
        status,
        disk,
        lives: Lives {
            items: Vec::new(alloc),
        },
        stops: Stops {
            items: Vec::new(alloc),
        },
    }
}

/// Prints the last line of a status, where it has one.
#[tactic(auto, using(crate::proofs::Runs::last_steps))]
pub fn print_last<K: Sink>(sink: &mut K, line: &[u8])
    ensures { IsLastLine (K.written sink.old) (K.written sink.new) line.now (K.faults sink.old) (K.faults sink.new) }
{
    if line.is_empty() {
        return;
    }
    match sink.put(line) {
        Ok(()) => {}
        Err(_) => {}
    }
}

/// Adds the last line of a status.
fn status_line(out: &mut Printed, status: Ended)
    requires { LAST_ROOM ≤ out.old.room }
    ensures { out.new.text ≡ out.old.text ++ session_status_text status }
{
    match status {
        Ended::Done | Ended::Write => {}
        Ended::Down => out.push(b"STATUS 3 DOWN\n"),
        Ended::Image(refusal) => image_status(out, &refusal),
        Ended::Spent => out.push(b"STATUS 9 LIMIT 1000000000000000000\n"),
        Ended::Words(word, rule) => {
            let (word, rule) = (u64::from(word), u64::from(rule));
            add_two(out, b"STATUS 1 WORD ", word, b" RULE ", rule);
        }
        Ended::BadLine(line, rule) => {
            let (line, rule) = (u64::from(line), u64::from(rule));
            add_two(out, b"STATUS 2 LINE ", line, b" RULE ", rule);
        }
        Ended::BadCross(line, rule) => {
            let (line, rule) = (u64::from(line), u64::from(rule));
            add_two(out, b"STATUS 2 LINE ", line, b" CROSS ", rule);
        }
        Ended::Read => out.push(b"STATUS 4 READ\n"),
        Ended::Memory => out.push(b"STATUS 7 MEMORY\n"),
        Ended::Limit(n) => add_limit(out, n),
    }
}

/// Adds a line of two words and their numbers.
fn add_two(out: &mut Printed, word: &[u8], number: u64, other: &[u8], second: u64)
    requires room { LAST_ROOM ≤ out.old.room }
    requires short { length word.now ≤ 20 }
    requires too { length other.now ≤ 20 }
    ensures { out.new.text ≡ out.old.text ++ (word.now ++ decimal number ++ other.now ++ decimal second ++ 10 ∷ []) }
{
    out.push(word);
    out.push_number(number);
    out.push(other);
    out.push_number(second);
    out.push(b"\n");
}

/// Adds the last line for a limit.
fn add_limit(out: &mut Printed, n: u64)
    requires { LAST_ROOM ≤ out.old.room }
    ensures { out.new.text ≡ out.old.text ++ session_status_text (Ended.Limit n) }
{
    out.push(b"STATUS 9 LIMIT ");
    out.push_number(n);
    out.push(b"\n");
}

/// Adds the last line for a disk that can't be opened.
fn image_status(out: &mut Printed, refusal: &ImageRefused)
    requires { LAST_ROOM ≤ out.old.room }
    ensures { out.new.text ≡ out.old.text ++ session_status_text (Ended.Image refusal.now) }
{
    match refusal {
        ImageRefused::Rule(rule, sector) => {
            let (rule, sector) = (u64::from(*rule), u64::from(*sector));
            add_two(out, b"STATUS 6 RULE ", rule, b" SECTOR ", sector);
        }
        ImageRefused::Text(place) => {
            out.push(b"STATUS 6 TEXT ");
            out.push_number(u64::from(*place));
            out.push(b"\n");
        }
        ImageRefused::Size(needed, has) => {
            let (needed, has) = (u64::from(*needed), u64::from(*has));
            add_two(out, b"STATUS 6 SIZE ", needed, b" ", has);
        }
    }
}
