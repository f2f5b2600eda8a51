//! The line of each answer.
ghost use Rattle.std.specs.Prelude.{◌≡◌, ◌≤◌, ◌+◌, ◌++◌, ◌∷◌, [], length, codes, decimal};
ghost use Rattle.tm_types.specs.Digits.{four_digits};
ghost use Rattle.tm_types.specs.Function.{function_name};
ghost use Rattle.model_machine.specs.LastingSteps.{code_word};
ghost use Rattle.model_session.specs.declared.asked.InputStopped.TheVariants.{TooLong};
ghost use Rattle.model_session.specs.Text as text;
ghost use Rattle.model_session.specs.Text.{spaced, line_end, about};
ghost use Rattle.model_session.specs.QuietTurns.{quiet_text};

use crate::Printed;
use crate::isolation::{add_victims, add_waits};
use model_machine::{AckRefused, Acked, InputRefused, Taken, Turned, code_word};
use model_session::InputStopped;
use tm_types::{AbendCode, Dbd, Function, Name, Segments, Status, four_digits};

/// The room that the line of an answer needs at most.
pub const ANSWER_ROOM: usize = 128;

/// The room that the lines of a turn need at most.
pub const TURN_ROOM: usize = 2048;

/// The most bytes of a word that are shown.
pub const WORD_ROOM: usize = 8;

/// Adds the line that answers an input whose first word is shown so. A fault has no line.
pub fn input_line(
    out: &mut Printed,
    terminal: &Name,
    number: u64,
    word: &[u8],
    answer: &Result<Taken, InputRefused>,
)
    requires room { ANSWER_ROOM ≤ out.old.room }
    requires word { length word.now ≤ 8 }
    ensures { out.new.text ≡ out.old.text ++ text.input_text terminal.now number word.now answer.now }
{
    match answer {
        Ok(Taken::New(_)) => add_answer(out, b"ACK", terminal, number),
        Ok(Taken::Already) => add_answer(out, b"ALREADY", terminal, number),
        Err(InputRefused::Terminal) => add_refused(out, terminal, number, b" TERMINAL"),
        Err(InputRefused::StoppedTerminal) => {
            let name = terminal.as_bytes();
            add_refused_with_word(out, terminal, number, b" STOPPED ", name);
        }
        Err(InputRefused::Expected(next)) => {
            add_refused_with_number(out, terminal, number, b" EXPECTED ", *next);
        }
        Err(InputRefused::Conversation(id)) => {
            add_refused_with_number(out, terminal, number, b" CONVERSATION ", *id);
        }
        Err(InputRefused::Code) => add_refused_with_word(out, terminal, number, b" CODE ", word),
        Err(InputRefused::StoppedCode(code)) => {
            let name = code.as_bytes();
            add_refused_with_word(out, terminal, number, b" STOPPED ", name);
        }
        Err(InputRefused::SegmentsOver(count, most)) => {
            let (count, most) = (u64::from(*count), u64::from(*most));
            add_refused_with_two(out, terminal, number, b" SEGMENTS ", count, most);
        }
        Err(InputRefused::QueueFull(need, limit)) => {
            add_refused_with_two(out, terminal, number, b" QUEUE FULL ", *need, *limit);
        }
        Err(InputRefused::Fault(_)) => {}
    }
}

/// Adds the line that answers an acknowledgement. A fault has no line.
pub fn ack_line(out: &mut Printed, terminal: &Name, number: u64, answer: &Result<Acked, AckRefused>)
    requires { ANSWER_ROOM ≤ out.old.room }
    ensures { out.new.text ≡ out.old.text ++ text.ack_text terminal.now number answer.now }
{
    match answer {
        Ok(Acked::Removed) => add_answer(out, b"ACKED", terminal, number),
        Ok(Acked::Already) => add_answer(out, b"ALREADY", terminal, number),
        Err(AckRefused::Unknown) => add_refused(out, terminal, number, b" TERMINAL"),
        Err(AckRefused::Ahead(first)) => {
            add_refused_with_number(out, terminal, number, b" FIRST ", *first);
        }
        Err(AckRefused::Fault(_)) => {}
    }
}

/// Adds the line for a terminal that has no reply.
pub fn none_line(out: &mut Printed, terminal: &Name)
    requires { ANSWER_ROOM ≤ out.old.room }
    ensures { out.new.text ≡ out.old.text ++ text.none_text terminal.now }
{
    out.push(b"NONE ");
    out.push(terminal.as_bytes());
    out.push(b"\n");
}

/// Adds the line for a name that is no terminal's, where it asked for a reply.
pub fn unknown_line(out: &mut Printed, terminal: &Name)
    requires { ANSWER_ROOM ≤ out.old.room }
    ensures { out.new.text ≡ out.old.text ++ text.unknown_text terminal.now }
{
    out.push(b"REFUSED ");
    out.push(terminal.as_bytes());
    out.push(b" TERMINAL\n");
}

/// Adds the line for a stopped terminal, where it asked for a reply.
pub fn held_line(out: &mut Printed, terminal: &Name)
    requires { ANSWER_ROOM ≤ out.old.room }
    ensures { out.new.text ≡ out.old.text ++ text.held_text terminal.now }
{
    out.push(b"REFUSED ");
    out.push(terminal.as_bytes());
    out.push(b" STOPPED ");
    out.push(terminal.as_bytes());
    out.push(b"\n");
}

/// Adds the line of a region's turn, or a line for each region that gave way in it.
#[tactic(auto, using(crate::proofs::Turned::one_line))]
pub fn turned_line(out: &mut Printed, databases: &[Dbd], region: u32, turned: &Turned)
    requires { TURN_ROOM ≤ out.old.room }
    ensures { out.new.text ≡ out.old.text ++ text.turned_text databases.now region turned.now }
{
    match turned {
        Turned::Backed(victims) => add_victims(out, region, victims.as_slice()),
        _ => {
            add_region(out, region);
            add_did(out, databases, turned);
            out.push(b"\n");
        }
    }
}

/// Adds what a region did, in 80 bytes at most; nothing where regions gave way, since each of these has a
/// line of its own.
fn add_did(out: &mut Printed, databases: &[Dbd], turned: &Turned)
    requires { 80 ≤ out.old.room }
    ensures text { out.new.text ≡ out.old.text ++ text.did_text databases.now turned.now }
    ensures room { out.old.room ≤ out.new.room + 80 }
{
    match turned {
        Turned::Scheduled(code, id) => add_about(out, b"SCHEDULED", code, *id),
        Turned::Called(function, pcb, status) => add_called(out, *function, *pcb, *status),
        Turned::Next(code, id, next) => {
            add_about(out, b"NEXT", code, *id);
            out.push(b" ");
            out.push_number(*next);
        }
        Turned::QC(code, id) => add_about(out, b"QC", code, *id),
        Turned::Done(code, id) => add_about(out, b"DONE", code, *id),
        Turned::Abended(code, id, abend) => add_abended(out, code, *id, *abend),
        Turned::Idle => out.push(b"IDLE"),
        Turned::Held(need, limit) => add_held(out, *need, *limit),
        Turned::Waits(resource, by) => add_waits(out, databases, resource, *by),
        Turned::Backed(_) => {}
    }
}

fn add_called(out: &mut Printed, function: Function, pcb: u8, status: Status)
    requires { 64 ≤ out.old.room }
    ensures text { out.new.text ≡ out.old.text ++ (spaced (function_name function) ++ spaced (decimal pcb) ++ text.printed_status status) }
    ensures room { out.old.room ≤ out.new.room + 64 }
{
    add_spaced(out, function.name());
    out.push_number(u64::from(pcb));
    out.push(b" ");
    out.push(printed_status(status));
}

fn add_abended(out: &mut Printed, code: &Name, id: u64, abend: AbendCode)
    requires { 64 ≤ out.old.room }
    ensures text { out.new.text ≡ out.old.text ++ (about (codes "ABENDED") code.now id ++ codes " U" ++ four_digits abend.number) }
    ensures room { out.old.room ≤ out.new.room + 64 }
{
    add_about(out, b"ABENDED", code, id);
    out.push(b" U");
    out.push(&four_digits(abend.number));
}

fn add_held(out: &mut Printed, need: u64, limit: u64)
    requires { 64 ≤ out.old.room }
    ensures text { out.new.text ≡ out.old.text ++ (codes "HELD " ++ decimal need ++ 32 ∷ [] ++ decimal limit) }
    ensures room { out.old.room ≤ out.new.room + 64 }
{
    out.push(b"HELD ");
    out.push_number(need);
    out.push(b" ");
    out.push_number(limit);
}

/// Adds the line of so many turns, after which nothing or something was left to do.
pub fn quiet_line(out: &mut Printed, is_quiet: bool, turns: u32)
    requires { ANSWER_ROOM ≤ out.old.room }
    ensures { out.new.text ≡ out.old.text ++ quiet_text is_quiet turns }
{
    add_spaced(out, if is_quiet { b"QUIET" } else { b"TURNS SPENT" });
    out.push_number(u64::from(turns));
    out.push(b"\n");
}

/// Adds the line that refuses an input before the control region is asked for it.
pub fn stopped_line(out: &mut Printed, terminal: &Name, number: u64, reason: &InputStopped)
    requires { ANSWER_ROOM ≤ out.old.room }
    ensures { out.new.text ≡ out.old.text ++ text.stopped_text terminal.now number reason.now }
{
    match reason {
        InputStopped::Terminal => add_refused(out, terminal, number, b" TERMINAL"),
        InputStopped::Format => add_refused(out, terminal, number, b" FORMAT"),
        InputStopped::Field(name) => {
            add_refused_with_word(out, terminal, number, b" FIELD ", name.as_bytes());
        }
        InputStopped::TooLong(long) => add_too_long(out, terminal, number, *long),
    }
}

/// Adds the line that refuses an input with a segment of so many bytes.
fn add_too_long(out: &mut Printed, terminal: &Name, number: u64, long: u64)
    requires { ANSWER_ROOM ≤ out.old.room }
    ensures { out.new.text ≡ out.old.text ++ text.stopped_text terminal.now number (TooLong long) }
{
    add_about(out, b"REFUSED", terminal, number);
    out.push(b" LENGTH ");
    out.push_number(long);
    out.push(b" 1996\n");
}

/// Adds the line that answers lines which break this rule.
pub fn bad_line(out: &mut Printed, rule: u8)
    requires { ANSWER_ROOM ≤ out.old.room }
    ensures { out.new.text ≡ out.old.text ++ text.bad_line_text rule }
{
    out.push(b"BAD LINE ");
    out.push_number(u64::from(rule));
    out.push(b"\n");
}

/// Adds a word and a blank.
fn add_spaced(out: &mut Printed, word: &[u8])
    requires { length word.now + 1 ≤ out.old.room }
    ensures text { out.new.text ≡ out.old.text ++ spaced word.now }
    ensures room { out.new.room + length word.now + 1 ≡ out.old.room }
{
    out.push(word);
    out.push(b" ");
}

/// Adds a word, a name and a number. The last two and the blanks between take 30 bytes at most.
pub(crate) fn add_about(out: &mut Printed, word: &[u8], name: &Name, number: u64)
    requires { length word.now + 30 ≤ out.old.room }
    ensures text { out.new.text ≡ out.old.text ++ about word.now name.now number }
    ensures room { out.old.room ≤ out.new.room + length word.now + 30 }
{
    add_spaced(out, word);
    add_spaced(out, name.as_bytes());
    out.push_number(number);
}

/// Adds a line of a word, a name and a number.
fn add_answer(out: &mut Printed, word: &[u8], name: &Name, number: u64)
    requires { length word.now + 31 ≤ out.old.room }
    ensures { out.new.text ≡ out.old.text ++ (about word.now name.now number ++ line_end) }
{
    add_about(out, word, name, number);
    out.push(b"\n");
}

/// Adds a line that refuses, with its reason.
fn add_refused(out: &mut Printed, terminal: &Name, number: u64, reason: &[u8])
    requires { length reason.now + 38 ≤ out.old.room }
    ensures { out.new.text ≡ out.old.text ++ (about (codes "REFUSED") terminal.now number ++ reason.now ++ line_end) }
{
    add_about(out, b"REFUSED", terminal, number);
    out.push(reason);
    out.push(b"\n");
}

/// Adds a line that refuses, with its reason and the number that was wanted.
fn add_refused_with_number(
    out: &mut Printed,
    terminal: &Name,
    number: u64,
    reason: &[u8],
    wanted: u64,
)
    requires { length reason.now + 58 ≤ out.old.room }
    ensures { out.new.text ≡ out.old.text ++ (about (codes "REFUSED") terminal.now number ++ reason.now ++ decimal wanted ++ line_end) }
{
    add_about(out, b"REFUSED", terminal, number);
    out.push(reason);
    out.push_number(wanted);
    out.push(b"\n");
}

/// Adds a line that refuses, with its reason and two numbers: what was wanted, and what there is.
fn add_refused_with_two(
    out: &mut Printed,
    terminal: &Name,
    number: u64,
    reason: &[u8],
    wanted: u64,
    limit: u64,
)
    requires { length reason.now + 79 ≤ out.old.room }
    ensures { out.new.text ≡ out.old.text ++ (about (codes "REFUSED") terminal.now number ++ reason.now ++ decimal wanted ++ 32 ∷ [] ++ decimal limit ++ line_end) }
{
    add_about(out, b"REFUSED", terminal, number);
    out.push(reason);
    out.push_number(wanted);
    out.push(b" ");
    out.push_number(limit);
    out.push(b"\n");
}

/// Adds a line that refuses, with its reason and the word that was not known.
fn add_refused_with_word(
    out: &mut Printed,
    terminal: &Name,
    number: u64,
    reason: &[u8],
    word: &[u8],
)
    requires { length reason.now + length word.now + 38 ≤ out.old.room }
    ensures { out.new.text ≡ out.old.text ++ (about (codes "REFUSED") terminal.now number ++ reason.now ++ word.now ++ line_end) }
{
    add_about(out, b"REFUSED", terminal, number);
    out.push(reason);
    out.push(word);
    out.push(b"\n");
}

/// The first eight bytes of the first word of an input, or a dash where it is empty.
pub fn shown_word(segments: &Segments) -> &[u8]
    ensures value { result.now ≡ text.shown_word (code_word segments.now) }
    ensures short { length result.now ≤ 8 }
{
    let word = code_word(segments);
    if word.is_empty() {
        b"-"
    } else {
        &word[..word.len().min(WORD_ROOM)]
    }
}

/// Adds what a region's lines begin with.
pub(crate) fn add_region(out: &mut Printed, region: u32)
    requires { 22 ≤ out.old.room }
    ensures text { out.new.text ≡ out.old.text ++ text.region_line_head region }
    ensures room { out.old.room ≤ out.new.room + 22 }
{
    out.push(b"R");
    out.push_number(u64::from(region));
    out.push(b" ");
}

/// The two characters of the status; a blank one is printed as OK.
fn printed_status(status: Status) -> &'static [u8; 2]
    ensures { result.now ≡ text.printed_status status }
{
    match status {
        Status::Blank => b"OK",
        _ => status.text(),
    }
}
