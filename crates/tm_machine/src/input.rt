//! Inputs of terminals.
ghost use Rattle.std.specs.Prelude.{◌≡◌, ◌<◌, false, length, slice_get, IfOk, IfErr, IfSome, OnErr, OnOk, Some};
ghost use Rattle.std.specs.Option.{option_map_or};
ghost use Rattle.tm_types.specs.Name.{IsName};
ghost use Rattle.model_system.specs.Codes.{code_place};
ghost use Rattle.model_machine.specs.declared.entry.Entry.TheVariants.{Accept};
ghost use Rattle.model_machine.specs.declared.entry.ControlCall.TheVariants.{Input};
ghost use Rattle.model_machine.specs.MachineCalls.{by_number, most_segments, input_answer};
ghost use Rattle.lasting_state.specs.UntoldSteps.{WhereFull};
ghost use Rattle.tm_machine.specs.Answers.{IsAnswered};
ghost use Rattle.tm_machine.specs.Inputs.{IsNewInput, IsInputRefusal, code_for, is_input_fault, way_by, kept_so};
ghost use Rattle.tm_machine.specs.ToldByCall.{IsCallLonger, TellsLastingStep};

use crate::parts::Parts;
use conversation::Busy;
use lasting_state::{Enqueued, KeptInput, Untold, kept_first};
use model_machine::{InputRefused, Taken, code_word};
use model_system::{Code, SegmentKind};
use program_rows::Telling;
use region_work::{count_busy, follow_at};
use std::alloc::Global;
use system_types::{Codes, System};
use tm_types::{Memory, Name, Segments};

/// How an input is kept.
#[derive(Clone, Copy, Debug)]
pub enum Way {
    /// It belongs to no conversation.
    Alone,
    /// It belongs to the conversation that its terminal has.
    GoesOn,
    /// It begins a conversation, with a pad of this length.
    Begins(u16),
}

/// Where an input that is new goes, but for the room.
#[derive(Clone, Copy, Debug)]
pub struct NewInput {
    /// The place of its terminal.
    pub place: usize,
    pub code: Name,
    pub code_index: usize,
    pub way: Way,
}

/// The place of the code that an input goes to: that of the terminal's conversation, or else the one that
/// its first word names.
fn code_for(system: &System, conversation: &Option<Name>, segments: &Segments) -> Option<usize>
    requires { 0 < length segments.now }
    ensures value { result ≡ code_place system.now.codes (code_for conversation.now segments.now) }
    ensures within { IfSome result (λ place. place < length system.now.codes) }
{
    match conversation {
        Some(code) => system.code_place(code),
        None => system.code_named(code_word(segments)),
    }
}

fn code_at(codes: &[Code], place: usize) -> &Code
    requires { place < length codes.now }
    ensures { slice_get codes.now place ≡ Some result.now }
{
    &codes[place]
}

/// How an input to a code with a pad of this length is kept; the length is 0 where it has none.
fn way_by(conversation: &Option<Name>, pad: u16) -> Way
    ensures { result ≡ way_by conversation.now pad }
{
    match conversation {
        Some(_) => Way::GoesOn,
        None => {
            if pad == 0 {
                Way::Alone
            } else {
                Way::Begins(pad)
            }
        }
    }
}

/// The input as it is kept.
fn kept_so(alloc: Global, input: &NewInput, segments: &Segments) -> Result<KeptInput, Memory>
    ensures { IfOk result (λ kept. kept ≡ kept_so input.now.way input.now.code segments.now) }
{
    match input.way {
        Way::Alone => Ok(KeptInput {
            code: input.code,
            conversation: false,
            segments: segments.clone()?,
            begins: None,
        }),
        Way::GoesOn => Ok(KeptInput {
            code: input.code,
            conversation: true,
            segments: segments.clone()?,
            begins: None,
        }),
        Way::Begins(pad) => kept_first(alloc, &input.code, pad, segments),
    }
}

/// Whether the code at this place is stopped.
fn is_code_stopped(codes: &Codes, place: usize) -> bool
    requires { place < length codes.now }
    ensures { result ≡ option_map_or (λ s. s.stopped) (slice_get codes.now place) false }
{
    codes.states()[place].stopped
}

pub(crate) fn named(code: &Code) -> Name
    ensures value { result ≡ code.now.transaction.code }
    ensures name { IsName result }
{
    let code = code.transaction.code;
    let _bytes = code.as_bytes();
    code
}

/// How many segments an input may have.
fn most_segments(kind: SegmentKind) -> u32
    ensures { result ≡ most_segments kind }
{
    match kind {
        SegmentKind::Multiple => 16,
        SegmentKind::Single => 1,
    }
}

/// What answers an input of this number in place of its being new, with this last number.
fn by_number(last: u64, number: u64) -> Option<Result<Taken, InputRefused>>
    ensures { result ≡ by_number last number }
{
    if number <= last {
        return Some(Ok(Taken::Already));
    }
    if number - last > 1 {
        return Some(Err(InputRefused::Expected(last + 1)));
    }
    None
}

impl Parts {
    /// Takes an input, or says why not. The record of an input that is kept, of at most `room` bytes, is appended. A
    /// refusal changes nothing, and no answer is a fault; `Memory` comes too where a count would pass its limit.
    pub fn accept(
        &mut self,
        terminal: &Name,
        number: u64,
        segments: &Segments,
        telling: &mut Telling,
    ) -> Result<Result<Taken, InputRefused>, Untold>
        requires { 0 < length segments.now }
        ensures answer { IfOk result (λ answer. IsAnswered self.old self.new (Accept terminal.now number segments.now answer)) }
        ensures no_fault { IfOk result (λ answer. is_input_fault answer ≡ false) }
        ensures told { OnOk result (TellsLastingStep self.old.system self.old.moment 0 telling.old.room (Input terminal.now number segments.now) telling.old.told.items telling.new.told.items) }
        ensures databases { self.new.databases ≡ self.old.databases }
        ensures err { OnErr result (self.new ≡ self.old) }
        ensures untold { OnErr result (telling.new.told.items ≡ telling.old.told.items) }
        ensures place { telling.new ≡ record telling.old { told = telling.new.told } }
        ensures full { IfErr result (WhereFull (IsCallLonger self.old.system self.old.moment 0 telling.old.room (Input terminal.now number segments.now))) }
    {
        let _ = &self.alloc;
        let Ok(count) = u32::try_from(segments.len()) else {
            return Err(Untold::Memory);
        };
        match self.new_input(terminal, number, segments, count) {
            Ok(input) => self.enqueue(terminal, number, input, segments, telling),
            Err(answer) => Ok(answer),
        }
    }

    /// Where an input of so many segments goes, if it is new; else its answer.
    fn new_input(
        &self,
        terminal: &Name,
        number: u64,
        segments: &Segments,
        count: u32,
    ) -> Result<NewInput, Result<Taken, InputRefused>>
        requires some { 0 < length segments.now }
        requires count { count ≡ length segments.now }
        ensures new { IfOk result (IsNewInput self.now terminal.now number segments.now) }
        ensures refused { IfErr result (IsInputRefusal (input_answer self.now.system self.now.moment terminal.now number segments.now)) }
    {
        let Some(place) = self.system.terminal_place(terminal) else {
            return Err(Err(InputRefused::Terminal));
        };
        if self.tables.is_stopped(place) {
            return Err(Err(InputRefused::StoppedTerminal));
        }
        if let Some(answer) = by_number(self.tables.last_input(place), number) {
            return Err(answer);
        }
        let conversation = match self
            .tables
            .conversations()
            .input(terminal, self.tables.queues())
        {
            Ok(conversation) => conversation,
            Err(Busy { id }) => return Err(Err(InputRefused::Conversation(id))),
        };
        let Some(code_index) = code_for(&self.system, &conversation, segments) else {
            return Err(Err(InputRefused::Code));
        };
        let code = code_at(self.system.codes(), code_index);
        let name = named(code);
        if is_code_stopped(&self.codes, code_index) {
            return Err(Err(InputRefused::StoppedCode(name)));
        }
        let most = most_segments(code.transaction.segment_kind);
        if count > most {
            return Err(Err(InputRefused::SegmentsOver(count, most)));
        }
        let way = way_by(&conversation, code.transaction.scratch_pad);
        Ok(NewInput {
            place,
            code: name,
            code_index,
            way,
        })
    }

    /// Adds a new input to the queues, if they have the room, and tells it.
    fn enqueue(
        &mut self,
        terminal: &Name,
        number: u64,
        input: NewInput,
        segments: &Segments,
        telling: &mut Telling,
    ) -> Result<Result<Taken, InputRefused>, Untold>
        requires new { IsNewInput self.old terminal.now number segments.now input }
        requires segment { 0 < length segments.now }
        ensures answer { IfOk result (λ answer. IsAnswered self.old self.new (Accept terminal.now number segments.now answer)) }
        ensures no_fault { IfOk result (λ answer. is_input_fault answer ≡ false) }
        ensures told { OnOk result (TellsLastingStep self.old.system self.old.moment 0 telling.old.room (Input terminal.now number segments.now) telling.old.told.items telling.new.told.items) }
        ensures databases { self.new.databases ≡ self.old.databases }
        ensures err { OnErr result (self.new ≡ self.old) }
        ensures untold { OnErr result (telling.new.told.items ≡ telling.old.told.items) }
        ensures place { telling.new ≡ record telling.old { told = telling.new.told } }
        ensures full { IfErr result (WhereFull (IsCallLonger self.old.system self.old.moment 0 telling.old.room (Input terminal.now number segments.now))) }
    {
        let Ok(kept) = kept_so(self.alloc, &input, segments) else {
            return Err(Untold::Memory);
        };
        let busy = count_busy(&self.regions);
        let code = input.code;
        match self
            .tables
            .enqueue(input.place, terminal, number, kept, busy, telling)
        {
            Ok(Enqueued::New(id)) => {
                let waiting = self.tables.queues().waiting(&code);
                follow_at(&mut self.codes, &self.system, input.code_index, waiting);
                Ok(Ok(Taken::New(id)))
            }
            Ok(Enqueued::Full(need, limit)) => Ok(Err(InputRefused::QueueFull(need, limit))),
            Err(untold) => Err(untold),
        }
    }
}
