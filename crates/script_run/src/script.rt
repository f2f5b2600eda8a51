//! Where a script stands.
ghost use Rattle.std.specs.Prelude.{◌≡◌, false, ◌+◌, ◌<◌, ◌≤◌, ◌^◌, IsTrue, IfOk, OnOk, OnErr, IfSome, Some, None, IsOk, length, replicate, slice_set};
ghost use Rattle.std.specs.List.{list_all, flat_map};
ghost use Rattle.std.specs.Borrow.{Bor};
ghost use Rattle.std.specs.Option.{option_map};
ghost use Rattle.tm_types.specs.Segment.{is_printable, IsSegmentText};
ghost use Rattle.model_system.specs.Programs.{is_plain, is_statement};
ghost use Rattle.model_system.specs.Script as spec;
ghost use Rattle.script_run.specs.RunningScript.{at_rest, texts_before};

use crate::texts::append_cut;
use model_system::{Text, Variable};
use std::alloc::Global;
use std::marker::Model;
use std::mem;
use tm_types::{Bytes, Memory, Status};

/// Where a script is: its line, its variables, the last status and how many statements it has
/// executed; and where it stood when its last call was answered, to which it can be taken back.
#[derive(Debug, Drop)]
pub struct Script {
    place: usize,
    variables: Vec<Bytes>,
    status: Status,
    executed: u32,
    stood: usize,
    had_executed: u32,
    /// Of each variable that was set since, what it was then.
    kept: Vec<Option<Bytes>>,
}

impl Model for Script {
    ghost use Rattle.std.specs.Prelude.{◌≡◌, length};
    ghost use Rattle.model_system.specs.Script.{ScriptState};
    ghost use Rattle.script_run.specs.RunningScript.{AreTexts, Going, texts_before};

    ghost Value = { Going };

    ghost view = { λ s. record { stood = record { place = s.stood; variables = texts_before s.kept.items s.variables.items; status = s.status; executed = s.had_executed }; here = record { place = s.place; variables = s.variables.items; status = s.status; executed = s.executed } } };

    ghost invariant = { λ s. (length s.variables.items ≡ 26) × (length s.kept.items ≡ 26) × AreTexts s.variables.items × AreTexts (texts_before s.kept.items s.variables.items) };
}

impl Script {
    ghost use Rattle.script_run.specs.RunningScript.{HasRoomForStatement};

    /// A script at its first line, with empty variables.
    pub fn start(alloc: Global) -> Result<Script, Memory>
        ensures { IfOk result (λ script. script ≡ at_rest spec.script_start) }
    {
        let mut variables = Vec::with_capacity(alloc, 26)?;
        let mut kept = Vec::with_capacity(alloc, 26)?;
        for _place in 0..26u8 {
            variables.push(Bytes::new(alloc))?;
            kept.push(None)?;
        }
        Ok(Script {
            place: 0,
            variables,
            status: Status::Blank,
            executed: 0,
            stood: 0,
            had_executed: 0,
            kept,
        })
    }

    /// The place of the line where the script stands, counted from 0.
    pub fn place(&self) -> usize
        ensures { result ≡ self.now.here.place }
    {
        self.place
    }

    /// How many statements it has executed.
    pub fn executed(&self) -> u32
        ensures { result ≡ self.now.here.executed }
    {
        self.executed
    }

    /// How many statements it had executed when its last call was answered.
    pub fn had_executed(&self) -> u32
        ensures { result ≡ self.now.stood.executed }
    {
        self.had_executed
    }

    /// The text of a variable.
    pub fn variable(&self, x: &Variable) -> &[u8]
        ensures value { result.now ≡ spec.variable_text self.now.here x.now }
        ensures text { IsSegmentText result.now }
    {
        self.variables[x.place() as usize].as_slice()
    }

    #[tactic(auto, using(crate::proofs::SegmentTexts::status_printable))]
    /// The text that a line names.
    pub fn text<'a>(&'a self, text: &'a Text) -> &'a [u8]
        requires { IsTrue (is_plain text.now) }
        ensures value { result.now ≡ spec.script_text_of self.now.here text.now }
        ensures printable { IsTrue (list_all is_printable result.now) }
    {
        match text {
            Text::Variable(x) => self.variable(x),
            Text::Status => self.status.text(),
            Text::Literal(bytes) => bytes.as_slice(),
        }
    }

    #[tactic(auto, using(crate::proofs::SegmentTexts::plain_at, crate::proofs::Joining::joined_more))]
    /// The texts joined, cut at the limit of a text.
    pub fn joined(&self, alloc: Global, texts: &[Text]) -> Result<Bytes, Memory>
        requires { IsTrue (list_all is_plain texts.now) }
        ensures value { IfOk result (λ joined. joined ≡ spec.joined_texts self.now.here texts.now) }
        ensures text { IfOk result (λ joined. IsSegmentText joined) }
    {
        let mut joined = Bytes::new(alloc);
        for text in texts {
            append_cut(&mut joined, self.text(text))?;
        }
        Ok(joined)
    }

    #[tactic(auto, using(crate::proofs::VariableTexts::set_texts))]
    /// Executes a statement that gives a variable this text.
    pub fn assign(&mut self, x: &Variable, text: Bytes)
        requires text { IsSegmentText text }
        requires room { HasRoomForStatement self.old.here }
        ensures { self.new ≡ record self.old { here = spec.assigns self.old.here x.now text } }
    {
        set_variable(
            &mut self.variables,
            &mut self.kept,
            x.place() as usize,
            text,
        );
        self.place += 1;
        self.executed += 1;
    }

    /// Executes a statement that goes on at this place.
    pub fn go_to(&mut self, place: usize)
        requires { HasRoomForStatement self.old.here }
        ensures { self.new ≡ record self.old { here = spec.script_goes_on self.old.here place self.old.here.variables } }
    {
        self.place = place;
        self.executed += 1;
    }

    /// Goes on behind a call: the variable that the call may set becomes the text, where there is
    /// one and the status says so. Without a text this takes no memory.
    pub fn answer(
        &mut self,
        alloc: Global,
        set: Option<u8>,
        status: Status,
        area: Option<&[u8]>,
    ) -> Result<(), Memory>
        requires room { HasRoomForStatement self.old.here }
        requires variable { IfSome set (λ x. x < 26) }
        requires text { IfSome (option_map (λ (text : Bor _). text.now) area) IsSegmentText }
        ensures ok { OnOk result (self.new ≡ at_rest (spec.moved_on self.old.here (Some set) (record { status = status; area = option_map (λ (text : Bor _). text.now) area.entry }))) }
        ensures err { OnErr result (self.new ≡ self.old) }
        ensures no_area { area.entry ≡ None → IsOk result }
        ensures not_set { spec.sets_variable status ≡ false → IsOk result }
    {
        if let (Some(variable), Some(text)) = (set, area)
            && sets_variable(status)
        {
            let text = Bytes::copied(alloc, text)?;
            set_variable(&mut self.variables, &mut self.kept, variable as usize, text);
        }
        self.pass_call(status);
        Ok(())
    }

    /// The same with a text that is taken over. This takes no memory.
    pub fn answer_taking(&mut self, set: Option<u8>, status: Status, area: Option<Bytes>)
        requires room { HasRoomForStatement self.old.here }
        requires variable { IfSome set (λ x. x < 26) }
        requires text { IfSome area IsSegmentText }
        ensures { self.new ≡ at_rest (spec.moved_on self.old.here (Some set) (record { status = status; area = area })) }
    {
        if let (Some(variable), Some(text)) = (set, area)
            && sets_variable(status)
        {
            set_variable(&mut self.variables, &mut self.kept, variable as usize, text);
        }
        self.pass_call(status);
    }

    #[tactic(auto, using(crate::proofs::VariableTexts::none_kept))]
    /// Goes on behind a call that was answered with this status, whatever its variable became. There the
    /// script stands.
    fn pass_call(&mut self, status: Status)
        requires { HasRoomForStatement self.old.here }
        ensures { self.new ≡ at_rest (record self.old.here { place = self.old.here.place + 1; status = status; executed = self.old.here.executed + 1 }) }
    {
        keep_none(&mut self.kept);
        self.place += 1;
        self.status = status;
        self.executed += 1;
        self.stood = self.place;
        self.had_executed = self.executed;
    }

    /// Moves on to this place, without a statement.
    pub fn arrive(&mut self, place: usize)
        ensures { self.new ≡ record self.old { here = record self.old.here { place = place } } }
    {
        self.place = place;
    }

    #[tactic(auto, using(crate::proofs::VariableTexts::none_kept))]
    /// Goes back to where the script stood when its last call was answered. This takes no memory.
    pub fn take_back(&mut self)
        ensures { self.new ≡ at_rest self.old.stood }
    {
        put_back(&mut self.variables, &mut self.kept);
        self.place = self.stood;
        self.executed = self.had_executed;
    }
}

/// Gives a variable a text, and keeps what it was at the last call, unless that is kept already.
fn set_variable(
    variables: &mut Vec<Bytes>,
    kept: &mut Vec<Option<Bytes>>,
    place: usize,
    text: Bytes,
)
    requires variable { place < length variables.old.items }
    requires kept { place < length kept.old.items }
    ensures set { variables.new.items ≡ slice_set variables.old.items place text }
    ensures before { texts_before kept.new.items variables.new.items ≡ texts_before kept.old.items variables.old.items }
    ensures size { length kept.new.items ≡ length kept.old.items }
{
    let before = mem::replace(&mut variables[place], text);
    match kept[place] {
        Some(_) => {}
        None => kept[place] = Some(before),
    }
}

/// Makes each variable what it was at the last call.
fn put_back(variables: &mut Vec<Bytes>, kept: &mut Vec<Option<Bytes>>)
    requires { length variables.old.items ≡ length kept.old.items }
    ensures variables { variables.new.items ≡ texts_before kept.old.items variables.old.items }
    ensures size { length variables.new.items ≡ length variables.old.items }
    ensures kept { kept.new.items ≡ replicate (length kept.old.items) None }
{
    for place in 0..kept.len() {
        put_one_back(variables, kept, place);
    }
}

#[tactic(auto, using(crate::proofs::VariableTexts::none_back))]
fn put_one_back(variables: &mut Vec<Bytes>, kept: &mut Vec<Option<Bytes>>, place: usize)
    requires variable { place < length variables.old.items }
    requires kept { place < length kept.old.items }
    ensures before { texts_before kept.new.items variables.new.items ≡ texts_before kept.old.items variables.old.items }
    ensures size { length variables.new.items ≡ length variables.old.items }
    ensures kept { kept.new.items ≡ slice_set kept.old.items place None }
{
    match kept[place].take() {
        Some(text) => variables[place] = text,
        None => {}
    }
}

/// Keeps nothing: the variables are what they are at the last call.
fn keep_none(kept: &mut Vec<Option<Bytes>>)
    ensures { kept.new.items ≡ replicate (length kept.old.items) None }
{
    for text in kept.iter_mut() {
        *text = None;
    }
}

/// Whether a call that is answered so sets its variable.
fn sets_variable(status: Status) -> bool
    ensures { result ≡ spec.sets_variable status }
{
    matches!(status, Status::Blank | Status::GA | Status::GK)
}
