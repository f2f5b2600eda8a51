//! A script that runs, from call to call.
ghost use Rattle.std.specs.Prelude.{◌≡◌, ◌<◌, false, IfOk, OnSome, OnOk, OnErr, IsOk, IsSome, IfSome, None, slice_get};
ghost use Rattle.std.specs.Borrow.{Bor};
ghost use Rattle.std.specs.Option.{option_map};
ghost use Rattle.tm_types.specs.Segment.{IsSegmentText};
ghost use Rattle.model_system.specs.Script as spec;
ghost use Rattle.script_run.specs.RunningScript.{HasTexts, GivesRoom, Going, IsStanding, ScriptWaits, answered_machine, waiting_told};

use crate::script::Script;
use crate::steps::go_on;
use model_system::{Need, Program, Statement};
use std::alloc::Global;
use std::marker::Model;
use tm_types::{Bytes, Function, Memory, Status};

/// A script that runs. Contracts see where it stood when its last call was answered, how many statements
/// it may execute, and, while a call waits for its answer, where that was made and the variable that it may
/// set.
#[derive(Debug, Drop)]
pub struct Machine {
    alloc: Global,
    limit: u32,
    script: Script,
    waiting: Option<Option<u8>>,
}

impl Model for Machine {
    ghost use Rattle.script_run.specs.RunningScript.{Running, IsStanding, waiting_in};

    ghost Value = { Running };

    ghost view = { λ m. record { script = m.script.stood; limit = m.limit; waiting = waiting_in m.waiting m.script.here } };

    ghost invariant = { λ m. IsStanding m.waiting m.script };
}

impl Machine {
    /// The machine that is to run the program from its start, with at most so many statements.
    pub fn new(alloc: Global, _program: &Program, limit: u32) -> Result<Machine, Memory>
        ensures { IfOk result (λ machine. machine ≡ record { script = spec.script_start; limit = limit; waiting = None }) }
    {
        Ok(Machine {
            alloc,
            limit,
            script: Script::start(alloc)?,
            waiting: None,
        })
    }

    /// How many statements the script had executed when its last call was answered.
    pub fn executed(&self) -> u32
        ensures { result ≡ self.now.script.executed }
    {
        self.script.had_executed()
    }

    #[tactic(auto, using(crate::proofs::GoingOn::going_on_waits))]
    /// What the program needs next: a call, which is then to be answered or taken back, or its end. The area
    /// and the keys of a call are at most 1,996 printable bytes. Want of memory changes nothing.
    pub fn next(&mut self, program: &Program) -> Result<Need, Memory>
        requires { self.old.waiting ≡ None }
        ensures need { IfOk result (λ need. need ≡ spec.need_at program.now self.old.limit self.old.script) }
        ensures texts { IfOk result HasTexts }
        ensures script { self.new.script ≡ self.old.script }
        ensures waiting { OnOk result (self.new.waiting ≡ waiting_told program.now self.old.limit self.old.script) }
        ensures waits { IfOk result (λ need. ScriptWaits need self.new.waiting) }
        ensures limit { self.new.limit ≡ self.old.limit }
        ensures err { OnErr result (self.new ≡ self.old) }
    {
        self.waiting = None;
        let need = match go_on(self.alloc, self.limit, program, &mut self.script) {
            Ok(need) => need,
            Err(error) => {
                self.script.take_back();
                return Err(error);
            }
        };
        match waiting_for(program, self.script.place(), &need) {
            Some(set) => {
                self.waiting = Some(set);
                Ok(need)
            }
            None => {
                self.script.take_back();
                Ok(need)
            }
        }
    }

    /// Takes back the call that the last `next` gave: the next one gives it again. This takes no memory.
    pub fn take_back(&mut self)
        ensures { self.new ≡ record self.old { waiting = None } }
    {
        self.script.take_back();
        self.waiting = None;
    }

    /// Answers the call that the last `next` gave. Its variable becomes the area where there is one,
    /// the call brings a text, and the status is blank, GA or GK. Want of memory changes nothing;
    /// without an area, or with another status, the answer takes no memory.
    pub fn answer(&mut self, status: Status, area: Option<&[u8]>) -> Result<(), Memory>
        requires waits { IsSome self.old.waiting }
        requires text { IfSome (option_map (λ (text : Bor _). text.now) area) IsSegmentText }
        ensures ok { OnOk result (self.new ≡ answered_machine self.old (record { status = status; area = option_map (λ (text : Bor _). text.now) area.entry })) }
        ensures err { OnErr result (self.new ≡ self.old) }
        ensures no_area { area.entry ≡ None → IsOk result }
        ensures not_set { spec.sets_variable status ≡ false → IsOk result }
    {
        let Some(set) = self.waiting else {
            unreachable!()
        };
        self.script.answer(self.alloc, set, status, area)?;
        self.waiting = None;
        Ok(())
    }

    /// The same with an area that is taken over. This takes no memory.
    pub fn answer_taking(&mut self, status: Status, area: Option<Bytes>)
        requires waits { IsSome self.old.waiting }
        requires text { IfSome area IsSegmentText }
        ensures { self.new ≡ answered_machine self.old (record { status = status; area = area }) }
    {
        let Some(set) = self.waiting else {
            unreachable!()
        };
        self.script.answer_taking(set, status, area);
        self.waiting = None;
    }
}

#[tactic(auto, using(crate::proofs::GoingOn::stands_waiting))]
/// The variable that a call on the line at this place may set, where this is what the script needs.
fn waiting_for(program: &Program, place: usize, need: &Need) -> Option<Option<u8>>
    ensures value { result ≡ spec.waiting_by (slice_get program.now place) need.now }
    ensures room { (script : Going) → GivesRoom need.now script.here → OnSome result (IsStanding result script) }
{
    match (program.line(place), need) {
        (Some(line), Need::Call(_)) => Some(set_by(&line.statement)),
        _ => None,
    }
}

fn set_by(statement: &Statement) -> Option<u8>
    ensures value { result ≡ spec.set_by statement.now }
    ensures variable { IfSome result (λ x. x < 26) }
{
    match statement {
        Statement::Call(function, _, Some(x), _) if brings_text(*function) => Some(x.place()),
        _ => None,
    }
}

fn brings_text(function: Function) -> bool
    ensures { result ≡ spec.brings_text function }
{
    matches!(
        function,
        Function::GU
            | Function::GN
            | Function::GNP
            | Function::GHU
            | Function::GHN
            | Function::GHNP
            | Function::ROLB
    )
}
