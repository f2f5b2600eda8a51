//! How far the work on a message has come.
ghost use Rattle.std.specs.Prelude.{◌≡◌, ◌≤◌, IfOk, IfErr, IfSome, OnOk, OnErr, length, replicate};
ghost use Rattle.std.specs.Option.{option_copied};
ghost use Rattle.model_data.specs.Data.{nowhere};
ghost use Rattle.model_machine.specs.Trial.{is_sync};
ghost use Rattle.model_messages.specs.MessageCalls.{finish_work, pad_change};
ghost use Rattle.io_pcb.specs.Pads.{IsPadText, Suits, lent_pad};
ghost use Rattle.program_rows.specs.DatabasesState.{dbds_of, IsRegionOf};
ghost use Rattle.model_system.specs.System as model;
ghost use Rattle.system_types.specs.Jobs.{lent_job};
ghost use Rattle.system_types.specs.ValidSystem.{IsServable};
ghost use Rattle.message_run.specs.RunState.{AreStanding, IsBetweenTurns};
ghost use Rattle.message_run.specs.WorkAhead.{given_with, IsStart, WorkGoesOn, StaysUnlessCalled, StayOthers};
ghost use Rattle.message_run.specs.MessageChanges.{TellsOn, IsQuietUnlessCalled, IsUntoldOn};

use crate::answer::CallEnd;
use crate::run::{Advanced, Ending};
use io_pcb::{LentPad, Work};
use log_records::Untold;
use model_messages::EndedMessage;
use model_system::{CallText, Need};
use program_rows::{Databases, Position, Telling};
use script_run::Machine;
use std::alloc::Global;
use std::collections::VecDeque;
use std::marker::Model;
use system_types::{Job, System};
use tm_types::{Function, Memory, Message};

/// How far the work of a region on one message has come.
#[derive(Debug, Drop)]
pub struct Progress {
    /// How many calls the script has made.
    pub(crate) calls: u64,
    pub(crate) machine: Machine,
    /// How far the message and the output have come.
    pub(crate) work: Work,
    /// Where each PCB of the program stands in its database.
    pub(crate) positions: Vec<Position>,
}

impl Model for Progress {
    ghost use Rattle.message_run.specs.RunState.{RunState};

    ghost Value = { RunState };

    ghost view = { λ u. record { calls = u.calls; machine = u.machine; work = u.work; positions = u.positions.items } };
}

impl Progress {
    /// The work on this message of the job's code, whose script has made no call yet. The pad is that of
    /// the conversation to which the message belongs, and is there where it belongs to one.
    pub fn start(
        alloc: Global,
        job: &Job<'_>,
        message: &Message,
        pad: Option<&[u8]>,
    ) -> Result<Progress, Memory>
        requires { IfSome (option_copied pad) IsPadText }
        ensures start { IfOk result (λ run. (system : model.System) → IsStart (lent_job system job.now) (given_with message.now (option_copied pad.entry)) run) }
        ensures rests { IfOk result IsBetweenTurns }
    {
        let limit = u32::from(job.transaction.statement_limit);
        let machine = Machine::new(alloc, job.program, limit)?;
        let work = Work::served_by(alloc, job.transaction, message, pad, job.pcbs)?;
        let positions = standing_nowhere(alloc, job.pcbs.len())?;
        Ok(Progress {
            calls: 0,
            machine,
            work,
            positions,
        })
    }

    /// Lets the script go on to its next call, and answers that; or tells that the work has ended, or that
    /// what the call needs is blocked. Then the call isn't made, and the next turn comes to it again.
    /// A call that isn't answered is taken back, and an Err changes nothing.
    ///
    /// What the call changes in the databases is told of by the unit's number in the log; where that is longer than `room`, the
    /// answer is `Full`.
    pub fn advance(
        &mut self,
        system: &System,
        job: &Job<'_>,
        region: u32,
        databases: &mut Databases,
        telling: &mut Telling,
    ) -> Result<Advanced, Untold>
        requires region { IsRegionOf databases.old region }
        requires servable { IsServable system.now.databases job.now.pcbs.now job.now.program.now }
        requires databases { dbds_of databases.old ≡ system.now.databases }
        requires standing { AreStanding system.now.databases job.now.pcbs.now self.old.positions }
        requires rests { IsBetweenTurns self.old }
        ensures advances { IfOk result (WorkGoesOn (lent_job system.now job.now) region databases.old databases.new self.old self.new) }
        ensures stays { IfOk result (StaysUnlessCalled databases.old databases.new) }
        ensures others { StayOthers region databases.old databases.new }
        ensures rests { IsBetweenTurns self.new }
        ensures unchanged { OnErr result (self.new ≡ self.old) }
        ensures kept { OnErr result (databases.new ≡ databases.old) }
        ensures tells { OnOk result (TellsOn telling.old.unit telling.old.room (lent_job system.now job.now) region databases.old databases.new self.old telling.old.told.items telling.new.told.items) }
        ensures quiet { IfOk result (IsQuietUnlessCalled telling.old.told.items telling.new.told.items) }
        ensures untold { OnErr result (telling.new.told.items ≡ telling.old.told.items) }
        ensures place { telling.new ≡ record telling.old { told = telling.new.told } }
        ensures full { IfErr result (IsUntoldOn telling.old.unit telling.old.room (lent_job system.now job.now) region databases.old self.old) }
    {
        let _executed = self.machine.executed();
        let need = match self.machine.next(job.program) {
            Ok(need) => need,
            Err(_) => return Err(Untold::Memory),
        };
        match need {
            Need::Ended => Ok(Advanced::Ended(Ending::End)),
            Need::Abend(abend) => Ok(Advanced::Ended(Ending::Abend(abend))),
            Need::Call(call) => {
                if self.is_sync(&call) {
                    self.machine.take_back();
                    return Ok(Advanced::Ended(Ending::Sync));
                }
                let (function, pcb) = (call.function, call.pcb);
                match self.answer(system, job.pcbs, region, databases, call, telling) {
                    Ok(CallEnd::Answered(status)) => {
                        self.calls += 1;
                        Ok(Advanced::Called(function, pcb, status))
                    }
                    Ok(CallEnd::Waits(resource, by)) => {
                        self.machine.take_back();
                        Ok(Advanced::Waits(resource, by))
                    }
                    Ok(CallEnd::Abended(abend)) => {
                        self.machine.take_back();
                        Ok(Advanced::Ended(Ending::Abend(abend)))
                    }
                    Err(error) => {
                        self.machine.take_back();
                        Err(error)
                    }
                }
            }
        }
    }

    /// Whether the call asks for a further message.
    fn is_sync(&self, call: &CallText) -> bool
        ensures { result ≡ is_sync self.now.work call.now }
    {
        self.work.has_begun() && call.pcb == 0 && call.function == Function::GU
    }

    /// A copy of the messages that are sent where the work ends with success, in that order.
    pub fn outputs(&self) -> Result<VecDeque<EndedMessage>, Memory>
        ensures { IfOk result (λ outputs. outputs.items ≡ (finish_work self.now.work).ended) }
    {
        self.work.outputs()
    }

    /// What becomes of the pad of the message's conversation where the work ends with success.
    pub fn pad_change(&self) -> LentPad<'_>
        ensures value { lent_pad result ≡ pad_change self.now.work }
        ensures suits { Suits self.now.work.conversation (pad_change self.now.work) }
    {
        self.work.pad_change()
    }
}

fn standing_nowhere(alloc: Global, pcbs: usize) -> Result<Vec<Position>, Memory>
    ensures { IfOk result (λ positions. positions.items ≡ replicate pcbs nowhere) }
{
    let mut positions = Vec::new(alloc);
    for _pcb in 0..pcbs {
        positions.push(Position::new())?;
    }
    Ok(positions)
}
