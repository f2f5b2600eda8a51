//! The work on a message, from call to call.
ghost use Rattle.std.specs.Prelude.{◌≡◌, ◌≤◌, IfOk, IfErr, IfSome, OnOk, OnErr, length, replicate};
ghost use Rattle.std.specs.Option.{option_copied};
ghost use Rattle.model_messages.specs.MessageCalls.{finish_work, pad_change};
ghost use Rattle.io_pcb.specs.Pads.{IsPadText, Suits, lent_pad};
ghost use Rattle.program_rows.specs.DatabasesState.{dbds_of, IsRegionOf};
ghost use Rattle.model_system.specs.System as model;
ghost use Rattle.system_types.specs.Jobs.{lent_job};
ghost use Rattle.system_types.specs.ValidSystem.{IsServable};
ghost use Rattle.message_run.specs.RunState.{AreStanding};
ghost use Rattle.message_run.specs.WorkAhead.{given_with, IsStart, WorkGoesOn, StaysUnlessCalled, StayOthers};
ghost use Rattle.message_run.specs.MessageChanges.{TellsOn, IsQuietUnlessCalled, IsUntoldOn};

use crate::progress::Progress;
use io_pcb::LentPad;
use log_records::Untold;
use model_messages::EndedMessage;
use program_rows::{Databases, Telling};
use std::alloc::Global;
use std::collections::VecDeque;
use std::marker::Model;
use system_types::{Job, System};
use tm_types::{AbendCode, Function, Memory, Message, Resource, Status};

/// How the work on a message ends.
#[derive(Clone, Copy, Debug)]
pub enum Ending {
    /// The script has ended.
    End,
    /// The script asks for a further message.
    Sync,
    /// The script ends abnormally.
    Abend(AbendCode),
}

/// What a script did in its region's turn.
#[derive(Clone, Copy, Debug)]
pub enum Advanced {
    /// It made this call on this PCB, and was answered with this status.
    Called(Function, u8, Status),
    /// The work has ended.
    Ended(Ending),
    /// A resource that its next call needs is blocked by this region; the call wasn't made, and the
    /// region waits.
    Waits(Resource, u32),
}

/// The work of a region on one message, between two turns. What it changes in the databases is in
/// them.
#[derive(Debug, Drop)]
pub struct Run {
    progress: Progress,
}

impl Model for Run {
    ghost use Rattle.message_run.specs.RunState.{RunState, IsBetweenTurns};

    ghost Value = { RunState };

    ghost view = { λ u. u.progress };

    ghost invariant = { λ u. IsBetweenTurns u.progress };
}

impl Run {
    /// The work on this message of the job's code, whose script has made no call yet. The pad is that of
    /// the conversation to which the message belongs, and is there where it belongs to one.
    pub fn start(
        alloc: Global,
        job: &Job<'_>,
        message: &Message,
        pad: Option<&[u8]>,
    ) -> Result<Run, Memory>
        requires { IfSome (option_copied pad) IsPadText }
        ensures { IfOk result (λ run. (system : model.System) → IsStart (lent_job system job.now) (given_with message.now (option_copied pad.entry)) run) }
    {
        Ok(Run {
            progress: Progress::start(alloc, job, message, pad)?,
        })
    }

    /// Lets the script go on to its next call, and answers that; or tells that the work has ended, or that
    /// what the call needs is blocked. Then the call isn't made, and the next turn comes to it again.
    /// An Err changes nothing.
    ///
    /// What the call changes in the databases is told of by the unit's number in the log; where that is longer than `room`, the
    /// answer is `Full`.
    pub fn advance(
        &mut self,
        system: &System,
        job: &Job<'_>,
        region: u32,
        databases: &mut Databases,
        telling: &mut Telling,
    ) -> Result<Advanced, Untold>
        requires region { IsRegionOf databases.old region }
        requires servable { IsServable system.now.databases job.now.pcbs.now job.now.program.now }
        requires databases { dbds_of databases.old ≡ system.now.databases }
        requires standing { AreStanding system.now.databases job.now.pcbs.now self.old.positions }
        ensures advances { IfOk result (WorkGoesOn (lent_job system.now job.now) region databases.old databases.new self.old self.new) }
        ensures stays { IfOk result (StaysUnlessCalled databases.old databases.new) }
        ensures others { StayOthers region databases.old databases.new }
        ensures unchanged { OnErr result (self.new ≡ self.old) }
        ensures kept { OnErr result (databases.new ≡ databases.old) }
        ensures tells { OnOk result (TellsOn telling.old.unit telling.old.room (lent_job system.now job.now) region databases.old databases.new self.old telling.old.told.items telling.new.told.items) }
        ensures quiet { IfOk result (IsQuietUnlessCalled telling.old.told.items telling.new.told.items) }
        ensures untold { OnErr result (telling.new.told.items ≡ telling.old.told.items) }
        ensures place { telling.new ≡ record telling.old { told = telling.new.told } }
        ensures full { IfErr result (IsUntoldOn telling.old.unit telling.old.room (lent_job system.now job.now) region databases.old self.old) }
    {
        self.progress
            .advance(system, job, region, databases, telling)
    }

    /// A copy of the messages that are sent where the work ends with success, in that order.
    pub fn outputs(&self) -> Result<VecDeque<EndedMessage>, Memory>
        ensures { IfOk result (λ outputs. outputs.items ≡ (finish_work self.now.work).ended) }
    {
        self.progress.outputs()
    }

    /// What becomes of the pad of the message's conversation where the work ends with success.
    pub fn pad_change(&self) -> LentPad<'_>
        ensures value { lent_pad result ≡ pad_change self.now.work }
        ensures suits { Suits self.now.work.conversation (pad_change self.now.work) }
    {
        self.progress.pad_change()
    }
}
