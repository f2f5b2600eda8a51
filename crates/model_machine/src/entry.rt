//! The calls of a control region, and what they are answered.

use crate::counts::Counter;
use crate::{Answer, Command};
use model_data::Victims;
use thiserror::Error;
use tm_types::{AbendCode, Function, Name, Resource, Segments, Status};

/// A call of a control region.
#[derive(Debug, Drop)]
pub enum ControlCall {
    /// Take this input of this terminal under this number.
    Input(Name, u64, Segments),
    /// Show the terminal's first reply.
    Receive(Name),
    /// The terminal has seen its reply of this number.
    Acknowledge(Name, u64),
    /// Let the region of this number do its next step.
    Turn(u32),
    /// Do what an operator commands. The forms of `/CHECKPOINT` and those that open a system aren't among these calls.
    Command(Command),
    /// Take a checkpoint, and with the flag end the life with it.
    Checkpoint(bool),
    /// Tell whether nothing is left to do.
    AskQuiet,
}

/// Why a call could not be done.
#[derive(Clone, Copy, Debug, Error)]
pub enum ControlFault {
    /// No memory was left; nothing changed.
    #[error("no memory")]
    Memory,
    /// The disk failed in the call, and its count of faults rose.
    #[error("the disk failed")]
    Disk,
    /// A counter stands at 1,000,000,000,000,000,000 or above; nothing changed.
    #[error("a counter is spent")]
    Spent(Counter),
}

/// An input that was taken.
#[derive(Clone, Copy, Debug)]
pub enum Taken {
    /// It is kept as the message of this id.
    New(u64),
    /// An input of this number was accepted before; nothing changed.
    Already,
}

/// Why an input was not taken. Nothing changed.
#[derive(Clone, Copy, Debug, Error)]
pub enum InputRefused {
    #[error("no terminal has this name")]
    Terminal,
    #[error("the terminal is stopped")]
    StoppedTerminal,
    #[error("the number {0} was expected")]
    Expected(u64),
    #[error("message {0} of the terminal's conversation isn't done")]
    Conversation(u64),
    #[error("the first word is no transaction code")]
    Code,
    #[error("the code {0:?} is stopped")]
    StoppedCode(Name),
    #[error("the input has {0} segments, and its code takes at most {1}")]
    SegmentsOver(u32, u32),
    #[error("{0} bytes are needed, and {1} may be used")]
    QueueFull(u64, u64),
    #[error("{0}")]
    Fault(ControlFault),
}

/// The answer to a request to see a reply.
#[derive(Clone, Copy, Debug)]
pub enum ShowAnswer {
    /// The reply of this number.
    Reply(u64),
    /// No reply is kept.
    Empty,
    /// The terminal is stopped.
    Stopped,
    /// No terminal has this name.
    Unknown,
}

/// An acknowledgement that was taken.
#[derive(Clone, Copy, Debug)]
pub enum Acked {
    /// The reply is no longer kept.
    Removed,
    /// It was acknowledged before; nothing changed.
    Already,
}

/// Why an acknowledgement was not taken. Nothing changed.
#[derive(Clone, Copy, Debug, Error)]
pub enum AckRefused {
    #[error("no terminal has this name")]
    Unknown,
    #[error("the reply {0} is to be acknowledged first")]
    Ahead(u64),
    #[error("{0}")]
    Fault(ControlFault),
}

/// What a region did in its turn.
#[derive(Clone, Copy, Debug)]
pub enum Turned {
    /// It was empty, and took the message of this code and id.
    Scheduled(Name, u64),
    /// Its script made this call on this PCB, and was answered with this status.
    Called(Function, u8, Status),
    /// It completed the message of this code and id at a further GU, and goes on with the message of
    /// the other id.
    Next(Name, u64, u64),
    /// It completed the message at a further GU, for which there was no message.
    QC(Name, u64),
    /// It completed the message at the end of its script.
    Done(Name, u64),
    /// The script ended abnormally on the message of this code and id.
    Abended(Name, u64, AbendCode),
    /// It was empty, and there was no message that it could take.
    Idle,
    /// It was empty and could take a message, but the queues would need so many bytes, and have so
    /// many.
    Held(u64, u64),
    /// Its script's call needs this resource, which this region blocks; the call wasn't made, and the
    /// region waits.
    Waits(Resource, u32),
    /// Its script's call needs a resource that is blocked, and waiting for it closed rings of regions.
    /// These gave all back, each for a ring; no ring is left.
    Backed(Victims),
}

/// Why a command was not done. Nothing changed.
#[derive(Clone, Copy, Debug, Error)]
pub enum CommandRefused {
    #[error("no code or terminal has the name {0:?}")]
    UnknownName(Name),
    #[error("message {0} of the conversation isn't done")]
    Busy(u64),
    #[error("the terminal has no conversation")]
    NoConversation,
    #[error("{0}")]
    Fault(ControlFault),
}

/// Why a checkpoint was not taken. Nothing changed.
#[derive(Clone, Copy, Debug, Error)]
pub enum CheckpointRefused {
    #[error("region {0} works on message {1}")]
    BusyRegion(u32, u64),
    #[error("{0}")]
    Fault(ControlFault),
}

/// A call of the control region with its answer, or with a fault in the answer's place.
#[derive(Debug, Drop)]
pub enum Entry {
    /// An input of a terminal under a number.
    Accept(Name, u64, Segments, Result<Taken, InputRefused>),
    /// A terminal asked for its first reply.
    Show(Name, ShowAnswer),
    /// A terminal acknowledged the reply of a number.
    Acked(Name, u64, Result<Acked, AckRefused>),
    /// A region had its turn.
    Turn(u32, Result<Turned, ControlFault>),
    /// An operator gave a command.
    Commanded(Command, Result<Answer, CommandRefused>),
    /// A checkpoint was asked for, with the flag one behind which the life ends. It got this number.
    Checked(bool, Result<u64, CheckpointRefused>),
    /// It was asked whether nothing is left to do.
    Quiet(bool),
}
